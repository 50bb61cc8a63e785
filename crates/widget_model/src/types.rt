// Which widget of a new tree may take the place of one of the old tree (`Widget.canUpdate`).
ghost use Rattle.std.specs.Prelude.{◌≡◌, ◌↔◌, IsTrue};
ghost use Rattle.widget_model.specs.Plain.{look_of};
ghost use Rattle.widget_model.specs.View.{plain_of, look_in};
ghost use Rattle.widget_model.specs.WidgetType.{type_of, type_eq};
ghost use Rattle.widget_model.specs.Update.{key_eq, same_type, updates, IsSameType, CanUpdate};

use crate::widgets::{Kind, Widget};
use fx_expr::Value;
use widget_keys::Key;

/// The type of a widget: its kind, of a use the component too, and of an Inherit the name too (`runtimeType`).
#[derive(Clone, Copy, PartialEq, Eq)]
pub(crate) enum WidgetType {
    SizedBox,
    ConstrainedBox,
    Padding,
    Align,
    ColoredBox,
    Text,
    Row,
    Column,
    Wrap,
    Table,
    Stack,
    Flexible,
    Positioned,
    Opacity,
    ClipRect,
    RepaintBoundary,
    MergeSemantics,
    IntrinsicWidth,
    IntrinsicHeight,
    Offstage,
    IgnorePointer,
    AbsorbPointer,
    Detector,
    Semantics,
    ExcludeSemantics,
    CustomPaint,
    CustomLayout,
    Viewport,
    SliverToBox,
    SliverPadding,
    SliverFixed,
    SliverLazy,
    Keep,
    Inherit(u32),
    Use(u32),
}

/// Whether two widgets are of one type.
pub fn same_type(a: &Widget, b: &Widget) -> bool
    ensures test { result ≡ same_type (plain_of a.now) (plain_of b.now) }
    ensures meaning { IsTrue result ↔ IsSameType (plain_of a.now) (plain_of b.now) }
{
    kind_type(&a.kind) == kind_type(&b.kind)
}

/// Whether one widget may take the place of the other in the tree: they are of one type, and their keys are equal or
/// both absent.
pub fn can_update(a: &Widget, b: &Widget) -> bool
    ensures test { result ≡ updates (plain_of a.now) (plain_of b.now) }
    ensures meaning { IsTrue result ↔ CanUpdate (plain_of a.now) (plain_of b.now) }
{
    same_type(a, b) && same_key(&a.key, &b.key)
}

// Whether two keys are equal.
pub(crate) fn same_key(a: &Key<Value>, b: &Key<Value>) -> bool
    ensures test { result ≡ key_eq a.now b.now }
    ensures meaning { IsTrue result ↔ (a.now ≡ b.now) }
{
    match (a, b) {
        (Key::None, Key::None) => true,
        (Key::Local(v), Key::Local(w)) => v == w,
        (Key::Global(v), Key::Global(w)) => v == w,
        _ => false,
    }
}

// The type of a widget of this kind.
fn kind_type(kind: &Kind) -> WidgetType
    ensures { result ≡ type_of (look_in kind.now) }
{
    match kind {
        Kind::SizedBox { .. } => WidgetType::SizedBox,
        Kind::ConstrainedBox { .. } => WidgetType::ConstrainedBox,
        Kind::Padding { .. } => WidgetType::Padding,
        Kind::Align { .. } => WidgetType::Align,
        Kind::ColoredBox { .. } => WidgetType::ColoredBox,
        Kind::Text { .. } => WidgetType::Text,
        Kind::Row { .. } => WidgetType::Row,
        Kind::Column { .. } => WidgetType::Column,
        Kind::Wrap { .. } => WidgetType::Wrap,
        Kind::Table { .. } => WidgetType::Table,
        Kind::Stack { .. } => WidgetType::Stack,
        Kind::Flexible { .. } => WidgetType::Flexible,
        Kind::Positioned { .. } => WidgetType::Positioned,
        Kind::Opacity { .. } => WidgetType::Opacity,
        Kind::ClipRect => WidgetType::ClipRect,
        Kind::RepaintBoundary => WidgetType::RepaintBoundary,
        Kind::MergeSemantics => WidgetType::MergeSemantics,
        Kind::IntrinsicWidth => WidgetType::IntrinsicWidth,
        Kind::IntrinsicHeight => WidgetType::IntrinsicHeight,
        Kind::Offstage { .. } => WidgetType::Offstage,
        Kind::IgnorePointer { .. } => WidgetType::IgnorePointer,
        Kind::AbsorbPointer { .. } => WidgetType::AbsorbPointer,
        Kind::Detector { .. } => WidgetType::Detector,
        Kind::Semantics { .. } => WidgetType::Semantics,
        Kind::ExcludeSemantics { .. } => WidgetType::ExcludeSemantics,
        Kind::CustomPaint { .. } => WidgetType::CustomPaint,
        Kind::CustomLayout { .. } => WidgetType::CustomLayout,
        Kind::Viewport { .. } => WidgetType::Viewport,
        Kind::SliverToBox => WidgetType::SliverToBox,
        Kind::SliverPadding { .. } => WidgetType::SliverPadding,
        Kind::SliverFixed { .. } => WidgetType::SliverFixed,
        Kind::SliverLazy { .. } => WidgetType::SliverLazy,
        Kind::Keep { .. } => WidgetType::Keep,
        Kind::Inherit { name, .. } => WidgetType::Inherit(*name),
        Kind::Use { component, .. } => WidgetType::Use(*component),
    }
}
