// What a node is to painting.
ghost use Rattle.std.specs.Prelude.{◌≡◌, if◌then◌else◌};
ghost use Rattle.widget_model.specs.View.{look_in};
ghost use Rattle.plain_tree.specs.Shown.{is_unseen};
ghost use Rattle.screen_form.specs.declared.paint_role.PaintRole.TheVariants.{Hides, Passes};
ghost use Rattle.screen_form.specs.PaintRole.{faded, clipped, paint_role};
ghost use Rattle.kind_paint.specs.PointBelow.{point_below};

use fx_geom::{Offset, Rect};
use layer_tree::LayerKind;
use plain_tree::Frame;
use screen_form::PaintRole;
use widget_model::Kind;

// What an Opacity of an alpha that isn't 0 is, with a child or without one.
fn faded(alpha: u8, has_child: bool, at: Offset) -> PaintRole
    ensures { result ≡ faded alpha has_child at }
{
    if !has_child || alpha == u8::MAX {
        return PaintRole::Passes;
    }
    PaintRole::Layers(LayerKind::Opacity(at, alpha))
}

// What a box does that clips to its rectangle.
fn clipped(frame: Frame, at: Offset) -> PaintRole
    ensures { result ≡ clipped frame at }
{
    PaintRole::Layers(LayerKind::Clip(Rect {
        at,
        size: frame.box_size(),
    }))
}

// What a sliver is: it hides what is below it where nothing of it is seen.
fn unless_unseen(frame: Frame) -> PaintRole
    ensures { result ≡ (if is_unseen frame then Hides else Passes) }
{
    if frame.is_unseen() {
        PaintRole::Hides
    } else {
        PaintRole::Passes
    }
}

/// What a node of a kind is to painting, in the frame of its layout, with or without a child, where it stands at `at`, in u.
pub fn paint_role(kind: &Kind, frame: Frame, has_child: bool, at: Offset) -> PaintRole
    ensures { result ≡ paint_role (look_in kind.now) frame has_child at }
{
    match kind {
        Kind::Opacity { alpha: 0 } | Kind::Offstage { offstage: true } => PaintRole::Hides,
        Kind::Opacity { alpha } => faded(*alpha, has_child, at),
        Kind::ClipRect if has_child => clipped(frame, at),
        Kind::ClipRect => PaintRole::Passes,
        Kind::RepaintBoundary => PaintRole::Layers(LayerKind::Offset(at)),
        Kind::Viewport { .. } => clipped(frame, at),
        Kind::SliverToBox
        | Kind::SliverPadding { .. }
        | Kind::SliverFixed { .. }
        | Kind::SliverLazy { .. } => unless_unseen(frame),
        Kind::Offstage { offstage: false }
        | Kind::SizedBox { .. }
        | Kind::ConstrainedBox { .. }
        | Kind::Padding { .. }
        | Kind::Align { .. }
        | Kind::ColoredBox { .. }
        | Kind::Text { .. }
        | Kind::Row { .. }
        | Kind::Column { .. }
        | Kind::Wrap { .. }
        | Kind::Table { .. }
        | Kind::Stack { .. }
        | Kind::Flexible { .. }
        | Kind::Positioned { .. }
        | Kind::MergeSemantics
        | Kind::IntrinsicWidth
        | Kind::IntrinsicHeight
        | Kind::IgnorePointer { .. }
        | Kind::AbsorbPointer { .. }
        | Kind::Detector { .. }
        | Kind::Semantics { .. }
        | Kind::ExcludeSemantics { .. }
        | Kind::CustomPaint { .. }
        | Kind::CustomLayout { .. }
        | Kind::Keep { .. }
        | Kind::Inherit { .. }
        | Kind::Use { .. } => PaintRole::Passes,
    }
}

/// Where what is below a node at a point is painted from.
pub fn point_below(role: PaintRole, at: Offset) -> Offset
    ensures { result ≡ point_below role at }
{
    match role {
        PaintRole::Layers(LayerKind::Offset(_)) | PaintRole::Layers(LayerKind::Opacity(..)) => {
            Offset::ZERO
        }
        PaintRole::Layers(LayerKind::Clip(_)) | PaintRole::Passes | PaintRole::Hides => at,
    }
}
