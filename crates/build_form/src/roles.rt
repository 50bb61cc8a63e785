// What a kind is to a build.
ghost use Rattle.std.specs.Prelude.{◌≡◌};
ghost use Rattle.widget_model.specs.View.{look_in, slots_in};
ghost use Rattle.build_form.specs.RoleView.{plain_role, slots_in_role};
ghost use Rattle.build_form.specs.BuildRole.{build_role_of, is_lazy};

use fx_expr::{Value, ValueList};
use widget_model::{Kind, WidgetList};

/// What a kind is to a build.
#[derive(Clone, Copy)]
pub enum BuildRole<'a> {
    /// A component, by its place in the program's list, with its props and the contents of its slots.
    Composes {
        component: u32,
        props: &'a ValueList,
        slots: &'a WidgetList,
    },
    /// An Inherit: it gives a value to a name.
    Provides {
        name: u32,
        value: &'a Value,
    },
    /// A Keep, and whether it keeps its child.
    Keeps(bool),
    /// A SliverLazy, with the extent of each child.
    Lists(u64),
    /// Any other kind.
    Holds,
}

impl BuildRole<'_> {
    /// Whether it is a lazy list.
    pub fn is_lazy(self) -> bool
        ensures { result ≡ is_lazy (plain_role self.entry) }
    {
        match self {
            BuildRole::Lists(_) => true,
            BuildRole::Composes { .. }
            | BuildRole::Provides { .. }
            | BuildRole::Keeps(_)
            | BuildRole::Holds => false,
        }
    }
}

/// What the kind is to a build.
pub fn build_role_of(kind: &Kind) -> BuildRole<'_>
    ensures part { plain_role result ≡ build_role_of (look_in kind.now) }
    ensures slots { slots_in_role result ≡ slots_in kind.now }
{
    match kind {
        Kind::Use {
            component,
            props,
            slots,
            ..
        } => BuildRole::Composes {
            component: *component,
            props,
            slots,
        },
        Kind::Inherit { name, value } => BuildRole::Provides { name: *name, value },
        Kind::Keep { keep } => BuildRole::Keeps(*keep),
        Kind::SliverLazy { extent } => BuildRole::Lists(*extent),
        Kind::SizedBox { .. }
        | Kind::ConstrainedBox { .. }
        | Kind::Padding { .. }
        | Kind::Align { .. }
        | Kind::ColoredBox { .. }
        | Kind::Text { .. }
        | Kind::Row { .. }
        | Kind::Column { .. }
        | Kind::Wrap { .. }
        | Kind::Table { .. }
        | Kind::Stack { .. }
        | Kind::Flexible { .. }
        | Kind::Positioned { .. }
        | Kind::Opacity { .. }
        | Kind::ClipRect
        | Kind::RepaintBoundary
        | Kind::MergeSemantics
        | Kind::IntrinsicWidth
        | Kind::IntrinsicHeight
        | Kind::Offstage { .. }
        | Kind::IgnorePointer { .. }
        | Kind::AbsorbPointer { .. }
        | Kind::Detector { .. }
        | Kind::Semantics { .. }
        | Kind::ExcludeSemantics { .. }
        | Kind::CustomPaint { .. }
        | Kind::CustomLayout { .. }
        | Kind::Viewport { .. }
        | Kind::SliverToBox
        | Kind::SliverPadding { .. }
        | Kind::SliverFixed { .. } => BuildRole::Holds,
    }
}
