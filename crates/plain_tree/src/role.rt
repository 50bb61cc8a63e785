// What a widget's kind is to the tree that is laid out.
ghost use Rattle.std.specs.Prelude.{◌≡◌};
ghost use Rattle.plain_tree.specs.RenderRole.{render_role_of, vanishes, is_window};
ghost use Rattle.widget_model.specs.View.{look_in};

use fx_geom::Placed;
use widget_model::{FlexFit, Kind};

/// What a kind is to the tree that is laid out: a kind without a render node of its own, which may tell something to the
/// one above, or one with a render node, to which something may be told.
#[derive(Clone, Copy)]
pub enum RenderRole {
    /// No render node: a component, an Inherit, a Keep.
    Composes,
    /// No render node: a Flexible, with its share and whether it fills it.
    Shares { flex: u64, tight: bool },
    /// No render node: a Positioned, with the place that it gives.
    Places(Placed),
    /// A Row or Column, to which shares are told.
    Line,
    /// A Stack, to which places are told.
    Pile,
    /// A SliverLazy, whose items are known by their index.
    Lazy,
    /// A Viewport, which can be scrolled.
    Window,
    /// Any other kind with a render node.
    Plain,
}

impl RenderRole {
    // Whether a kind of this role has no render node.
    pub(crate) fn vanishes(self) -> bool
        ensures { result ≡ vanishes self }
    {
        match self {
            RenderRole::Composes | RenderRole::Shares { .. } | RenderRole::Places(_) => true,
            RenderRole::Line
            | RenderRole::Pile
            | RenderRole::Lazy
            | RenderRole::Window
            | RenderRole::Plain => false,
        }
    }

    // Whether a kind of this role can be scrolled.
    pub(crate) fn is_window(self) -> bool
        ensures { result ≡ is_window self }
    {
        match self {
            RenderRole::Window => true,
            RenderRole::Composes
            | RenderRole::Shares { .. }
            | RenderRole::Places(_)
            | RenderRole::Line
            | RenderRole::Pile
            | RenderRole::Lazy
            | RenderRole::Plain => false,
        }
    }
}

// The role of a kind.
pub(crate) fn render_role_of(kind: &Kind) -> RenderRole
    ensures { result ≡ render_role_of (look_in kind.now) }
{
    match kind {
        Kind::Flexible { flex, fit } => RenderRole::Shares {
            flex: *flex,
            tight: *fit == FlexFit::Tight,
        },
        Kind::Positioned {
            left,
            top,
            right,
            bottom,
            width,
            height,
        } => RenderRole::Places(Placed {
            left: *left,
            top: *top,
            right: *right,
            bottom: *bottom,
            width: *width,
            height: *height,
        }),
        Kind::Row { .. } | Kind::Column { .. } => RenderRole::Line,
        Kind::Stack { .. } => RenderRole::Pile,
        Kind::SliverLazy { .. } => RenderRole::Lazy,
        Kind::Viewport { .. } => RenderRole::Window,
        Kind::Keep { .. } | Kind::Inherit { .. } | Kind::Use { .. } => RenderRole::Composes,
        Kind::SizedBox { .. }
        | Kind::ConstrainedBox { .. }
        | Kind::Padding { .. }
        | Kind::Align { .. }
        | Kind::ColoredBox { .. }
        | Kind::Text { .. }
        | Kind::Wrap { .. }
        | Kind::Table { .. }
        | Kind::Opacity { .. }
        | Kind::ClipRect
        | Kind::RepaintBoundary
        | Kind::MergeSemantics
        | Kind::IntrinsicWidth
        | Kind::IntrinsicHeight
        | Kind::Offstage { .. }
        | Kind::IgnorePointer { .. }
        | Kind::AbsorbPointer { .. }
        | Kind::Detector { .. }
        | Kind::Semantics { .. }
        | Kind::ExcludeSemantics { .. }
        | Kind::CustomPaint { .. }
        | Kind::CustomLayout { .. }
        | Kind::SliverToBox
        | Kind::SliverPadding { .. }
        | Kind::SliverFixed { .. } => RenderRole::Plain,
    }
}
