// The role of an element's kind in the tree that is laid out.
ghost use Rattle.std.specs.Prelude.{◌≡◌};
ghost use Rattle.plain_tree.specs.RenderRole.{render_role_of};
ghost use Rattle.widget_model.specs.View.{look_in};

use fx_geom::Placed;
use plain_tree::RenderRole;
use widget_model::{FlexFit, Kind};

// The role of a Positioned.
fn places(
    left: &Option<i64>,
    top: &Option<i64>,
    right: &Option<i64>,
    bottom: &Option<i64>,
    width: &Option<u64>,
    height: &Option<u64>,
) -> RenderRole
    ensures { result ≡ RenderRole.Places (record { left = left.now; top = top.now; right = right.now; bottom = bottom.now; width = width.now; height = height.now }) }
{
    RenderRole::Places(Placed {
        left: *left,
        top: *top,
        right: *right,
        bottom: *bottom,
        width: *width,
        height: *height,
    })
}

/// The role of a kind.
pub fn render_role_of(kind: &Kind) -> RenderRole
    ensures { result ≡ render_role_of (look_in kind.now) }
{
    match kind {
        Kind::Flexible { flex, fit } => RenderRole::Shares {
            flex: *flex,
            tight: *fit == FlexFit::Tight,
        },
        Kind::Positioned {
            left,
            top,
            right,
            bottom,
            width,
            height,
        } => places(left, top, right, bottom, width, height),
        Kind::Row { .. } | Kind::Column { .. } => RenderRole::Line,
        Kind::Stack { .. } => RenderRole::Pile,
        Kind::SliverLazy { .. } => RenderRole::Lazy,
        Kind::Viewport { .. } => RenderRole::Window,
        Kind::Keep { .. } | Kind::Inherit { .. } | Kind::Use { .. } => RenderRole::Composes,
        _ => RenderRole::Plain,
    }
}
