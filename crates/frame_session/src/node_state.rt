// What state a node of the tree has.
ghost use Rattle.std.specs.Prelude.{◌≡◌, ℕ};
ghost use Rattle.plain_tree.specs.States.{state_of};
ghost use Rattle.widget_model.specs.View.{look_in};
ghost use Rattle.frame_session.specs.NodeState.{states_as};

use fx_expr::Value;
use widget_model::{Decl, Kind};

// None; the fields that a component declares; or the offset of a Viewport.
pub(crate) enum NodeState<'a> {
    Nothing,
    Fields(&'a Decl),
    Offset,
}

// What state a node of a kind has, with these values of its fields: a component has one where it has fields.
pub(crate) fn node_state<'a>(kind: &'a Kind, fields: &[Value]) -> NodeState<'a>
    ensures { (number scroll : ℕ) → states_as result number fields.now scroll ≡ state_of (look_in kind.now) number fields.now scroll }
{
    match kind {
        Kind::Use { decl, .. } => {
            if fields.is_empty() {
                return NodeState::Nothing;
            }
            NodeState::Fields(decl)
        }
        Kind::Viewport { .. } => NodeState::Offset,
        Kind::SizedBox { .. }
        | Kind::ConstrainedBox { .. }
        | Kind::Padding { .. }
        | Kind::Align { .. }
        | Kind::ColoredBox { .. }
        | Kind::Text { .. }
        | Kind::Row { .. }
        | Kind::Column { .. }
        | Kind::Wrap { .. }
        | Kind::Table { .. }
        | Kind::Stack { .. }
        | Kind::Flexible { .. }
        | Kind::Positioned { .. }
        | Kind::Opacity { .. }
        | Kind::ClipRect
        | Kind::RepaintBoundary
        | Kind::MergeSemantics
        | Kind::IntrinsicWidth
        | Kind::IntrinsicHeight
        | Kind::Offstage { .. }
        | Kind::IgnorePointer { .. }
        | Kind::AbsorbPointer { .. }
        | Kind::Detector { .. }
        | Kind::Semantics { .. }
        | Kind::ExcludeSemantics { .. }
        | Kind::CustomPaint { .. }
        | Kind::CustomLayout { .. }
        | Kind::SliverToBox
        | Kind::SliverPadding { .. }
        | Kind::SliverFixed { .. }
        | Kind::SliverLazy { .. }
        | Kind::Keep { .. }
        | Kind::Inherit { .. } => NodeState::Nothing,
    }
}
