// Render nodes opened: their kinds, the nodes below them, and what their first answers tell.
ghost use Rattle.std.specs.Prelude.{◌≡◌};
ghost use Rattle.widget_model.specs.View.{look_in};
ghost use Rattle.kind_rules.specs.Asked.{found_of, found_for};
ghost use Rattle.kind_rules.specs.Cursor.{look_of, children_of};
ghost use Rattle.plain_layout.specs.Computed.{scroll_of};

use kind_rules::{Found, findings};
use layout_form::Ask;
use plain_tree::{Frame, RenderNode};
use widget_model::Kind;

pub(crate) fn kind_of(node: &RenderNode) -> &Kind
    ensures { look_in result.now ≡ look_of node.now }
{
    &node.widget.kind
}

pub(crate) fn children_of(node: &RenderNode) -> &[RenderNode]
    ensures { result.now ≡ children_of node.now }
{
    node.children.as_slice()
}

// What the first answers tell.
pub(crate) fn found_for(node: &RenderNode, ask: Ask, frames: &[Option<Frame>]) -> Found
    ensures { found_of result ≡ found_for (look_of node.now) (scroll_of node.now) ask frames.now }
{
    findings(&node.widget.kind, node.scroll, ask, frames)
}
