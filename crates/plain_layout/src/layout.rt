// The recursion over the tree.
ghost use Rattle.std.specs.Prelude.{◌≡◌, ◌<◌, length, IfOk, OnOk, None, Some};
ghost use Rattle.delegates.specs.Meaning.{Meaning};
ghost use Rattle.delegates.specs.Table.{meant_in};
ghost use Rattle.layout_form.specs.Fits.{CanBeLaidOut};
ghost use Rattle.layout_form.specs.Layout.{object, lay_view};
ghost use Rattle.layout_form.specs.Object.{setting_of};
ghost use Rattle.layout_form.specs.Protocol.{answer};
ghost use Rattle.plain_layout.specs.Slivers.{IsReady};

use crate::answers::{put_slot, take_slot};
use crate::bare::bare_at;
use crate::opened::{children_of, kind_of};
use crate::rules::{finish, first};
use crate::slivers::{across, is_answered, kept_slots, second, target, viewed};
use delegates::{Delegate, DelegateTable};
use fx_geom::{Bounds, Scale, Size};
use kind_rules::slivers_are_measured_by_their_boxes;
use layout_form::{
    Ask, rules_see_frames, slivers_follow_their_scroll_extents, viewports_need_scroll_extents,
};
use plain_tree::{LaidNode, RenderNode};
use std::alloc::{AllocError, Global};

// A node laid out as it is asked, in the place of what is kept of it. A child is asked in the first round or in the second. A
// Viewport first lays out the boxes in its slivers, since they tell how far the slivers can be scrolled through, and then each
// sliver in its view, around the box that is kept of it.
fn lay(
    alloc: Global,
    node: &RenderNode,
    ask: Ask,
    slot: &mut Option<LaidNode>,
    scale: Scale,
    table: &DelegateTable,
) -> Result<(), AllocError>
    requires fits { CanBeLaidOut node.now }
    requires ready { IsReady (setting_of scale (meant_in table.now ⟦<dyn Delegate as Delegate>⟧)) ask slot.old node.now }
    ensures { OnOk result (slot.new ≡ Some (answer (object (setting_of scale (meant_in table.now ⟦<dyn Delegate as Delegate>⟧)) node.now) ask)) }
{
    if is_answered(&ask, slot) {
        return Ok(());
    }
    rules_see_frames();
    viewports_need_scroll_extents();
    slivers_follow_their_scroll_extents();
    slivers_are_measured_by_their_boxes();
    let children = children_of(node);
    let view = across(viewed(kind_of(node), ask));
    let mut slots = kept_slots(alloc, kind_of(node), ask, slot, children)?;
    let round = first(alloc, node, ask, &slots, scale, table)?;
    let asks = &round;
    for (i, child) in children.iter().enumerate() {
        match target(view, asks.at(i), child) {
            None => continue,
            Some((place, inner)) => {
                if children_of(place.node).is_empty() {
                    bare_at(alloc, place.node, &inner, &mut slots, i, scale, table)?;
                    continue;
                }
                let mut below = take_slot(&mut slots, i);
                lay(alloc, place.node, inner, &mut below, scale, table)?;
                put_slot(&mut slots, i, below);
            }
        }
    }
    let then = second(alloc, node, ask, view, &slots)?;
    for (i, child) in children.iter().enumerate() {
        match then.asks.at(i) {
            None => continue,
            Some(inner) => {
                if children_of(child).is_empty() {
                    bare_at(alloc, child, inner, &mut slots, i, scale, table)?;
                    continue;
                }
                let mut below = take_slot(&mut slots, i);
                lay(alloc, child, *inner, &mut below, scale, table)?;
                put_slot(&mut slots, i, below);
            }
        }
    }
    finish(alloc, node, ask, then.found, slots, slot, scale, table)?;
    Ok(())
}

/// A tree laid out in a view: the root has exactly its size, in u (`RenderView.performLayout`). Each node is laid out at most
/// once, and in a lazy or fixed list only what is seen. Beside that, each IntrinsicWidth and IntrinsicHeight asks what its
/// child would like (`greatest`). The error is want of memory.
pub fn lay_view(
    alloc: Global,
    tree: &RenderNode,
    view: Size,
    scale: Scale,
    delegates: &DelegateTable,
) -> Result<LaidNode, AllocError>
    requires { CanBeLaidOut tree.now }
    ensures { IfOk result (λ l. l ≡ lay_view (setting_of scale (meant_in delegates.now ⟦<dyn Delegate as Delegate>⟧)) tree.now view) }
{
    let mut slot = None;
    lay(
        alloc,
        tree,
        Ask::AsBox(Bounds::tight(view)),
        &mut slot,
        scale,
        delegates,
    )?;
    Ok(slot.unwrap())
}
