// Render nodes take other widgets of their types (`RenderObjectWidget.updateRenderObject`), and their children another order
// (`moveRenderObjectChild`).
ghost use Rattle.std.specs.Prelude.{◌≡◌, ◌<◌, Some, map, length, IfOk, OnOk};
ghost use Rattle.std.specs.List.{All};
ghost use Rattle.fx_handles.specs.Handle.{AreDistinct};
ghost use Rattle.node_tree.specs.Tree.{children_at};
ghost use Rattle.render_tree.specs.Object.{RenderObject as RenderObjectOf};
ghost use Rattle.render_tree.specs.Tree.{object_at};
ghost use Rattle.screen_owner.specs.Standing.{StandsAlone};
ghost use Rattle.renewed_builds.specs.Taking.{handles_at};
ghost use Rattle.frame_owner.specs.Redrawing.{CanOrder, CanRedraw, entry_for, HasOrdered, HasTaken, order_at, TakesWidgets};

use fx_handles::Handle;
use node_tree::PlanEntry;
use render_tree::{Redraw, RenderTree};
use renewed_builds::Change;
use std::alloc::{AllocError, Global};
use std::rc::Rc;

// Handles once more.
fn copy_handles(alloc: Global, handles: &[Handle]) -> Result<Vec<Handle>, AllocError>
    ensures { IfOk result (λ hs. hs.items ≡ handles.now) }
{
    let mut copies = Vec::with_capacity(alloc, handles.len())?;
    for handle in handles {
        copies.push(*handle)?;
    }
    Ok(copies)
}

// The handles at these places among others.
fn at_places(alloc: Global, handles: &[Handle], places: &[usize]) -> Result<Vec<Handle>, AllocError>
    requires { All (λ i. i < length handles.now) places.now }
    ensures { IfOk result (λ hs. hs.items ≡ handles_at handles.now places.now) }
{
    let mut found = Vec::with_capacity(alloc, places.len())?;
    for place in places {
        found.push(handles[*place])?;
    }
    Ok(found)
}

// The children of the node of a change, in its order.
fn children_then(alloc: Global, r: &RenderTree, change: &Change) -> Result<Vec<Handle>, AllocError>
    requires { CanOrder r.now.tree change.now }
    ensures { IfOk result (λ hs. hs.items ≡ order_at (children_at r.now.tree change.now.at) change.now.order) }
{
    let children = r.children(change.at());
    match change.order() {
        Some(places) => at_places(alloc, children, places),
        None => copy_handles(alloc, children),
    }
}

// What a plan says of the node of a change.
fn plan_entry(
    alloc: Global,
    r: &RenderTree,
    change: &Change,
) -> Result<PlanEntry<Redraw>, AllocError>
    requires there { (o : RenderObjectOf) × (object_at r.now.tree change.now.at ≡ Some o) }
    requires order { CanOrder r.now.tree change.now }
    ensures { IfOk result (λ e. e ≡ entry_for r.now.tree change.now) }
{
    let at = change.at();
    let Some(parent_data) = r.parent_data(at) else {
        unreachable!()
    };
    let children = children_then(alloc, r, change)?;
    let widget = Rc::clone(change.widget())?;
    let update = Redraw {
        widget,
        parent_data,
    };
    Ok(PlanEntry::new(at, r.parent(at), children, update))
}

// The plan of the nodes that change.
fn plan_changes(
    alloc: Global,
    r: &RenderTree,
    changes: &[Change],
) -> Result<Vec<PlanEntry<Redraw>>, AllocError>
    requires { CanRedraw r.now.tree changes.now }
    ensures { IfOk result (λ es. es.items ≡ map (entry_for r.now.tree) changes.now) }
{
    let mut plan = Vec::with_capacity(alloc, changes.len())?;
    for change in changes {
        plan.push(plan_entry(alloc, r, change)?)?;
    }
    Ok(plan)
}

// Gives the nodes their widgets, and sets no mark.
fn put_widgets(r: &mut RenderTree, changes: &[Change]) -> Result<(), AllocError>
    requires { AreDistinct (map (λ c. c.at) changes.now) }
    ensures taken { OnOk result (HasTaken changes.now r.old.tree r.new.tree) }
    ensures scale { r.new.scale ≡ r.old.scale }
    ensures spent { r.new.spent ≡ r.old.spent }
{
    for change in changes {
        r.update_unmarked(change.at(), change.widget())?;
    }
    Ok(())
}

// Puts the children of the nodes into their orders, and sets no mark.
fn put_orders(alloc: Global, r: &mut RenderTree, changes: &[Change]) -> Result<(), AllocError>
    requires orders { All (CanOrder r.old.tree) changes.now }
    requires once { AreDistinct (map (λ c. c.at) changes.now) }
    ensures ordered { OnOk result (HasOrdered changes.now r.old.tree r.new.tree) }
    ensures scale { r.new.scale ≡ r.old.scale }
    ensures spent { r.new.spent ≡ r.old.spent }
{
    for change in changes {
        if let Some(places) = change.order() {
            let at = change.at();
            let children = at_places(alloc, r.children(at), places)?;
            r.reorder_unmarked(at, children);
        }
    }
    Ok(())
}

/// Render nodes take other widgets of the types that they have, and their children the new orders, and those that this changes are
/// marked, for layout and for painting.
pub(crate) fn redraw(
    alloc: Global,
    r: &mut RenderTree,
    changes: &[Change],
) -> Result<(), AllocError>
    requires stands { StandsAlone r.old.tree }
    requires changes { CanRedraw r.old.tree changes.now }
    ensures takes { OnOk result (TakesWidgets changes.now r.old.tree r.new.tree) }
    ensures scale { r.new.scale ≡ r.old.scale }
    ensures spent { r.new.spent ≡ r.old.spent }
{
    let plan = plan_changes(alloc, r, changes)?;
    let root = r.root();
    let laid = r.laid_anew(root, plan.as_slice())?;
    let painted = r.painted_anew(root, plan.as_slice())?;
    put_widgets(r, changes)?;
    put_orders(alloc, r, changes)?;
    r.mark_layouts(laid.as_slice());
    r.mark_paints(painted.as_slice());
    Ok(())
}
