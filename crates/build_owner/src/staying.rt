// What of the last frame stays below lazy lists until they get their items.
ghost use Rattle.std.specs.Prelude.{◌≡◌, ◌++◌, Bool, List, Some, map, IfOk, OnOk};
ghost use Rattle.std.specs.List.{All};
ghost use Rattle.fx_handles.specs.declared.Handle.{Handle as AnyHandle};
ghost use Rattle.fx_handles.specs.Handle.{same};
ghost use Rattle.indexmap.specs.IndexSet.{contains_by};
ghost use Rattle.node_tree.specs.Forest.{tops};
ghost use Rattle.node_tree.specs.Part.{is_named};
ghost use Rattle.node_tree.specs.Plan.{entries};
ghost use Rattle.node_tree.specs.Tree.{Holds, IsNode, subtree_at};
ghost use Rattle.render_tree.specs.Object.{RenderObject as ObjectOf};
ghost use Rattle.render_tree.specs.Tree.{object_at};
ghost use Rattle.build_walk.specs.Merging.{lists_redraw, serving, merge};
ghost use Rattle.build_owner.specs.MergingView.{serving_of};
ghost use Rattle.build_owner.specs.Ranging.{listed_in};
ghost use Rattle.build_owner.specs.Staying.{redraw_now, left_of, left_items};

use crate::merging::{PlannedItems, merge};
use crate::ranging::lists_drawn;
use fx_handles::Handle;
use indexmap::IndexSet;
use node_tree::PlanEntry;
use render_tree::{Redraw, RenderTree};
use std::alloc::{AllocError, Global};
use std::collections::VecDeque;
use std::rc::Rc;

// The handles that a plan names.
fn named_by(alloc: Global, plan: &[PlanEntry<Redraw>]) -> Result<IndexSet<Handle>, AllocError>
    ensures { IfOk result (λ s. (h : AnyHandle) → contains_by (same h) s ≡ is_named plan.now h) }
{
    let mut named = IndexSet::new(alloc);
    for entry in plan {
        named.insert(entry.at())?;
    }
    Ok(named)
}

// What a live node has already.
fn present(r: &RenderTree, h: Handle) -> Result<Redraw, AllocError>
    requires { IsNode r.now.tree h }
    ensures { IfOk result (λ u. (o : ObjectOf) → object_at r.now.tree h ≡ Some o → u ≡ redraw_now o) }
{
    let Some(widget) = r.widget(h) else {
        unreachable!()
    };
    let Some(parent_data) = r.parent_data(h) else {
        unreachable!()
    };
    Ok(Redraw {
        widget: Rc::clone(widget)?,
        parent_data,
    })
}

// Plans that a child stays as it is, with what is below it, unless it is named.
#[cycle(staying)]
fn stay_at(
    alloc: Global,
    r: &RenderTree,
    named: &IndexSet<Handle>,
    parent: Handle,
    h: Handle,
    children: &mut Vec<Handle>,
    out: &mut Vec<PlanEntry<Redraw>>,
) -> Result<(), AllocError>
    requires { Holds r.now.tree h }
    ensures children { OnOk result (children.new.items ≡ children.old.items ++ tops (left_of (λ k. contains_by (same k) named.now) (subtree_at r.now.tree h))) }
    ensures entries { OnOk result (out.new.items ≡ out.old.items ++ entries (Some parent) (left_of (λ k. contains_by (same k) named.now) (subtree_at r.now.tree h))) }
{
    if named.contains(&h) {
        return Ok(());
    }
    let below = stay_below(alloc, r, named, h, out)?;
    let update = present(r, h)?;
    out.push(PlanEntry::new(h, Some(parent), below, update))?;
    children.push(h)?;
    Ok(())
}

// Plans that what is below a node stays as it is, but for what is named; these are its children then.
#[cycle(staying)]
fn stay_below(
    alloc: Global,
    r: &RenderTree,
    named: &IndexSet<Handle>,
    h: Handle,
    out: &mut Vec<PlanEntry<Redraw>>,
) -> Result<Vec<Handle>, AllocError>
    requires { Holds r.now.tree h }
    ensures children { IfOk result (λ hs. hs.items ≡ tops (left_items r.now.tree (λ k. contains_by (same k) named.now) h)) }
    ensures entries { OnOk result (out.new.items ≡ out.old.items ++ entries (Some h) (left_items r.now.tree (λ k. contains_by (same k) named.now) h)) }
{
    let mut children = Vec::new(alloc);
    for child in r.children(h) {
        stay_at(alloc, r, named, h, *child, &mut children, out)?;
    }
    Ok(children)
}

// What stays below one lazy list.
fn items_of(
    alloc: Global,
    r: &RenderTree,
    named: &IndexSet<Handle>,
    list: Handle,
) -> Result<PlannedItems<Redraw>, AllocError>
    requires { Holds r.now.tree list }
    ensures { IfOk result (λ i. serving_of i ≡ serving list (left_items r.now.tree (λ k. contains_by (same k) named.now) list)) }
{
    let mut entries = Vec::new(alloc);
    let children = stay_below(alloc, r, named, list, &mut entries)?;
    Ok(PlannedItems { children, entries })
}

// What stays below each of some lazy lists, from first to last.
fn all_items(
    alloc: Global,
    r: &RenderTree,
    named: &IndexSet<Handle>,
    lists: &[Handle],
) -> Result<VecDeque<PlannedItems<Redraw>>, AllocError>
    requires { All (Holds r.now.tree) lists.now }
    ensures { IfOk result (λ v. map serving_of v.items ≡ map (λ h. serving h (left_items r.now.tree (λ k. contains_by (same k) named.now) h)) lists.now) }
{
    let mut items = VecDeque::new(alloc);
    for list in lists {
        items.push_back(items_of(alloc, r, named, *list)?)?;
    }
    Ok(items)
}

/// A plan in which each lazy list keeps what was below it, but for what the plan names.
pub(crate) fn completed(
    alloc: Global,
    r: &RenderTree,
    plan: Vec<PlanEntry<Redraw>>,
) -> Result<Vec<PlanEntry<Redraw>>, AllocError>
    requires { All (Holds r.now.tree) (listed_in lists_redraw plan.items) }
    ensures { IfOk result (λ es. es.items ≡ (merge lists_redraw plan.items (map (λ h. serving h (left_items r.now.tree (is_named plan.items) h)) (listed_in lists_redraw plan.items))).plan) }
{
    let named = named_by(alloc, plan.as_slice())?;
    let lists = lists_drawn(alloc, plan.as_slice())?;
    let items = all_items(alloc, r, &named, lists.as_slice())?;
    merge(alloc, plan, items)
}
