ghost use Rattle.std.specs.Prelude.{◌≡◌, ◌≢◌, ◌||◌, ℕ, ◌<◌, ◌≤◌, ◌++◌, length, map, false, true, Option, Some, None, IfOk, OnOk, OnErr, option_map, slice_index_or};
ghost use Rattle.std.specs.Option.{option_to_list};
ghost use Rattle.fx_handles.specs.declared.Handle.{Handle};
ghost use Rattle.fx_handles.specs.Handle.{Among, AreDistinct};
ghost use Rattle.fx_handles.specs.Arena.{get, IsLive};
ghost use Rattle.node_tree.specs.Forest.{TreeNode as NodeOf};
ghost use Rattle.node_tree.specs.Edits.{KeepsHandles};
ghost use Rattle.node_tree.specs.Plan.{planned, is_planned};
ghost use Rattle.node_tree.specs.Trims.{marked, in_slot, lists_slot, unmarked, unmarked_below, trimmed_parent, trimmed, trimmed_at, Trims};

use crate::nodes::{TreeNode, children_in};
use crate::plan::{PlanEntry, marks};
use fx_handles::{Arena, Handle};
use std::alloc::{AllocError, Global};

// Whether the handle's slot is marked.
fn is_marked(marks: &[bool], h: Handle) -> bool
    ensures { result ≡ marked marks.now h }
{
    match marks.get(h.index) {
        Some(mark) => *mark,
        None => true,
    }
}

// Marks the slots of these handles.
fn mark_all(marks: &mut Vec<bool>, handles: &[Handle])
    ensures len { length marks.new.items ≡ length marks.old.items }
    ensures marked { (i : ℕ) → i < length marks.old.items
        → slice_index_or marks.new.items i true ≡ (slice_index_or marks.old.items i true || in_slot handles.now i) }
{
    for h in handles {
        let index = h.index;
        if index < marks.len() {
            marks[index] = true;
        }
    }
}

// Marks the slots of all children that a plan has.
fn mark_listed<U>(marks: &mut Vec<bool>, plan: &[PlanEntry<U>])
    ensures len { length marks.new.items ≡ length marks.old.items }
    ensures marked { (i : ℕ) → i < length marks.old.items
        → slice_index_or marks.new.items i true ≡ (slice_index_or marks.old.items i true || lists_slot plan.now i) }
{
    for entry in plan {
        mark_all(marks, entry.children());
    }
}

// Marks, for each slot below `end`, whether the plan speaks of it: names it, or lists it as a child.
pub(crate) fn spoken_marks<U>(
    alloc: Global,
    plan: &[PlanEntry<U>],
    end: usize,
) -> Result<Vec<bool>, AllocError>
    ensures len { IfOk result (λ spoken. length spoken.items ≡ end) }
    ensures marked { IfOk result (λ spoken. (i : ℕ) → i < end
        → slice_index_or spoken.items i true ≡ (is_planned plan.now i || lists_slot plan.now i)) }
{
    let mut spoken = marks(alloc, plan, end)?;
    mark_listed(&mut spoken, plan);
    Ok(spoken)
}

// Adds the handles whose slot isn't marked.
fn add_unmarked(
    list: &mut Vec<Handle>,
    marks: &[bool],
    handles: &[Handle],
) -> Result<(), AllocError>
    ensures { OnOk result (list.new.items ≡ list.old.items ++ unmarked marks.now handles.now) }
{
    for h in handles {
        if is_marked(marks, *h) {
            continue;
        }
        list.push(*h)?;
    }
    Ok(())
}

// Adds the children of planned nodes whose slot isn't marked.
fn add_below<T, U>(
    list: &mut Vec<Handle>,
    marks: &[bool],
    nodes: &Arena<TreeNode<T>>,
    plan: &[PlanEntry<U>],
) -> Result<(), AllocError>
    ensures { OnOk result (list.new.items ≡ list.old.items ++ unmarked_below marks.now nodes.now plan.now) }
{
    for entry in plan {
        add_unmarked(list, marks, children_in(nodes, entry.at()))?;
    }
    Ok(())
}

// Adds the root, unless its slot is marked.
fn add_root(list: &mut Vec<Handle>, marks: &[bool], root: Option<Handle>) -> Result<(), AllocError>
    ensures { OnOk result (list.new.items ≡ list.old.items ++ unmarked marks.now (option_to_list root)) }
{
    match root {
        Some(top) => add_unmarked(list, marks, &[top]),
        None => Ok(()),
    }
}

// A list with these handles.
fn copy_of(alloc: Global, handles: &[Handle]) -> Result<Vec<Handle>, AllocError>
    ensures { IfOk result (λ list. list.items ≡ handles.now) }
{
    let mut list = Vec::new(alloc);
    for h in handles {
        list.push(*h)?;
    }
    Ok(list)
}

// The inactive tops after the commit of a plan for a part: those of the plan, and then what is left.
pub(crate) fn tops_beside<T, U>(
    alloc: Global,
    nodes: &Arena<TreeNode<T>>,
    root: Option<Handle>,
    inactive: &[Handle],
    spoken: &[bool],
    waiting: &[Handle],
    plan: &[PlanEntry<U>],
) -> Result<Vec<Handle>, AllocError>
    ensures { IfOk result (λ list. list.items ≡ waiting.now ++ (unmarked_below spoken.now nodes.now plan.now
        ++ (unmarked spoken.now (option_to_list root) ++ unmarked spoken.now inactive.now))) }
{
    let mut list = copy_of(alloc, waiting)?;
    add_below(&mut list, spoken, nodes, plan)?;
    add_root(&mut list, spoken, root)?;
    add_unmarked(&mut list, spoken, inactive)?;
    Ok(list)
}

// The parent that a trimmed node keeps.
fn parent_left(parent: Option<Handle>, named: &[bool], spoken: bool) -> Option<Handle>
    ensures { result ≡ trimmed_parent named.now spoken parent }
{
    let p = parent?;
    if is_marked(named, p) && !spoken {
        return None;
    }
    Some(p)
}

// Takes out the children whose slot is marked.
fn drop_marked(list: &mut Vec<Handle>, named: &[bool])
    ensures { list.new.items ≡ unmarked named.now list.old.items }
{
    list.retain(|h| !is_marked(named, *h))
}

// Takes the planned nodes out of a node's children, and the node out of a planned parent's, unless the plan speaks of it.
fn trim<T>(node: &mut TreeNode<T>, named: &[bool], spoken: bool)
    ensures { node.new ≡ trimmed named.now spoken node.old }
{
    drop_marked(&mut node.children, named);
    node.parent = parent_left(node.parent, named, spoken);
}

// Trims the node of a slot, if there is one.
fn trim_slot<T>(nodes: &mut Arena<TreeNode<T>>, index: usize, named: &[bool], spoken: bool)
    ensures here { (k : Handle) → k.index ≡ index
        → get nodes.new k ≡ option_map (trimmed named.now spoken) (get nodes.old k) }
    ensures others { (k : Handle) → k.index ≢ index → get nodes.new k ≡ get nodes.old k }
    ensures handles { KeepsHandles nodes.old nodes.new }
{
    let Some(h) = nodes.handle_at(index) else {
        return;
    };
    let Some(node) = nodes.get_mut(h) else {
        unreachable!()
    };
    trim(node, named, spoken);
}

// Trims the node of each slot that isn't marked as named.
pub(crate) fn trim_all<T>(nodes: &mut Arena<TreeNode<T>>, named: &[bool], spoken: &[bool])
    requires { length spoken.now ≡ length named.now }
    ensures { Trims named.now spoken.now nodes.old nodes.new }
{
    for i in 0..named.len() {
        if named[i] {
            continue;
        }
        trim_slot(nodes, i, named, spoken[i]);
    }
}
