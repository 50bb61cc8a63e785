ghost use Rattle.std.specs.Prelude.{◌≡◌, ◌≢◌, ℕ, ◌+◌, ◌<◌, ◌≤◌, [], length, map, Bool, true, false, Option, Some, None, IsSome, IfOk, OnOk, OnErr, option_map, slice_index_or, slice_index, vec_len, count_by, ◌==◌};
ghost use Rattle.fx_handles.specs.Handle.{times, Among, AreDistinct};
ghost use Rattle.fx_handles.specs.Arena.{get, IsLive, IsSpent, used_count, retired_count, inserted_count};
ghost use Rattle.node_tree.specs.Forest.{TreeNode as NodeOf};
ghost use Rattle.node_tree.specs.Edits.{KeepsHandles};
ghost use Rattle.node_tree.specs.Plan.{planned, relinked, relinked_at, written, is_planned, Sweeps, Commits};

use crate::nodes::TreeNode;
use fx_handles::{Arena, Handle};
use std::alloc::{AllocError, Global};
use std::marker::Model;

/// A change of a value that leaves alone what it doesn't speak of.
pub trait Update<T> {
    /// What the update makes of a value.
    ghost updated: { Self → T → T };

    /// Changes the value.
    fn apply(self, value: &mut T)
        ensures { value.new ≡ updated self value.old };
}

/// What one node of a new tree shall be: its place, and an update of its value.
#[derive(Drop)]
pub struct PlanEntry<U> {
    at: Handle,
    parent: Option<Handle>,
    children: Vec<Handle>,
    update: U,
}

impl<U> Model for PlanEntry<U> {
    ghost use Rattle.node_tree.specs.Plan.{PlanEntry as PlanEntryOf, plan_entry_code};

    ghost Value = { PlanEntryOf U };

    ghost coded = { plan_entry_code U.code };

    ghost view = { λ e. record {
      at = e.at;
      parent = e.parent;
      children = e.children.items;
      update = e.update;
    } };
}

impl<U> PlanEntry<U> {
    /// The node at this handle, below this parent, with these children, and its value updated.
    pub fn new(at: Handle, parent: Option<Handle>, children: Vec<Handle>, update: U) -> PlanEntry<U>
        ensures at { result.at ≡ at }
        ensures parent { result.parent ≡ parent }
        ensures children { result.children ≡ children.items }
        ensures update { result.update ≡ update }
    {
        PlanEntry {
            at,
            parent,
            children,
            update,
        }
    }

    /// The node's handle.
    pub fn at(&self) -> Handle
        ensures { result ≡ self.now.at }
    {
        self.at
    }

    /// Below which parent it shall stand.
    pub fn parent(&self) -> Option<Handle>
        ensures { result ≡ self.now.parent }
    {
        self.parent
    }

    /// Which children it shall have, from first to last.
    pub fn children(&self) -> &[Handle]
        ensures { result.now ≡ self.now.children }
    {
        self.children.as_slice()
    }

    /// How its value shall change.
    pub fn update(&self) -> &U
        ensures { result.now ≡ self.now.update }
    {
        &self.update
    }
}

// Gives a node its place, and updates its value.
fn relink<T, U: Update<T>>(node: &mut TreeNode<T>, entry: PlanEntry<U>)
    ensures { node.new ≡ relinked U.updated entry node.old }
{
    let PlanEntry {
        at: _,
        parent,
        children,
        update,
    } = entry;
    node.parent = parent;
    node.children = children;
    update.apply(&mut node.value);
}

// Writes one live node.
fn write<T, U: Update<T>>(nodes: &mut Arena<TreeNode<T>>, entry: PlanEntry<U>)
    requires { IsLive nodes.old entry.at }
    ensures nodes { (k : Handle) → get nodes.new k ≡ option_map (relinked_at U.updated entry k) (get nodes.old k) }
    ensures handles { KeepsHandles nodes.old nodes.new }
{
    let Some(node) = nodes.get_mut(entry.at()) else {
        unreachable!()
    };
    relink(node, entry);
}

// Writes each node that the plan names, and leaves the plan empty.
pub(crate) fn write_all<T, U: Update<T> + Drop>(
    nodes: &mut Arena<TreeNode<T>>,
    plan: &mut Vec<PlanEntry<U>>,
)
    requires live { (k : Handle) → Among k (planned plan.old.items) → IsLive nodes.old k }
    requires once { AreDistinct (planned plan.old.items) }
    ensures nodes { (k : Handle) → get nodes.new k ≡ written U.updated plan.old.items k (get nodes.old k) }
    ensures handles { KeepsHandles nodes.old nodes.new }
    ensures plan { plan.new.items ≡ [] }
{
    while let Some(entry) = plan.pop() {
        write(nodes, entry);
    }
}

// Marks, for each slot below `end`, whether the plan names it.
pub(crate) fn marks<U>(
    alloc: Global,
    plan: &[PlanEntry<U>],
    end: usize,
) -> Result<Vec<bool>, AllocError>
    ensures len { IfOk result (λ keep. length keep.items ≡ end) }
    ensures marked { IfOk result
        (λ keep. (i : ℕ) → i < end → slice_index_or keep.items i true ≡ is_planned plan.now i) }
{
    let mut keep = vec![in alloc; false; end]?;
    for entry in plan {
        let index = entry.at.index;
        if index < end {
            keep[index] = true;
        }
    }
    Ok(keep)
}

// Takes away the node of a slot, if there is one.
fn clear<T: Drop>(nodes: &mut Arena<TreeNode<T>>, index: usize)
    ensures here { (k : Handle) → k.index ≡ index → get nodes.new k ≡ None }
    ensures others { (k : Handle) → k.index ≢ index → get nodes.new k ≡ get nodes.old k }
    ensures spent { (k : Handle) → IsSpent nodes.old k → IsSpent nodes.new k }
    ensures now_spent { (k : Handle) → k.index ≡ index → IsLive nodes.old k → IsSpent nodes.new k }
    ensures retired { retired_count nodes.old ≤ retired_count nodes.new }
    ensures filled { used_count nodes.new + retired_count nodes.new ≤ used_count nodes.old + retired_count nodes.old }
    ensures inserted { inserted_count nodes.new ≡ inserted_count nodes.old }
{
    if let Some(h) = nodes.handle_at(index) {
        nodes.remove(h);
    }
}

// Takes away the node of each slot that isn't marked.
fn sweep<T: Drop>(nodes: &mut Arena<TreeNode<T>>, keep: &[bool])
    ensures { Sweeps keep.now nodes.old nodes.new }
{
    for i in 0..keep.len() {
        if !keep[i] {
            clear(nodes, i);
        }
    }
}

// Makes the planned nodes the only ones. The plan is empty afterwards.
pub(crate) fn commit_nodes<T: Drop, U: Update<T> + Drop>(
    nodes: &mut Arena<TreeNode<T>>,
    alloc: Global,
    plan: &mut Vec<PlanEntry<U>>,
) -> Result<(), AllocError>
    requires live { (k : Handle) → Among k (planned plan.old.items) → IsLive nodes.old k }
    requires once { AreDistinct (planned plan.old.items) }
    ensures commits { OnOk result (Commits U.updated plan.old.items nodes.old nodes.new) }
    ensures plan { OnOk result (plan.new.items ≡ []) }
    ensures err { OnErr result ((nodes.new ≡ nodes.old) × (plan.new.items ≡ plan.old.items)) }
{
    let keep = marks(alloc, plan.as_slice(), nodes.end())?;
    sweep(nodes, keep.as_slice());
    write_all(nodes, plan);
    Ok(())
}
