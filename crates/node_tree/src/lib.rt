//! A tree of nodes in an arena: each node has a parent, a list of children, and a value.
#![tactic(auto)]

ghost use Rattle.std.specs.Prelude.{◌≡◌, ◌⊎◌, ℕ, ◌+◌, ◌*◌, ◌<◌, ◌≤◌, ◌↔◌, [], ◌∷◌, ◌++◌, length, Some, None, IsTrue, IsSome, IfOk, IfErr, IfSome, IfNone, OnOk, OnErr, option_copied};
ghost use Rattle.std.specs.Option.{option_copied_mut};
ghost use Rattle.std.specs.Borrow.{sem};
ghost use Rattle.fx_handles.specs.declared.TheConstants.{SLOTS_MAX, LAST_GENERATION};
ghost use Rattle.fx_handles.specs.Handle.{Among};
ghost use Rattle.fx_handles.specs.Arena.{IsNew, used_count, retired_count, generation_sum};
ghost use Rattle.node_tree.specs.Forest.{Forest, tops, size, In, append, paste, without, tree_of, reorder_under, set_value, others_than};
ghost use Rattle.node_tree.specs.Forest.Forest.{none, tree};

mod edits;
mod laws;
mod nodes;
mod part;
mod plan;

use edits::{attach_at, detach_node, insert_at, insert_last, mount_at, place_below, take_node};
use fx_handles::{Arena, Handle, InsertFault};
use nodes::{
    TreeNode, children_in, is_same, last_of, node_value_mut, parent_in, put_children, replace_value,
};
use part::{spoken_marks, tops_beside, trim_all};
use plan::{commit_nodes, marks, write_all};
pub use plan::{PlanEntry, Update};
use std::alloc::{AllocError, Global};
use std::marker::Model;
use std::mem;

/// A tree of nodes, and beside it inactive subtrees, which wait to be attached or dropped.
#[derive(Drop)]
pub struct Tree<T> {
    nodes: Arena<TreeNode<T>>,
    root: Option<Handle>,
    inactive: Vec<Handle>,
    alloc: Global,
}

impl<T> Model for Tree<T> {
    ghost use Rattle.node_tree.specs.Tree.{Tree as TreeOf, tree_code, IsTree};

    ghost Value = { TreeOf T };

    ghost coded = { tree_code T.code };

    ghost view = { λ t. record { nodes = t.nodes; root = t.root; inactive = t.inactive.items } };

    ghost invariant = { λ t. IsTree (record { nodes = t.nodes; root = t.root; inactive = t.inactive.items }) };
}

impl<T> Tree<T> {
    ghost use Rattle.node_tree.specs.Tree.{node_at, IsNode, parent_at, children_at, value_at, Is, IsTree, subtree_at, Holds};
    ghost use Rattle.node_tree.specs.Edits.{Adds, Takes, Hooks, Lifts, Reorders, WritesValue, HasPlace, CanMove, CanReorder, CanDetach, CanHang, IsLeaf, root_with, root_without, root_lifted};
    ghost use Rattle.node_tree.specs.Lends.{lends_tree_value, tree_written};

    /// A tree without nodes, over this allocator.
    pub fn new(alloc: Global) -> Tree<T>
        ensures root { result.root ≡ None }
        ensures inactive { result.inactive ≡ [] }
        ensures nodes { IsNew result.nodes }
        ensures plain { Is result none }
    {
        Tree {
            nodes: Arena::new(alloc),
            root: None,
            inactive: Vec::new(alloc),
            alloc,
        }
    }

    /// The root's handle, or `None` where there is no root, also where inactive subtrees are left.
    pub fn root(&self) -> Option<Handle>
        ensures value { result ≡ self.now.root }
        ensures tree { IsTree self.now }
        ensures holds { IfSome result (λ h. Holds self.now h) }
    {
        self.root
    }

    /// The tops of the inactive subtrees, in the order in which they became inactive.
    pub fn inactive(&self) -> &[Handle]
        ensures value { result.now ≡ self.now.inactive }
        ensures holds { (h : Handle) → Among h result.now → Holds self.now h }
    {
        self.inactive.as_slice()
    }

    /// How many nodes there are, inactive ones among them.
    pub fn len(&self) -> usize
        ensures value { result ≡ used_count self.now.nodes }
        ensures size { (f : Forest T) → Is self.now f → result ≡ size f }
        ensures few { result ≤ SLOTS_MAX }
        ensures tree { IsTree self.now }
    {
        self.nodes.len()
    }

    /// Whether there is no node.
    pub fn is_empty(&self) -> bool
        ensures { IsTrue result ↔ (used_count self.now.nodes ≡ 0) }
    {
        self.nodes.is_empty()
    }

    /// Whether no node can be inserted.
    pub fn is_full(&self) -> bool
        ensures { IsTrue result ↔ (SLOTS_MAX ≤ used_count self.now.nodes + retired_count self.now.nodes) }
    {
        self.nodes.is_full()
    }

    /// How many slots are retired. Each stands for `LAST_GENERATION` removals.
    pub fn retired(&self) -> usize
        ensures value { result ≡ retired_count self.now.nodes }
        ensures removals { retired_count self.now.nodes * LAST_GENERATION ≤ generation_sum self.now.nodes }
        ensures few { used_count self.now.nodes + retired_count self.now.nodes ≤ SLOTS_MAX }
    {
        self.nodes.retired()
    }

    /// What holds of the counts of each tree. It does nothing.
    pub fn count_laws(&self)
        ensures removals { retired_count self.now.nodes * LAST_GENERATION ≤ generation_sum self.now.nodes }
        ensures few { used_count self.now.nodes + retired_count self.now.nodes ≤ SLOTS_MAX }
        ensures tree { IsTree self.now }
    {
        self.nodes.count_laws()
    }

    /// Whether the handle is live.
    pub fn contains(&self, h: Handle) -> bool
        ensures { IsTrue result ↔ IsNode self.now h }
    {
        self.nodes.contains(h)
    }

    /// Past the last slot.
    pub fn end(&self) -> usize
        ensures { (h : Handle) → IsNode self.now h → h.index < result }
    {
        self.nodes.end()
    }

    /// The live handle of a slot, if there is one.
    pub fn handle_at(&self, index: usize) -> Option<Handle>
        ensures live { IfSome result (λ h. (h.index ≡ index) × IsNode self.now h) }
        ensures only { IfNone result ((h : Handle) → h.index ≡ index → IsNode self.now h → ⊥) }
    {
        self.nodes.handle_at(index)
    }

    /// The parent's handle, or `None` for the root, for the top of an inactive subtree, and where the handle
    /// isn't live.
    pub fn parent(&self, h: Handle) -> Option<Handle>
        ensures value { result ≡ parent_at self.now h }
        ensures holds { IfSome result (λ p. Holds self.now p) }
        ensures larger { IfSome result (λ p. size (subtree_at self.now h) < size (subtree_at self.now p)) }
        ensures listed { IfSome result (λ p. Among h (children_at self.now p)) }
    {
        parent_in(&self.nodes, h)
    }

    /// The children's handles from first to last; none where the handle isn't live.
    pub fn children(&self, h: Handle) -> &[Handle]
        ensures value { result.now ≡ children_at self.now h }
        ensures holds { (k : Handle) → Among k result.now → Holds self.now k }
        ensures smaller { (k : Handle) → Among k result.now
            → size (subtree_at self.now k) < size (subtree_at self.now h) }
        ensures parent { (k : Handle) → Among k result.now → parent_at self.now k ≡ Some h }
    {
        children_in(&self.nodes, h)
    }

    /// Whether a node is `top`, which is live, or below it.
    pub fn is_within(&self, h: Handle, top: Handle) -> bool
        requires { IsNode self.now top }
        ensures { IsTrue result ↔ In h (subtree_at self.now top) }
    {
        // Tells the proof that this is a tree.
        let _ = &self.nodes;
        let mut next = Some(h);
        while let Some(at) = next {
            if is_same(at, top) {
                return true;
            }
            next = self.parent(at);
        }
        false
    }

    /// The node's value, or `None` where the handle isn't live.
    pub fn value(&self, h: Handle) -> Option<&T>
        ensures { option_copied result ≡ value_at self.now h }
    {
        match self.nodes.get(h) {
            Some(node) => Some(&node.value),
            None => None,
        }
    }

    /// The node's value for writing, or `None` where the handle isn't live.
    pub fn value_mut(&mut self, h: Handle) -> Option<&mut T>
        ensures* writes_back { sem 𝓛 (lends_tree_value T.row self.entry h result) }
        ensures value { option_copied_mut result ≡ value_at self.old h }
        ensures writes { (w : T) → IsNode self.old h
            → WritesValue self.old.nodes (tree_written self.old h w).nodes h w }
        ensures plain { (w : T) (f : Forest T) → IsNode self.old h → Is self.old f
            → Is (tree_written self.old h w) (set_value h w f) }
    {
        node_value_mut(&mut self.nodes, h)
    }

    /// Gives a live node this value, and hands back the one that it had.
    pub fn replace(&mut self, h: Handle, value: T) -> T
        requires { IsNode self.old h }
        ensures old { value_at self.old h ≡ Some result }
        ensures writes { WritesValue self.old.nodes self.new.nodes h value }
        ensures root { self.new.root ≡ self.old.root }
        ensures inactive { self.new.inactive ≡ self.old.inactive }
        ensures plain { (f : Forest T) → Is self.old f → Is self.new (set_value h value f) }
    {
        replace_value(&mut self.nodes, h, value)
    }

    /// Makes a new node, as child number `at` of its parent, or as the root where no parent is given.
    ///
    /// `Full` comes exactly where the arena is full, `OutOfMemory` where there is no memory. Each hands the
    /// value back, and nothing changes.
    pub fn insert(
        &mut self,
        parent: Option<Handle>,
        at: usize,
        value: T,
    ) -> Result<Handle, InsertFault<T>>
        requires { HasPlace self.old parent at }
        ensures adds { IfOk result (λ h. Adds self.old.nodes self.new.nodes parent at h value) }
        ensures root { IfOk result (λ h. self.new.root ≡ root_with parent h self.old.root) }
        ensures inactive { self.new.inactive ≡ self.old.inactive }
        ensures plain { IfOk result (λ h. (f : Forest T) → Is self.old f
            → Is self.new (paste parent at (tree h value none none) f)) }
        ensures full { (result ≡ Err (InsertFault.Full value))
            ↔ (SLOTS_MAX ≤ used_count self.old.nodes + retired_count self.old.nodes) }
        ensures faults { IfErr result
            (λ e. (e ≡ InsertFault.Full value) ⊎ (e ≡ InsertFault.OutOfMemory value)) }
        ensures err { OnErr result (self.new ≡ self.old) }
    {
        insert_at(
            &mut self.nodes,
            self.alloc,
            &mut self.root,
            parent,
            at,
            value,
        )
    }

    /// Makes a new node, as the last of the inactive tops, with the faults of `insert`.
    pub fn insert_loose(&mut self, value: T) -> Result<Handle, InsertFault<T>>
        ensures adds { IfOk result (λ h. Adds self.old.nodes self.new.nodes None 0 h value) }
        ensures root { self.new.root ≡ self.old.root }
        ensures inactive { IfOk result (λ h. self.new.inactive ≡ self.old.inactive ++ h ∷ []) }
        ensures plain { IfOk result (λ h. (f : Forest T) → Is self.old f
            → Is self.new (append f (tree h value none none))) }
        ensures full { (result ≡ Err (InsertFault.Full value))
            ↔ (SLOTS_MAX ≤ used_count self.old.nodes + retired_count self.old.nodes) }
        ensures faults { IfErr result
            (λ e. (e ≡ InsertFault.Full value) ⊎ (e ≡ InsertFault.OutOfMemory value)) }
        ensures err { OnErr result (self.new ≡ self.old) }
    {
        insert_last(&mut self.nodes, self.alloc, &mut self.inactive, value)
    }

    /// Makes a node that has a parent child number `at` of `parent`, counted without the node itself, with
    /// all that is below it. After want of memory nothing has changed.
    pub fn move_to(&mut self, h: Handle, parent: Handle, at: usize) -> Result<(), AllocError>
        requires { CanMove self.old h parent at }
        ensures hooks { OnOk result (Hooks self.old.nodes self.new.nodes h (Some parent) at) }
        ensures root { self.new.root ≡ self.old.root }
        ensures inactive { self.new.inactive ≡ self.old.inactive }
        ensures plain { OnOk result ((f : Forest T) → Is self.old f
            → Is self.new (paste (Some parent) at (tree_of h f) (without h f))) }
        ensures err { OnErr result (self.new ≡ self.old) }
    {
        place_below(
            &mut self.nodes,
            self.alloc,
            &mut self.inactive,
            h,
            parent,
            at,
        )
    }

    /// Puts the children of a live node into another order, each with all that is below it. It takes one step, whatever their
    /// number, and no memory.
    pub fn reorder(&mut self, parent: Handle, children: Vec<Handle>)
        requires { CanReorder self.old parent children.items }
        ensures reorders { Reorders self.old.nodes self.new.nodes parent children.items }
        ensures root { self.new.root ≡ self.old.root }
        ensures inactive { self.new.inactive ≡ self.old.inactive }
        ensures plain { (f : Forest T) → Is self.old f → Is self.new (reorder_under parent children.items f) }
    {
        put_children(&mut self.nodes, parent, children);
    }

    /// Takes a node out of its parent's list, or out of the root's place, with all that is below it, and puts
    /// it last among the inactive subtrees. After want of memory nothing has changed.
    pub fn detach(&mut self, h: Handle) -> Result<(), AllocError>
        requires { CanDetach self.old h }
        ensures lifts { OnOk result (Lifts self.old.nodes self.new.nodes h None) }
        ensures root { OnOk result (self.new.root ≡ root_lifted (parent_at self.old h) self.old.root) }
        ensures inactive { OnOk result (self.new.inactive ≡ self.old.inactive ++ h ∷ []) }
        ensures plain { OnOk result ((f : Forest T) → Is self.old f
            → Is self.new (append (without h f) (tree_of h f))) }
        ensures err { OnErr result (self.new ≡ self.old) }
    {
        detach_node(&mut self.nodes, &mut self.root, &mut self.inactive, h)
    }

    /// Makes the top of an inactive subtree child number `at` of its parent, or the root where no parent is
    /// given, with all that is below it. After want of memory nothing has changed.
    pub fn attach(&mut self, h: Handle, parent: Option<Handle>, at: usize) -> Result<(), AllocError>
        requires top { Among h self.old.inactive }
        requires place { CanHang self.old h parent at }
        ensures hooks { OnOk result (Hooks self.old.nodes self.new.nodes h parent at) }
        ensures root { OnOk result (self.new.root ≡ root_with parent h self.old.root) }
        ensures inactive { OnOk result (self.new.inactive ≡ others_than h self.old.inactive) }
        ensures plain { OnOk result ((f : Forest T) → Is self.old f
            → Is self.new (paste parent at (tree_of h f) (without h f))) }
        ensures err { OnErr result (self.new ≡ self.old) }
    {
        attach_at(
            &mut self.nodes,
            self.alloc,
            &mut self.root,
            &mut self.inactive,
            h,
            parent,
            at,
        )
    }

    /// Takes a live node without children away, and hands back its value.
    pub fn take_leaf(&mut self, h: Handle) -> T
        requires { IsLeaf self.old h }
        ensures takes { Takes self.old.nodes self.new.nodes h result }
        ensures root { self.new.root ≡ root_without h self.old.root }
        ensures inactive { self.new.inactive ≡ others_than h self.old.inactive }
        ensures plain { (f : Forest T) → Is self.old f → Is self.new (without h f) }
    {
        take_node(&mut self.nodes, &mut self.root, &mut self.inactive, h)
    }

    /// A leaf at or below a live node.
    pub fn leaf_below(&self, h: Handle) -> Handle
        requires { IsNode self.now h }
        ensures leaf { IsLeaf self.now result }
        ensures inside { In result (subtree_at self.now h) }
    {
        // Tells the proof that this is a tree.
        let _ = &self.nodes;
        let mut at = h;
        while let Some(child) = last_of(self.children(at)) {
            at = child;
        }
        at
    }
}

impl<T: Drop> Tree<T> {
    ghost use Rattle.node_tree.specs.Tree.{IsNode, value_at, Is};
    ghost use Rattle.node_tree.specs.Edits.{Adds, RemovesBelow, DropsInactive, root_with};
    ghost use Rattle.node_tree.specs.Mounting.{put_last, children_below, CanMount};
    ghost use Rattle.node_tree.specs.Plan.{IsPlan, IsUpdated, Commits};
    ghost use Rattle.node_tree.specs.Part.{IsPartPlan, CommitsPart, left_tops, left_forest};

    /// Makes a new node, as the last child of its parent, or as the root where no parent is given, with room for so many children.
    ///
    /// The error is want of memory: nothing has changed then, and the value is let go.
    pub fn mount(
        &mut self,
        parent: Option<Handle>,
        room: usize,
        value: T,
    ) -> Result<Handle, AllocError>
        requires place { CanMount self.old parent }
        requires room { used_count self.old.nodes + retired_count self.old.nodes < SLOTS_MAX }
        ensures adds { IfOk result (λ h. Adds self.old.nodes self.new.nodes parent
            (length (children_below self.old parent)) h value) }
        ensures root { IfOk result (λ h. self.new.root ≡ root_with parent h self.old.root) }
        ensures inactive { self.new.inactive ≡ self.old.inactive }
        ensures plain { IfOk result (λ h. (f : Forest T) → Is self.old f
            → Is self.new (put_last parent (tree h value none none) f)) }
        ensures err { OnErr result (self.new ≡ self.old) }
    {
        mount_at(
            &mut self.nodes,
            self.alloc,
            &mut self.root,
            parent,
            room,
            value,
        )
    }

    /// Takes a node away with all that is below it, and gives the number of these nodes: 0 where the handle
    /// isn't live, and then nothing changes.
    pub fn remove(&mut self, h: Handle) -> usize
        ensures removes { IsNode self.old h → RemovesBelow self.old self.new h result }
        ensures absent { (IsNode self.old h → ⊥) → (result ≡ 0) × (self.new ≡ self.old) }
    {
        if !self.contains(h) {
            return 0;
        }
        let before = self.len();
        loop {
            let leaf = self.leaf_below(h);
            self.take_leaf(leaf);
            if is_same(leaf, h) {
                return before - self.len();
            }
        }
    }

    /// Takes all inactive subtrees away, and gives the number of their nodes.
    pub fn drop_inactive(&mut self) -> usize
        ensures { DropsInactive self.old self.new result }
    {
        let before = self.len();
        while let Some(top) = last_of(self.inactive()) {
            self.remove(top);
        }
        before - self.len()
    }

    /// Makes a plan the whole tree, with this root, if there is one, and these inactive tops: every node that the plan
    /// doesn't name is taken away, and each that it names gets its place there, and its value updated. The plan and the
    /// list of tops are empty afterwards. After want of memory nothing has changed, neither the tree nor the two lists.
    pub fn commit<U: Update<T> + Drop>(
        &mut self,
        root: Option<Handle>,
        inactive: &mut Vec<Handle>,
        plan: &mut Vec<PlanEntry<U>>,
    ) -> Result<(), AllocError>
        requires { (g : Forest U) × IsPlan self.old plan.old.items root inactive.old.items g }
        ensures commits { OnOk result (Commits U.updated plan.old.items self.old.nodes self.new.nodes) }
        ensures used { OnOk result ((g : Forest U) → IsPlan self.old plan.old.items root inactive.old.items g
            → used_count self.new.nodes ≡ size g) }
        ensures root { OnOk result (self.new.root ≡ root) }
        ensures inactive { OnOk result (self.new.inactive ≡ inactive.old.items) }
        ensures plain { OnOk result ((g : Forest U) (f : Forest T) → IsPlan self.old plan.old.items root inactive.old.items g
            → IsUpdated U.updated (value_at self.old) g f → Is self.new f) }
        ensures taken { OnOk result ((inactive.new.items ≡ []) × (plan.new.items ≡ [])) }
        ensures err { OnErr result ((self.new ≡ self.old) × (inactive.new.items ≡ inactive.old.items)
            × (plan.new.items ≡ plan.old.items)) }
    {
        commit_nodes(&mut self.nodes, self.alloc, plan)?;
        self.root = root;
        mem::swap(&mut self.inactive, inactive);
        inactive.clear();
        Ok(())
    }

    /// Makes a plan a part of the tree, with this root, if there is one, and these inactive tops: each node that the plan names
    /// gets its place there, and its value updated. Every other node keeps its value, and its children but for the named ones.
    /// What the plan doesn't list stands beside the part, in inactive subtrees, whose tops come last. The plan and the list of
    /// tops are empty afterwards. After want of memory nothing has changed, neither the tree nor the two lists.
    pub fn commit_part<U: Update<T> + Drop>(
        &mut self,
        root: Option<Handle>,
        inactive: &mut Vec<Handle>,
        plan: &mut Vec<PlanEntry<U>>,
    ) -> Result<(), AllocError>
        requires { (g : Forest T) × IsPartPlan U.updated self.old plan.old.items root inactive.old.items g }
        ensures commits { OnOk result (CommitsPart U.updated plan.old.items self.old.nodes self.new.nodes) }
        ensures root { OnOk result (self.new.root ≡ root) }
        ensures inactive { OnOk result (self.new.inactive ≡ inactive.old.items ++ left_tops self.old plan.old.items) }
        ensures plain { OnOk result ((f g : Forest T) → Is self.old f
            → IsPartPlan U.updated self.old plan.old.items root inactive.old.items g
            → Is self.new (append g (left_forest plan.old.items f (left_tops self.old plan.old.items)))) }
        ensures taken { OnOk result ((inactive.new.items ≡ []) × (plan.new.items ≡ [])) }
        ensures err { OnErr result ((self.new ≡ self.old) × (inactive.new.items ≡ inactive.old.items)
            × (plan.new.items ≡ plan.old.items)) }
    {
        let end = self.nodes.end();
        let named = marks(self.alloc, plan.as_slice(), end)?;
        let spoken = spoken_marks(self.alloc, plan.as_slice(), end)?;
        let tops = tops_beside(
            self.alloc,
            &self.nodes,
            self.root,
            self.inactive.as_slice(),
            spoken.as_slice(),
            inactive.as_slice(),
            plan.as_slice(),
        )?;
        trim_all(&mut self.nodes, named.as_slice(), spoken.as_slice());
        write_all(&mut self.nodes, plan);
        self.root = root;
        self.inactive = tops;
        inactive.clear();
        Ok(())
    }
}
