// The marks of one node, and of several.
ghost use Rattle.std.specs.Prelude.{◌≡◌, ◌&&◌, ℕ, slice_index_or, true, false, Some, None, All};
ghost use Rattle.fx_handles.specs.declared.Handle.{Handle};
ghost use Rattle.node_tree.specs.Forest.{Forest};
ghost use Rattle.node_tree.specs.Tree.{IsNode, node_at, value_at, Is};
ghost use Rattle.node_tree.specs.Edits.{KeepsHandles, WritesValue};
ghost use Rattle.node_tree.specs.Trims.{in_slot};
ghost use Rattle.tree_marks.specs.Marking.{Marking, IsMarking, at_top};
ghost use Rattle.tree_marks.specs.Marks.{mark, mark_all, sweep};
ghost use Rattle.tree_marks.specs.Ways.{OnlyMarks, SlotIsMarked, AreMarked};

use crate::climb::climb_of;
use crate::sweep::{slots_of, sweep_tree};
use fx_handles::Handle;
use node_tree::Tree;
use std::alloc::Global;

/// One kind of marks on the values of a tree's nodes: how they are set, and how far they reach.
pub trait Marks<T> {
    /// What the calls do, as definitions.
    ghost marking: { Marking T };

    /// Marks change nothing by which it is told how far they reach, and add up.
    ghost lawful: { IsMarking marking };

    /// Whether what a node comes to tells nothing above it, where nothing is above it, or its parent hides it.
    fn ends(&self, value: &T, top: bool, hidden: bool) -> bool
        ensures { result ≡ marking.ends top hidden value.now };

    /// Whether it makes no difference to the node what its children come to.
    fn hides(&self, value: &T) -> bool
        ensures { result ≡ marking.hides value.now };

    /// Whether the node asks all that is below it.
    fn asks(&self, value: &T) -> bool
        ensures { result ≡ marking.asks value.now };

    /// Whether a mark that reaches the node gives it the flag, where nothing is above it or something is.
    fn takes(&self, value: &T, top: bool) -> bool
        ensures { result ≡ marking.takes top value.now };

    /// Whether the value has both marks, so that setting marks leaves it as it is.
    fn is_marked(&self, value: &T) -> bool
        ensures { result ≡ true → marking.marked true true value.now ≡ value.now };

    /// Sets the flag, and "something below", each where it is wanted.
    fn mark(&self, value: &mut T, flag: bool, below: bool)
        ensures { value.new ≡ marking.marked flag below value.old };
}

// Whether a node of the way gets the flag.
fn gets_flag<T, M: Marks<T>>(marks: &M, value: &T, reached: bool, top: bool) -> bool
    ensures { result ≡ (reached && M.marking.takes top value.now) }
{
    reached && marks.takes(value, top)
}

// Marks one node of the way.
pub(crate) fn set_marks<T, M: Marks<T>>(
    marks: &M,
    tree: &mut Tree<T>,
    h: Handle,
    reached: bool,
    top: bool,
    below: bool,
)
    requires { IsNode tree.old h }
    ensures writes { (v : T) → value_at tree.old h ≡ Some v
        → WritesValue tree.old.nodes tree.new.nodes h (M.marking.marked (reached && M.marking.takes top v) below v) }
    ensures root { tree.new.root ≡ tree.old.root }
    ensures inactive { tree.new.inactive ≡ tree.old.inactive }
{
    let Some(value) = tree.value_mut(h) else {
        unreachable!()
    };
    let flag = gets_flag(marks, value, reached, top);
    marks.mark(value, flag, below);
}

/// Sets the marks that a change of a live node asks for: the flag up to the nearest boundary, and "something below" on every
/// node above; `also` on the node itself too. It goes up to the top twice.
pub fn mark<T, M: Marks<T>>(marks: &M, tree: &mut Tree<T>, h: Handle, also: bool)
    requires { IsNode tree.old h }
    ensures plain { (f : Forest T) → Is tree.old f → Is tree.new (mark M.marking also at_top h f) }
    ensures only { OnlyMarks M.marking tree.old tree.new }
    ensures absent { (k : Handle) → node_at tree.old k ≡ None → node_at tree.new k ≡ None }
    ensures root { tree.new.root ≡ tree.old.root }
    ensures inactive { tree.new.inactive ≡ tree.old.inactive }
    ensures handles { KeepsHandles tree.old.nodes tree.new.nodes }
{
    let climb = climb_of(marks, tree, h);
    let mut next = Some(h);
    let mut below = also;
    for i in 0..climb.steps {
        let Some(at) = next else { unreachable!() };
        next = tree.parent(at);
        set_marks(marks, tree, at, i < climb.flags, next.is_none(), below);
        below = true;
    }
}

// Marks nodes one after another.
fn mark_in_turn<T, M: Marks<T>>(marks: &M, tree: &mut Tree<T>, hs: &[Handle], also: bool)
    requires { All (IsNode tree.old) hs.now }
    ensures plain { (f : Forest T) → Is tree.old f → Is tree.new (sweep M.marking also hs.now at_top f) }
    ensures only { OnlyMarks M.marking tree.old tree.new }
    ensures absent { (k : Handle) → node_at tree.old k ≡ None → node_at tree.new k ≡ None }
    ensures root { tree.new.root ≡ tree.old.root }
    ensures inactive { tree.new.inactive ≡ tree.old.inactive }
    ensures handles { KeepsHandles tree.old.nodes tree.new.nodes }
{
    for h in hs {
        mark(marks, tree, *h, also);
    }
}

// Marks the nodes that have a mark at their slot.
fn mark_slots<T, M: Marks<T>>(
    marks: &M,
    tree: &mut Tree<T>,
    hs: &[Handle],
    slots: &[bool],
    also: bool,
)
    requires live { All (IsNode tree.old) hs.now }
    requires slots { (i : ℕ) → slice_index_or slots.now i false ≡ in_slot hs.now i }
    ensures plain { (f : Forest T) → Is tree.old f → Is tree.new (sweep M.marking also hs.now at_top f) }
    ensures only { OnlyMarks M.marking tree.old tree.new }
    ensures absent { (k : Handle) → node_at tree.old k ≡ None → node_at tree.new k ≡ None }
    ensures root { tree.new.root ≡ tree.old.root }
    ensures inactive { tree.new.inactive ≡ tree.old.inactive }
    ensures handles { KeepsHandles tree.old.nodes tree.new.nodes }
{
    sweep_tree(marks, tree, slots, also);
}

// Whether the ways up to the top from these nodes come to more steps than one way through the whole tree; they are gone up no farther
// than it takes to tell.
fn are_many<T, M: Marks<T>>(marks: &M, tree: &Tree<T>, hs: &[Handle]) -> bool
    requires { All (IsNode tree.now) hs.now }
{
    let mut steps: usize = 0;
    for h in hs {
        steps = steps.saturating_add(climb_of(marks, tree, *h).steps);
        if steps > tree.len() {
            return true;
        }
    }
    false
}

// Whether the node in a slot has both marks, where there is one.
fn is_slot_marked<T, M: Marks<T>>(marks: &M, tree: &Tree<T>, index: usize) -> bool
    ensures { result ≡ true → SlotIsMarked M.marking tree.now index }
{
    let Some(h) = tree.handle_at(index) else {
        return true;
    };
    let Some(value) = tree.value(h) else {
        unreachable!()
    };
    marks.is_marked(value)
}

// Whether each node has both marks. They are looked at slot by slot, up to the first that lacks one.
fn are_marked<T, M: Marks<T>>(marks: &M, tree: &Tree<T>) -> bool
    ensures { result ≡ true → AreMarked M.marking tree.now }
{
    for index in 0..tree.end() {
        if !is_slot_marked(marks, tree, index) {
            return false;
        }
    }
    true
}

/// Sets the marks that changes of live nodes ask for: of few nodes one after another, of many on one way through the whole tree,
/// which goes into every node once. Where all nodes have all marks nothing is done. Where there is no memory for that, which is a byte a slot, they are set one after another too.
pub fn mark_each<T, M: Marks<T>>(
    marks: &M,
    tree: &mut Tree<T>,
    alloc: Global,
    hs: &[Handle],
    also: bool,
)
    requires { All (IsNode tree.old) hs.now }
    ensures plain { (f : Forest T) → Is tree.old f → Is tree.new (sweep M.marking also hs.now at_top f) }
    ensures only { OnlyMarks M.marking tree.old tree.new }
    ensures absent { (k : Handle) → node_at tree.old k ≡ None → node_at tree.new k ≡ None }
    ensures root { tree.new.root ≡ tree.old.root }
    ensures inactive { tree.new.inactive ≡ tree.old.inactive }
    ensures handles { KeepsHandles tree.old.nodes tree.new.nodes }
{
    if !are_many(marks, tree, hs) {
        mark_in_turn(marks, tree, hs, also);
        return;
    }
    if are_marked(marks, tree) {
        return;
    }
    match slots_of(alloc, hs) {
        Ok(slots) => mark_slots(marks, tree, hs, slots.as_slice(), also),
        Err(_) => mark_in_turn(marks, tree, hs, also),
    }
}
