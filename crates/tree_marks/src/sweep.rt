// The marks of many nodes, set on one way through the whole tree.
ghost use Rattle.std.specs.Prelude.{◌≡◌, ◌&&◌, ◌||◌, ◌∷◌, [], ℕ, slice_index_or, not, false, IfOk};
ghost use Rattle.std.specs.Option.{option_to_list};
ghost use Rattle.node_tree.specs.Tree.{IsNode, IsTree, children_at, tops_at};
ghost use Rattle.node_tree.specs.Trims.{in_slot};
ghost use Rattle.tree_marks.specs.Marking.{at_top, within, is_boundary};
ghost use Rattle.tree_marks.specs.Sweep.{above_of, in_slots, SweepsTrees};

use crate::marks::{Marks, set_marks};
use fx_handles::Handle;
use node_tree::Tree;
use std::alloc::{AllocError, Global};

// What a node has above it.
#[derive(Clone, Copy)]
pub(crate) struct AboveNode {
    pub(crate) top: bool,
    pub(crate) hidden: bool,
    pub(crate) asked: bool,
}

// What was met on the way through a part of a tree: whether a climb from a named node comes out at its top, and whether a named
// node stands in it.
#[derive(Clone, Copy)]
pub(crate) struct MetBelow {
    pub(crate) climbs: bool,
    pub(crate) listed: bool,
}

// Up to the last slot of a list.
fn end_of(hs: &[Handle]) -> usize {
    let mut end: usize = 0;
    for h in hs {
        end = end.max(h.index.saturating_add(1));
    }
    end
}

// A mark for the slot of each handle of a list.
pub(crate) fn slots_of(alloc: Global, hs: &[Handle]) -> Result<Vec<bool>, AllocError>
    ensures { IfOk result (λ slots. (i : ℕ) → slice_index_or slots.items i false ≡ in_slot hs.now i) }
{
    let end = end_of(hs);
    let mut slots = vec![in alloc; false; end]?;
    for h in hs {
        let index = h.index;
        if index >= slots.len() {
            return Err(AllocError);
        }
        slots[index] = true;
    }
    Ok(slots)
}

// Whether the slot of a handle has a mark.
fn is_named(slots: &[bool], h: Handle) -> bool
    ensures { result ≡ in_slots slots.now h }
{
    match slots.get(h.index) {
        Some(mark) => *mark,
        None => false,
    }
}

// What was met in two parts.
fn both(a: MetBelow, b: MetBelow) -> MetBelow
    ensures climbs { result.climbs ≡ (a.climbs || b.climbs) }
    ensures listed { result.listed ≡ (a.listed || b.listed) }
{
    MetBelow {
        climbs: a.climbs || b.climbs,
        listed: a.listed || b.listed,
    }
}

// What the children of a node have above them.
fn place_within<T, M: Marks<T>>(marks: &M, value: &T, place: AboveNode) -> AboveNode
    ensures { above_of result ≡ within M.marking (above_of place) value.now }
{
    AboveNode {
        top: false,
        hidden: marks.hides(value),
        asked: place.asked || marks.asks(value),
    }
}

// Whether a climb that reaches a node goes on above it.
fn goes_on<T, M: Marks<T>>(marks: &M, value: &T, place: AboveNode) -> bool
    ensures { result ≡ not (is_boundary M.marking (above_of place) value.now) }
{
    place.asked || !marks.ends(value, place.top, place.hidden)
}

// Whether a mark reaches a node below which this was met.
fn reaches(found: MetBelow, named: bool) -> bool
    ensures { result ≡ (named || found.climbs) }
{
    named || found.climbs
}

// Whether it has "something below".
fn has_below(found: MetBelow, also: bool, named: bool) -> bool
    ensures { result ≡ (found.listed || (also && named)) }
{
    found.listed || (also && named)
}

// What was met, with the node itself.
fn with_node(found: MetBelow, named: bool, rising: bool) -> MetBelow
    ensures climbs { result.climbs ≡ ((named || found.climbs) && rising) }
    ensures listed { result.listed ≡ (named || found.listed) }
{
    MetBelow {
        climbs: (named || found.climbs) && rising,
        listed: named || found.listed,
    }
}

// A live node, with all that is below it.
#[cycle(sweeping)]
fn sweep_at<T, M: Marks<T>>(
    marks: &M,
    tree: &mut Tree<T>,
    slots: &[bool],
    also: bool,
    h: Handle,
    place: AboveNode,
) -> MetBelow
    requires { IsNode tree.old h }
    ensures { SweepsTrees M.marking also (in_slots slots.now) (above_of place) (h ∷ []) tree.old tree.new result }
{
    Tree::<T>::walk_laws();
    Tree::<T>::child_laws();
    // Tells the proof that this is a tree.
    let _ = tree.root();
    let Some(value) = tree.value(h) else {
        unreachable!()
    };
    let below = place_within(marks, value, place);
    let rising = goes_on(marks, value, place);
    let found = sweep_below(marks, tree, slots, also, h, below);
    let named = is_named(slots, h);
    set_marks(
        marks,
        tree,
        h,
        reaches(found, named),
        place.top,
        has_below(found, also, named),
    );
    with_node(found, named, rising)
}

// What is below a node.
#[cycle(sweeping)]
fn sweep_below<T, M: Marks<T>>(
    marks: &M,
    tree: &mut Tree<T>,
    slots: &[bool],
    also: bool,
    h: Handle,
    place: AboveNode,
) -> MetBelow
    ensures { SweepsTrees M.marking also (in_slots slots.now) (above_of place) (children_at tree.old h) tree.old tree.new result }
{
    let mut found = MetBelow {
        climbs: false,
        listed: false,
    };
    for i in 0..tree.children(h).len() {
        let child = tree.children(h)[i];
        let more = sweep_at(marks, tree, slots, also, child, place);
        found = both(found, more);
    }
    found
}

// The root's tree.
fn sweep_root<T, M: Marks<T>>(
    marks: &M,
    tree: &mut Tree<T>,
    slots: &[bool],
    also: bool,
    place: AboveNode,
) -> MetBelow
    ensures { SweepsTrees M.marking also (in_slots slots.now) (above_of place) (option_to_list tree.old.root) tree.old tree.new result }
{
    match tree.root() {
        Some(h) => sweep_at(marks, tree, slots, also, h, place),
        None => MetBelow {
            climbs: false,
            listed: false,
        },
    }
}

// The inactive subtrees.
fn sweep_inactive<T, M: Marks<T>>(
    marks: &M,
    tree: &mut Tree<T>,
    slots: &[bool],
    also: bool,
    place: AboveNode,
) -> MetBelow
    ensures { SweepsTrees M.marking also (in_slots slots.now) (above_of place) tree.old.inactive tree.old tree.new result }
{
    let mut found = MetBelow {
        climbs: false,
        listed: false,
    };
    for i in 0..tree.inactive().len() {
        let top = tree.inactive()[i];
        let more = sweep_at(marks, tree, slots, also, top, place);
        found = both(found, more);
    }
    found
}

// The whole tree.
pub(crate) fn sweep_tree<T, M: Marks<T>>(marks: &M, tree: &mut Tree<T>, slots: &[bool], also: bool)
    ensures tree { IsTree tree.old }
    ensures sweeps { (found : MetBelow) × SweepsTrees M.marking also (in_slots slots.now) at_top (tops_at tree.old) tree.old tree.new found }
{
    let place = AboveNode {
        top: true,
        hidden: false,
        asked: false,
    };
    // Tells the proof that this is a tree.
    let _ = tree.root();
    sweep_root(marks, tree, slots, also, place);
    sweep_inactive(marks, tree, slots, also, place);
}
