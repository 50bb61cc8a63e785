// What is written of a node and its children.
ghost use Rattle.std.specs.Prelude.{◌≡◌, ◌↔◌, ◌+◌, ◌<◌, ◌^◌, slice_index_or, option_map, IsTrue, Some, true, false};
ghost use Rattle.fx_geom.specs.Offset.{origin};
ghost use Rattle.node_tree.specs.Forest.{Forest};
ghost use Rattle.node_tree.specs.Forest.Forest.{none, tree};
ghost use Rattle.node_tree.specs.Tree.{IsNode};
ghost use Rattle.layout_form.specs.Framed.{last_asks};
ghost use Rattle.kind_rules.specs.Few.{items_of};
ghost use Rattle.render_tree.specs.Edits.{Changes};
ghost use Rattle.render_tree.specs.LayoutState.{with_layout_state};
ghost use Rattle.layout_walk.specs.Node.{LayoutNode};
ghost use Rattle.layout_walk.specs.Walk.{stand_all};
ghost use Rattle.layout_rules.specs.Nodes.{SeenAt};
ghost use Rattle.layout_rules.specs.Painting.{place_in, Moves};
ghost use Rattle.layout_rules.specs.Reads.{state_at, put_at, past_in};
ghost use Rattle.layout_rules.specs.Turns.{Turns};

use crate::reading::{asked_at, child_at};
use fx_geom::Offset;
use fx_handles::Handle;
use kind_rules::Few;
use layout_form::Ask;
use render_tree::RenderTree;

// Whether this offset is stored.
fn is_there(stored: Option<Offset>, at: Offset) -> bool
    ensures { IsTrue result ↔ (stored ≡ Some at) }
{
    match stored {
        Some(o) => o.x == at.x && o.y == at.y,
        None => false,
    }
}

// Whether a node comes to stand elsewhere, comes into the window or goes out of it, where it is to stand at a place, or, where none is
// given, out of the window.
fn moves(r: &RenderTree, h: Handle, at: Option<Offset>) -> bool
    ensures still { result ≡ false → place_in (put_at at (state_at r.now.tree h)) ≡ place_in (state_at r.now.tree h) }
    ensures moved { result ≡ true → place_in (put_at at (state_at r.now.tree h)) ≡ place_in (state_at r.now.tree h) → ⊥ }
{
    let shown = r.shown(h);
    match at {
        None => shown,
        Some(place) => !shown || !is_there(r.offset(h), place),
    }
}

// A node is put at a place, or, where none is given, out of the window; whether that is something else than before. Where it isn't,
// nothing is written.
pub(crate) fn stand(r: &mut RenderTree, h: Handle, at: Option<Offset>) -> bool
    ensures stands { result ≡ true → Changes r.old.tree r.new.tree h (with_layout_state (put_at at (state_at r.old.tree h))) }
    ensures stays { result ≡ false → r.new.tree ≡ r.old.tree }
    ensures still { result ≡ false → place_in (put_at at (state_at r.old.tree h)) ≡ place_in (state_at r.old.tree h) }
    ensures moved { result ≡ true → place_in (put_at at (state_at r.old.tree h)) ≡ place_in (state_at r.old.tree h) → ⊥ }
    ensures scale { r.new.scale ≡ r.old.scale }
    ensures spent { r.new.spent ≡ r.old.spent }
{
    if !moves(r, h, at) {
        return false;
    }
    r.set_standing(h, at);
    true
}

// The place of a child that is asked.
fn place_if(ask: Option<Ask>, at: Offset) -> Option<Offset>
    ensures { result ≡ option_map (λ ask. at) ask }
{
    match ask {
        None => None,
        Some(_) => Some(at),
    }
}

// How many places are taken, with that of a child that is asked.
fn past(ask: Option<Ask>, j: usize) -> usize
    requires { j + 1 < 2 ^ 64 }
    ensures { result ≡ past_in ask j }
{
    match ask {
        None => j,
        Some(_) => j + 1,
    }
}

fn place_at(places: &[Offset], i: usize) -> Offset
    ensures { result ≡ slice_index_or places.now i origin }
{
    match places.get(i) {
        None => Offset { x: 0, y: 0 },
        Some(at) => *at,
    }
}

// The children that are asked stand at these places, one after another, and the others aren't in the window; whether one of them
// didn't stand so before.
pub(crate) fn stand_all(
    r: &mut RenderTree,
    h: Handle,
    first: &Few<Option<Ask>>,
    rest: &Few<Option<Ask>>,
    places: &[Offset],
) -> bool
    requires { IsNode r.old.tree h }
    ensures stands { (v : LayoutNode) (kids : Forest LayoutNode) → SeenAt r.old.tree h (tree h v kids none)
        → Turns r.old.tree r.new.tree h (tree h v kids none) (tree h v (stand_all (last_asks (items_of first.now) (items_of rest.now)) places.now kids) none) }
    ensures moves { Moves r.old.tree r.new.tree h result }
    ensures scale { r.new.scale ≡ r.old.scale }
    ensures spent { r.new.spent ≡ r.old.spent }
{
    r.tree().count_laws();
    let mut moved = false;
    let mut j = 0;
    for i in 0..r.children(h).len() {
        let child = child_at(r, h, i);
        let ask = asked_at(first, rest, i);
        let here = stand(r, child, place_if(ask, place_at(places, j)));
        moved |= here;
        j = past(ask, j);
    }
    moved
}
