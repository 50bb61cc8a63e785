// The walk that finds, by the marks, what is to be done again.
ghost use Rattle.std.specs.Prelude.{◌≡◌, ◌++◌, ◌∷◌, [], ◌&&◌, ◌||◌, not, Some, IfOk, OnOk, if◌then◌else◌};
ghost use Rattle.node_tree.specs.Tree.{Holds, subtree_at};
ghost use Rattle.render_tree.specs.Tree.{object_at};
ghost use Rattle.kept_layers.specs.Group.{is_boundary, opens};
ghost use Rattle.kept_layers.specs.KeptLayers.{IsMarked};
ghost use Rattle.kept_layers.specs.Steps.{stale};
ghost use Rattle.paint_owner.specs.Settled.{is_entered};
ghost use Rattle.paint_owner.specs.Finding.{flagged, quiet, inner_of, seen_of, both_seen};

use crate::group::{frame_of, is_boundary, object_of};
use fx_geom::Offset;
use fx_handles::Handle;
use kind_paint::paint_role;
use node_tree::Tree;
use render_tree::{RenderObject, RenderTree};
use screen_form::PaintRole;
use std::alloc::{AllocError, Global};

// What is found: the stale boundaries, nested ones first, the painted nodes with a flag, and those that lose their mark.
#[derive(Drop)]
pub(crate) struct DueNodes {
    pub(crate) stale: Vec<Handle>,
    pub(crate) flagged: Vec<Handle>,
    pub(crate) quiet: Vec<Handle>,
}

// What is seen of a part of the tree: whether a boundary of it is stale, and whether one of its tops is left with a flag or a mark.
#[derive(Clone, Copy)]
pub(crate) struct SeenBelow {
    pub(crate) stale: bool,
    pub(crate) left: bool,
}

impl DueNodes {
    // Nothing is found.
    pub(crate) fn new(alloc: Global) -> DueNodes
        ensures stale { result.stale.items ≡ [] }
        ensures flagged { result.flagged.items ≡ [] }
        ensures quiet { result.quiet.items ≡ [] }
    {
        DueNodes {
            stale: Vec::new(alloc),
            flagged: Vec::new(alloc),
            quiet: Vec::new(alloc),
        }
    }
}

// What is seen of two parts.
fn both_seen(a: SeenBelow, b: SeenBelow) -> SeenBelow
    ensures { result ≡ both_seen a b }
{
    SeenBelow {
        stale: a.stale || b.stale,
        left: a.left || b.left,
    }
}

// Whether what is below a node is seen where the node is.
fn opens(object: &RenderObject) -> bool
    ensures { result ≡ opens object.now }
{
    paint_role(&object.widget().kind, frame_of(object), false, Offset::ZERO) != PaintRole::Hides
}

// Whether something below a painted node may be flagged, where it is known whether it is seen there.
fn is_entered(object: &RenderObject, is_open: bool) -> bool
    requires { is_open ≡ opens object.now }
    ensures { result ≡ is_entered object.now }
{
    object.shown() && is_open && object.paint_below()
}

// Whether a node in the window is a stale boundary, where a boundary below it is stale or not.
fn is_stale(object: &RenderObject, inner: bool) -> bool
    ensures { result ≡ (is_boundary object.now && (object.now.needs_paint || inner)) }
{
    is_boundary(object) && (object.needs_paint() || inner)
}

// Adds a node in the window of which this is stored, and below which this was seen, and what is seen of both.
fn push_found(
    h: Handle,
    object: &RenderObject,
    is_open: bool,
    inner: SeenBelow,
    found: &mut DueNodes,
) -> Result<SeenBelow, AllocError>
    requires { is_open ≡ opens object.now }
    ensures stale { OnOk result (found.new.stale.items
        ≡ found.old.stale.items ++ (if is_boundary object.now && (object.now.needs_paint || inner.stale) then h ∷ [] else [])) }
    ensures flagged { OnOk result (found.new.flagged.items
        ≡ found.old.flagged.items ++ (if object.now.needs_paint then h ∷ [] else [])) }
    ensures quiet { OnOk result (found.new.quiet.items
        ≡ found.old.quiet.items ++ (if is_entered object.now && not inner.left then h ∷ [] else [])) }
    ensures seen { IfOk result (λ s. s ≡ record
        { stale = inner.stale || (is_boundary object.now && (object.now.needs_paint || inner.stale)); left = object.now.paint_below && (not (opens object.now) || inner.left) }) }
{
    let stale = is_stale(object, inner.stale);
    if stale {
        found.stale.push(h)?;
    }
    if object.needs_paint() {
        found.flagged.push(h)?;
    }
    if is_entered(object, is_open) && !inner.left {
        found.quiet.push(h)?;
    }
    Ok(SeenBelow {
        stale: inner.stale || stale,
        left: object.paint_below() && (!is_open || inner.left),
    })
}

// What is found below a node of which this is stored, where it is entered.
#[cycle(finding)]
fn find_below(
    tree: &RenderTree,
    h: Handle,
    object: &RenderObject,
    is_open: bool,
    found: &mut DueNodes,
) -> Result<SeenBelow, AllocError>
    requires holds { Holds tree.now.tree h }
    requires stored { object_at tree.now.tree h ≡ Some object.now }
    requires is_open { is_open ≡ opens object.now }
    requires marked { IsMarked (subtree_at tree.now.tree h) }
    ensures stale { OnOk result (found.new.stale.items ≡ found.old.stale.items ++ stale (inner_of (subtree_at tree.now.tree h))) }
    ensures flagged { OnOk result (found.new.flagged.items ≡ found.old.flagged.items ++ flagged (inner_of (subtree_at tree.now.tree h))) }
    ensures quiet { OnOk result (found.new.quiet.items ≡ found.old.quiet.items ++ quiet (inner_of (subtree_at tree.now.tree h))) }
    ensures seen { IfOk result (λ s. s ≡ seen_of (inner_of (subtree_at tree.now.tree h))) }
{
    Tree::<RenderObject>::child_laws();
    let mut seen = SeenBelow {
        stale: false,
        left: false,
    };
    if !is_entered(object, is_open) {
        return Ok(seen);
    }
    let children = tree.children(h);
    for child in children {
        let here = find(tree, *child, found)?;
        seen = both_seen(seen, here);
    }
    Ok(seen)
}

// What is found at a node and below it.
#[cycle(finding)]
pub(crate) fn find(
    tree: &RenderTree,
    h: Handle,
    found: &mut DueNodes,
) -> Result<SeenBelow, AllocError>
    requires holds { Holds tree.now.tree h }
    requires marked { IsMarked (subtree_at tree.now.tree h) }
    ensures stale { OnOk result (found.new.stale.items ≡ found.old.stale.items ++ stale (subtree_at tree.now.tree h)) }
    ensures flagged { OnOk result (found.new.flagged.items ≡ found.old.flagged.items ++ flagged (subtree_at tree.now.tree h)) }
    ensures quiet { OnOk result (found.new.quiet.items ≡ found.old.quiet.items ++ quiet (subtree_at tree.now.tree h)) }
    ensures seen { IfOk result (λ s. s ≡ seen_of (subtree_at tree.now.tree h)) }
{
    Tree::<RenderObject>::child_laws();
    let object = object_of(tree, h);
    if !object.shown() {
        return Ok(SeenBelow {
            stale: false,
            left: object.needs_paint() || object.paint_below(),
        });
    }
    let is_open = opens(object);
    let inner = find_below(tree, h, object, is_open, found)?;
    let seen = push_found(h, object, is_open, inner, found)?;
    Ok(seen)
}
