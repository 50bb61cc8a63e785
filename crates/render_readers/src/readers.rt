// What is read off a tree of render nodes.
ghost use Rattle.std.specs.Prelude.{◌≡◌, true, [], option_map, option_and_then, IfOk, OnOk, OnErr};
ghost use Rattle.render_tree.specs.Object.{object_look};
ghost use Rattle.render_tree.specs.Tree.{object_at};
ghost use Rattle.screen_form.specs.FocusOrder.{focus_order_of};
ghost use Rattle.screen_form.specs.Hits.{hits_of};
ghost use Rattle.screen_form.specs.Members.{handler_in, members_of};
ghost use Rattle.screen_form.specs.Remarks.{notes_of};
ghost use Rattle.screen_form.specs.Semantics.{semantics_of};
ghost use Rattle.semantics_tree.specs.View.{sem_of};
ghost use Rattle.render_readers.specs.Places.{laid_at};
ghost use Rattle.render_readers.specs.Shown.{shown_laid, read_off};

use crate::place::ObjectPlace;
use crate::remarks::notes_from;
use focus_order::order_from;
use fx_expr::Handler;
use fx_geom::Offset;
use fx_handles::Handle;
use gesture_arena::{Gesture, Member};
use hit_testing::{hit_members_from, hit_path_from};
use render_tree::RenderTree;
use screen_form::Note;
use semantics_tree::{SemNode, semantics_from};
use std::alloc::{AllocError, Global};

// The place of the root, once it was laid out.
fn shown(r: &RenderTree) -> Option<ObjectPlace<'_>>
    ensures { option_map (λ p. laid_at p.tree.now.tree p.at) result ≡ shown_laid r.now.tree }
{
    let Some(root) = r.root() else {
        return None;
    };
    let Some(object) = r.object(root) else {
        unreachable!()
    };
    if object.frame().is_none() {
        return None;
    }
    Some(ObjectPlace::new(r, root, object))
}

// Whether it is known that nothing is remarked of any node.
fn is_quiet(r: &RenderTree) -> bool
    ensures { result ≡ true → read_off notes_of (shown_laid r.now.tree) ≡ [] }
{
    // Tells the proof that the root stands in its tree.
    let _ = r.root();
    !r.is_remarked()
}

/// Replaces `out` by the numbers of the nodes that a point of the view, in u, meets, the deepest first. Before the first
/// layout it meets none. After want of memory `out` is as before. It takes time in the nodes that are in the window.
pub fn hit_path(
    alloc: Global,
    r: &RenderTree,
    at: Offset,
    out: &mut Vec<u64>,
) -> Result<(), AllocError>
    ensures ok { OnOk result (out.new.items ≡ read_off (λ l. hits_of l at) (shown_laid r.now.tree)) }
    ensures err { OnErr result (out.new.items ≡ out.old.items) }
{
    match shown(r) {
        Some(root) => hit_path_from(alloc, root, at, out),
        None => {
            out.clear();
            Ok(())
        }
    }
}

/// The members of the arena of a pointer that goes down at a point of the view, in u: for each Detector of the hit path,
/// the deepest first, one for each handler that it has, in the order tap, long, vertical, horizontal, pan. Before the first
/// layout there are none. It takes time in the nodes that are in the window.
pub fn hit_members(alloc: Global, r: &RenderTree, at: Offset) -> Result<Vec<Member>, AllocError>
    ensures { IfOk result (λ ms. ms.items ≡ read_off (λ l. members_of l at) (shown_laid r.now.tree)) }
{
    match shown(r) {
        Some(root) => hit_members_from(alloc, root, at),
        None => Ok(Vec::new(alloc)),
    }
}

/// The handler that a node has for a gesture; only a Detector has any. `None` also where the handle isn't live.
pub fn handler_of(r: &RenderTree, h: Handle, gesture: Gesture) -> Option<&Handler>
    ensures { option_map (λ x. x.now) result ≡ option_and_then (λ o. handler_in (object_look o) gesture) (object_at r.now.tree h) }
{
    let Some(widget) = r.widget(h) else {
        return None;
    };
    hit_testing::handler_of(&widget.kind, gesture)
}

/// The semantics tree: a node for the view, whose number is 0, and below it a node for each Semantics that is a container,
/// each Detector that does a tap or a long press, and each MergeSemantics, but for what is hidden. `None` exactly before the
/// first layout. It takes time in the nodes that are in the window and in the labels that are joined.
pub fn semantics(alloc: Global, r: &RenderTree) -> Result<Option<SemNode>, AllocError>
    ensures { IfOk result (λ tree. option_map sem_of tree ≡ option_map semantics_of (shown_laid r.now.tree)) }
{
    match shown(r) {
        Some(root) => Ok(Some(semantics_from(alloc, root)?)),
        None => Ok(None),
    }
}

/// Replaces `out` by the numbers of the detectors with a tap that are laid out and shown, in the order of reading: from
/// above, then from the left, then by number. Before the first layout there are none. It takes n log n steps for n nodes in
/// the window. After want of memory `out` is as before.
pub fn order(alloc: Global, r: &RenderTree, out: &mut Vec<u64>) -> Result<(), AllocError>
    ensures ok { OnOk result (out.new.items ≡ read_off focus_order_of (shown_laid r.now.tree)) }
    ensures err { OnErr result (out.new.items ≡ out.old.items) }
{
    match shown(r) {
        Some(root) => order_from(alloc, root, out),
        None => {
            out.clear();
            Ok(())
        }
    }
}

/// What the layout remarks, in preorder of the nodes in the window; of one node first that it is unbounded. Before the first
/// layout there is nothing. It takes time in these nodes, and none where no layout remarked anything.
pub fn notes(alloc: Global, r: &RenderTree) -> Result<Vec<Note>, AllocError>
    ensures { IfOk result (λ ns. ns.items ≡ read_off notes_of (shown_laid r.now.tree)) }
{
    if is_quiet(r) {
        return Ok(Vec::new(alloc));
    }
    match shown(r) {
        Some(root) => notes_from(alloc, root),
        None => Ok(Vec::new(alloc)),
    }
}
