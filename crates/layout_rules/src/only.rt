// Boxes whose rule knows one child, and that have one: no list is made for them.
ghost use Rattle.std.specs.Prelude.{◌≡◌, ◌∷◌, [], ◌<◌, true, OnOk, IfOk, IfSome, List, Some};
ghost use Rattle.delegates.specs.Table.{meant_in};
ghost use Rattle.fx_geom.specs.Size.{HasLengths};
ghost use Rattle.fx_geom.specs.declared.boxes.Bounds.{Bounds as BoundsOf};
ghost use Rattle.node_tree.specs.Forest.{size};
ghost use Rattle.node_tree.specs.Tree.{IsNode, children_at, subtree_at};
ghost use Rattle.plain_tree.specs.Shown.{box_size};
ghost use Rattle.plain_tree.specs.declared.render.ParentData.{ParentData};
ghost use Rattle.layout_form.specs.declared.asks.Ask.TheVariants.{AsBox};
ghost use Rattle.layout_form.specs.Fits.{FitsLayout, CanBeLaidOut};
ghost use Rattle.layout_form.specs.Object.{setting_of};
ghost use Rattle.kind_rules.specs.Cursor.{look_of};
ghost use Rattle.kind_rules.specs.Single.{is_single};
ghost use Rattle.layout_walk.specs.Node.{frame_or};
ghost use Rattle.layout_rules.specs.Only.{AsksOne, HasOne};
ghost use Rattle.layout_rules.specs.Listing.{ListsChange};
ghost use Rattle.layout_rules.specs.Places.{render_at};
ghost use Rattle.layout_rules.specs.Reads.{state_at};
ghost use Rattle.layout_rules.specs.Serving.{IsSeen, RunsAs};

use crate::cursor::RenderCursor;
use crate::duties::Course;
use crate::ending::{NO_NOTES, note, store_made};
use crate::reading::{is_marked, state_at, stored_frame};
use crate::writing::stand;
use delegates::{Delegate, DelegateTable};
use fx_geom::Bounds;
use fx_handles::Handle;
use fx_outside::Steps;
use kind_rules::{Cursor, inner_bounds, is_single, liked_for, single_made};
use layout_form::Ask;
use plain_tree::Frame;
use render_tree::RenderTree;
use std::alloc::{AllocError, Global};
use std::sync::ledger::Ledger;

// The child of a node, if there is one and no other.
fn only_child(r: &RenderTree, h: Handle) -> Option<Handle>
    ensures one { IfSome result (λ child. children_at r.now.tree h ≡ child ∷ []) }
    ensures smaller { IfSome result (λ child. size (subtree_at r.now.tree child) < size (subtree_at r.now.tree h)) }
{
    let children = r.children(h);
    if children.len() != 1 {
        return None;
    }
    Some(children[0])
}

// The bounds in which the child of a box is asked, where the rule of its kind knows one.
fn bounds_below(
    alloc: Global,
    r: &RenderTree,
    h: Handle,
    b: Bounds,
    table: &DelegateTable,
) -> Result<Option<Bounds>, AllocError>
    requires live { IsNode r.now.tree h }
    requires fits { CanBeLaidOut (render_at r.now.tree h) }
    ensures { IfOk result (λ o. IfSome o (λ inner. AsksOne (setting_of r.now.scale (meant_in table.now ⟦<dyn Delegate as Delegate>⟧)) (render_at r.now.tree h) b inner)) }
{
    let cursor = RenderCursor::new(r, h);
    let kind = cursor.kind();
    if !is_single(kind) {
        return Ok(None);
    }
    let liked = liked_for(alloc, kind, Ask::AsBox(b), cursor, r.scale())?;
    Ok(Some(inner_bounds(kind, b, liked, r.scale(), table)))
}

// A child, the bounds of the box around it, and those in which it is asked.
#[derive(Clone, Copy)]
pub(crate) struct Only {
    pub child: Handle,
    pub bounds: Bounds,
    pub inner: Bounds,
}

// The child of a box whose rule is run, where it has one, and its rule knows one.
pub(crate) fn only_at(
    alloc: Global,
    r: &RenderTree,
    h: Handle,
    course: Course,
    table: &DelegateTable,
) -> Result<Option<Only>, AllocError>
    requires live { IsNode r.now.tree h }
    requires fits { CanBeLaidOut (render_at r.now.tree h) }
    ensures { IfOk result (λ o. IfSome o (λ only. HasOne (setting_of r.now.scale (meant_in table.now ⟦<dyn Delegate as Delegate>⟧)) r.now.tree h course only.child only.bounds only.inner)) }
{
    let Course::Run(Ask::AsBox(bounds)) = course else {
        return Ok(None);
    };
    let Some(child) = only_child(r, h) else {
        return Ok(None);
    };
    let Some(inner) = bounds_below(alloc, r, h, bounds, table)? else {
        return Ok(None);
    };
    Ok(Some(Only {
        child,
        bounds,
        inner,
    }))
}

// What the rule of such a box makes of the size of its child is stored, and the child is put at its place.
pub(crate) fn run_only<L: Ledger>(
    r: &mut RenderTree,
    h: Handle,
    only: Only,
    table: &DelegateTable,
    changed: &mut Vec<Handle>,
    steps: &mut Steps<L>,
) -> Result<(), AllocError>
    requires live { IsNode r.old.tree h }
    requires seen { IsSeen r.old.tree h }
    requires one { children_at r.old.tree h ≡ only.child ∷ [] }
    requires single { is_single (look_of (render_at r.old.tree h)) ≡ true }
    requires members { FitsLayout (look_of (render_at r.old.tree h)) }
    requires size { HasLengths (box_size (frame_or (state_at r.old.tree only.child).frame)) }
    ensures ends { OnOk result ((inner : BoundsOf) (ds : List ParentData) → RunsAs (setting_of r.old.scale (meant_in table.now ⟦<dyn Delegate as Delegate>⟧)) (AsBox only.bounds) ds
        (Some (AsBox inner) ∷ []) (Some (AsBox inner) ∷ []) r.old.tree r.new.tree h steps.old steps.new) }
    ensures changes { OnOk result (ListsChange r.old.tree r.new.tree h changed.old.items changed.new.items steps.old steps.new) }
    ensures scale { r.new.scale ≡ r.old.scale }
    ensures spent { r.new.spent ≡ r.old.spent }
{
    r.tree().count_laws();
    let scale = r.scale();
    let mut state = state_at(r, h);
    let cursor = RenderCursor::new(r, h);
    let kind = cursor.kind();
    let below = stored_frame(r, only.child).box_size();
    let made = single_made(kind, only.bounds, below, scale, table);
    let frame = Frame::Boxed {
        bounds: only.bounds,
        size: made.size,
    };
    let remade = store_made(&mut state, kind, frame, NO_NOTES, 0, scale, table);
    let moved = stand(r, only.child, Some(made.place));
    note(changed, h, remade | moved)?;
    state.layout_below = is_marked(r, only.child);
    r.set_layout_state(h, state);
    steps.tick();
    Ok(())
}
