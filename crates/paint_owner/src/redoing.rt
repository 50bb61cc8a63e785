// Stale boundaries that are done again, and the root's own parts.
ghost use Rattle.std.specs.Prelude.{◌≡◌, ◌+◌, map, Some, true, IfOk, OnOk};
ghost use Rattle.delegates.specs.Table.{entries_of, meant_in};
ghost use Rattle.handle_shelf.specs.Shelf.{kept_at, with_kept};
ghost use Rattle.node_tree.specs.Forest.{below};
ghost use Rattle.node_tree.specs.Tree.{Holds, subtree_at};
ghost use Rattle.kept_layers.specs.KeptLayers.{filled, or_nil};
ghost use Rattle.kept_layers.specs.Steps.{redo, redo_all, counted, is_listed};
ghost use Rattle.kept_layers.specs.Top.{root_parts};
ghost use Rattle.paint_owner.specs.View.{part_of};
ghost use Rattle.paint_owner.specs.PaintOwner.{kept_in};
ghost use Rattle.paint_owner.specs.Settled.{IsRootShown};
ghost use Rattle.paint_owner.specs.Finding.{told, cost, root_count};

use crate::boundary_shelf::BoundaryShelf;
use crate::filling::filled_parts;
use crate::group::{begin, end, entered, object_of, paint_below, push_part, tick_own};
use crate::kept_parts::KeptGroup;
use crate::parts::PaintPart;
use delegates::{Delegate, DelegateTable};
use fx_geom::Offset;
use fx_handles::Handle;
use fx_outside::Steps;
use kind_paint::point_below;
use layer_tree::ItemList;
use node_tree::Tree;
use render_tree::{RenderObject, RenderTree};
use screen_form::PaintRole;
use std::alloc::{AllocError, Global};
use std::sync::ledger::Ledger;

// The items of the layer that is kept for a boundary, put together anew from the parts that are kept.
fn kept_whole(
    alloc: Global,
    h: Handle,
    parts: &BoundaryShelf<KeptGroup>,
    wholes: &BoundaryShelf<ItemList>,
) -> Result<ItemList, AllocError>
    ensures { IfOk result (λ l. l ≡ filled (kept_at wholes.now) (or_nil (kept_at parts.now h))) }
{
    match parts.get(h) {
        Some(kept) => kept.items(alloc, wholes),
        None => ItemList::of(alloc, Vec::new(alloc)),
    }
}

// Parts that were painted, with the items of the layer that they give.
pub(crate) fn stored(
    alloc: Global,
    parts: Vec<PaintPart>,
    wholes: &BoundaryShelf<ItemList>,
) -> Result<(KeptGroup, ItemList), AllocError>
    ensures parts { IfOk result (λ p. p.0 ≡ map part_of parts.items) }
    ensures items { IfOk result (λ p. p.1 ≡ filled (kept_at wholes.now) (map part_of parts.items)) }
{
    let items = ItemList::of(alloc, filled_parts(alloc, parts.as_slice(), wholes)?)?;
    let kept = KeptGroup::of(parts, &items)?;
    Ok((kept, items))
}

// Keeps parts and a layer for a boundary.
fn keep(
    h: Handle,
    kept: KeptGroup,
    items: ItemList,
    parts: &mut BoundaryShelf<KeptGroup>,
    wholes: &mut BoundaryShelf<ItemList>,
) -> Result<(), AllocError>
    ensures parts { OnOk result ((k : Handle) → kept_at parts.new k ≡ with_kept h kept (kept_at parts.old) k) }
    ensures wholes { OnOk result ((k : Handle) → kept_at wholes.new k ≡ with_kept h items (kept_at wholes.old) k) }
{
    parts.put(h, kept)?;
    wholes.put(h, items)
}

// Does one stale boundary again: its group is painted anew where it is flagged, and its layer put together anew.
fn redo<L: Ledger>(
    alloc: Global,
    tree: &RenderTree,
    h: Handle,
    table: &DelegateTable,
    parts: &mut BoundaryShelf<KeptGroup>,
    wholes: &mut BoundaryShelf<ItemList>,
    paints: &mut Steps<L>,
) -> Result<(), AllocError>
    requires { Holds tree.now.tree h }
    ensures kept { OnOk result (kept_in parts.new wholes.new
        ≡ redo (told tree.now.scale.cell (meant_in table.now ⟦<dyn Delegate as Delegate>⟧) tree.now.tree) h (kept_in parts.old wholes.old)) }
    ensures paints { OnOk result (paints.new ≡ paints.old + cost tree.now.tree h) }
{
    if tree.needs_paint(h) {
        paints.tick();
        let mut group = Vec::new(alloc);
        paint_below(alloc, tree, h, Offset::ZERO, table, &mut group, paints)?;
        let (kept, items) = stored(alloc, group, wholes)?;
        keep(h, kept, items, parts, wholes)?;
        return Ok(());
    }
    let items = kept_whole(alloc, h, parts, wholes)?;
    wholes.put(h, items)?;
    Ok(())
}

// Does stale boundaries again, one after another.
pub(crate) fn redo_all<L: Ledger>(
    alloc: Global,
    tree: &RenderTree,
    hs: &[Handle],
    table: &DelegateTable,
    parts: &mut BoundaryShelf<KeptGroup>,
    wholes: &mut BoundaryShelf<ItemList>,
    paints: &mut Steps<L>,
) -> Result<(), AllocError>
    requires { (k : Handle) → is_listed k hs.now ≡ true → Holds tree.now.tree k }
    ensures kept { OnOk result (kept_in parts.new wholes.new
        ≡ redo_all (told tree.now.scale.cell (meant_in table.now ⟦<dyn Delegate as Delegate>⟧) tree.now.tree) hs.now (kept_in parts.old wholes.old)) }
    ensures paints { OnOk result (paints.new ≡ paints.old + counted (cost tree.now.tree) hs.now) }
{
    for h in hs {
        redo(alloc, tree, *h, table, parts, wholes, paints)?;
    }
    Ok(())
}

// The root's own parts, painted anew.
pub(crate) fn root_parts<L: Ledger>(
    alloc: Global,
    tree: &RenderTree,
    h: Handle,
    table: &DelegateTable,
    paints: &mut Steps<L>,
) -> Result<Vec<PaintPart>, AllocError>
    requires holds { Holds tree.now.tree h }
    requires shown { IsRootShown (subtree_at tree.now.tree h) }
    ensures parts { IfOk result (λ ps. map part_of ps.items
        ≡ root_parts tree.now.scale.cell (meant_in table.now ⟦<dyn Delegate as Delegate>⟧) (subtree_at tree.now.tree h)) }
    ensures paints { OnOk result (paints.new ≡ paints.old + root_count (subtree_at tree.now.tree h)) }
{
    Tree::<RenderObject>::child_laws();
    let mut parts = Vec::new(alloc);
    let object = object_of(tree, h);
    push_part(alloc, tree, h, object, Offset::ZERO, table, &mut parts)?;
    tick_own(object, paints);
    let role = entered(tree, h, object, Offset::ZERO);
    if role == PaintRole::Hides {
        return Ok(parts);
    }
    let aside = begin(alloc, role, &mut parts);
    let from = point_below(role, Offset::ZERO);
    paint_below(alloc, tree, h, from, table, &mut parts, paints)?;
    end(role, aside, &mut parts)?;
    Ok(parts)
}
