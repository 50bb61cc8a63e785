// The walk that paints a part of the tree with all its boundaries.
ghost use Rattle.std.specs.Prelude.{◌≡◌, ◌++◌, ◌+◌, map, OnOk};
ghost use Rattle.delegates.specs.Table.{entries_of, meant_in};
ghost use Rattle.layer_tree.specs.LayerItem.{drawn};
ghost use Rattle.layer_tree.specs.View.{item_of};
ghost use Rattle.node_tree.specs.Forest.{below};
ghost use Rattle.node_tree.specs.Tree.{IsNode, Holds, subtree_at};
ghost use Rattle.render_tree.specs.Object.{object_look};
ghost use Rattle.render_tree.specs.Plain.{frame_or, laid_of, laids_of};
ghost use Rattle.screen_form.specs.OwnRecords.{own_records};
ghost use Rattle.screen_form.specs.Painted.{has_child, painted_all};
ghost use Rattle.kept_layers.specs.Group.{role_of};
ghost use Rattle.paint_owner.specs.Grouping.{items_aside, items_begun, items_ended};
ghost use Rattle.paint_owner.specs.Whole.{painted_at, shown_count, whole_count};

use crate::group::{frame_of, has_shown, object_of, place_of};
use delegates::{Delegate, DelegateTable};
use draw_records::Record;
use fx_geom::Offset;
use fx_handles::Handle;
use fx_outside::Steps;
use kind_paint::{paint_role, point_below, push_own};
use layer_tree::{Item, ItemList, Layer};
use node_tree::Tree;
use render_tree::{RenderObject, RenderTree};
use screen_form::PaintRole;
use std::alloc::{AllocError, Global};
use std::mem;
use std::sync::ledger::Ledger;

// Adds records that are drawn.
fn push_items(records: Vec<Record>, items: &mut Vec<Item>) -> Result<(), AllocError>
    ensures { OnOk result (map item_of items.new.items ≡ map item_of items.old.items ++ map drawn records.items) }
{
    for record in records {
        items.push(Item::Record(record))?;
    }
    Ok(())
}

// Adds what a node at a point draws.
fn push_drawn(
    alloc: Global,
    tree: &RenderTree,
    object: &RenderObject,
    at: Offset,
    table: &DelegateTable,
    items: &mut Vec<Item>,
) -> Result<(), AllocError>
    ensures { OnOk result (map item_of items.new.items ≡ map item_of items.old.items
        ++ map drawn (own_records tree.now.scale.cell (meant_in table.now ⟦<dyn Delegate as Delegate>⟧) (object_look object.now) (frame_or object.now.frame) at)) }
{
    let mut records = Vec::new(alloc);
    push_own(
        alloc,
        &object.widget().kind,
        frame_of(object),
        at,
        tree.scale(),
        table,
        &mut records,
    )?;
    push_items(records, items)
}

// How painting goes on below a node at a point, of which this is stored.
fn role_at(tree: &RenderTree, h: Handle, object: &RenderObject, at: Offset) -> PaintRole
    requires { Holds tree.now.tree h }
    ensures { result ≡ role_of object.now (has_child (laids_of (below (subtree_at tree.now.tree h)))) at }
{
    paint_role(
        &object.widget().kind,
        frame_of(object),
        has_shown(tree, h),
        at,
    )
}

// Begins a layer where there is one of its own: what stands before it is set aside.
fn begin_items(alloc: Global, role: PaintRole, items: &mut Vec<Item>) -> Vec<Item>
    ensures aside { map item_of result.items ≡ items_aside role (map item_of items.old.items) }
    ensures begun { map item_of items.new.items ≡ items_begun role (map item_of items.old.items) }
{
    match role {
        PaintRole::Layers(_) => mem::replace(items, Vec::new(alloc)),
        PaintRole::Passes | PaintRole::Hides => Vec::new(alloc),
    }
}

// Ends a layer where there is one of its own: it stands after what was set aside.
fn end_items(
    alloc: Global,
    role: PaintRole,
    aside: Vec<Item>,
    items: &mut Vec<Item>,
) -> Result<(), AllocError>
    ensures { OnOk result (map item_of items.new.items ≡ items_ended role (map item_of aside.items) (map item_of items.old.items)) }
{
    match role {
        PaintRole::Layers(kind) => {
            let inside = ItemList::of(alloc, mem::replace(items, aside))?;
            let layer = Layer {
                kind,
                items: inside,
            };
            items.push(Item::Layer(layer))?;
            Ok(())
        }
        PaintRole::Passes | PaintRole::Hides => Ok(()),
    }
}

// Paints what is below a node, from a point on.
fn paint_shown<L: Ledger>(
    alloc: Global,
    tree: &RenderTree,
    h: Handle,
    from: Offset,
    table: &DelegateTable,
    items: &mut Vec<Item>,
    paints: &mut Steps<L>,
) -> Result<(), AllocError>
    requires { Holds tree.now.tree h }
    ensures items { OnOk result (map item_of items.new.items ≡ map item_of items.old.items
        ++ painted_all tree.now.scale.cell (meant_in table.now ⟦<dyn Delegate as Delegate>⟧) (laids_of (below (subtree_at tree.now.tree h))) from) }
    ensures paints { OnOk result (paints.new ≡ paints.old + shown_count (below (subtree_at tree.now.tree h))) }
{
    Tree::<RenderObject>::child_laws();
    let children = tree.children(h);
    for child in children {
        let child = *child;
        let object = object_of(tree, child);
        if !object.shown() {
            continue;
        }
        let at = place_of(object, from);
        push_drawn(alloc, tree, object, at, table, items)?;
        paints.tick();
        let role = role_at(tree, child, object, at);
        if role == PaintRole::Hides {
            continue;
        }
        let aside = begin_items(alloc, role, items);
        paint_shown(
            alloc,
            tree,
            child,
            point_below(role, at),
            table,
            items,
            paints,
        )?;
        end_items(alloc, role, aside, items)?;
    }
    Ok(())
}

/// Adds what is painted of a live node at a point, with all that is below it, whatever is kept: the items of its laid tree, where
/// the table's delegates draw the boxes that name them. Each node that is painted counts one step.
pub fn paint_one<L: Ledger>(
    alloc: Global,
    tree: &RenderTree,
    h: Handle,
    at: Offset,
    table: &DelegateTable,
    out: &mut Vec<Item>,
    paints: &mut Steps<L>,
) -> Result<(), AllocError>
    requires { IsNode tree.now.tree h }
    ensures items { OnOk result (map item_of out.new.items ≡ map item_of out.old.items
        ++ painted_at tree.now.scale.cell (meant_in table.now ⟦<dyn Delegate as Delegate>⟧) (laid_of (subtree_at tree.now.tree h)) at) }
    ensures paints { OnOk result (paints.new ≡ paints.old + whole_count (subtree_at tree.now.tree h)) }
{
    Tree::<RenderObject>::walk_laws();
    Tree::<RenderObject>::child_laws();
    // Tells the proof that this is a tree.
    let _ = tree.root();
    let object = object_of(tree, h);
    push_drawn(alloc, tree, object, at, table, out)?;
    paints.tick();
    let role = role_at(tree, h, object, at);
    if role == PaintRole::Hides {
        return Ok(());
    }
    let aside = begin_items(alloc, role, out);
    let from = point_below(role, at);
    paint_shown(alloc, tree, h, from, table, out, paints)?;
    end_items(alloc, role, aside, out)?;
    Ok(())
}
