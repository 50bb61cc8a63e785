// The walk that paints a laid tree.
ghost use Rattle.std.specs.Prelude.{◌≡◌, ◌++◌, [], map, IfOk, OnOk};
ghost use Rattle.delegates.specs.Table.{entries_of, meant_in};
ghost use Rattle.layer_tree.specs.LayerItem.{drawn};
ghost use Rattle.layer_tree.specs.View.{item_of};
ghost use Rattle.plain_paint.specs.Layering.{set_aside, begun, ended};
ghost use Rattle.screen_form.specs.OwnRecords.{own_records};
ghost use Rattle.widget_model.specs.View.{look_in};
ghost use Rattle.screen_form.specs.Painted.{painted, layer_of};

use delegates::{Delegate, DelegateTable};
use draw_records::Record;
use fx_geom::{Offset, Scale};
use kind_paint::{paint_role, point_below, push_own};
use layer_tree::{Item, ItemList, Layer, LayerKind};
use plain_tree::{Frame, LaidNode};
use screen_form::PaintRole;
use std::alloc::{AllocError, Global};
use std::mem;
use widget_model::Kind;

// Adds records that are drawn.
fn push_records(records: Vec<Record>, items: &mut Vec<Item>) -> Result<(), AllocError>
    ensures { OnOk result (map item_of items.new.items ≡ map item_of items.old.items ++ map drawn records.items) }
{
    for record in records {
        items.push(Item::Record(record))?;
    }
    Ok(())
}

// Adds what a node of each kind draws.
fn push_drawn(
    alloc: Global,
    kind: &Kind,
    frame: Frame,
    at: Offset,
    scale: Scale,
    table: &DelegateTable,
    items: &mut Vec<Item>,
) -> Result<(), AllocError>
    ensures { OnOk result (map item_of items.new.items ≡ map item_of items.old.items ++ map drawn (own_records scale.cell
        (meant_in table.now ⟦<dyn Delegate as Delegate>⟧) (look_in kind.now) frame at)) }
{
    let mut records = Vec::new(alloc);
    push_own(alloc, kind, frame, at, scale, table, &mut records)?;
    push_records(records, items)
}

// Begins a layer where there is one of its own: what stands before it is set aside.
fn begin(alloc: Global, role: PaintRole, items: &mut Vec<Item>) -> Vec<Item>
    ensures aside { map item_of result.items ≡ set_aside role (map item_of items.old.items) }
    ensures begun { map item_of items.new.items ≡ begun role (map item_of items.old.items) }
{
    match role {
        PaintRole::Layers(_) => mem::replace(items, Vec::new(alloc)),
        PaintRole::Passes | PaintRole::Hides => Vec::new(alloc),
    }
}

// Ends a layer where there is one of its own: it stands after what was set aside.
fn end(
    alloc: Global,
    role: PaintRole,
    aside: Vec<Item>,
    items: &mut Vec<Item>,
) -> Result<(), AllocError>
    ensures { OnOk result (map item_of items.new.items ≡ ended role (map item_of aside.items) (map item_of items.old.items)) }
{
    match role {
        PaintRole::Layers(kind) => {
            let inside = ItemList::of(alloc, mem::replace(items, aside))?;
            let layer = Layer {
                kind,
                items: inside,
            };
            items.push(Item::Layer(layer))?;
            Ok(())
        }
        PaintRole::Passes | PaintRole::Hides => Ok(()),
    }
}

// Paints a node at a point, and what is below it.
fn paint_node(
    alloc: Global,
    node: &LaidNode,
    at: Offset,
    scale: Scale,
    table: &DelegateTable,
    items: &mut Vec<Item>,
) -> Result<(), AllocError>
    ensures { OnOk result (map item_of items.new.items ≡ map item_of items.old.items ++ painted scale.cell
        (meant_in table.now ⟦<dyn Delegate as Delegate>⟧) node.now at) }
{
    let kind = &node.widget.kind;
    let frame = node.facts.frame;
    let children = node.children.as_slice();
    push_drawn(alloc, kind, frame, at, scale, table, items)?;
    let role = paint_role(kind, frame, !children.is_empty(), at);
    if role == PaintRole::Hides {
        return Ok(());
    }
    let from = point_below(role, at);
    let aside = begin(alloc, role, items);
    for child in children {
        paint_node(alloc, &child.node, from.plus(child.at), scale, table, items)?;
    }
    end(alloc, role, aside, items)
}

/// The layer of a frame: an offset layer at (0,0) with all that is painted of a laid tree, where the table's delegates draw
/// the boxes that name them. The table is that of the layout. It takes time in the nodes, records and texts.
pub fn paint(
    alloc: Global,
    root: &LaidNode,
    scale: Scale,
    table: &DelegateTable,
) -> Result<Layer, AllocError>
    ensures { IfOk result (λ l. l ≡ layer_of scale.cell
        (meant_in table.now ⟦<dyn Delegate as Delegate>⟧) root.now) }
{
    let mut items = Vec::new(alloc);
    paint_node(alloc, root, Offset::ZERO, scale, table, &mut items)?;
    Ok(Layer {
        kind: LayerKind::Offset(Offset::ZERO),
        items: ItemList::of(alloc, items)?,
    })
}
