// Parts of a group with the kept layers in their places.
ghost use Rattle.std.specs.Prelude.{◌≡◌, [], map, IfOk};
ghost use Rattle.handle_shelf.specs.Shelf.{kept_at};
ghost use Rattle.layer_tree.specs.View.{item_of};
ghost use Rattle.kept_layers.specs.GroupPart.{fill};
ghost use Rattle.kept_layers.specs.KeptLayers.{filled, or_nil};
ghost use Rattle.paint_owner.specs.View.{part_of};

use crate::boundary_shelf::BoundaryShelf;
use crate::parts::PaintPart;
use draw_records::Record;
use fx_expr::Txt;
use fx_handles::Handle;
use layer_tree::{Item, ItemList, Layer, LayerKind};
use std::alloc::{AllocError, Global};

// A copy of a record.
fn copy_record(alloc: Global, record: &Record) -> Result<Record, AllocError>
    ensures { IfOk result (λ r. r ≡ record.now) }
{
    match record {
        Record::Fill { rect, color } => Ok(Record::Fill {
            rect: *rect,
            color: *color,
        }),
        Record::Run { at, color, text } => {
            let text = Txt::of(String::from_str(alloc, text.get())?);
            Ok(Record::Run {
                at: *at,
                color: *color,
                text,
            })
        }
    }
}

// The layer that is kept for a boundary, shared; an empty one where none is.
fn kept_items(
    alloc: Global,
    wholes: &BoundaryShelf<ItemList>,
    h: Handle,
) -> Result<ItemList, AllocError>
    ensures { IfOk result (λ l. l ≡ or_nil (kept_at wholes.now h)) }
{
    match wholes.get(h) {
        Some(items) => items.share(),
        None => ItemList::of(alloc, Vec::new(alloc)),
    }
}

// A part with its places filled.
#[cycle(filling)]
fn filled_part(
    alloc: Global,
    part: &PaintPart,
    wholes: &BoundaryShelf<ItemList>,
) -> Result<Item, AllocError>
    ensures { IfOk result (λ i. item_of i ≡ fill (λ k. or_nil (kept_at wholes.now k)) (part_of part.now)) }
{
    match part {
        PaintPart::Record(record) => Ok(Item::Record(copy_record(alloc, record)?)),
        PaintPart::Layer(layer) => {
            let items = filled_parts(alloc, layer.parts.get(), wholes)?;
            Ok(Item::Layer(Layer {
                kind: layer.kind,
                items: ItemList::of(alloc, items)?,
            }))
        }
        PaintPart::Place(h, at) => Ok(Item::Layer(Layer {
            kind: LayerKind::Offset(*at),
            items: kept_items(alloc, wholes, *h)?,
        })),
    }
}

// Parts with their places filled: each nested layer is shared, and what is in none is copied.
#[cycle(filling)]
pub(crate) fn filled_parts(
    alloc: Global,
    parts: &[PaintPart],
    wholes: &BoundaryShelf<ItemList>,
) -> Result<Vec<Item>, AllocError>
    ensures { IfOk result (λ is. map item_of is.items ≡ filled (λ k. kept_at wholes.now k) (map part_of parts.now)) }
{
    let mut items = Vec::new(alloc);
    for part in parts {
        items.push(filled_part(alloc, part, wholes)?)?;
    }
    Ok(items)
}
