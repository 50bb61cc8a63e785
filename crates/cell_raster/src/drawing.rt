// What is drawn of layers, in paint order.
ghost use Rattle.std.specs.Prelude.{◌≡◌, ◌++◌, map, IfOk, OnOk};
ghost use Rattle.fx_geom.specs.Offset.{origin};
ghost use Rattle.layer_tree.specs.LayerItem.{nested, items_of};
ghost use Rattle.layer_tree.specs.View.{item_of};
ghost use Rattle.cell_raster.specs.Drawing.{placed, place_in, clip_in, drawings_of, drawings_in, frame_drawings};
ghost use Rattle.cell_raster.specs.Seen.{seen};

use crate::area::{Area, clipped_to};
use draw_records::Record;
use fx_geom::{Offset, Rect};
use layer_tree::{Item, Layer, LayerKind};
use std::alloc::{AllocError, Global};

// A record of a layer, with the place of its layer in the view and the clip around it.
#[derive(Clone, Copy)]
pub(crate) struct Drawn<'a> {
    pub what: &'a Record,
    pub at: Offset,
    pub clip: Option<Area>,
}

// Where what stands in a layer is placed.
fn place_in(kind: LayerKind, at: Offset) -> Offset
    ensures { result ≡ place_in kind at }
{
    match kind {
        LayerKind::Offset(by) | LayerKind::Opacity(by, _) => at.plus(by),
        LayerKind::Clip(_) => at,
    }
}

// The clip around what stands in a layer.
fn clip_in(kind: LayerKind, at: Offset, clip: Option<Area>) -> Option<Area>
    ensures { result ≡ clip_in kind at clip }
{
    match kind {
        LayerKind::Offset(_) | LayerKind::Opacity(..) => clip,
        LayerKind::Clip(rect) => Some(clipped_to(clip, Area::of(placed(at, rect)))),
    }
}

// A rectangle of a layer that stands at a place.
pub(crate) fn placed(at: Offset, rect: Rect) -> Rect
    ensures { result ≡ placed at rect }
{
    Rect {
        at: at.plus(rect.at),
        size: rect.size,
    }
}

// Adds what is drawn of an item, whose layer stands at a place with a clip around it.
#[cycle(gathering)]
fn gather_item<'a>(
    item: &'a Item,
    at: Offset,
    clip: Option<Area>,
    out: &mut Vec<Drawn<'a>>,
) -> Result<(), AllocError>
    ensures { OnOk result (map seen out.new.items ≡ map seen out.old.items ++ drawings_of (item_of item.now) at clip) }
{
    match item {
        Item::Record(record) => {
            out.push(Drawn {
                what: record,
                at,
                clip,
            })?;
            Ok(())
        }
        Item::Layer(layer) => gather_layer(layer, at, clip, out),
    }
}

// Adds what is drawn of a layer.
#[cycle(gathering)]
fn gather_layer<'a>(
    layer: &'a Layer,
    at: Offset,
    clip: Option<Area>,
    out: &mut Vec<Drawn<'a>>,
) -> Result<(), AllocError>
    ensures { OnOk result (map seen out.new.items ≡ map seen out.old.items ++ drawings_of (nested layer.now.kind (items_of layer.now.items)) at clip) }
{
    let place = place_in(layer.kind, at);
    let inner = clip_in(layer.kind, at, clip);
    gather_items(layer.items.get(), place, inner, out)
}

// Adds what is drawn of items of one layer.
#[cycle(gathering)]
fn gather_items<'a>(
    items: &'a [Item],
    at: Offset,
    clip: Option<Area>,
    out: &mut Vec<Drawn<'a>>,
) -> Result<(), AllocError>
    ensures { OnOk result (map seen out.new.items ≡ map seen out.old.items ++ drawings_in (items_of (map item_of items.now)) at clip) }
{
    for item in items {
        gather_item(item, at, clip, out)?;
    }
    Ok(())
}

// What is drawn of a frame's layers, in paint order.
pub(crate) fn drawings<'a>(alloc: Global, root: &'a Layer) -> Result<Vec<Drawn<'a>>, AllocError>
    ensures { IfOk result (λ drawn. map seen drawn.items ≡ frame_drawings root.now) }
{
    let mut drawn = Vec::new(alloc);
    gather_layer(root, Offset::ZERO, None, &mut drawn)?;
    Ok(drawn)
}
