// The parts of a group as they are kept.
ghost use Rattle.std.specs.Prelude.{◌≡◌, map, false, IfOk};
ghost use Rattle.handle_shelf.specs.Shelf.{kept_at};
ghost use Rattle.kept_layers.specs.KeptLayers.{filled};
ghost use Rattle.paint_owner.specs.KeptParts.{unfilled, has_place, any_place};
ghost use Rattle.paint_owner.specs.View.{part_of};

use crate::boundary_shelf::BoundaryShelf;
use crate::filling::filled_parts;
use crate::parts::{PaintPart, PartList};
use layer_tree::ItemList;
use std::alloc::{AllocError, Global};
use std::marker::Model;

// One list for the parts and for the layer where no boundary is nested, and else the parts alone.
#[derive(Drop)]
pub(crate) enum StoredParts {
    Closed(ItemList),
    Open(PartList),
}

/// The parts of a group as they are kept from one frame to the next. Contracts see them as their list.
#[derive(Drop)]
pub struct KeptGroup {
    stored: StoredParts,
}

impl Model for KeptGroup {
    ghost use Rattle.std.specs.Prelude.{List};
    ghost use Rattle.kept_layers.specs.GroupPart.{GroupPart};
    ghost use Rattle.paint_owner.specs.PartCode.{coded_parts};
    ghost use Rattle.paint_owner.specs.KeptParts.{parts_in};

    ghost Value = { List GroupPart };

    ghost coded = { coded_parts };

    ghost view = { λ a. parts_in a.stored };
}

// Whether a place stands in a part.
#[cycle(placing)]
fn has_place(part: &PaintPart) -> bool
    ensures { result ≡ has_place (part_of part.now) }
{
    match part {
        PaintPart::Record(_) => false,
        PaintPart::Layer(layer) => any_place(layer.parts.get()),
        PaintPart::Place(_, _) => true,
    }
}

// Whether a place stands in some part.
#[cycle(placing)]
fn any_place(parts: &[PaintPart]) -> bool
    ensures { result ≡ any_place (map part_of parts.now) }
{
    for part in parts {
        if has_place(part) {
            return true;
        }
    }
    false
}

impl KeptGroup {
    // Parts to be kept, and the items of the layer that they give with the nested layers: one list for both where none is nested.
    pub(crate) fn of(parts: Vec<PaintPart>, items: &ItemList) -> Result<KeptGroup, AllocError>
        requires { any_place (map part_of parts.items) ≡ false → map unfilled items.now ≡ map part_of parts.items }
        ensures { IfOk result (λ k. k ≡ map part_of parts.items) }
    {
        let stored = if any_place(parts.as_slice()) {
            StoredParts::Open(PartList::of(parts))
        } else {
            StoredParts::Closed(items.share()?)
        };
        Ok(KeptGroup { stored })
    }

    // The items of the layer that the parts give with the nested layers.
    pub(crate) fn items(
        &self,
        alloc: Global,
        wholes: &BoundaryShelf<ItemList>,
    ) -> Result<ItemList, AllocError>
        ensures { IfOk result (λ l. l ≡ filled (kept_at wholes.now) self.now) }
    {
        match &self.stored {
            StoredParts::Closed(items) => items.share(),
            StoredParts::Open(parts) => {
                ItemList::of(alloc, filled_parts(alloc, parts.get(), wholes)?)
            }
        }
    }
}
