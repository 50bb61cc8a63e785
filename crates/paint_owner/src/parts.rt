ghost use Rattle.std.specs.Prelude.{◌≡◌, map};
ghost use Rattle.paint_owner.specs.View.{part_of};

use draw_records::Record;
use fx_geom::Offset;
use fx_handles::Handle;
use layer_tree::LayerKind;
use std::marker::Model;

/// A part of what a repaint boundary shows: a record, a layer with its own parts, or the place of a boundary that is nested in
/// it, at its offset.
#[cycle(parts)]
#[derive(Drop)]
pub enum PaintPart {
    Record(Record),
    Layer(PartLayer),
    Place(Handle, Offset),
}

/// A layer in a group: what it does, and the parts that stand in it.
#[cycle(parts)]
#[derive(Drop)]
pub struct PartLayer {
    pub kind: LayerKind,
    pub parts: PartList,
}

/// The parts of a group or of a layer in it. Contracts see them as their list.
#[cycle(parts)]
#[derive(Drop)]
pub struct PartList {
    parts: Vec<PaintPart>,
}

impl Model for PartList {
    ghost use Rattle.std.specs.Prelude.{List, map};
    ghost use Rattle.kept_layers.specs.GroupPart.{GroupPart};
    ghost use Rattle.paint_owner.specs.PartCode.{coded_parts, weight};

    ghost Value = { List GroupPart };

    ghost coded = { coded_parts };

    ghost use Rattle.paint_owner.specs.View.{part_of};

    ghost view = { λ a. map part_of a.parts.items };

    ghost size = { weight };

    ghost use Rattle.paint_owner.specs.Lighter.{lighter};

    ghost size_decreases = { λ a h. lighter a.parts.items };
}

impl PartList {
    /// The list that holds these parts.
    pub fn of(parts: Vec<PaintPart>) -> PartList
        ensures { result ≡ map part_of parts.items }
    {
        PartList { parts }
    }

    /// The parts, lent.
    pub fn get(&self) -> &[PaintPart]
        ensures { map part_of result.now ≡ self.now }
    {
        self.parts.as_slice()
    }
}
