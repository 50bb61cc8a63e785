// What the rule of a kind gives to a node.
ghost use Rattle.std.specs.Prelude.{◌≡◌, []};
ghost use Rattle.fx_geom.specs.Bounds.{smallest};
ghost use Rattle.layout_form.specs.Frames.{sized_with};
ghost use Rattle.kind_rules.specs.Few.{items_of};
ghost use Rattle.kind_rules.specs.Ruling.{ruling_of, box_ruling, sliver_ruling};

use crate::few::Few;
use fx_geom::{Bounds, Offset, Size};
use plain_tree::{Frame, Notes};
use sliver_layout::{Geometry, SliverBounds};

/// Its frame, its notes, where a Viewport stands scrolled, in u, and the places of the children that have answered, in order.
#[derive(Drop)]
pub struct Made {
    pub frame: Frame,
    pub notes: Notes,
    pub scrolled: u64,
    pub places: Few<Offset>,
}

// A box of this size with children at these places, and nothing to remark.
pub(crate) fn sized(bounds: Bounds, size: Size, places: Few<Offset>) -> Made
    ensures { ruling_of result ≡ box_ruling bounds (sized_with size (items_of places)) }
{
    Made {
        frame: Frame::Boxed { bounds, size },
        notes: Notes::default(),
        scrolled: 0,
        places,
    }
}

// A box of the least size, without children.
pub(crate) fn bare(bounds: Bounds) -> Made
    ensures { ruling_of result ≡ box_ruling bounds (sized_with (smallest bounds) []) }
{
    sized(bounds, bounds.smallest(), Few::Empty)
}

// A sliver that gives this, with children at these places.
pub(crate) fn passed(bounds: SliverBounds, geometry: Geometry, places: Few<Offset>) -> Made
    ensures { ruling_of result ≡ sliver_ruling bounds (record { geometry = geometry; places = items_of places }) }
{
    Made {
        frame: Frame::Sliver { bounds, geometry },
        notes: Notes::default(),
        scrolled: 0,
        places,
    }
}
