ghost use Rattle.std.specs.Prelude.{◌≡◌, ◌-◌, ◌≤◌};
ghost use Rattle.sliver_layout.specs.Slivers.{walk_from, view_of, walk_past};

use crate::protocol::{Geometry, SliverBounds, Walk};
use fx_geom::Axis;

impl Walk {
    /// The walk over the slivers of a viewport that is scrolled to this offset, in u.
    pub fn from_offset(offset: u64) -> Walk
        ensures { result ≡ walk_from offset }
    {
        Walk {
            left: offset,
            at: 0,
        }
    }

    /// What the next sliver gets in a viewport of this main and this cross extent, in u.
    pub fn view(self, axis: Axis, main: u64, cross: u64) -> SliverBounds
        ensures { result ≡ view_of axis main cross self }
    {
        SliverBounds {
            axis,
            offset: self.left,
            remaining: main.saturating_sub(self.at),
            cross,
        }
    }

    /// The walk past a sliver that gave this geometry, of a viewport of this main extent, in u.
    pub fn past(self, given: Geometry, main: u64) -> Walk
        requires inside { self.at ≤ main }
        requires seen { given.paint ≤ main - self.at }
        ensures value { result ≡ walk_past self given }
        ensures offset { result.left ≤ self.left }
        ensures inside { result.at ≤ main }
    {
        Walk {
            left: self.left.saturating_sub(given.scroll),
            at: self.at + given.paint,
        }
    }
}
