// Areas of the view, and the middles of cells.
ghost use Rattle.std.specs.Prelude.{◌≡◌, ◌≤◌, ◌<◌, ◌^◌};
ghost use Rattle.std.specs.Int.{int_min, int_max};
ghost use Rattle.fx_geom.specs.Size.{HasLengths};
ghost use Rattle.cell_raster.specs.Area.{middle_of, area_of, common, clipped_to};
ghost use Rattle.cell_raster.specs.CellGrid.{max_cells};
ghost use Rattle.cell_raster.specs.Painted.{line_of};

use fx_geom::{Offset, Rect, Size};

// The middle of a cell in the view, in u. Half a u is left away, which no edge of an area can tell, since all edges are
// whole.
#[derive(Clone, Copy)]
pub(crate) struct CellMiddle {
    pub x: u64,
    pub y: u64,
}

impl CellMiddle {
    // The middle of the cell in a column and a row.
    pub(crate) fn of(cell: Size, column: u64, row: u64) -> CellMiddle
        requires cell { HasLengths cell }
        requires column { column ≤ max_cells }
        requires row { row ≤ max_cells }
        ensures { result ≡ middle_of cell column row }
    {
        CellMiddle {
            x: column * cell.w + cell.w / 2,
            y: row * cell.h + cell.h / 2,
        }
    }
}

// An area of the view, in u: the left and the top edge are in it, the right and the bottom one aren't.
#[derive(Clone, Copy)]
pub(crate) struct Area {
    pub left: i128,
    pub top: i128,
    pub right: i128,
    pub bottom: i128,
}

impl Area {
    // The area of a rectangle.
    pub(crate) fn of(rect: Rect) -> Area
        ensures { result ≡ area_of rect }
    {
        let left = rect.at.x as i128;
        let top = rect.at.y as i128;
        Area {
            left,
            top,
            right: left + rect.size.w as i128,
            bottom: top + rect.size.h as i128,
        }
    }

    // What two areas have in common (`Rect.intersect`).
    pub(crate) fn common(self, other: Area) -> Area
        ensures { result ≡ common self other }
    {
        Area {
            left: greater(self.left, other.left),
            top: greater(self.top, other.top),
            right: less(self.right, other.right),
            bottom: less(self.bottom, other.bottom),
        }
    }
}

// The greater of two sides, and the less.
fn greater(a: i128, b: i128) -> i128
    ensures { result ≡ int_max a b }
{
    if b < a { a } else { b }
}

fn less(a: i128, b: i128) -> i128
    ensures { result ≡ int_min a b }
{
    if a < b { a } else { b }
}

// A clip within the clip around it, where there is one.
pub(crate) fn clipped_to(clip: Option<Area>, area: Area) -> Area
    ensures { result ≡ clipped_to clip area }
{
    match clip {
        None => area,
        Some(outer) => outer.common(area),
    }
}

// The area on which a run that stands at a place can be seen: its line, from there on. Every middle lies left of its
// right edge.
pub(crate) fn line_of(cell: Size, at: Offset) -> Area
    ensures { result ≡ line_of cell at }
{
    let top = at.y as i128;
    Area {
        left: at.x as i128,
        top,
        right: 1 << 64,
        bottom: top + cell.h as i128,
    }
}
