// Which cells of a grid lie in an area.
ghost use Rattle.std.specs.Prelude.{◌≡◌, ◌≤◌, ◌<◌, ◌+◌, ◌*◌, ◌/◌, ◌^◌, ◌||◌, ℕ, pos, int_lt, nat_le, nat_lt};
ghost use Rattle.fx_geom.specs.Size.{HasLengths};
ghost use Rattle.cell_raster.specs.Painted.{IsBlock};

use crate::area::Area;
use fx_geom::Size;

// The cells from a column and a row on, before a column and a row that hold none of them.
#[derive(Clone, Copy)]
pub(crate) struct Block {
    pub left: usize,
    pub top: usize,
    pub right: usize,
    pub bottom: usize,
}

impl Block {
    // The cells, among so many columns and rows, whose middles lie in an area.
    pub(crate) fn of(cell: Size, area: Area, columns: usize, rows: usize) -> Block
        requires width { 1 ≤ cell.w }
        requires height { 1 ≤ cell.h }
        requires size { HasLengths cell }
        ensures { IsBlock result cell area columns rows }
    {
        Block {
            left: places_before(cell.w, area.left, columns),
            top: places_before(cell.h, area.top, rows),
            right: places_before(cell.w, area.right, columns),
            bottom: places_before(cell.h, area.bottom, rows),
        }
    }

    // Whether no cell lies in the block.
    pub(crate) fn is_empty(self) -> bool
        ensures { result ≡ (nat_le self.right self.left || nat_le self.bottom self.top) }
    {
        self.right <= self.left || self.bottom <= self.top
    }
}

// Cells of an extent stand side by side from 0 on: how many of the first ones have their middle before an edge.
fn places_before(extent: u64, edge: i128, count: usize) -> usize
    requires some { 1 ≤ extent }
    requires length { extent ≤ 2 ^ 40 }
    ensures before { (k : ℕ) → k < count → nat_lt k result ≡ int_lt (pos (k * extent + extent / 2)) edge }
    ensures most { result ≤ count }
{
    let first = (extent / 2) as i128;
    if edge <= first {
        return 0;
    }
    let last = (edge - first - 1).unsigned_abs() / extent as u128;
    if last < count as u128 {
        last as usize + 1
    } else {
        count
    }
}
