// The cells of a grid.
ghost use Rattle.std.specs.Prelude.{◌≡◌, ◌*◌, ◌≤◌, ◌<◌, ◌↔◌, IsTrue, IfOk, map};
ghost use Rattle.std.specs.List.{range_with_len};
ghost use Rattle.fx_geom.specs.Size.{HasLengths};
ghost use Rattle.cell_raster.specs.Cell.{empty};
ghost use Rattle.cell_raster.specs.CellGrid.{max_cells, grid_cells};
ghost use Rattle.cell_raster.specs.Seen.{seen};
ghost use Rattle.cell_raster.specs.View.{rows_in};

use crate::cell::Cell;
use crate::drawing::Drawn;
use crate::shown::draw;
use fx_geom::Size;
use std::alloc::{AllocError, Global};

/// So many cells a grid has at most.
pub const CELLS_MAX: u128 = 65_536;

// Whether a grid would have too many cells.
pub(crate) fn is_too_large(columns: u64, rows: u64) -> bool
    ensures { IsTrue result ↔ (max_cells < columns * rows) }
{
    columns as u128 * rows as u128 > CELLS_MAX
}

// A row of cells on which nothing is drawn.
fn empty_row(alloc: Global, columns: u64) -> Result<Vec<Cell>, AllocError>
    ensures { IfOk result (λ cells. cells.items ≡ map (λ column. empty) (range_with_len 0 columns)) }
{
    let mut cells = Vec::with_capacity(alloc, columns as usize)?;
    for _column in 0..columns {
        cells.push(Cell::empty())?;
    }
    Ok(cells)
}

// Rows of cells on which nothing is drawn.
fn empty_rows(alloc: Global, columns: u64, rows: u64) -> Result<Vec<Vec<Cell>>, AllocError>
    ensures { IfOk result (λ cells. rows_in cells.items ≡ map (λ row. map (λ column. empty) (range_with_len 0 columns)) (range_with_len 0 rows)) }
{
    let mut cells = Vec::with_capacity(alloc, rows as usize)?;
    for _row in 0..rows {
        cells.push(empty_row(alloc, columns)?)?;
    }
    Ok(cells)
}

// What the cells of all rows show: each drawing in its turn is drawn on the cells that it covers.
pub(crate) fn grid_cells(
    alloc: Global,
    cell: Size,
    drawn: &[Drawn<'_>],
    columns: u64,
    rows: u64,
) -> Result<Vec<Vec<Cell>>, AllocError>
    requires width { 1 ≤ cell.w }
    requires height { 1 ≤ cell.h }
    requires size { HasLengths cell }
    requires room { columns * rows ≤ max_cells }
    ensures { IfOk result (λ cells. rows_in cells.items ≡ grid_cells cell (map seen drawn.now) columns rows) }
{
    let mut cells = empty_rows(alloc, columns, rows)?;
    for one in drawn {
        draw(alloc, cell, *one, columns as usize, cells.as_mut_slice())?;
    }
    Ok(cells)
}
