// What drawings leave in the cells of a grid.
ghost use Rattle.std.specs.Prelude.{◌≡◌, ◌+◌, ◌-◌, ◌*◌, ◌/◌, ◌≤◌, ◌<◌, ◌∷◌, ℕ, List, true, IfOk, OnOk, Some, length, pos, ◌-ℤ◌, unsigned_abs};
ghost use Rattle.fx_geom.specs.Size.{HasLengths};
ghost use Rattle.unicode_segmentation.specs.Grapheme.{graphemes};
ghost use Rattle.cell_raster.specs.declared.cell.Glyph.TheVariants.{Part};
ghost use Rattle.cell_raster.specs.Area.{middle_of};
ghost use Rattle.cell_raster.specs.CellGrid.{max_cells};
ghost use Rattle.cell_raster.specs.Laws.{AllHave};
ghost use Rattle.cell_raster.specs.Painted.{LiesOn, reach, rows_drawn, row_filled, row_written, block_rows};
ghost use Rattle.cell_raster.specs.Seen.{seen};
ghost use Rattle.cell_raster.specs.Shown.{inked};
ghost use Rattle.cell_raster.specs.Stretch.{within, changed};
ghost use Rattle.cell_raster.specs.View.{rows_in};

use crate::area::{Area, CellMiddle, clipped_to, line_of};
use crate::block::Block;
use crate::cell::{Cell, Glyph};
use crate::drawing::{Drawn, placed};
use draw_records::Record;
use fx_expr::Txt;
use fx_geom::{Offset, Size};
use std::alloc::{AllocError, Global};
use text_cells::cluster_cells;
use unicode_segmentation::UnicodeSegmentation;

// Fills a stretch of a row.
fn fill_row(color: u32, from: usize, to: usize, cells: &mut [Cell])
    requires order { from ≤ to }
    requires end { to ≤ length cells.old }
    ensures { cells.new ≡ row_filled color from to cells.old }
{
    for column in from..to {
        cells[column] = Cell {
            back: color,
            ink: 0,
            glyph: Glyph::Blank,
        };
    }
}

// Fills a block of rows.
fn fill_rows(color: u32, block: Block, rows: &mut [Vec<Cell>])
    requires lies { LiesOn block (rows_in rows.old) }
    requires bottom { block.bottom ≤ length rows.old }
    ensures { rows_in rows.new ≡ block_rows block (row_filled color block.left block.right) (rows_in rows.old) }
{
    for row in block.top..block.bottom {
        let cells = &mut rows[row];
        fill_row(color, block.left, block.right, cells.as_mut_slice());
    }
}

// Writes a part of a cluster on a cell.
fn ink(
    alloc: Global,
    color: u32,
    cluster: &str,
    part: u8,
    shown: &mut Cell,
) -> Result<(), AllocError>
    ensures { OnOk result (shown.new ≡ inked color (Some (Part cluster.now part)) shown.old) }
{
    let cluster = Txt::of(String::from_str(alloc, cluster)?);
    shown.ink = color;
    shown.glyph = Glyph::Part(cluster, part);
    Ok(())
}

// Writes the parts of a cluster, from one on, on a stretch of a row.
fn write_parts(
    alloc: Global,
    color: u32,
    cluster: &str,
    part: u8,
    from: usize,
    to: usize,
    cells: &mut [Cell],
) -> Result<(), AllocError>
    requires order { from ≤ to }
    requires end { to ≤ length cells.old }
    requires parts { part + (to - from) ≤ 2 }
    ensures { OnOk result (cells.new ≡ changed (within from to (λ k. inked color (Some (Part cluster.now (part + (k - from)))))) 0 cells.old) }
{
    for column in from..to {
        let next = part + (column - from) as u8;
        ink(alloc, color, cluster, next, &mut cells[column])?;
    }
    Ok(())
}

// Where the next part of a text is written, after so many cells of what is left of the text.
#[derive(Clone, Copy)]
pub(crate) struct Pen {
    pub column: usize,
    pub skip: u128,
}

// Writes the next cluster of a text on a row, before a column.
fn write_cluster(
    alloc: Global,
    color: u32,
    cluster: &str,
    pen: Pen,
    to: usize,
    cells: &mut [Cell],
) -> Result<Pen, AllocError>
    requires room { pen.column < to }
    requires end { to ≤ length cells.old }
    ensures { IfOk result (λ next. (rest : List (List ℕ)) → row_written color (cluster.now ∷ rest) pen.skip pen.column to cells.old ≡ row_written color rest next.skip next.column to cells.new) }
{
    let taken = cluster_cells(cluster) as usize;
    if taken as u128 <= pen.skip {
        return Ok(Pen {
            column: pen.column,
            skip: pen.skip - taken as u128,
        });
    }
    let part = pen.skip as u8;
    let end = to.min(pen.column + (taken - part as usize));
    write_parts(alloc, color, cluster, part, pen.column, end, cells)?;
    Ok(Pen {
        column: end,
        skip: 0,
    })
}

// Writes a text on a stretch of a row, from a cell of the text on.
fn write_row(
    alloc: Global,
    color: u32,
    text: &str,
    skip: u128,
    from: usize,
    to: usize,
    cells: &mut [Cell],
) -> Result<(), AllocError>
    requires { to ≤ length cells.old }
    ensures { OnOk result (cells.new ≡ row_written color (graphemes true text.now) skip from to cells.old) }
{
    let mut pen = Pen { column: from, skip };
    for cluster in text.graphemes(true) {
        if pen.column >= to {
            return Ok(());
        }
        pen = write_cluster(alloc, color, cluster, pen, to, cells)?;
    }
    Ok(())
}

// Writes a text on the rows of a block, from a cell of the text on. A line holds the middles of one row at most.
fn write_rows(
    alloc: Global,
    color: u32,
    text: &str,
    skip: u128,
    block: Block,
    rows: &mut [Vec<Cell>],
) -> Result<(), AllocError>
    requires lies { LiesOn block (rows_in rows.old) }
    requires bottom { block.bottom ≤ length rows.old }
    ensures { OnOk result (rows_in rows.new ≡ block_rows block (row_written color (graphemes true text.now) skip block.left block.right) (rows_in rows.old)) }
{
    for row in block.top..block.bottom {
        let cells = &mut rows[row];
        write_row(
            alloc,
            color,
            text,
            skip,
            block.left,
            block.right,
            cells.as_mut_slice(),
        )?;
    }
    Ok(())
}

// The cell of a run, counted from its left, on which the middle of the cell in a column lies.
fn cell_of_run(cell: Size, at: Offset, column: usize, row: usize) -> u128
    requires width { 1 ≤ cell.w }
    requires size { HasLengths cell }
    requires column { column ≤ max_cells }
    requires row { row ≤ max_cells }
    ensures { result ≡ unsigned_abs (pos (middle_of cell column row).x -ℤ at.x) / cell.w }
{
    let middle = CellMiddle::of(cell, column as u64, row as u64);
    let from_left = middle.x as i128 - at.x as i128;
    from_left.unsigned_abs() / cell.w as u128
}

// The area on which a drawing can be seen.
fn reach(cell: Size, drawn: Drawn<'_>) -> Area
    ensures { result ≡ reach cell (seen drawn.entry) }
{
    let area = match drawn.what {
        Record::Fill { rect, .. } => Area::of(placed(drawn.at, *rect)),
        Record::Run { at: by, .. } => line_of(cell, drawn.at.plus(*by)),
    };
    clipped_to(drawn.clip, area)
}

// Draws a drawing on the cells of a grid: a rectangle covers those whose middles it holds, and a run writes its parts.
pub(crate) fn draw(
    alloc: Global,
    cell: Size,
    drawn: Drawn<'_>,
    columns: usize,
    rows: &mut [Vec<Cell>],
) -> Result<(), AllocError>
    requires width { 1 ≤ cell.w }
    requires height { 1 ≤ cell.h }
    requires size { HasLengths cell }
    requires room { columns * length rows.old ≤ max_cells }
    requires whole { AllHave columns (rows_in rows.old) }
    ensures { OnOk result (rows_in rows.new ≡ rows_drawn cell (seen drawn.entry) (rows_in rows.old)) }
{
    let block = Block::of(cell, reach(cell, drawn), columns, rows.len());
    if block.is_empty() {
        return Ok(());
    }
    match drawn.what {
        Record::Fill { color, .. } => {
            fill_rows(*color, block, rows);
            Ok(())
        }
        Record::Run {
            at: by,
            color,
            text,
        } => {
            let at = drawn.at.plus(*by);
            let skip = cell_of_run(cell, at, block.left, block.top);
            write_rows(alloc, *color, text.get(), skip, block, rows)
        }
    }
}
