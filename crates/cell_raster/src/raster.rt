// The cells of a frame, from one frame to the next.
ghost use Rattle.std.specs.Prelude.{◌≡◌, ◌++◌, ◌*◌, ◌≤◌, ◌<◌, ◌↔◌, Err, IfOk, OnOk, OnErr, length, option_copied};
ghost use Rattle.fx_geom.specs.Size.{HasLengths};
ghost use Rattle.cell_raster.specs.CellGrid.{no_grid, max_cells, columns_of, rows_of, grid_of, cell_at};
ghost use Rattle.cell_raster.specs.Damage.{damage_of};
ghost use Rattle.cell_raster.specs.Printed.{rows_text};

use crate::cell::Cell;
use crate::damage::Damage;
use crate::drawing::drawings;
use crate::grid::{grid_cells, is_too_large};
use crate::printing::rows_text;
use fx_geom::Size;
use layer_tree::Layer;
use std::alloc::{AllocError, Global};
use std::marker::Model;
use thiserror::Error;

/// Why a raster isn't updated.
#[derive(Clone, Copy, Debug, PartialEq, Eq, Error)]
pub enum RasterFault {
    /// The grid would have more than [`CELLS_MAX`](crate::CELLS_MAX) cells.
    #[error("too many cells")]
    TooManyCells,
    /// There was no memory.
    #[error("out of memory")]
    OutOfMemory,
}

impl From<AllocError> for RasterFault {
    ghost use Rattle.cell_raster.specs.declared.raster.RasterFault.TheVariants.{OutOfMemory};

    ghost from_gives = { λ _ f. f ≡ OutOfMemory };

    fn from(_error: AllocError) -> RasterFault {
        RasterFault::OutOfMemory
    }
}

/// What the last frame shows in a grid of cells. Contracts see it as the grid.
#[derive(Drop)]
pub struct Raster {
    columns: u64,
    rows: Vec<Vec<Cell>>,
}

impl Model for Raster {
    ghost use Rattle.cell_raster.specs.CellGrid.{CellGrid};

    ghost Value = { CellGrid };

    ghost use Rattle.cell_raster.specs.View.{rows_in};

    ghost view = { λ r. record { columns = r.columns; rows = rows_in r.rows.items } };
}

impl Raster {
    /// A raster before the first frame, without cells.
    pub fn new(alloc: Global) -> Raster
        ensures { result ≡ no_grid }
    {
        Raster {
            columns: 0,
            rows: Vec::new(alloc),
        }
    }

    /// Draws a frame's layers into cells of a size, as many as cover the view, and says which of them changed: the whole
    /// grid where its size did. It takes time in the cells of the grid, the records with their texts, and the cells that
    /// each record covers. It is refused with `TooManyCells` exactly where the view takes more than
    /// [`CELLS_MAX`](crate::CELLS_MAX) cells; after a refusal the raster is as before.
    pub fn update(
        &mut self,
        alloc: Global,
        root: &Layer,
        view: Size,
        cell: Size,
    ) -> Result<Damage, RasterFault>
        requires width { 1 ≤ cell.w }
        requires height { 1 ≤ cell.h }
        requires size { HasLengths cell }
        ensures grid { OnOk result (self.new ≡ grid_of root.now view cell) }
        ensures damage { IfOk result (λ damage. damage ≡ damage_of self.old (grid_of root.now view cell)) }
        ensures full { (result ≡ Err RasterFault.TooManyCells) ↔ (max_cells < columns_of view cell * rows_of view cell) }
        ensures err { OnErr result (self.new ≡ self.old) }
    {
        let columns = view.w.div_ceil(cell.w);
        let rows = view.h.div_ceil(cell.h);
        if is_too_large(columns, rows) {
            return Err(RasterFault::TooManyCells);
        }
        let drawn = drawings(alloc, root)?;
        let rows = grid_cells(alloc, cell, drawn.as_slice(), columns, rows)?;
        let next = Raster { columns, rows };
        let damage = self.damage_to(&next);
        *self = next;
        Ok(damage)
    }

    // Which cells of the next grid differ from this one's: all of them where the size does.
    fn damage_to(&self, next: &Raster) -> Damage
        ensures { result ≡ damage_of self.now next.now }
    {
        if self.columns == next.columns && self.rows.len() == next.rows.len() {
            return Damage::between(self.rows.as_slice(), next.rows.as_slice());
        }
        Damage {
            left: 0,
            top: 0,
            columns: next.columns,
            rows: next.rows.len() as u64,
        }
    }

    /// How many columns the grid has.
    pub fn columns(&self) -> u64
        ensures { result ≡ self.now.columns }
    {
        self.columns
    }

    /// How many rows the grid has.
    pub fn rows(&self) -> u64
        ensures { result ≡ length self.now.rows }
    {
        self.rows.len() as u64
    }

    /// The cell in a column and a row, both counted from 0; none exactly outside the grid.
    pub fn cell(&self, column: u64, row: u64) -> Option<&Cell>
        ensures { option_copied result ≡ cell_at self.now column row }
    {
        match self.rows.get(row as usize) {
            None => None,
            Some(cells) => cells.get(column as usize),
        }
    }

    /// Adds a line for each row: what is written in it, in quotes, where an empty cell is a space and a cluster stands
    /// once, in its first cell. After want of memory `out` is as before.
    pub fn print(&self, alloc: Global, out: &mut Vec<u8>) -> Result<(), AllocError>
        ensures ok { OnOk result (out.new.items ≡ out.old.items ++ rows_text self.now.rows) }
        ensures err { OnErr result (out.new.items ≡ out.old.items) }
    {
        let text = rows_text(alloc, self.rows.as_slice())?;
        out.extend_from_slice(text.as_slice())
    }
}
