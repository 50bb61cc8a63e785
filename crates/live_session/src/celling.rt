// The line `cells`.
ghost use Rattle.std.specs.Prelude.{◌≡◌, ◌*◌, ◌++◌, string_bytes, IfOk, OnOk, OnErr};
ghost use Rattle.live_session.specs.Cells.{head_text, cells_text};

use super::live::{Ended, Live};
use super::refusal::LineRefusal;
use cell_raster::{Damage, Raster, RasterFault};
use delegates::Delegate;
use std::alloc::{AllocError, Global};

// How many cells a damage has.
fn cell_count(damage: Damage) -> u128
    ensures { result ≡ damage.columns * damage.rows }
{
    damage.columns as u128 * damage.rows as u128
}

// How many columns, rows and damaged cells there are.
fn head_line(alloc: Global, raster: &Raster, damage: Damage) -> Result<String, AllocError>
    ensures { IfOk result (λ s. string_bytes s ≡ head_text raster.now damage) }
{
    let columns = raster.columns();
    let rows = raster.rows();
    let damaged = cell_count(damage);
    format!(in alloc; "cells {columns} {rows} {damaged}\n")
}

// Prints cells, of which these changed.
fn print_cells(
    alloc: Global,
    raster: &Raster,
    damage: Damage,
    out: &mut Vec<u8>,
) -> Result<(), AllocError>
    ensures { OnOk result (out.new.items ≡ out.old.items ++ cells_text raster.now damage) }
{
    let head = head_line(alloc, raster, damage)?;
    out.extend_from_slice(head.as_bytes())?;
    raster.print(alloc, out)?;
    out.extend_from_slice(b"end\n")
}

impl Live {
    ghost use Rattle.live_session.specs.Cells.{cells_entry};
    ghost use Rattle.live_session.specs.LiveStands.{LiveStands, end_of, text_of};
    ghost use Rattle.live_session.specs.Memory.{MayLackMemory};
    ghost use Rattle.live_session.specs.RunState.{RunState, state_after};

    // `cells`: draws the last frame in cells, and prints them.
    pub(crate) fn cells(&mut self, alloc: Global, out: &mut Vec<u8>) -> Result<Ended, AllocError>
        ensures state { (r : RunState) → LiveStands self.old ⟦<dyn Delegate as Delegate>⟧ r → OnOk result (LiveStands self.new ⟦<dyn Delegate as Delegate>⟧ (state_after r (cells_entry r))) }
        ensures text { (r : RunState) → LiveStands self.old ⟦<dyn Delegate as Delegate>⟧ r → OnOk result (out.new.items ≡ out.old.items ++ text_of (cells_entry r)) }
        ensures end { (r : RunState) → LiveStands self.old ⟦<dyn Delegate as Delegate>⟧ r → IfOk result (λ end. end ≡ end_of (cells_entry r)) }
        ensures memory { (r : RunState) → LiveStands self.old ⟦<dyn Delegate as Delegate>⟧ r → OnErr result (MayLackMemory (cells_entry r)) }
        ensures session { self.new.session ≡ self.old.session }
    {
        let cell = self.session.cell();
        let Some(view) = self.session.shown_view() else {
            return Ok(Ended::Refused(LineRefusal::NoFrame));
        };
        let Some(root) = self.session.layers() else {
            return Ok(Ended::Refused(LineRefusal::NoFrame));
        };
        match self.raster.update(alloc, root, view, cell) {
            Ok(damage) => {
                print_cells(alloc, &self.raster, damage, out)?;
                Ok(Ended::Done)
            }
            Err(RasterFault::TooManyCells) => Ok(Ended::Refused(LineRefusal::TooManyCells)),
            Err(RasterFault::OutOfMemory) => Err(AllocError),
        }
    }
}
