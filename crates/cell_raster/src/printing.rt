// The text of a grid.
ghost use Rattle.std.specs.Prelude.{◌≡◌, ◌++◌, IfOk, OnOk, string_bytes};
ghost use Rattle.cell_raster.specs.Printed.{glyph_text, row_text, rows_text};
ghost use Rattle.cell_raster.specs.View.{rows_in};

use crate::cell::{Cell, Glyph};
use draw_records::push_quoted;
use std::alloc::{AllocError, Global};

// Adds what is written in a cell.
fn push_glyph(glyph: &Glyph, text: &mut String) -> Result<(), AllocError>
    ensures { OnOk result (string_bytes text.new ≡ string_bytes text.old ++ glyph_text glyph.now) }
{
    match glyph {
        Glyph::Blank => text.push_str(" "),
        Glyph::Part(cluster, part) => {
            if *part == 0 {
                text.push_str(cluster.get())
            } else {
                Ok(())
            }
        }
    }
}

// What is written in a row.
fn row_text(alloc: Global, cells: &[Cell]) -> Result<String, AllocError>
    ensures { IfOk result (λ text. string_bytes text ≡ row_text cells.now) }
{
    let mut text = String::new(alloc);
    for cell in cells {
        push_glyph(&cell.glyph, &mut text)?;
    }
    Ok(text)
}

// A line for each row.
pub(crate) fn rows_text(alloc: Global, rows: &[Vec<Cell>]) -> Result<Vec<u8>, AllocError>
    ensures { IfOk result (λ text. text.items ≡ rows_text (rows_in rows.now)) }
{
    let mut text = Vec::new(alloc);
    for cells in rows {
        let row = row_text(alloc, cells.as_slice())?;
        push_quoted(row.as_str(), &mut text)?;
        text.push(b'\n')?;
    }
    Ok(text)
}
