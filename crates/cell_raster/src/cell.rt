// What one cell shows.
ghost use Rattle.std.specs.Prelude.{◌≡◌};
ghost use Rattle.cell_raster.specs.Cell.{empty, same_glyph, differs};

use fx_expr::Txt;

/// What is written in a cell.
#[derive(Drop)]
pub enum Glyph {
    /// Nothing.
    Blank,
    /// A part of a grapheme cluster, counted from 0 on its left: a wide cluster has two.
    Part(Txt, u8),
}

/// What one cell shows: the color behind it, the color of its writing, and what is written. Colors are 0xAARRGGBB.
#[derive(Drop)]
pub struct Cell {
    pub back: u32,
    pub ink: u32,
    pub glyph: Glyph,
}

impl Cell {
    // A cell on which nothing is drawn.
    pub(crate) fn empty() -> Cell
        ensures { result ≡ empty }
    {
        Cell {
            back: 0,
            ink: 0,
            glyph: Glyph::Blank,
        }
    }

    // Whether two cells show other things.
    pub(crate) fn differs(&self, other: &Cell) -> bool
        ensures { result ≡ differs self.now other.now }
    {
        !(self.back == other.back && self.ink == other.ink && same_glyph(&self.glyph, &other.glyph))
    }
}

// Whether the same is written.
fn same_glyph(a: &Glyph, b: &Glyph) -> bool
    ensures { result ≡ same_glyph a.now b.now }
{
    match (a, b) {
        (Glyph::Blank, Glyph::Blank) => true,
        (Glyph::Part(cluster, part), Glyph::Part(other, other_part)) => {
            cluster.get() == other.get() && *part == *other_part
        }
        (Glyph::Blank, Glyph::Part(..)) | (Glyph::Part(..), Glyph::Blank) => false,
    }
}
