// The children of a Table.
ghost use Rattle.std.specs.Prelude.{◌≡◌, ◌^◌, ◌<◌, ◌≤◌, length, IfOk, OnOk, OnErr};
ghost use Rattle.wrap_table.specs.Pass.{IsMidway, table_start, row_ready, table_put, table_next, table_place, table_height_at};
ghost use Rattle.wrap_table.specs.Places.{table_places_of, table_size_of};

use crate::extents::extent_of;
use fx_geom::{Offset, Size, add_lengths};
use std::alloc::AllocError;

// What is known of the children so far: how many columns of the present row have one, where the next column begins, where
// the row begins, and how high it is, in u.
#[derive(Clone, Copy)]
pub(crate) struct TablePass {
    pub(crate) column: usize,
    pub(crate) left: u64,
    pub(crate) top: u64,
    pub(crate) height: u64,
}

impl TablePass {
    // Before the first child.
    fn start() -> TablePass
        ensures { result ≡ table_start }
    {
        TablePass {
            column: 0,
            left: 0,
            top: 0,
            height: 0,
        }
    }

    // Begins the next row where the present one is full.
    fn make_ready(&mut self, columns: usize)
        ensures { self.new ≡ row_ready columns self.old }
    {
        if self.column == columns {
            self.top = add_lengths(self.top, self.height);
            self.column = 0;
            self.left = 0;
            self.height = 0;
        }
    }

    // Puts a child of this height into the next column, of this width.
    fn put(&mut self, width: u64, height: u64)
        requires { self.old.column < 2 ^ 63 }
        ensures { self.new ≡ table_put width height self.old }
    {
        self.column += 1;
        self.left = add_lengths(self.left, width);
        self.height = self.height.max(height);
    }

    // Takes the next child: where it stands.
    fn take(&mut self, widths: &[u64], height: u64) -> Offset
        requires some { 1 ≤ length widths.now }
        requires fits { IsMidway widths.now self.old }
        ensures place { result ≡ table_place widths.now self.old }
        ensures next { self.new ≡ table_next widths.now self.old height }
        ensures fits { IsMidway widths.now self.new }
    {
        self.make_ready(widths.len());
        let at = Offset {
            x: self.left as i64,
            y: self.top as i64,
        };
        self.put(widths[self.column], height);
        at
    }

    // The height of all rows.
    fn height(&self) -> u64
        ensures { result ≡ table_height_at self.now }
    {
        add_lengths(self.top, self.height)
    }
}

/// The places of the children of a Table, and the size of the Table, in u.
///
/// The columns have these widths, and the children these heights. They stand row by row, one in each column, at the
/// top left of their place. A row is as high as its highest child. All sums stop at
/// [`LEN_MAX`](fx_geom::LEN_MAX). `out` is replaced by the places, one for each child, and is as before after an error,
/// which comes only for want of memory.
pub fn table_places(
    widths: &[u64],
    heights: &[u64],
    out: &mut Vec<Offset>,
) -> Result<Size, AllocError>
    requires { 1 ≤ length widths.now }
    ensures size { IfOk result (λ size. size ≡ table_size_of widths.now heights.now) }
    ensures places { OnOk result (out.new.items ≡ table_places_of widths.now heights.now) }
    ensures err { OnErr result (out.new.items ≡ out.old.items) }
{
    out.reserve(heights.len().saturating_sub(out.len()))?;
    out.clear();
    let mut pass = TablePass::start();
    for height in heights {
        out.push(pass.take(widths, *height))?;
    }
    Ok(Size {
        w: extent_of(widths, 0),
        h: pass.height(),
    })
}

/// The size of a Table, in u, as [`table_places`] gives it.
pub fn table_size(widths: &[u64], heights: &[u64]) -> Size
    requires { 1 ≤ length widths.now }
    ensures { result ≡ table_size_of widths.now heights.now }
{
    let mut pass = TablePass::start();
    for height in heights {
        let _ = pass.take(widths, *height);
    }
    Size {
        w: extent_of(widths, 0),
        h: pass.height(),
    }
}
