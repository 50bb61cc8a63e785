ghost use Rattle.std.specs.Prelude.{◌≡◌, pos, neg_ℤ, ◌-ℤ◌, ◌^◌, ◌≤ℤ◌, ◌≤◌};
ghost use Rattle.delegates.specs.Meaning.{bars, grid, corner};

use crate::delegate::Delegate;
use crate::drawing::{bars, clamped, color_of, lines};
use draw_records::Record;
use fx_geom::{Bounds, LEN_MAX, Offset, Size};
use std::alloc::{AllocError, Global};

// The most lines that a grid draws.
const LINES_MAX: u64 = 256;

/// Rising bars, which stand on the bottom of their size.
#[derive(Drop)]
pub struct Bars {
    count: i64,
    color: i64,
}

impl Bars {
    /// Four bars, opaque blue.
    pub fn new() -> Bars
        ensures { ⟦<Bars as Delegate>⟧.meaning result ≡ bars (pos 4) (pos 4278190335) }
    {
        Bars {
            count: 4,
            color: 4278190335,
        }
    }
}

impl Delegate for Bars {
    ghost meaning = { λ s. bars s.count s.color };

    fn own_size(&self, bounds: Bounds) -> Size {
        bounds.smallest()
    }

    fn child_bounds(&self, bounds: Bounds) -> Bounds {
        bounds
    }

    fn place(&self, size: Size, child: Size) -> Offset {
        let _ = (size, child);
        Offset::ZERO
    }

    fn paint(&self, alloc: Global, size: Size, out: &mut Vec<Record>) -> Result<(), AllocError> {
        let mut drawn = bars(alloc, size, clamped(self.count, 256), color_of(self.color))?;
        out.append(&mut drawn)
    }

    fn set(&mut self, field: &str, n: i64) -> bool {
        if field == "count" {
            self.count = n;
            return true;
        }
        if field == "color" {
            self.color = n;
            return true;
        }
        false
    }
}

/// Lines across its size, 64 u high.
#[derive(Drop)]
pub struct Grid {
    step: i64,
    color: i64,
}

impl Grid {
    /// A line every 640 u, opaque gray.
    pub fn new() -> Grid
        ensures { ⟦<Grid as Delegate>⟧.meaning result ≡ grid (pos 640) (pos 4286611584) }
    {
        Grid {
            step: 640,
            color: 4286611584,
        }
    }
}

impl Delegate for Grid {
    ghost meaning = { λ s. grid s.step s.color };

    fn own_size(&self, bounds: Bounds) -> Size {
        bounds.smallest()
    }

    fn child_bounds(&self, bounds: Bounds) -> Bounds {
        bounds.loosen()
    }

    fn place(&self, size: Size, child: Size) -> Offset {
        let _ = (size, child);
        Offset::ZERO
    }

    fn paint(&self, alloc: Global, size: Size, out: &mut Vec<Record>) -> Result<(), AllocError> {
        let step = clamped(self.step, LEN_MAX).max(1);
        let mut drawn = lines(alloc, size, step, color_of(self.color), LINES_MAX)?;
        out.append(&mut drawn)
    }

    fn set(&mut self, field: &str, n: i64) -> bool {
        if field == "step" {
            self.step = n;
            return true;
        }
        if field == "color" {
            self.color = n;
            return true;
        }
        false
    }
}

/// Places its child in its right lower corner, `dx` u to the left and `dy` u up.
#[derive(Drop)]
pub struct Corner {
    dx: i64,
    dy: i64,
    ghost dx_low: { neg_ℤ (pos (2 ^ 40)) ≤ℤ dx },
    ghost dx_high: { dx ≤ℤ pos (2 ^ 40) },
    ghost dy_low: { neg_ℤ (pos (2 ^ 40)) ≤ℤ dy },
    ghost dy_high: { dy ≤ℤ pos (2 ^ 40) },
}

impl Corner {
    /// The corner with dx and dy 0.
    pub fn new() -> Corner
        ensures { ⟦<Corner as Delegate>⟧.meaning result ≡ corner (pos 0) (pos 0) }
    {
        Corner { dx: 0, dy: 0 }
    }
}

// Where an inner extent stands that ends so far before the end of an outer one.
fn before_end(outer: u64, inner: u64, inset: i64) -> i64
    requires outer { outer ≤ 2 ^ 40 }
    requires inner { inner ≤ 2 ^ 40 }
    requires low { neg_ℤ (pos (2 ^ 40)) ≤ℤ inset }
    requires high { inset ≤ℤ pos (2 ^ 40) }
    ensures { result ≡ pos outer -ℤ pos inner -ℤ inset }
{
    outer as i64 - inner as i64 - inset
}

impl Delegate for Corner {
    ghost meaning = { λ s. corner s.dx s.dy };

    fn own_size(&self, bounds: Bounds) -> Size {
        Size {
            w: bounds.max_w.finite_or(bounds.min_w),
            h: bounds.max_h.finite_or(bounds.min_h),
        }
    }

    fn child_bounds(&self, bounds: Bounds) -> Bounds {
        bounds.loosen()
    }

    fn place(&self, size: Size, child: Size) -> Offset {
        Offset {
            x: before_end(size.w, child.w, self.dx),
            y: before_end(size.h, child.h, self.dy),
        }
    }

    fn paint(&self, alloc: Global, size: Size, out: &mut Vec<Record>) -> Result<(), AllocError> {
        let _ = (alloc, size);
        Ok(())
    }

    fn set(&mut self, field: &str, n: i64) -> bool {
        if field == "dx" {
            self.dx = n;
            return true;
        }
        if field == "dy" {
            self.dy = n;
            return true;
        }
        false
    }
}
