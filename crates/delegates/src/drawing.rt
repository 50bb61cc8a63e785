// What delegates draw.
ghost use Rattle.std.specs.Prelude.{◌≡◌, ◌-◌, ◌+◌, [], ◌∷◌, ◌^◌, ◌≤◌, ◌<◌, ◌++◌, IfOk, OnOk, OnErr};
ghost use Rattle.fx_geom.specs.Size.{HasLengths};
ghost use Rattle.delegates.specs.Answers.{clamped, bar, bars_of, line, lines_of, filled};

use draw_records::Record;
use fx_geom::{Offset, Rect, Size};
use std::alloc::{AllocError, Global};

// A number as one from 0 to a greatest one.
pub fn clamped(number: i64, greatest: u64) -> u64
    ensures { result ≡ clamped greatest number }
{
    if number < 0 {
        0
    } else {
        (number as u64).min(greatest)
    }
}

// A color out of a number.
pub fn color_of(number: i64) -> u32
    ensures { result ≡ clamped (2 ^ 32 - 1) number }
{
    clamped(number, 0xffff_ffff) as u32
}

// Adds a filled rectangle.
fn push_fill(
    x: u64,
    y: u64,
    size: Size,
    color: u32,
    out: &mut Vec<Record>,
) -> Result<(), AllocError>
    requires x { x ≤ 2 ^ 40 }
    requires y { y ≤ 2 ^ 40 }
    ensures ok { OnOk result (out.new.items ≡ out.old.items ++ filled x y size.w size.h color ∷ []) }
    ensures err { OnErr result (out.new.items ≡ out.old.items) }
{
    let at = Offset {
        x: x as i64,
        y: y as i64,
    };
    let rect = Rect { at, size };
    out.push(Record::Fill { rect, color })?;
    Ok(())
}

// Adds bar `i` of `n`, where it isn't empty.
fn push_bar(size: Size, n: u64, color: u32, i: u64, out: &mut Vec<Record>) -> Result<(), AllocError>
    requires size { HasLengths size }
    requires among { i < n }
    requires few { n ≤ 256 }
    ensures ok { OnOk result (out.new.items ≡ out.old.items ++ bar size n color i) }
    ensures err { OnErr result (out.new.items ≡ out.old.items) }
{
    let left = size.w * i / n;
    let right = size.w * (i + 1) / n;
    let high = size.h * (i + 1) / n;
    if left < right && 0 < high {
        let area = Size {
            w: right - left,
            h: high,
        };
        push_fill(left, size.h - high, area, color, out)?;
    }
    Ok(())
}

// The bars of a size, so many.
pub fn bars(alloc: Global, size: Size, n: u64, color: u32) -> Result<Vec<Record>, AllocError>
    requires size { HasLengths size }
    requires few { n ≤ 256 }
    ensures { IfOk result (λ drawn. drawn.items ≡ bars_of size n color n) }
{
    let mut drawn = Vec::new(alloc);
    for i in 0..n {
        push_bar(size, n, color, i, &mut drawn)?;
    }
    Ok(drawn)
}

// Adds line `k` of a grid, where it lies in the size and this has a width.
fn push_line(
    size: Size,
    step: u64,
    color: u32,
    k: u64,
    out: &mut Vec<Record>,
) -> Result<(), AllocError>
    requires size { HasLengths size }
    requires step { step ≤ 2 ^ 40 }
    requires few { k ≤ 256 }
    ensures { OnOk result (out.new.items ≡ out.old.items ++ line size step color k) }
{
    let y = k * step;
    if 0 < size.w && y < size.h {
        let area = Size { w: size.w, h: 64 };
        push_fill(0, y, area, color, out)?;
    }
    Ok(())
}

// The lines of a grid over a size, from the first on, so many of them.
#[tactic(auto, unfolding(crate::specs::Answers::lines_of))]
pub fn lines(
    alloc: Global,
    size: Size,
    step: u64,
    color: u32,
    count: u64,
) -> Result<Vec<Record>, AllocError>
    requires size { HasLengths size }
    requires step { step ≤ 2 ^ 40 }
    requires few { count ≤ 256 }
    ensures { IfOk result (λ drawn. drawn.items ≡ lines_of size step color count) }
{
    let mut drawn = Vec::new(alloc);
    for k in 0..count {
        push_line(size, step, color, k + 1, &mut drawn)?;
    }
    Ok(drawn)
}
