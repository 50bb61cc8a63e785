ghost use Rattle.std.specs.Prelude.{◌≡◌, ℤ, ◌^◌, ◌≤◌, pos, neg_ℤ, ◌≤ℤ◌, ◌-ℤ◌, Some};
ghost use Rattle.std.specs.Option.{ForSome};
ghost use Rattle.fx_geom.specs.Offset.{IsPlacement};
ghost use Rattle.fx_geom.specs.Size.{HasLengths};
ghost use Rattle.flex_layout.specs.Stack.{extent_from, given_extent, IsExactly, placed_of, place_of, placed_offset};

use crate::flex::align_at;
use fx_geom::{Bounds, LEN_MAX, Len, Offset, Placed, Size};

/// The bounds of a positioned child of a stack, in u (`RenderStack.layoutPositionedChild`): a width of
/// `stack.w - left - right` where both edges are given, clamped to 0..=`LEN_MAX`, else the width that is given, else
/// any; heights likewise.
pub fn placed_bounds(p: &Placed, stack: Size) -> Bounds
    ensures value { result ≡ placed_of p.now stack }

    // Both edges decide, whatever the child's own width and height say.
    ensures both_sides { (l r : ℤ) → p.now.left ≡ Some l → p.now.right ≡ Some r
        → IsExactly result.min_w result.max_w (extent_from (pos stack.w -ℤ l -ℤ r)) }
    ensures both_ends { (t b : ℤ) → p.now.top ≡ Some t → p.now.bottom ≡ Some b
        → IsExactly result.min_h result.max_h (extent_from (pos stack.h -ℤ t -ℤ b)) }
{
    let w = given(stack.w, p.left, p.right, p.width);
    let h = given(stack.h, p.top, p.bottom, p.height);
    Bounds::normalized(w.unwrap_or(0), Len::of(w), h.unwrap_or(0), Len::of(h))
}

/// The extent that a positioned child must have on an axis, in u, if there is one.
fn given(outer: u64, start: Option<i64>, end: Option<i64>, own: Option<u64>) -> Option<u64>
    ensures { result ≡ given_extent outer start end own }
{
    match (start, end) {
        (Some(start), Some(end)) => Some(extent_between(outer, start, end)),
        _ => own,
    }
}

/// What two edges leave of an outer extent, in u, clamped to 0..=`LEN_MAX`.
fn extent_between(outer: u64, start: i64, end: i64) -> u64
    ensures { result ≡ extent_from (pos outer -ℤ start -ℤ end) }
{
    clamp_extent(signed_extent(outer, start, end))
}

/// What two edges leave of an outer extent, in u: negative where they cross.
fn signed_extent(outer: u64, start: i64, end: i64) -> i128
    ensures { result ≡ pos outer -ℤ start -ℤ end }
{
    outer as i128 - start as i128 - end as i128
}

/// A signed extent clamped to 0..=`LEN_MAX`.
fn clamp_extent(extent: i128) -> u64
    ensures { result ≡ extent_from extent }
{
    extent.clamp(0, LEN_MAX as i128) as u64
}

/// Where a positioned child of a stack stands, in u (`RenderStack.layoutPositionedChild`): at its left edge, else at
/// its right one, else by the stack's alignment, which is `ax` across and `ay` down and lies in -100..=100.
pub fn placed_at(p: &Placed, stack: Size, child: Size, ax: i64, ay: i64) -> Offset
    requires stack { HasLengths stack }
    requires child { HasLengths child }
    requires right { ForSome p.now.right IsPlacement }
    requires bottom { ForSome p.now.bottom IsPlacement }
    requires from_left { neg_ℤ (pos 100) ≤ℤ ax }
    requires to_right { ax ≤ℤ pos 100 }
    requires from_top { neg_ℤ (pos 100) ≤ℤ ay }
    requires to_bottom { ay ≤ℤ pos 100 }
    ensures { result ≡ placed_offset p.now stack child ax ay }
{
    Offset {
        x: place(stack.w, child.w, p.left, p.right, ax),
        y: place(stack.h, child.h, p.top, p.bottom, ay),
    }
}

/// Where a child stands on one axis, in u.
fn place(outer: u64, inner: u64, start: Option<i64>, end: Option<i64>, a: i64) -> i64
    requires outer_is_length { outer ≤ 2 ^ 40 }
    requires inner_is_length { inner ≤ 2 ^ 40 }
    requires end { ForSome end IsPlacement }
    requires from_start { neg_ℤ (pos 100) ≤ℤ a }
    requires to_end { a ≤ℤ pos 100 }
    ensures { result ≡ place_of outer inner start end a }
{
    match (start, end) {
        (Some(start), _) => start,
        (None, Some(end)) => before_end(outer, inner, end),
        (None, None) => align_at(outer, inner, a),
    }
}

/// Where a child stands that ends at this distance from the outer extent's end, in u.
fn before_end(outer: u64, inner: u64, end: i64) -> i64
    requires outer_is_length { outer ≤ 2 ^ 40 }
    requires inner_is_length { inner ≤ 2 ^ 40 }
    requires end { IsPlacement end }
    ensures { result ≡ pos outer -ℤ end -ℤ pos inner }
{
    outer as i64 - end - inner as i64
}
