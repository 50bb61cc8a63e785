ghost use Rattle.std.specs.Prelude.{◌≡◌, ◌+◌, ◌-◌, ◌^◌, ◌≤◌, ◌↔◌, IsTrue};
ghost use Rattle.fx_geom.specs.Len.{limit_of, is_tight_side, raised, clamped, clamped_max, less, tightened_min, tightened_max};

use crate::lengths::{LEN_MAX, Len};
use crate::shapes::{Axis, Insets, Size};

/// The least and the greatest width and height that a box may take, in u (`BoxConstraints`). Each minimum is at most
/// its maximum, and all are lengths.
#[derive(Clone, Copy, Debug, PartialEq, Eq)]
pub struct Bounds {
    pub min_w: u64,
    pub max_w: Len,
    pub min_h: u64,
    pub max_h: Len,
    pub ghost width_in_order: { min_w ≤ limit_of max_w },
    pub ghost width_in_range: { limit_of max_w ≤ 2 ^ 40 },
    pub ghost height_in_order: { min_h ≤ limit_of max_h },
    pub ghost height_in_range: { limit_of max_h ≤ 2 ^ 40 },
}

impl Bounds {
    ghost use Rattle.fx_geom.specs.declared.shapes.Size.{Size};
    ghost use Rattle.fx_geom.specs.declared.boxes.Bounds.{Bounds};
    ghost use Rattle.fx_geom.specs.Along.{bounds_along, least_along, most_along, is_tight_along};
    ghost use Rattle.fx_geom.specs.Insets.{other_of};
    ghost use Rattle.fx_geom.specs.Size.{HasLengths};
    ghost use Rattle.fx_geom.specs.Bounds.{bounds_of, HasSides, IsWithin, LiesIn, IsTight, is_tight, tight, loose, constrain, smallest, loosen, tighten, enforce, deflate};

    /// The bounds with these minima and maxima, in u: each is stopped at [`LEN_MAX`], and a maximum that is below its
    /// minimum is the minimum (`BoxConstraints.normalize`).
    pub fn normalized(min_w: u64, max_w: Len, min_h: u64, max_h: Len) -> Bounds
        ensures value { result ≡ bounds_of min_w max_w min_h max_h }

        // Bounds that are in order stay as they are.
        ensures kept { (b : Bounds) → HasSides b min_w max_w min_h max_h → result ≡ b }
    {
        Bounds {
            min_w: min_w.min(LEN_MAX),
            max_w: raise(min_w, max_w),
            min_h: min_h.min(LEN_MAX),
            max_h: raise(min_h, max_h),
        }
    }

    /// The bounds with this minimum and maximum along an axis, and these across it, in u: as in [`Bounds::normalized`].
    pub fn along(axis: Axis, min_main: u64, max_main: Len, min_cross: u64, max_cross: Len) -> Bounds
        ensures { result ≡ bounds_along axis min_main max_main min_cross max_cross }
    {
        match axis {
            Axis::Horizontal => Bounds::normalized(min_main, max_main, min_cross, max_cross),
            Axis::Vertical => Bounds::normalized(min_cross, max_cross, min_main, max_main),
        }
    }

    /// The least extent along an axis, in u.
    pub fn least(self, axis: Axis) -> u64
        ensures value { result ≡ least_along self axis }
        ensures in_order { result ≤ limit_of (most_along self axis) }
    {
        match axis {
            Axis::Horizontal => self.min_w,
            Axis::Vertical => self.min_h,
        }
    }

    /// The greatest extent along an axis, in u, or no limit.
    pub fn most(self, axis: Axis) -> Len
        ensures value { result ≡ most_along self axis }
        ensures within { limit_of result ≤ 2 ^ 40 }
    {
        match axis {
            Axis::Horizontal => self.max_w,
            Axis::Vertical => self.max_h,
        }
    }

    /// Exactly this size, in u (`BoxConstraints.tight`).
    pub fn tight(size: Size) -> Bounds
        ensures value { result ≡ tight size }

        // Tight bounds have one size.
        ensures one_size { size.w ≤ 2 ^ 40 → size.h ≤ 2 ^ 40 → (s : Size) → IsWithin result s → s ≡ size }
        ensures within { size.w ≤ 2 ^ 40 → size.h ≤ 2 ^ 40 → IsWithin result size }
    {
        Bounds::normalized(size.w, Len::Finite(size.w), size.h, Len::Finite(size.h))
    }

    /// From nothing up to these lengths, in u (`BoxConstraints.loose`, with no limit where a length is unbounded).
    pub fn loose(w: Len, h: Len) -> Bounds
        ensures { result ≡ loose w h }
    {
        Bounds::normalized(0, w, 0, h)
    }

    /// The size that is nearest to the given one in the bounds, in u (`BoxConstraints.constrain`).
    pub fn constrain(self, size: Size) -> Size
        ensures value { result ≡ constrain self size }
        ensures within { IsWithin self result }
        ensures lengths { HasLengths result }
        ensures kept { IsWithin self size → result ≡ size }
    {
        Size {
            w: size.w.clamp(self.min_w, self.max_w.limit()),
            h: size.h.clamp(self.min_h, self.max_h.limit()),
        }
    }

    /// The least size in the bounds, in u (`BoxConstraints.smallest`).
    pub fn smallest(self) -> Size
        ensures value { result ≡ smallest self }
        ensures within { IsWithin self result }
        ensures lengths { HasLengths result }
    {
        Size {
            w: self.min_w,
            h: self.min_h,
        }
    }

    /// The same maxima with minima of 0 (`BoxConstraints.loosen`).
    pub fn loosen(self) -> Bounds
        ensures value { result ≡ loosen self }
        ensures minima { (result.min_w ≡ 0) × (result.min_h ≡ 0) }
        ensures maxima { (result.max_w ≡ self.max_w) × (result.max_h ≡ self.max_h) }
    {
        Bounds::normalized(0, self.max_w, 0, self.max_h)
    }

    /// A width and a height that are given, in u, are clamped into the bounds and become minimum and maximum of their
    /// side (`BoxConstraints.tighten`).
    pub fn tighten(self, w: Option<u64>, h: Option<u64>) -> Bounds
        ensures value { result ≡ tighten self w h }
        ensures within { LiesIn result self }
    {
        let (min_w, max_w) = tighten_side(self.min_w, self.max_w, w);
        let (min_h, max_h) = tighten_side(self.min_h, self.max_h, h);
        Bounds::normalized(min_w, max_w, min_h, max_h)
    }

    /// Each minimum and maximum clamped into the outer bounds' range of its side (`BoxConstraints.enforce`).
    pub fn enforce(self, outer: Bounds) -> Bounds
        ensures value { result ≡ enforce self outer }
        ensures min_w { result.min_w ≡ clamped outer.min_w outer.max_w self.min_w }
        ensures max_w { result.max_w ≡ clamped_max outer.min_w outer.max_w self.max_w }
        ensures min_h { result.min_h ≡ clamped outer.min_h outer.max_h self.min_h }
        ensures max_h { result.max_h ≡ clamped_max outer.min_h outer.max_h self.max_h }
        ensures within { LiesIn result outer }
    {
        Bounds::normalized(
            self.min_w.clamp(outer.min_w, outer.max_w.limit()),
            clamp_max(self.max_w, outer.min_w, outer.max_w),
            self.min_h.clamp(outer.min_h, outer.max_h.limit()),
            clamp_max(self.max_h, outer.min_h, outer.max_h),
        )
    }

    /// What the insets, in u, leave of the bounds: they are taken from both widths and both heights, not below 0
    /// (`BoxConstraints.deflate`).
    pub fn deflate(self, insets: Insets) -> Bounds
        ensures value { result ≡ deflate self insets }
        ensures in_order { (result.min_w ≤ limit_of result.max_w) × (result.min_h ≤ limit_of result.max_h) }

        // The same in plain sums, since no side of the bounds is longer than a stopped sum.
        ensures min_w { result.min_w ≡ self.min_w - (insets.left + insets.right) }
        ensures max_w { result.max_w ≡ less self.max_w (insets.left + insets.right) }
        ensures min_h { result.min_h ≡ self.min_h - (insets.top + insets.bottom) }
        ensures max_h { result.max_h ≡ less self.max_h (insets.top + insets.bottom) }
    {
        let across = insets.along(Axis::Horizontal);
        let down = insets.along(Axis::Vertical);
        Bounds::normalized(
            self.min_w.saturating_sub(across),
            lessen(self.max_w, across),
            self.min_h.saturating_sub(down),
            lessen(self.max_h, down),
        )
    }

    /// Whether the bounds allow exactly one size: each minimum is its maximum (`BoxConstraints.isTight`).
    pub fn is_tight(self) -> bool
        ensures value { result ≡ is_tight self }
        ensures tight { IsTrue result ↔ IsTight self }
        ensures one_size { IsTrue result → (s t : Size) → IsWithin self s → IsWithin self t → s ≡ t }
    {
        is_tight_side(self.min_w, self.max_w) && is_tight_side(self.min_h, self.max_h)
    }

    /// Whether the bounds allow exactly one extent along an axis (`BoxConstraints.hasTightWidth`, `hasTightHeight`).
    pub fn is_tight_along(self, axis: Axis) -> bool
        ensures value { result ≡ is_tight_along self axis }
        ensures tight { IsTrue result ↔ (most_along self axis ≡ Len.Finite (least_along self axis)) }
    {
        is_tight_side(self.least(axis), self.most(axis))
    }
}

/// Whether a minimum is its maximum.
fn is_tight_side(least: u64, most: Len) -> bool
    ensures value { result ≡ is_tight_side least most }
    ensures tight { IsTrue result ↔ (most ≡ Len.Finite least) }
{
    most == Len::Finite(least)
}

/// The maximum, stopped at [`LEN_MAX`] and raised to the minimum.
fn raise(low: u64, high: Len) -> Len
    ensures { result ≡ raised low high }
{
    match high {
        Len::Finite(length) => Len::Finite(length.max(low).min(LEN_MAX)),
        Len::Unbounded => Len::Unbounded,
    }
}

/// A minimum and a maximum, of which both become the given length, clamped, if there is one.
fn tighten_side(low: u64, high: Len, given: Option<u64>) -> (u64, Len)
    requires { low ≤ limit_of high }
    ensures minimum { result.0 ≡ tightened_min low high given }
    ensures maximum { result.1 ≡ tightened_max low high given }
{
    match given {
        Some(length) => {
            let length = length.clamp(low, high.limit());
            (length, Len::Finite(length))
        }
        None => (low, high),
    }
}

/// A maximum clamped into a range. Where it is unbounded it becomes the greatest of the range.
fn clamp_max(max: Len, low: u64, high: Len) -> Len
    requires { low ≤ limit_of high }
    ensures { result ≡ clamped_max low high max }
{
    match max {
        Len::Finite(length) => Len::Finite(length.clamp(low, high.limit())),
        Len::Unbounded => high,
    }
}

/// A maximum less what is taken from it, not below 0.
fn lessen(max: Len, taken: u64) -> Len
    ensures { result ≡ less max taken }
{
    match max {
        Len::Finite(length) => Len::Finite(length.saturating_sub(taken)),
        Len::Unbounded => Len::Unbounded,
    }
}
