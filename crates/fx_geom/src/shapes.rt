ghost use Rattle.std.specs.Prelude.{◌≡◌, ◌↔◌, IsTrue};
ghost use Rattle.fx_geom.specs.Along.{size_along, offset_along, place_along};
ghost use Rattle.fx_geom.specs.Insets.{other_of, extent_of, before, after, along, inflated};
ghost use Rattle.fx_geom.specs.Offset.{side_sum, offset_sum, IsPlacement, placement_of, offset_clamped, IsPlaced, top_left_of, lies_before, contains, IsInside};
ghost use Rattle.fx_geom.specs.Size.{HasLengths};

use crate::lengths::{LEN_MAX, add_lengths};

/// The greatest side of a sum of offsets, in u; the least is its negative.
pub const OFFSET_MAX: i64 = 1 << 50;

/// A direction of layout.
#[derive(Clone, Copy, Debug, PartialEq, Eq)]
pub enum Axis {
    Horizontal,
    Vertical,
}

impl Axis {
    /// The axis across this one.
    pub fn other(self) -> Axis
        ensures { result ≡ other_of self }
    {
        match self {
            Axis::Horizontal => Axis::Vertical,
            Axis::Vertical => Axis::Horizontal,
        }
    }
}

/// A place relative to another one, in u: to the right and down.
#[derive(Clone, Copy, Debug, Default, PartialEq, Eq)]
pub struct Offset {
    pub x: i64,
    pub y: i64,
}

impl Offset {
    /// No offset: the place of the parent itself.
    pub const ZERO: Offset = Offset { x: 0, y: 0 };

    /// The offset by `main` along an axis and `cross` across it, in u.
    pub fn along(axis: Axis, main: i64, cross: i64) -> Offset
        ensures value { result ≡ offset_along axis main cross }
        ensures main { place_along result axis ≡ main }
        ensures cross { place_along result (other_of axis) ≡ cross }
    {
        match axis {
            Axis::Horizontal => Offset { x: main, y: cross },
            Axis::Vertical => Offset { x: cross, y: main },
        }
    }

    /// How far the offset goes along an axis, in u.
    pub fn place(self, axis: Axis) -> i64
        ensures { result ≡ place_along self axis }
    {
        match axis {
            Axis::Horizontal => self.x,
            Axis::Vertical => self.y,
        }
    }

    /// The offset with both sides clamped to -`LEN_MAX`..=`LEN_MAX`, in u.
    pub fn clamped(self) -> Offset
        ensures value { result ≡ offset_clamped self }
        ensures within { IsPlaced result }
        ensures kept { IsPlaced self → result ≡ self }
    {
        Offset {
            x: clamp_place(self.x),
            y: clamp_place(self.y),
        }
    }

    /// The sum of two offsets in u, each side of which is clamped to -[`OFFSET_MAX`]..=[`OFFSET_MAX`].
    pub fn plus(self, by: Offset) -> Offset
        ensures { result ≡ offset_sum self by }
    {
        Offset {
            x: add_sides(self.x, by.x),
            y: add_sides(self.y, by.y),
        }
    }
}

/// The sum of two sides of offsets, clamped.
fn add_sides(a: i64, b: i64) -> i64
    ensures { result ≡ side_sum a b }
{
    let sum = a as i128 + b as i128;
    sum.clamp(-(OFFSET_MAX as i128), OFFSET_MAX as i128) as i64
}

/// One side of an offset, clamped to -`LEN_MAX`..=`LEN_MAX`.
fn clamp_place(place: i64) -> i64
    ensures value { result ≡ placement_of place }
    ensures within { IsPlacement result }
    ensures kept { IsPlacement place → result ≡ place }
{
    place.clamp(-(LEN_MAX as i64), LEN_MAX as i64)
}

/// A width and a height, in u.
#[derive(Clone, Copy, Debug, Default, PartialEq, Eq)]
pub struct Size {
    pub w: u64,
    pub h: u64,
}

impl Size {
    /// No extent at all.
    pub const ZERO: Size = Size { w: 0, h: 0 };

    /// The size with the extent `main` along an axis and `cross` across it, in u.
    pub fn along(axis: Axis, main: u64, cross: u64) -> Size
        ensures value { result ≡ size_along axis main cross }
        ensures main { extent_of result axis ≡ main }
        ensures cross { extent_of result (other_of axis) ≡ cross }
    {
        match axis {
            Axis::Horizontal => Size { w: main, h: cross },
            Axis::Vertical => Size { w: cross, h: main },
        }
    }

    /// The extent along an axis, in u: the width or the height.
    pub fn extent(self, axis: Axis) -> u64
        ensures { result ≡ extent_of self axis }
    {
        match axis {
            Axis::Horizontal => self.w,
            Axis::Vertical => self.h,
        }
    }

    /// Whether a point lies in a box of this size whose left upper corner is the origin: its near edges are inside, its
    /// far ones outside (`Size.contains`).
    pub fn contains(self, point: Offset) -> bool
        ensures value { result ≡ contains self point }
        ensures inside { IsTrue result ↔ IsInside self point }
    {
        lies_before(point.x, self.w) && lies_before(point.y, self.h)
    }
}

/// Whether a place is at least 0 and before the end of an extent.
fn lies_before(place: i64, extent: u64) -> bool
    ensures { result ≡ lies_before place extent }
{
    0 <= place && (place as i128) < extent as i128
}

/// A rectangle: where its left upper corner stands, and its size, in u.
#[derive(Clone, Copy, Debug, Default, PartialEq, Eq)]
pub struct Rect {
    pub at: Offset,
    pub size: Size,
}

/// Distances from the four edges of a box inward, in u (`EdgeInsets`).
#[derive(Clone, Copy, Debug, Default, PartialEq, Eq)]
pub struct Insets {
    pub left: u64,
    pub top: u64,
    pub right: u64,
    pub bottom: u64,
}

impl Insets {
    /// The inset at the start of an axis, in u: left or top.
    pub fn before(self, axis: Axis) -> u64
        ensures { result ≡ before self axis }
    {
        match axis {
            Axis::Horizontal => self.left,
            Axis::Vertical => self.top,
        }
    }

    /// The inset at the end of an axis, in u: right or bottom.
    pub fn after(self, axis: Axis) -> u64
        ensures { result ≡ after self axis }
    {
        match axis {
            Axis::Horizontal => self.right,
            Axis::Vertical => self.bottom,
        }
    }

    /// What the insets take from an axis, in u (`EdgeInsets.along`). The sum stops at `LEN_MAX`.
    pub fn along(self, axis: Axis) -> u64
        ensures { result ≡ along self axis }
    {
        add_lengths(self.before(axis), self.after(axis))
    }

    /// Where the content of the insets begins, in u (`EdgeInsets.topLeft`). Each side stops at `LEN_MAX`.
    pub fn top_left(self) -> Offset
        ensures value { result ≡ top_left_of self }
        ensures within { IsPlaced result }
    {
        Offset {
            x: self.left.min(LEN_MAX) as i64,
            y: self.top.min(LEN_MAX) as i64,
        }
    }

    /// The size with the insets around it, in u (`EdgeInsets.inflateSize`). The sums stop at `LEN_MAX`.
    pub fn inflate(self, size: Size) -> Size
        ensures value { result ≡ inflated self size }
        ensures lengths { HasLengths result }
    {
        Size {
            w: add_lengths(size.w, self.along(Axis::Horizontal)),
            h: add_lengths(size.h, self.along(Axis::Vertical)),
        }
    }
}
