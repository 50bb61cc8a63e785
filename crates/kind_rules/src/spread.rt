// What the children of a Row or a Column take, and where they stand (`RenderFlex.performLayout`).
ghost use Rattle.std.specs.Prelude.{pos, ◌≡◌, ◌^◌, ◌≤◌, length, IfOk};
ghost use Rattle.std.specs.List.{All};
ghost use Rattle.fx_geom.specs.Size.{HasLengths};
ghost use Rattle.fx_geom.specs.Along.{most_along, offset_along, size_along};
ghost use Rattle.fx_geom.specs.Bounds.{constrain};
ghost use Rattle.fx_geom.specs.Insets.{extent_of, other_of};
ghost use Rattle.fx_geom.specs.Len.{total_of};
ghost use Rattle.flex_layout.specs.Flex.{cross_of};
ghost use Rattle.wrap_table.specs.Stretches.{greatest_of, starts_from};
ghost use Rattle.layout_form.specs.Object.{extents_of};
ghost use Rattle.layout_form.specs.FlexRule.{main_wanted, flex_offsets};
ghost use Rattle.layout_form.specs.Frames.{frames_given, sizes_by};

use crate::family::Family;
use crate::line::FlexLine;
use crate::sums::signed;
use flex_layout::{Gaps, cross_at};
use fx_geom::{Axis, Bounds, Len, Offset, Size, add_lengths};
use std::alloc::{AllocError, Global};
use widget_model::MainSize;

fn main_wanted(size: MainSize, most: Len, allocated: u64) -> u64
    ensures { result ≡ main_wanted size most allocated }
{
    match size {
        MainSize::Max => most.finite_or(allocated),
        MainSize::Min => allocated,
    }
}

// What the frames that are there take of an axis, how far the longest reaches across it, and how many there are.
#[derive(Clone, Copy)]
pub(crate) struct Taken {
    pub allocated: u64,
    pub across: u64,
    pub count: usize,
}

pub(crate) fn taken_by<F: Family>(axis: Axis, family: F) -> Taken
    ensures allocated { result.allocated ≡ total_of (extents_of axis (sizes_by (frames_given (F.frames family)))) }
    ensures within { result.allocated ≤ 2 ^ 40 }
    ensures across { result.across ≡ greatest_of (extents_of (other_of axis) (sizes_by (frames_given (F.frames family)))) }
    ensures count { result.count ≡ length (sizes_by (frames_given (F.frames family))) }
{
    let mut allocated = 0;
    let mut across = 0;
    let mut count = 0;
    for i in 0..family.answers() {
        match family.size_at(i) {
            None => continue,
            Some(size) => {
                allocated = add_lengths(allocated, size.extent(axis));
                across = size.extent(axis.other()).max(across);
                count += 1;
            }
        }
    }
    Taken {
        allocated,
        across,
        count,
    }
}

pub(crate) fn flex_size(axis: Axis, size: MainSize, b: Bounds, allocated: u64, across: u64) -> Size
    ensures value { result ≡ constrain b (size_along axis (main_wanted size (most_along b axis) allocated) across) }
    ensures lengths { HasLengths result }
{
    b.constrain(Size::along(axis, main_wanted(size, b.most(axis), allocated), across))
}

// Where a child stands that begins at this place of the axis.
fn flex_place(line: FlexLine, at: u64, whole: Size, child: Size) -> Offset
    requires at { at ≤ 2 ^ 40 }
    requires whole { HasLengths whole }
    requires child { HasLengths child }
    ensures { result ≡ offset_along line.axis (pos at) (cross_of line.cross (extent_of whole (other_of line.axis)) (extent_of child (other_of line.axis))) }
{
    let across = line.axis.other();
    Offset::along(
        line.axis,
        signed(at),
        cross_at(line.cross, whole.extent(across), child.extent(across)),
    )
}

// Where children stand in a row or a column of this size.
pub(crate) fn flex_places<F: Family>(
    alloc: Global,
    line: FlexLine,
    whole: Size,
    room: Gaps,
    family: F,
) -> Result<Vec<Offset>, AllocError>
    requires whole { HasLengths whole }
    requires lead { room.lead ≤ 2 ^ 40 }
    requires sizes { All HasLengths (sizes_by (frames_given (F.frames family))) }
    ensures { IfOk result (λ v. v.items ≡ flex_offsets line.axis line.cross (extent_of whole (other_of line.axis)) (starts_from room.between room.lead (extents_of line.axis (sizes_by (frames_given (F.frames family))))) (sizes_by (frames_given (F.frames family)))) }
{
    let between = room.between;
    let mut at = room.lead;
    let mut offsets = Vec::with_capacity(alloc, family.answers())?;
    for i in 0..family.answers() {
        match family.size_at(i) {
            None => continue,
            Some(size) => {
                offsets.push_reserved(flex_place(line, at, whole, size));
                at = add_lengths(add_lengths(at, size.extent(line.axis)), between);
            }
        }
    }
    Ok(offsets)
}
