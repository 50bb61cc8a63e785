// What is read of the children's frames.
ghost use Rattle.std.specs.Prelude.{◌≡◌, ◌∷◌, [], ◌^◌, ◌≤◌, map, sum, option_to_list, IfOk};
ghost use Rattle.fx_geom.specs.Len.{total_of};
ghost use Rattle.layout_form.specs.Object.{frame_geometry, extents_of};
ghost use Rattle.layout_form.specs.Frames.{frames_given, sizes_by, scrolls_by};
ghost use Rattle.kind_rules.specs.Reading.{first_frame_of, are_there};

use crate::family::Family;
use fx_geom::{Axis, Size, add_lengths};
use plain_tree::Frame;
use sliver_layout::Geometry;
use std::alloc::{AllocError, Global};

// What a sliver gives; a box gives nothing.
pub(crate) fn frame_geometry(frame: Frame) -> Geometry
    ensures { result ≡ frame_geometry frame }
{
    match frame {
        Frame::Boxed { .. } => Geometry {
            scroll: 0,
            paint: 0,
        },
        Frame::Sliver { geometry, .. } => geometry,
    }
}

// The first frame that is there.
pub(crate) fn first_frame(frames: &[Option<Frame>]) -> Option<Frame>
    ensures { result ≡ first_frame_of (frames_given frames.now) }
{
    for frame in frames {
        match frame {
            None => continue,
            Some(frame) => return Some(*frame),
        }
    }
    None
}

// Whether all have answered.
pub(crate) fn are_there<F: Family>(family: F) -> bool
    ensures { result ≡ are_there (F.frames family) }
{
    for i in 0..family.answers() {
        match family.size_at(i) {
            None => return false,
            Some(_) => continue,
        }
    }
    true
}

// The size of a frame that is there, as a list.
pub(crate) fn size_of(frame: &Option<Frame>) -> Option<Size>
    ensures { option_to_list result ≡ sizes_by (frames_given (frame.now ∷ [])) }
{
    match frame {
        None => None,
        Some(frame) => Some(frame.box_size()),
    }
}

// The sizes of the frames that are there.
pub(crate) fn sizes_given(alloc: Global, frames: &[Option<Frame>]) -> Result<Vec<Size>, AllocError>
    ensures { IfOk result (λ v. v.items ≡ sizes_by (frames_given frames.now)) }
{
    let mut sizes = Vec::with_capacity(alloc, frames.len())?;
    for frame in frames {
        match size_of(frame) {
            None => continue,
            Some(size) => sizes.push_reserved(size),
        }
    }
    Ok(sizes)
}

// The sum of the extents of the children that have answered, which stops at the greatest length.
pub(crate) fn extent_given<F: Family>(axis: Axis, family: F) -> u64
    ensures value { result ≡ total_of (extents_of axis (sizes_by (frames_given (F.frames family)))) }
    ensures within { result ≤ 2 ^ 40 }
{
    let mut total = 0;
    for i in 0..family.answers() {
        match family.size_at(i) {
            None => continue,
            Some(size) => total = add_lengths(total, size.extent(axis)),
        }
    }
    total
}

// How far the slivers that are there can be scrolled through.
pub(crate) fn scroll_given(frames: &[Option<Frame>]) -> u64
    ensures value { result ≡ total_of (scrolls_by frames.now) }
    ensures within { result ≤ 2 ^ 40 }
{
    let mut total = 0;
    for frame in frames {
        total = add_lengths(total, scroll_of(frame));
    }
    total
}

fn scroll_of(frame: &Option<Frame>) -> u64
    ensures { result ≡ sum (scrolls_by (frame.now ∷ [])) }
{
    match frame {
        None => 0,
        Some(frame) => frame_geometry(*frame).scroll,
    }
}
