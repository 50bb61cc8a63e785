// Viewport (`RenderViewport`).
ghost use Rattle.std.specs.Prelude.{◌≡◌, ◌∷◌, [], ◌^◌, ◌≤◌, option_to_list, IfOk};
ghost use Rattle.fx_geom.specs.Insets.{extent_of};
ghost use Rattle.fx_geom.specs.Size.{HasLengths};
ghost use Rattle.sliver_layout.specs.Slivers.{walk_from};
ghost use Rattle.layout_form.specs.SliverRule.{view_size, is_endless, unseen};
ghost use Rattle.layout_form.specs.Frames.{frames_given, geometries_by, scrolls_by, extents_by, start_by, views_by, view_rest_by, walk_places, view_makes};
ghost use Rattle.kind_rules.specs.Few.{items_of};
ghost use Rattle.kind_rules.specs.Ruling.{ruling_of, box_ruling};
ghost use Rattle.kind_rules.specs.Walks.{IsSeen, walk_by, walk_on};

use crate::few::Few;
use crate::made::Made;
use crate::reading::{frame_geometry, scroll_given};
use crate::sums::signed;
use fx_geom::{Axis, Bounds, Offset, Size};
use layout_form::Ask;
use plain_tree::{Frame, Notes};
use sliver_layout::{SliverBounds, Walk, corrected, whole_geometry};
use std::alloc::{AllocError, Global};

/// The size of a Viewport: each axis is the maximum where it is bounded, else the minimum.
pub fn view_size(b: Bounds) -> Size
    ensures value { result ≡ view_size b }
    ensures lengths { HasLengths result }
{
    Size {
        w: b.max_w.finite_or(b.min_w),
        h: b.max_h.finite_or(b.min_h),
    }
}

fn is_endless(b: Bounds) -> bool
    ensures { result ≡ is_endless b }
{
    !b.max_w.is_bounded() || !b.max_h.is_bounded()
}

/// A view in which nothing is seen.
pub fn unseen(axis: Axis, cross: u64) -> SliverBounds
    ensures { result ≡ unseen axis cross }
{
    SliverBounds {
        axis,
        offset: 0,
        remaining: 0,
        cross,
    }
}

// Where a Viewport stands scrolled.
pub(crate) fn view_start(axis: Axis, scroll: u64, b: Bounds, frames: &[Option<Frame>]) -> u64
    ensures value { result ≡ start_by axis scroll b (scrolls_by frames.now) }
    ensures within { result ≤ 2 ^ 40 }
{
    corrected(scroll, scroll_given(frames), view_size(b).extent(axis))
}

// The view of the next sliver of a walk, and the walk past it.
fn next_view(
    axis: Axis,
    main: u64,
    cross: u64,
    walk: Walk,
    frame: &Option<Frame>,
) -> (Option<Ask>, Walk)
    requires { walk.at ≤ main }
    ensures ask { (result.0 ∷ []) ≡ views_by axis main cross walk (extents_by (frame.now ∷ [])) }
    ensures walk { result.1 ≡ walk_by axis main cross walk frame.now }
    ensures inside { result.1.at ≤ main }
{
    match frame {
        None => (None, walk),
        Some(frame) => {
            let view = walk.view(axis, main, cross);
            let given = whole_geometry(view, frame_geometry(*frame).scroll);
            (Some(Ask::AsSliver(view)), walk.past(given, main))
        }
    }
}

// The slivers in their views, by how far each can be scrolled through.
pub(crate) fn view_rest(
    alloc: Global,
    axis: Axis,
    start: u64,
    b: Bounds,
    frames: &[Option<Frame>],
) -> Result<Few<Option<Ask>>, AllocError>
    ensures { IfOk result (λ v. items_of v ≡ view_rest_by axis start b (extents_by frames.now)) }
{
    let size = view_size(b);
    let main = size.extent(axis);
    let cross = size.extent(axis.other());
    let mut walk = Walk::from_offset(start);
    let mut asks = Vec::with_capacity(alloc, frames.len())?;
    for frame in frames {
        let (ask, next) = next_view(axis, main, cross, walk, frame);
        asks.push(ask)?;
        walk = next;
    }
    Ok(Few::Each(asks))
}

// The place of the next sliver of a walk, if it is there, and the walk past it.
fn next_place(axis: Axis, main: u64, walk: Walk, frame: &Option<Frame>) -> (Option<Offset>, Walk)
    requires main { main ≤ 2 ^ 40 }
    requires inside { walk.at ≤ main }
    requires seen { IsSeen main walk (geometries_by (frames_given (frame.now ∷ []))) }
    ensures place { option_to_list result.0 ≡ walk_places axis walk (geometries_by (frames_given (frame.now ∷ []))) }
    ensures walk { result.1 ≡ walk_on walk frame.now }
    ensures inside { result.1.at ≤ main }
{
    match frame {
        None => (None, walk),
        Some(frame) => {
            let at = Offset::along(axis, signed(walk.at), 0);
            (Some(at), walk.past(frame_geometry(*frame), main))
        }
    }
}

// The places of the slivers.
fn view_places(
    alloc: Global,
    axis: Axis,
    main: u64,
    start: u64,
    frames: &[Option<Frame>],
) -> Result<Vec<Offset>, AllocError>
    requires main { main ≤ 2 ^ 40 }
    requires seen { IsSeen main (walk_from start) (geometries_by (frames_given frames.now)) }
    ensures { IfOk result (λ v. v.items ≡ walk_places axis (walk_from start) (geometries_by (frames_given frames.now))) }
{
    let mut walk = Walk::from_offset(start);
    let mut places = Vec::with_capacity(alloc, frames.len())?;
    for frame in frames {
        let (place, next) = next_place(axis, main, walk, frame);
        walk = next;
        match place {
            None => continue,
            Some(at) => places.push(at)?,
        }
    }
    Ok(places)
}

// What comes of the slivers of a Viewport that stands scrolled so far.
pub(crate) fn view_made(
    alloc: Global,
    axis: Axis,
    b: Bounds,
    start: u64,
    frames: &[Option<Frame>],
) -> Result<Made, AllocError>
    requires { IsSeen (extent_of (view_size b) axis) (walk_from start) (geometries_by (frames_given frames.now)) }
    ensures { IfOk result (λ m. ruling_of m ≡ box_ruling b (view_makes axis b start (geometries_by (frames_given frames.now)))) }
{
    let size = view_size(b);
    let places = view_places(alloc, axis, size.extent(axis), start, frames)?;
    Ok(Made {
        frame: Frame::Boxed { bounds: b, size },
        notes: Notes {
            overflow: 0,
            unbounded: is_endless(b),
        },
        scrolled: start,
        places: Few::Each(places),
    })
}
