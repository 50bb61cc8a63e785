// The slivers (`RenderSliver`).
ghost use Rattle.std.specs.Prelude.{◌≡◌, ◌∷◌, [], ◌^◌, ◌≤◌, map, option_to_list, IfOk};
ghost use Rattle.fx_geom.specs.Insets.{before};
ghost use Rattle.sliver_layout.specs.Slivers.{paint_offset_of};
ghost use Rattle.sliver_layout.specs.Lists.{window_of};
ghost use Rattle.layout_form.specs.Object.{no_geometry};
ghost use Rattle.layout_form.specs.SliverRule.{box_bounds, padded_place, is_among, counted};
ghost use Rattle.layout_form.specs.Protocol.{items_first};
ghost use Rattle.layout_form.specs.Frames.{frames_given, to_box_makes, padding_makes, item_places, list_makes};
ghost use Rattle.kind_rules.specs.Few.{items_of};
ghost use Rattle.kind_rules.specs.Ruling.{ruling_of, sliver_ruling};
ghost use Rattle.kind_rules.specs.Walks.{AreLengths};

use crate::asking::ask_if;
use crate::few::Few;
use crate::made::{Made, passed};
use crate::reading::{first_frame, frame_geometry};
use crate::sums::signed;
use fx_geom::{Axis, Bounds, Insets, Len, Offset, Size};
use layout_form::Ask;
use plain_tree::{Frame, ParentData};
use sliver_layout::{
    Geometry, SliverBounds, Window, box_geometry, box_place, item_place, list_geometry,
    padding_geometry, paint_offset, window,
};
use std::alloc::{AllocError, Global};

// A sliver that gives nothing.
pub(crate) fn no_passage(b: SliverBounds) -> Made
    ensures { ruling_of result ≡ sliver_ruling b (record { geometry = no_geometry; places = [] }) }
{
    passed(
        b,
        Geometry {
            scroll: 0,
            paint: 0,
        },
        Few::Empty,
    )
}

pub(crate) fn box_bounds(b: SliverBounds) -> Bounds
    ensures { result ≡ box_bounds b }
{
    Bounds::along(b.axis, 0, Len::Unbounded, b.cross, Len::Finite(b.cross))
}

// What comes of the frame of a SliverToBox's child, if there is one.
pub(crate) fn to_box_made(b: SliverBounds, frames: &[Option<Frame>]) -> Made
    requires { b.offset ≤ 2 ^ 40 }
    ensures { ruling_of result ≡ sliver_ruling b (to_box_makes b (frames_given frames.now)) }
{
    match first_frame(frames) {
        None => passed(b, box_geometry(b, None), Few::Empty),
        Some(frame) => {
            let geometry = box_geometry(b, Some(frame.box_size().extent(b.axis)));
            passed(
                b,
                geometry,
                Few::Alone(Offset::along(b.axis, box_place(b), 0)),
            )
        }
    }
}

// An inset before the child.
fn before_of(insets: Insets, axis: Axis) -> u64
    requires { AreLengths insets }
    ensures value { result ≡ before insets axis }
    ensures within { result ≤ 2 ^ 40 }
{
    match axis {
        Axis::Horizontal => insets.left,
        Axis::Vertical => insets.top,
    }
}

// What is seen of an inset before the child.
fn seen_before(b: SliverBounds, inset: u64) -> u64
    requires { inset ≤ 2 ^ 40 }
    ensures value { result ≡ paint_offset_of b 0 inset }
    ensures within { result ≤ 2 ^ 40 }
{
    paint_offset(b, 0, inset)
}

// Where the child of a SliverPadding stands.
fn padded_place(b: SliverBounds, insets: Insets) -> Offset
    requires { AreLengths insets }
    ensures { result ≡ padded_place b insets }
{
    let main = seen_before(b, before_of(insets, b.axis));
    let across = before_of(insets, b.axis.other());
    Offset::along(b.axis, signed(main), signed(across))
}

// What comes of the frame of a SliverPadding's child, if there is one.
pub(crate) fn padding_made(insets: Insets, b: SliverBounds, frames: &[Option<Frame>]) -> Made
    requires { AreLengths insets }
    ensures { ruling_of result ≡ sliver_ruling b (padding_makes insets b (frames_given frames.now)) }
{
    match first_frame(frames) {
        None => passed(b, padding_geometry(b, insets, None), Few::Empty),
        Some(frame) => {
            let geometry = padding_geometry(b, insets, Some(frame_geometry(frame)));
            passed(b, geometry, Few::Alone(padded_place(b, insets)))
        }
    }
}

// The places of the children of a list that are all there.
pub(crate) fn counted(alloc: Global, told: &[ParentData]) -> Result<Vec<u64>, AllocError>
    ensures { IfOk result (λ v. v.items ≡ counted 0 told.now) }
{
    let mut indices = Vec::with_capacity(alloc, told.len())?;
    for (i, _child) in told.iter().enumerate() {
        indices.push(i as u64)?;
    }
    Ok(indices)
}

// The places that the items of a list were told.
pub(crate) fn indices_of(alloc: Global, told: &[ParentData]) -> Result<Vec<u64>, AllocError>
    ensures { IfOk result (λ v. v.items ≡ map (λ d. d.index) told.now) }
{
    let mut indices = Vec::with_capacity(alloc, told.len())?;
    for d in told {
        indices.push(d.index)?;
    }
    Ok(indices)
}

fn is_among(w: Window, i: u64) -> bool
    ensures { result ≡ is_among w i }
{
    w.first <= i && i < w.end
}

// The items that are seen, each tight on both axes.
pub(crate) fn items_first(
    alloc: Global,
    b: SliverBounds,
    extent: u64,
    count: u64,
    indices: &[u64],
) -> Result<Few<Option<Ask>>, AllocError>
    requires { 1 ≤ extent }
    ensures { IfOk result (λ v. items_of v ≡ items_first b extent (window_of b extent count) indices.now) }
{
    let seen = window(b, extent, count);
    let ask = Ask::AsBox(Bounds::tight(Size::along(b.axis, extent, b.cross)));
    let mut asks = Vec::with_capacity(alloc, indices.len())?;
    for i in indices {
        asks.push(ask_if(is_among(seen, *i), ask))?;
    }
    Ok(Few::Each(asks))
}

// The place of an item by its index, if it answered.
fn item_at(b: SliverBounds, extent: u64, index: u64, frame: &Option<Frame>) -> Option<Offset>
    requires { b.offset ≤ 2 ^ 40 }
    ensures { option_to_list result ≡ item_places b extent (index ∷ []) (frame.now ∷ []) }
{
    match frame {
        None => None,
        Some(_) => Some(Offset::along(b.axis, item_place(b, extent, index), 0)),
    }
}

// The places of the items that answered.
fn item_places(
    alloc: Global,
    b: SliverBounds,
    extent: u64,
    indices: &[u64],
    frames: &[Option<Frame>],
) -> Result<Vec<Offset>, AllocError>
    requires { b.offset ≤ 2 ^ 40 }
    ensures { IfOk result (λ v. v.items ≡ item_places b extent indices.now frames.now) }
{
    let mut places = Vec::new(alloc);
    for (i, frame) in frames.iter().enumerate() {
        match indices.get(i) {
            None => continue,
            Some(index) => match item_at(b, extent, *index, frame) {
                None => continue,
                Some(at) => places.push(at)?,
            },
        }
    }
    Ok(places)
}

// What comes of the items of a list of so many children.
pub(crate) fn list_made(
    alloc: Global,
    extent: u64,
    count: u64,
    b: SliverBounds,
    indices: &[u64],
    frames: &[Option<Frame>],
) -> Result<Made, AllocError>
    requires { b.offset ≤ 2 ^ 40 }
    ensures { IfOk result (λ m. ruling_of m ≡ sliver_ruling b (list_makes extent count b indices.now frames.now)) }
{
    let places = item_places(alloc, b, extent, indices, frames)?;
    Ok(passed(b, list_geometry(b, extent, count), Few::Each(places)))
}
