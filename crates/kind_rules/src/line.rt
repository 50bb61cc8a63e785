// Row and Column (`RenderFlex`).
ghost use Rattle.std.specs.Prelude.{◌≡◌, ◌∷◌, [], ◌+◌, ◌^◌, ◌<◌, ◌≤◌, sum, map, IfOk};
ghost use Rattle.std.specs.List.{All, list_any};
ghost use Rattle.fx_geom.specs.Size.{HasLengths};
ghost use Rattle.fx_geom.specs.Along.{most_along};
ghost use Rattle.flex_layout.specs.Flex.{shares_after};
ghost use Rattle.layout_form.specs.FlexRule.{factors_of, is_flexible, least_across, flex_child, unshared, shared, bounds_by, flex_bounds, asks_unbounded};
ghost use Rattle.layout_form.specs.Protocol.{goes_first, flex_first};
ghost use Rattle.layout_form.specs.Frames.{frames_given, sizes_by, flex_makes, flex_rest_by};
ghost use Rattle.kind_rules.specs.Few.{items_of};
ghost use Rattle.kind_rules.specs.Asks.{asks_of};
ghost use Rattle.kind_rules.specs.Ruling.{ruling_of, box_ruling};

use crate::asking::{ask_if, others};
use crate::asks::Asks;
use crate::family::Family;
use crate::few::Few;
use crate::made::Made;
use crate::reading::{are_there, extent_given};
use crate::spread::{flex_places, flex_size, taken_by};
use crate::sums::total_factor;
use flex_layout::{gaps, share};
use fx_geom::{Axis, Bounds, CrossAlign, Len, MainAlign};
use layout_form::Ask;
use plain_tree::{Frame, Notes, ParentData};
use std::alloc::{AllocError, Global};
use widget_model::MainSize;

// How children stand along an axis and across it, and whether all of the axis is taken.
#[derive(Clone, Copy)]
pub(crate) struct FlexLine {
    pub axis: Axis,
    pub main: MainAlign,
    pub cross: CrossAlign,
    pub size: MainSize,
}

fn least_across(cross: CrossAlign, most: Len) -> u64
    ensures { result ≡ least_across cross most }
{
    match cross {
        CrossAlign::Start | CrossAlign::End | CrossAlign::Center => 0,
        CrossAlign::Stretch => most.finite_or(0),
    }
}

fn flex_child(axis: Axis, cross: CrossAlign, b: Bounds, least: u64, most: Len) -> Bounds
    ensures { result ≡ flex_child axis cross b least most }
{
    let across = b.most(axis.other());
    Bounds::along(axis, least, most, least_across(cross, across), across)
}

fn unshared(axis: Axis, cross: CrossAlign, b: Bounds) -> Bounds
    ensures { result ≡ unshared axis cross b }
{
    flex_child(axis, cross, b, 0, Len::Unbounded)
}

fn shared(axis: Axis, cross: CrossAlign, b: Bounds, tight: bool, share: u64) -> Bounds
    ensures { result ≡ shared axis cross b tight share }
{
    let least = if tight { share } else { 0 };
    flex_child(axis, cross, b, least, Len::Finite(share))
}

fn goes_first(most: Len, d: &ParentData) -> bool
    ensures { result ≡ goes_first most d.now }
{
    match most {
        Len::Finite(_) => d.flex == 0,
        Len::Unbounded => true,
    }
}

// Those that are asked first: with factor 0, and all where the main axis is unbounded.
pub(crate) fn line_first<F: Family>(
    alloc: Global,
    axis: Axis,
    cross: CrossAlign,
    b: Bounds,
    family: F,
) -> Result<Few<Option<Ask>>, AllocError>
    ensures { IfOk result (λ v. items_of v ≡ flex_first axis cross b (F.told family)) }
{
    let ask = Ask::AsBox(unshared(axis, cross, b));
    let most = b.most(axis);
    let mut asks = Vec::with_capacity(alloc, family.len())?;
    for i in 0..family.len() {
        asks.push_reserved(ask_if(goes_first(most, family.told_at(i)), ask));
    }
    Ok(Few::Each(asks))
}

// The same, without a list where all are asked alike.
pub(crate) fn line_asked<F: Family>(
    alloc: Global,
    axis: Axis,
    cross: CrossAlign,
    b: Bounds,
    family: F,
) -> Result<Asks, AllocError>
    ensures { IfOk result (λ v. asks_of v ≡ flex_first axis cross b (F.told family)) }
{
    match b.most(axis) {
        Len::Finite(_) => Ok(Asks::Each(line_first(alloc, axis, cross, b, family)?)),
        Len::Unbounded => Ok(Asks::Alike {
            ask: Some(Ask::AsBox(unshared(axis, cross, b))),
            count: family.len(),
        }),
    }
}

// The bounds of one child, where the factors before it have this sum.
fn child_bounds(
    axis: Axis,
    cross: CrossAlign,
    b: Bounds,
    d: &ParentData,
    free: u64,
    before: u64,
    total: u64,
) -> Bounds
    requires { before + d.now.flex ≤ total }
    ensures { result ∷ [] ≡ bounds_by axis cross b (d.now ∷ []) (shares_after free total before (factors_of (d.now ∷ []))) }
{
    if d.flex > 0 {
        shared(axis, cross, b, d.tight, share(free, before, d.flex, total))
    } else {
        unshared(axis, cross, b)
    }
}

// The bounds of the children, which share the free room.
fn shares_out<F: Family>(
    alloc: Global,
    axis: Axis,
    cross: CrossAlign,
    b: Bounds,
    free: u64,
    family: F,
) -> Result<Vec<Bounds>, AllocError>
    requires { sum (factors_of (F.told family)) < 2 ^ 64 }
    ensures { IfOk result (λ v. v.items ≡ bounds_by axis cross b (F.told family) (shares_after free (sum (factors_of (F.told family))) 0 (factors_of (F.told family)))) }
{
    let total = total_factor(family);
    let mut before = 0;
    let mut bounds = Vec::with_capacity(alloc, family.len())?;
    for i in 0..family.len() {
        let d = family.told_at(i);
        bounds.push_reserved(child_bounds(axis, cross, b, d, free, before, total));
        before += d.flex;
    }
    Ok(bounds)
}

// The same bounds for each child.
fn same_bounds<F: Family>(
    alloc: Global,
    inner: Bounds,
    family: F,
) -> Result<Vec<Bounds>, AllocError>
    ensures { IfOk result (λ v. v.items ≡ map (λ d. inner) (F.told family)) }
{
    let count = family.len();
    let mut bounds = Vec::with_capacity(alloc, count)?;
    for _i in 0..count {
        bounds.push_reserved(inner);
    }
    Ok(bounds)
}

fn flex_bounds<F: Family>(
    alloc: Global,
    axis: Axis,
    cross: CrossAlign,
    b: Bounds,
    fixed: u64,
    family: F,
) -> Result<Vec<Bounds>, AllocError>
    requires { sum (factors_of (F.told family)) < 2 ^ 64 }
    ensures { IfOk result (λ v. v.items ≡ flex_bounds axis cross b (most_along b axis) fixed (F.told family)) }
{
    match b.most(axis) {
        Len::Finite(most) => shares_out(alloc, axis, cross, b, most.saturating_sub(fixed), family),
        Len::Unbounded => same_bounds(alloc, unshared(axis, cross, b), family),
    }
}

// Those that are asked then, each in its share.
pub(crate) fn line_rest<F: Family>(
    alloc: Global,
    axis: Axis,
    cross: CrossAlign,
    b: Bounds,
    family: F,
) -> Result<Few<Option<Ask>>, AllocError>
    requires { sum (factors_of (F.told family)) < 2 ^ 64 }
    ensures { IfOk result (λ v. items_of v ≡ flex_rest_by axis cross b (F.told family) (F.frames family)) }
{
    let fixed = extent_given(axis, family);
    let bounds = flex_bounds(alloc, axis, cross, b, fixed, family)?;
    others(alloc, bounds.as_slice(), family)
}

// The same, without a list where all have answered.
pub(crate) fn line_rested<F: Family>(
    alloc: Global,
    axis: Axis,
    cross: CrossAlign,
    b: Bounds,
    family: F,
) -> Result<Asks, AllocError>
    requires { sum (factors_of (F.told family)) < 2 ^ 64 }
    ensures { IfOk result (λ v. asks_of v ≡ flex_rest_by axis cross b (F.told family) (F.frames family)) }
{
    if family.len() == family.answers() && are_there(family) {
        return Ok(Asks::Alike {
            ask: None,
            count: family.answers(),
        });
    }
    Ok(Asks::Each(line_rest(alloc, axis, cross, b, family)?))
}

// Whether a child asks for a share of an axis that has no end.
fn asks_unbounded<F: Family>(most: Len, family: F) -> bool
    ensures { result ≡ asks_unbounded most (F.told family) }
{
    match most {
        Len::Finite(_) => false,
        Len::Unbounded => is_any_flexible(family),
    }
}

// Whether a child has a factor.
fn is_any_flexible<F: Family>(family: F) -> bool
    ensures { result ≡ list_any is_flexible (F.told family) }
{
    for i in 0..family.len() {
        if family.told_at(i).flex > 0 {
            return true;
        }
    }
    false
}

// What comes of the children's frames.
pub(crate) fn line_made<F: Family>(
    alloc: Global,
    line: FlexLine,
    b: Bounds,
    family: F,
) -> Result<Made, AllocError>
    requires { All HasLengths (sizes_by (frames_given (F.frames family))) }
    ensures { IfOk result (λ m. ruling_of m
        ≡ box_ruling b (flex_makes line.axis line.main line.cross line.size b (asks_unbounded (most_along b line.axis) (F.told family)) (sizes_by (frames_given (F.frames family))))) }
{
    let taken = taken_by(line.axis, family);
    let allocated = taken.allocated;
    let size = flex_size(line.axis, line.size, b, allocated, taken.across);
    let rest = size.extent(line.axis).saturating_sub(allocated);
    let room = gaps(line.main, rest, taken.count);
    let offsets = flex_places(alloc, line, size, room, family)?;
    Ok(Made {
        frame: Frame::Boxed { bounds: b, size },
        notes: Notes {
            overflow: allocated.saturating_sub(size.extent(line.axis)),
            unbounded: asks_unbounded(b.most(line.axis), family),
        },
        scrolled: 0,
        places: Few::Each(offsets),
    })
}
