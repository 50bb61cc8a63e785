// Stack (`RenderStack`).
ghost use Rattle.std.specs.Prelude.{◌≡◌, ◌∷◌, [], ◌≤◌, map, fold, pos, neg_ℤ, ◌≤ℤ◌, IfOk};
ghost use Rattle.std.specs.List.{All};
ghost use Rattle.fx_geom.specs.Size.{HasLengths};
ghost use Rattle.layout_form.specs.Fits.{IsTold};
ghost use Rattle.layout_form.specs.StackRule.{position_of, is_free, free_bounds, greater, whole_of, stack_size, stack_child, stack_offset, stack_offsets};
ghost use Rattle.layout_form.specs.Protocol.{asks_where};
ghost use Rattle.layout_form.specs.Frames.{frames_given, sizes_by, sized_with, stack_rest_by};
ghost use Rattle.kind_rules.specs.Few.{items_of};
ghost use Rattle.kind_rules.specs.Ruling.{ruling_of, box_ruling};
ghost use Rattle.layout_form.specs.declared.asks.Ask.TheVariants.{AsBox};

use crate::asking::{ask_if, others};
use crate::family::Lists;
use crate::few::Few;
use crate::made::{Made, sized};
use crate::reading::{first_frame, sizes_given};
use flex_layout::{align_at, placed_at as positioned_at, placed_bounds};
use fx_geom::{Bounds, Len, Offset, Placed, Size, StackFit};
use layout_form::Ask;
use plain_tree::{Frame, ParentData};
use std::alloc::{AllocError, Global};

// Where a child stands in the room round it, from -100, left or top, to 100.
#[derive(Clone, Copy)]
pub(crate) struct Alignment {
    pub ax: i64,
    pub ay: i64,
    pub ghost from_left: { neg_ℤ (pos 100) ≤ℤ ax },
    pub ghost to_right: { ax ≤ℤ pos 100 },
    pub ghost from_top: { neg_ℤ (pos 100) ≤ℤ ay },
    pub ghost to_bottom: { ay ≤ℤ pos 100 },
}

// How a child is positioned, if it is.
fn position_of(d: &ParentData) -> Option<Placed>
    ensures { result ≡ position_of d.now.placed }
{
    match d.placed {
        None => None,
        Some(placed) => {
            if placed.is_positioned() {
                Some(placed)
            } else {
                None
            }
        }
    }
}

pub(crate) fn free_bounds(fit: StackFit, b: Bounds) -> Bounds
    ensures { result ≡ free_bounds fit b }
{
    match fit {
        StackFit::Loose => b.loosen(),
        StackFit::Expand => Bounds::normalized(
            b.max_w.finite_or(0),
            b.max_w,
            b.max_h.finite_or(0),
            b.max_h,
        ),
        StackFit::Passthrough => b,
    }
}

// Whether a child isn't positioned.
pub(crate) fn is_free(d: &ParentData) -> bool
    ensures { result ≡ is_free d.now }
{
    position_of(d).is_none()
}

// Those that aren't positioned.
pub(crate) fn pile_first(
    alloc: Global,
    fit: StackFit,
    b: Bounds,
    told: &[ParentData],
) -> Result<Few<Option<Ask>>, AllocError>
    ensures { IfOk result (λ v. items_of v ≡ asks_where is_free (AsBox (free_bounds fit b)) told.now) }
{
    let ask = Ask::AsBox(free_bounds(fit, b));
    let mut asks = Vec::with_capacity(alloc, told.len())?;
    for d in told {
        asks.push(ask_if(is_free(d), ask))?;
    }
    Ok(Few::Each(asks))
}

fn greater(a: Size, b: Size) -> Size
    ensures { result ≡ greater a b }
{
    Size {
        w: a.w.max(b.w),
        h: a.h.max(b.h),
    }
}

fn whole_of(max_w: Len, max_h: Len, b: Bounds) -> Size
    ensures { result ≡ whole_of max_w max_h b }
{
    match (max_w, max_h) {
        (Len::Finite(w), Len::Finite(h)) => Size { w, h },
        _ => b.smallest(),
    }
}

// The greatest of a size and that of a frame on each axis, if it is there.
fn greater_by(most: Size, frame: &Option<Frame>) -> Size
    ensures { result ≡ fold greater most (sizes_by (frames_given (frame.now ∷ []))) }
{
    match frame {
        None => most,
        Some(frame) => greater(most, frame.box_size()),
    }
}

// The greatest of a size and those of the frames that are there.
fn greatest_size(least: Size, frames: &[Option<Frame>]) -> Size
    ensures { result ≡ fold greater least (sizes_by (frames_given frames.now)) }
{
    let mut most = least;
    for frame in frames {
        most = greater_by(most, frame);
    }
    most
}

// The size of a stack, by its children that aren't positioned.
pub(crate) fn pile_size(b: Bounds, frames: &[Option<Frame>]) -> Size
    ensures { result ≡ stack_size b (sizes_by (frames_given frames.now)) }
{
    match first_frame(frames) {
        None => whole_of(b.max_w, b.max_h, b),
        Some(_) => greatest_size(b.smallest(), frames),
    }
}

fn stack_child(inner: Bounds, stack: Size, position: Option<Placed>) -> Bounds
    ensures { result ≡ stack_child inner stack position }
{
    match position {
        None => inner,
        Some(placed) => placed_bounds(&placed, stack),
    }
}

// Those that are positioned, each in its bounds.
pub(crate) fn pile_rest(
    alloc: Global,
    fit: StackFit,
    b: Bounds,
    size: Size,
    told: &[ParentData],
    frames: &[Option<Frame>],
) -> Result<Few<Option<Ask>>, AllocError>
    ensures { IfOk result (λ v. items_of v ≡ stack_rest_by fit b size told.now frames.now) }
{
    let bounds = stack_bounds(alloc, free_bounds(fit, b), size, told)?;
    others(alloc, bounds.as_slice(), Lists { told, frames })
}

fn stack_bounds(
    alloc: Global,
    inner: Bounds,
    size: Size,
    told: &[ParentData],
) -> Result<Vec<Bounds>, AllocError>
    ensures { IfOk result (λ v. v.items ≡ map (λ d. stack_child inner size (position_of d.placed)) told.now) }
{
    let mut bounds = Vec::with_capacity(alloc, told.len())?;
    for d in told {
        bounds.push(stack_child(inner, size, position_of(d)))?;
    }
    Ok(bounds)
}

// Where a child of this size stands.
fn stack_offset(at: Alignment, stack: Size, d: &ParentData, child: Size) -> Offset
    requires stack { HasLengths stack }
    requires child { HasLengths child }
    requires told { IsTold d.now }
    ensures { result ≡ stack_offset at.ax at.ay stack (position_of d.now.placed) child }
{
    match position_of(d) {
        None => Offset {
            x: align_at(stack.w, child.w, at.ax),
            y: align_at(stack.h, child.h, at.ay),
        },
        Some(placed) => positioned_at(&placed, stack, child, at.ax, at.ay),
    }
}

fn stack_offsets(
    alloc: Global,
    at: Alignment,
    stack: Size,
    told: &[ParentData],
    sizes: &[Size],
) -> Result<Vec<Offset>, AllocError>
    requires stack { HasLengths stack }
    requires sizes { All HasLengths sizes.now }
    requires told { All IsTold told.now }
    ensures { IfOk result (λ v. v.items ≡ stack_offsets at.ax at.ay stack told.now sizes.now) }
{
    let mut offsets = Vec::with_capacity(alloc, sizes.len())?;
    for (i, size) in sizes.iter().enumerate() {
        match told.get(i) {
            None => continue,
            Some(d) => offsets.push(stack_offset(at, stack, d, *size))?,
        }
    }
    Ok(offsets)
}

// What comes of the children's frames, in a stack of this size.
pub(crate) fn pile_made(
    alloc: Global,
    at: Alignment,
    b: Bounds,
    size: Size,
    told: &[ParentData],
    frames: &[Option<Frame>],
) -> Result<Made, AllocError>
    requires size { HasLengths size }
    requires sizes { All HasLengths (sizes_by (frames_given frames.now)) }
    requires told { All IsTold told.now }
    ensures { IfOk result (λ m. ruling_of m ≡ box_ruling b (sized_with size (stack_offsets at.ax at.ay size told.now (sizes_by (frames_given frames.now))))) }
{
    let sizes = sizes_given(alloc, frames)?;
    let offsets = stack_offsets(alloc, at, size, told, sizes.as_slice())?;
    Ok(sized(b, size, Few::Each(offsets)))
}
