// The extents that boxes would like, by those that their children would like.
ghost use Rattle.std.specs.Prelude.{◌≡◌, ◌∷◌, [], ◌^◌, ◌<◌, ◌++◌, sum, IfOk, OnOk, if◌then◌else◌};
ghost use Rattle.fx_geom.specs.Len.{less};
ghost use Rattle.layout_form.specs.FlexRule.{factors_of, is_rigid};
ghost use Rattle.layout_form.specs.StackRule.{is_free};
ghost use Rattle.layout_form.specs.TextRule.{text_extent};
ghost use Rattle.layout_form.specs.Intrinsic.{extents_where, shared_where, own_liked, stack_liked, main_liked, flex_liked, flex_across};

use crate::family::Lists;
use crate::pile::is_free;
use crate::sums::{greatest_of, total_factor, total_of};
use flex_layout::flex_extent;
use fx_geom::{Axis, Bounds, Len, Scale, add_lengths};
use plain_tree::ParentData;
use std::alloc::{AllocError, Global};
use text_cells::{max_width, measure};

pub(crate) fn less(most: Len, taken: u64) -> Len
    ensures { result ≡ less most taken }
{
    match most {
        Len::Finite(n) => Len::Finite(n.saturating_sub(taken)),
        Len::Unbounded => Len::Unbounded,
    }
}

pub(crate) fn text_greatest(text: &str, axis: Axis, across: Len, scale: Scale) -> u64
    ensures { result ≡ text_extent scale.cell text.now axis across }
{
    match axis {
        Axis::Horizontal => max_width(text, scale.cell),
        Axis::Vertical => measure(text, across, scale.cell).h,
    }
}

// An extent clamped by a box's own bounds.
pub(crate) fn own_liked(own: Bounds, axis: Axis, child: u64) -> u64
    ensures { result ≡ own_liked own axis child }
{
    own.least(axis).max(child.min(own.most(axis).limit()))
}

// A Row or Column asks across its axis where nothing limits its children.
pub(crate) fn flex_across(line: Axis, axis: Axis, across: Len) -> Len
    ensures { result ≡ flex_across line axis across }
{
    match (line, axis) {
        (Axis::Horizontal, Axis::Horizontal) | (Axis::Vertical, Axis::Vertical) => across,
        _ => Len::Unbounded,
    }
}

// The extents of the children with factor 0.
fn rigid_extents(
    alloc: Global,
    told: &[ParentData],
    extents: &[u64],
) -> Result<Vec<u64>, AllocError>
    ensures { IfOk result (λ v. v.items ≡ extents_where is_rigid told.now extents.now) }
{
    let mut rigid = Vec::new(alloc);
    for (i, extent) in extents.iter().enumerate() {
        match told.get(i) {
            None => continue,
            Some(d) => push_if(d.flex == 0, *extent, &mut rigid)?,
        }
    }
    Ok(rigid)
}

// The extents of the children that aren't positioned.
fn free_extents(alloc: Global, told: &[ParentData], extents: &[u64]) -> Result<Vec<u64>, AllocError>
    ensures { IfOk result (λ v. v.items ≡ extents_where is_free told.now extents.now) }
{
    let mut free = Vec::new(alloc);
    for (i, extent) in extents.iter().enumerate() {
        match told.get(i) {
            None => continue,
            Some(d) => push_if(is_free(d), *extent, &mut free)?,
        }
    }
    Ok(free)
}

fn push_if(test: bool, extent: u64, extents: &mut Vec<u64>) -> Result<(), AllocError>
    ensures { OnOk result (extents.new.items ≡ extents.old.items ++ (if test then (extent ∷ []) else [])) }
{
    if test {
        extents.push(extent)?;
    }
    Ok(())
}

// The main extent at which a child has its own extent by its share, where it has a factor.
fn push_shared(
    d: &ParentData,
    extent: u64,
    total: u64,
    extents: &mut Vec<u64>,
) -> Result<(), AllocError>
    ensures { OnOk result (extents.new.items ≡ extents.old.items ++ shared_where total (d.now ∷ []) (extent ∷ [])) }
{
    if d.flex > 0 {
        extents.push(flex_extent(extent, d.flex, total))?;
    }
    Ok(())
}

// Those of the children that have a factor.
fn shared_extents(
    alloc: Global,
    told: &[ParentData],
    extents: &[u64],
) -> Result<Vec<u64>, AllocError>
    requires { sum (factors_of told.now) < 2 ^ 64 }
    ensures { IfOk result (λ v. v.items ≡ shared_where (sum (factors_of told.now)) told.now extents.now) }
{
    let total = total_factor(Lists { told, frames: &[] });
    let mut shared = Vec::new(alloc);
    for (i, extent) in extents.iter().enumerate() {
        match told.get(i) {
            None => continue,
            Some(d) => push_shared(d, *extent, total, &mut shared)?,
        }
    }
    Ok(shared)
}

// What a Row or Column would like along an axis, by what its children would like.
pub(crate) fn flex_liked(
    alloc: Global,
    line: Axis,
    axis: Axis,
    told: &[ParentData],
    extents: &[u64],
) -> Result<u64, AllocError>
    requires { sum (factors_of told.now) < 2 ^ 64 }
    ensures { IfOk result (λ n. n ≡ flex_liked line axis told.now extents.now) }
{
    match (line, axis) {
        (Axis::Horizontal, Axis::Horizontal) | (Axis::Vertical, Axis::Vertical) => main_liked(
            alloc, told, extents,
        ),
        _ => Ok(greatest_of(extents)),
    }
}

// Along its main axis.
fn main_liked(alloc: Global, told: &[ParentData], extents: &[u64]) -> Result<u64, AllocError>
    requires { sum (factors_of told.now) < 2 ^ 64 }
    ensures { IfOk result (λ n. n ≡ main_liked told.now extents.now) }
{
    let rigid = rigid_extents(alloc, told, extents)?;
    let shared = shared_extents(alloc, told, extents)?;
    Ok(add_lengths(total_of(rigid.as_slice()), greatest_of(shared.as_slice())))
}

// What a Stack would like, by what its children would like.
pub(crate) fn stack_liked(
    alloc: Global,
    told: &[ParentData],
    extents: &[u64],
) -> Result<u64, AllocError>
    ensures { IfOk result (λ n. n ≡ stack_liked told.now extents.now) }
{
    let free = free_extents(alloc, told, extents)?;
    Ok(greatest_of(free.as_slice()))
}
