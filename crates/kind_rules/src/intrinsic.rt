// The extents that boxes would like (`computeMaxIntrinsicWidth`, `computeMaxIntrinsicHeight`).
ghost use Rattle.std.specs.Prelude.{◌≡◌, ◌≤◌, map, length, List, IfOk};
ghost use Rattle.delegates.specs.Table.{Plug};
ghost use Rattle.widget_model.specs.View.{look_in};
ghost use Rattle.layout_form.specs.Fits.{CanBeLaidOut};
ghost use Rattle.layout_form.specs.Object.{setting_of, only_of};
ghost use Rattle.layout_form.specs.Layout.{object, intrinsic_rule};
ghost use Rattle.layout_form.specs.Intrinsic.{child_extent, child_extents, flex_extent, stack_extent, wrapped_child, wrap_extent, cell_heights, table_extent};
ghost use Rattle.layout_form.specs.WrapTable.{columns_of};
ghost use Rattle.kind_rules.specs.Cursor.{children_of};

use crate::alone::{constrained_bounds, insets_of, sized_bounds};
use crate::cursor::{Cursor, told_to};
use crate::grid::{column_at, columns_of};
use crate::liking::{flex_across, flex_liked, less, own_liked, stack_liked, text_greatest};
use crate::sums::total_of;
use fx_geom::{Axis, Len, Scale, Size, add_lengths};
use std::alloc::{AllocError, Global};
use widget_model::Kind;
use wrap_table::{extent_of, table_size, wrap_size};

/// The extent that a node would like along an axis, where it may take so much across it, in u: the greatest at which it
/// still gains by it. Delegates have no part in it, whatever they are. It asks each node below it at most once, but what is
/// below a Wrap twice for the Wrap's height: each child is asked for its width first.
#[cycle(greatest)]
pub fn greatest<C: Cursor>(
    alloc: Global,
    cursor: C,
    axis: Axis,
    across: Len,
    scale: Scale,
) -> Result<u64, AllocError>
    requires { CanBeLaidOut (C.stands cursor) }
    ensures { IfOk result (λ n. (ds : List Plug) → n ≡ (object (setting_of scale ds) (C.stands cursor)).greatest axis across) }
{
    kind_greatest(alloc, cursor.kind(), cursor, axis, across, scale)
}

// The same by the rule of its kind.
#[cycle(greatest)]
fn kind_greatest<C: Cursor>(
    alloc: Global,
    kind: &Kind,
    cursor: C,
    axis: Axis,
    across: Len,
    scale: Scale,
) -> Result<u64, AllocError>
    requires { CanBeLaidOut (C.stands cursor) }
    ensures { IfOk result (λ n. (ds : List Plug)
        → n ≡ intrinsic_rule (setting_of scale ds) (look_in kind.now) axis across (map (object (setting_of scale ds)) (children_of (C.stands cursor)))) }
{
    match kind {
        Kind::SizedBox { width, height } => {
            let child = child_greatest(alloc, cursor, axis, across, scale)?;
            Ok(own_liked(sized_bounds(*width, *height), axis, child))
        }
        Kind::ConstrainedBox {
            min_width,
            max_width,
            min_height,
            max_height,
        } => {
            let child = child_greatest(alloc, cursor, axis, across, scale)?;
            Ok(own_liked(
                constrained_bounds(*min_width, *max_width, *min_height, *max_height),
                axis,
                child,
            ))
        }
        Kind::Padding {
            left,
            top,
            right,
            bottom,
        } => {
            let insets = insets_of(*left, *top, *right, *bottom);
            let left_over = less(across, insets.along(axis.other()));
            let child = child_greatest(alloc, cursor, axis, left_over, scale)?;
            Ok(add_lengths(insets.along(axis), child))
        }
        Kind::Text { text, .. } => Ok(text_greatest(text.get(), axis, across, scale)),
        Kind::Row { .. } => flex_greatest(alloc, Axis::Horizontal, cursor, axis, across, scale),
        Kind::Column { .. } => flex_greatest(alloc, Axis::Vertical, cursor, axis, across, scale),
        Kind::Wrap {
            spacing,
            run_spacing,
        } => wrap_greatest(alloc, *spacing, *run_spacing, cursor, axis, across, scale),
        Kind::Table { widths } => table_greatest(alloc, widths.get(), cursor, axis, scale),
        Kind::Stack { .. } => stack_greatest(alloc, cursor, axis, across, scale),
        Kind::Offstage { offstage: true } | Kind::Viewport { .. } => Ok(0),
        Kind::Align { .. }
        | Kind::ColoredBox { .. }
        | Kind::Flexible { .. }
        | Kind::Positioned { .. }
        | Kind::Opacity { .. }
        | Kind::ClipRect
        | Kind::RepaintBoundary
        | Kind::MergeSemantics
        | Kind::IntrinsicWidth
        | Kind::IntrinsicHeight
        | Kind::Offstage { offstage: false }
        | Kind::IgnorePointer { .. }
        | Kind::AbsorbPointer { .. }
        | Kind::Detector { .. }
        | Kind::Semantics { .. }
        | Kind::ExcludeSemantics { .. }
        | Kind::CustomPaint { .. }
        | Kind::CustomLayout { .. }
        | Kind::SliverToBox
        | Kind::SliverPadding { .. }
        | Kind::SliverFixed { .. }
        | Kind::SliverLazy { .. }
        | Kind::Keep { .. }
        | Kind::Inherit { .. }
        | Kind::Use { .. } => child_greatest(alloc, cursor, axis, across, scale),
    }
}

// That of the first child, and 0 where there is none.
#[cycle(greatest)]
pub(crate) fn child_greatest<C: Cursor>(
    alloc: Global,
    cursor: C,
    axis: Axis,
    across: Len,
    scale: Scale,
) -> Result<u64, AllocError>
    requires { CanBeLaidOut (C.stands cursor) }
    ensures { IfOk result (λ n. (ds : List Plug) → n ≡ child_extent axis across (only_of (map (object (setting_of scale ds)) (children_of (C.stands cursor))))) }
{
    if cursor.len() == 0 {
        Ok(0)
    } else {
        greatest(alloc, cursor.child(0), axis, across, scale)
    }
}

// Those of all children.
#[cycle(greatest)]
fn child_extents<C: Cursor>(
    alloc: Global,
    cursor: C,
    axis: Axis,
    across: Len,
    scale: Scale,
) -> Result<Vec<u64>, AllocError>
    requires { CanBeLaidOut (C.stands cursor) }
    ensures { IfOk result (λ v. (ds : List Plug) → v.items ≡ child_extents axis across (map (object (setting_of scale ds)) (children_of (C.stands cursor)))) }
{
    let count = cursor.len();
    let mut extents = Vec::with_capacity(alloc, count)?;
    for i in 0..count {
        let extent = greatest(alloc, cursor.child(i), axis, across, scale)?;
        extents.push(extent)?;
    }
    Ok(extents)
}

// That of a Row or a Column.
#[cycle(greatest)]
fn flex_greatest<C: Cursor>(
    alloc: Global,
    line: Axis,
    cursor: C,
    axis: Axis,
    across: Len,
    scale: Scale,
) -> Result<u64, AllocError>
    requires { CanBeLaidOut (C.stands cursor) }
    ensures { IfOk result (λ n. (ds : List Plug) → n ≡ flex_extent line axis across (map (object (setting_of scale ds)) (children_of (C.stands cursor)))) }
{
    let across = flex_across(line, axis, across);
    let extents = child_extents(alloc, cursor, axis, across, scale)?;
    let told = told_to(alloc, cursor)?;
    flex_liked(alloc, line, axis, told.as_slice(), extents.as_slice())
}

// That of a Stack.
#[cycle(greatest)]
fn stack_greatest<C: Cursor>(
    alloc: Global,
    cursor: C,
    axis: Axis,
    across: Len,
    scale: Scale,
) -> Result<u64, AllocError>
    requires { CanBeLaidOut (C.stands cursor) }
    ensures { IfOk result (λ n. (ds : List Plug) → n ≡ stack_extent axis across (map (object (setting_of scale ds)) (children_of (C.stands cursor)))) }
{
    let extents = child_extents(alloc, cursor, axis, across, scale)?;
    let told = told_to(alloc, cursor)?;
    stack_liked(alloc, told.as_slice(), extents.as_slice())
}

// That of a Wrap.
#[cycle(greatest)]
fn wrap_greatest<C: Cursor>(
    alloc: Global,
    gap: u64,
    run_gap: u64,
    cursor: C,
    axis: Axis,
    across: Len,
    scale: Scale,
) -> Result<u64, AllocError>
    requires { CanBeLaidOut (C.stands cursor) }
    ensures { IfOk result (λ n. (ds : List Plug) → n ≡ wrap_extent gap run_gap axis across (map (object (setting_of scale ds)) (children_of (C.stands cursor)))) }
{
    match axis {
        Axis::Horizontal => {
            let extents = child_extents(alloc, cursor, Axis::Horizontal, Len::Unbounded, scale)?;
            Ok(extent_of(extents.as_slice(), gap))
        }
        Axis::Vertical => {
            let sizes = wrapped_children(alloc, cursor, across, scale)?;
            Ok(wrap_size(sizes.as_slice(), across, gap, run_gap).h)
        }
    }
}

// The children of a Wrap, each as wide as it would like, at most the width, and as high as it would like then.
#[cycle(greatest)]
fn wrapped_children<C: Cursor>(
    alloc: Global,
    cursor: C,
    across: Len,
    scale: Scale,
) -> Result<Vec<Size>, AllocError>
    requires { CanBeLaidOut (C.stands cursor) }
    ensures { IfOk result (λ v. (ds : List Plug) → v.items ≡ map (wrapped_child across) (map (object (setting_of scale ds)) (children_of (C.stands cursor)))) }
{
    let count = cursor.len();
    let mut sizes = Vec::with_capacity(alloc, count)?;
    for i in 0..count {
        let child = cursor.child(i);
        let w = greatest(alloc, child, Axis::Horizontal, Len::Unbounded, scale)?.min(
            across.limit(),
        );
        let h = greatest(alloc, child, Axis::Vertical, Len::Finite(w), scale)?;
        sizes.push(Size { w, h })?;
    }
    Ok(sizes)
}

// That of a Table.
#[cycle(greatest)]
fn table_greatest<C: Cursor>(
    alloc: Global,
    widths: &[i64],
    cursor: C,
    axis: Axis,
    scale: Scale,
) -> Result<u64, AllocError>
    requires { CanBeLaidOut (C.stands cursor) }
    ensures { IfOk result (λ n. (ds : List Plug) → n ≡ table_extent (columns_of widths.now) axis (map (object (setting_of scale ds)) (children_of (C.stands cursor)))) }
{
    let columns = columns_of(alloc, widths)?;
    match axis {
        Axis::Horizontal => Ok(total_of(columns.as_slice())),
        Axis::Vertical => {
            let heights = cell_heights(alloc, columns.as_slice(), cursor, scale)?;
            Ok(table_size(columns.as_slice(), heights.as_slice()).h)
        }
    }
}

// The children of a Table, each as high as it would like to be in its column.
#[cycle(greatest)]
fn cell_heights<C: Cursor>(
    alloc: Global,
    columns: &[u64],
    cursor: C,
    scale: Scale,
) -> Result<Vec<u64>, AllocError>
    requires below { CanBeLaidOut (C.stands cursor) }
    requires columns { 1 ≤ length columns.now }
    ensures { IfOk result (λ v. (ds : List Plug) → v.items ≡ cell_heights columns.now 0 (map (object (setting_of scale ds)) (children_of (C.stands cursor)))) }
{
    let count = cursor.len();
    let mut heights = Vec::with_capacity(alloc, count)?;
    for i in 0..count {
        let height = greatest(
            alloc,
            cursor.child(i),
            Axis::Vertical,
            Len::Finite(column_at(columns, i)),
            scale,
        )?;
        heights.push(height)?;
    }
    Ok(heights)
}
