// Who is asked first.
ghost use Rattle.std.specs.Prelude.{◌≡◌, IfOk};
ghost use Rattle.delegates.specs.Meaning.{Meaning};
ghost use Rattle.widget_model.specs.View.{look_in};
ghost use Rattle.layout_form.specs.Fits.{FitsLayout};
ghost use Rattle.layout_form.specs.Protocol.{box_first};
ghost use Rattle.layout_form.specs.Frames.{sliver_asks};
ghost use Rattle.kind_rules.specs.Few.{items_of};
ghost use Rattle.kind_rules.specs.Asked.{first_for};
ghost use Rattle.delegates.specs.Table.{meant_in};
ghost use Rattle.layout_form.specs.Object.{setting_of};

use crate::alone::{inner_bounds, insets_of};
use crate::asking::{everybody, first_alone, nobody};
use crate::family::Lists;
use crate::few::Few;
use crate::grid::{cells_first, columns_of};
use crate::line::line_first;
use crate::pile::pile_first;
use crate::slivers::{box_bounds, counted, indices_of, items_first};
use crate::viewport::{unseen, view_size};
use delegates::{Delegate, DelegateTable};
use fx_geom::{Axis, Bounds, Len, Scale};
use layout_form::Ask;
use plain_tree::ParentData;
use sliver_layout::{SliverBounds, padded};
use std::alloc::{AllocError, Global};
use widget_model::Kind;

/// Who is asked first, by what the children were told, and by how much the child of an IntrinsicWidth or an IntrinsicHeight would
/// like. A Viewport asks each sliver where nothing is seen: of the answers only how far each can be scrolled through counts. A
/// lazy list has `count` child widgets. The error is want of memory.
pub fn first_asks(
    alloc: Global,
    kind: &Kind,
    count: u64,
    ask: Ask,
    liked: u64,
    told: &[ParentData],
    scale: Scale,
    table: &DelegateTable,
) -> Result<Few<Option<Ask>>, AllocError>
    requires { FitsLayout (look_in kind.now) }
    ensures { IfOk result (λ v. items_of v ≡ first_for (setting_of scale (meant_in table.now ⟦<dyn Delegate as Delegate>⟧)) (look_in kind.now) count ask liked told.now) }
{
    match ask {
        Ask::AsBox(b) => box_first(alloc, kind, b, liked, told, scale, table),
        Ask::AsSliver(b) => sliver_first(alloc, kind, count, b, told),
    }
}

fn box_first(
    alloc: Global,
    kind: &Kind,
    b: Bounds,
    liked: u64,
    told: &[ParentData],
    scale: Scale,
    table: &DelegateTable,
) -> Result<Few<Option<Ask>>, AllocError>
    ensures { IfOk result (λ v. items_of v ≡ box_first (setting_of scale (meant_in table.now ⟦<dyn Delegate as Delegate>⟧)) (look_in kind.now) b liked told.now) }
{
    match kind {
        Kind::Text { .. }
        | Kind::Flexible { .. }
        | Kind::Positioned { .. }
        | Kind::SliverToBox
        | Kind::SliverPadding { .. }
        | Kind::SliverFixed { .. }
        | Kind::SliverLazy { .. }
        | Kind::Keep { .. }
        | Kind::Inherit { .. }
        | Kind::Use { .. } => Ok(nobody()),
        Kind::Row { cross, .. } => line_first(
            alloc,
            Axis::Horizontal,
            *cross,
            b,
            Lists { told, frames: &[] },
        ),
        Kind::Column { cross, .. } => line_first(
            alloc,
            Axis::Vertical,
            *cross,
            b,
            Lists { told, frames: &[] },
        ),
        Kind::Wrap { .. } => everybody(
            alloc,
            Ask::AsBox(Bounds::loose(b.max_w, Len::Unbounded)),
            told,
        ),
        Kind::Table { widths } => {
            let columns = columns_of(alloc, widths.get())?;
            cells_first(alloc, columns.as_slice(), told)
        }
        Kind::Stack { fit, .. } => pile_first(alloc, *fit, b, told),
        Kind::Viewport { axis } => {
            let cross = view_size(b).extent(axis.other());
            everybody(alloc, Ask::AsSliver(unseen(*axis, cross)), told)
        }
        Kind::SizedBox { .. }
        | Kind::ConstrainedBox { .. }
        | Kind::Padding { .. }
        | Kind::Align { .. }
        | Kind::ColoredBox { .. }
        | Kind::Opacity { .. }
        | Kind::ClipRect
        | Kind::RepaintBoundary
        | Kind::MergeSemantics
        | Kind::IntrinsicWidth
        | Kind::IntrinsicHeight
        | Kind::Offstage { .. }
        | Kind::IgnorePointer { .. }
        | Kind::AbsorbPointer { .. }
        | Kind::Detector { .. }
        | Kind::Semantics { .. }
        | Kind::ExcludeSemantics { .. }
        | Kind::CustomPaint { .. }
        | Kind::CustomLayout { .. } => Ok(first_alone(Ask::AsBox(inner_bounds(
            kind, b, liked, scale, table,
        )))),
    }
}

fn sliver_first(
    alloc: Global,
    kind: &Kind,
    count: u64,
    b: SliverBounds,
    told: &[ParentData],
) -> Result<Few<Option<Ask>>, AllocError>
    requires { FitsLayout (look_in kind.now) }
    ensures { IfOk result (λ v. items_of v ≡ sliver_asks (look_in kind.now) count b told.now) }
{
    match kind {
        Kind::SliverToBox => Ok(first_alone(Ask::AsBox(box_bounds(b)))),
        Kind::SliverPadding {
            left,
            top,
            right,
            bottom,
        } => { Ok(first_alone(Ask::AsSliver(padded(b, insets_of(*left, *top, *right, *bottom))))) }
        Kind::SliverFixed { extent } => {
            let indices = counted(alloc, told)?;
            items_first(alloc, b, *extent, told.len() as u64, indices.as_slice())
        }
        Kind::SliverLazy { extent } => {
            let indices = indices_of(alloc, told)?;
            items_first(alloc, b, *extent, count, indices.as_slice())
        }
        Kind::SizedBox { .. }
        | Kind::ConstrainedBox { .. }
        | Kind::Padding { .. }
        | Kind::Align { .. }
        | Kind::ColoredBox { .. }
        | Kind::Text { .. }
        | Kind::Row { .. }
        | Kind::Column { .. }
        | Kind::Wrap { .. }
        | Kind::Table { .. }
        | Kind::Stack { .. }
        | Kind::Flexible { .. }
        | Kind::Positioned { .. }
        | Kind::Opacity { .. }
        | Kind::ClipRect
        | Kind::RepaintBoundary
        | Kind::MergeSemantics
        | Kind::IntrinsicWidth
        | Kind::IntrinsicHeight
        | Kind::Offstage { .. }
        | Kind::IgnorePointer { .. }
        | Kind::AbsorbPointer { .. }
        | Kind::Detector { .. }
        | Kind::Semantics { .. }
        | Kind::ExcludeSemantics { .. }
        | Kind::CustomPaint { .. }
        | Kind::CustomLayout { .. }
        | Kind::Viewport { .. }
        | Kind::Keep { .. }
        | Kind::Inherit { .. }
        | Kind::Use { .. } => Ok(nobody()),
    }
}
