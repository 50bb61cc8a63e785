// What is made of the answers.
ghost use Rattle.std.specs.Prelude.{◌≡◌, ◌^◌, ◌≤◌, IfOk};
ghost use Rattle.std.specs.List.{All};
ghost use Rattle.fx_geom.specs.Size.{HasLengths};
ghost use Rattle.delegates.specs.Meaning.{Meaning};
ghost use Rattle.widget_model.specs.View.{look_in};
ghost use Rattle.layout_form.specs.declared.asks.Ask.TheVariants.{AsBox};
ghost use Rattle.layout_form.specs.Fits.{Fits, FitsLayout};
ghost use Rattle.layout_form.specs.Frames.{frames_given, sizes_by, box_makes, sliver_makes};
ghost use Rattle.kind_rules.specs.Asked.{found_of, ruling_for, AreLong, IsOffset, IsWalk};
ghost use Rattle.kind_rules.specs.Ruling.{ruling_of, box_ruling, sliver_ruling};
ghost use Rattle.delegates.specs.Table.{meant_in};
ghost use Rattle.layout_form.specs.Object.{setting_of};

use crate::alone::insets_of;
use crate::around::alone_made;
use crate::family::Lists;
use crate::grid::{columns_of, table_made, wrap_made};
use crate::line::{FlexLine, line_made};
use crate::made::{Made, bare};
use crate::pile::{Alignment, pile_made};
use crate::rest::Found;
use crate::slivers::{counted, indices_of, list_made, no_passage, padding_made, to_box_made};
use crate::text::text_made;
use crate::viewport::view_made;
use delegates::{Delegate, DelegateTable};
use fx_geom::{Axis, Bounds, CrossAlign, MainAlign, Scale};
use layout_form::Ask;
use plain_tree::{Frame, ParentData};
use sliver_layout::SliverBounds;
use std::alloc::{AllocError, Global};
use widget_model::{Kind, MainSize};

/// What comes of the frames of the children. The error is want of memory.
pub fn make(
    alloc: Global,
    kind: &Kind,
    count: u64,
    ask: Ask,
    found: Found,
    told: &[ParentData],
    frames: &[Option<Frame>],
    scale: Scale,
    table: &DelegateTable,
) -> Result<Made, AllocError>
    requires fits { Fits (look_in kind.now) told.now }
    requires sizes { AreLong ask (frames_given frames.now) }
    requires stack { HasLengths found.size }
    requires offset { IsOffset ask }
    requires walk { IsWalk (look_in kind.now) ask found.start (frames_given frames.now) }
    ensures { IfOk result (λ m. ruling_of m ≡ ruling_for (setting_of scale (meant_in table.now ⟦<dyn Delegate as Delegate>⟧)) (look_in kind.now) count ask (found_of found) told.now frames.now) }
{
    match ask {
        Ask::AsBox(b) => box_made(alloc, kind, b, found, told, frames, scale, table),
        Ask::AsSliver(b) => sliver_made(alloc, kind, count, b, told, frames),
    }
}

fn box_made(
    alloc: Global,
    kind: &Kind,
    b: Bounds,
    found: Found,
    told: &[ParentData],
    frames: &[Option<Frame>],
    scale: Scale,
    table: &DelegateTable,
) -> Result<Made, AllocError>
    requires fits { Fits (look_in kind.now) told.now }
    requires sizes { All HasLengths (sizes_by (frames_given frames.now)) }
    requires stack { HasLengths found.size }
    requires walk { IsWalk (look_in kind.now) (AsBox b) found.start (frames_given frames.now) }
    ensures { IfOk result (λ m. ruling_of m ≡ box_ruling b (box_makes (setting_of scale (meant_in table.now ⟦<dyn Delegate as Delegate>⟧)) (look_in kind.now) b (found_of found) told.now (frames_given frames.now))) }
{
    match kind {
        Kind::Flexible { .. }
        | Kind::Positioned { .. }
        | Kind::SliverToBox
        | Kind::SliverPadding { .. }
        | Kind::SliverFixed { .. }
        | Kind::SliverLazy { .. }
        | Kind::Keep { .. }
        | Kind::Inherit { .. }
        | Kind::Use { .. } => Ok(bare(b)),
        Kind::Text { text, .. } => Ok(text_made(text.get(), b, scale)),
        Kind::Row { main, cross, size } => line_made(
            alloc,
            line(Axis::Horizontal, *main, *cross, *size),
            b,
            Lists { told, frames },
        ),
        Kind::Column { main, cross, size } => line_made(
            alloc,
            line(Axis::Vertical, *main, *cross, *size),
            b,
            Lists { told, frames },
        ),
        Kind::Wrap {
            spacing,
            run_spacing,
        } => wrap_made(alloc, *spacing, *run_spacing, b, frames),
        Kind::Table { widths } => {
            let columns = columns_of(alloc, widths.get())?;
            table_made(alloc, columns.as_slice(), b, frames)
        }
        Kind::Stack { ax, ay, .. } => pile_made(
            alloc,
            Alignment { ax: *ax, ay: *ay },
            b,
            found.size,
            told,
            frames,
        ),
        Kind::Viewport { axis } => view_made(alloc, *axis, b, found.start, frames),
        Kind::SizedBox { .. }
        | Kind::ConstrainedBox { .. }
        | Kind::Padding { .. }
        | Kind::Align { .. }
        | Kind::ColoredBox { .. }
        | Kind::Opacity { .. }
        | Kind::ClipRect
        | Kind::RepaintBoundary
        | Kind::MergeSemantics
        | Kind::IntrinsicWidth
        | Kind::IntrinsicHeight
        | Kind::Offstage { .. }
        | Kind::IgnorePointer { .. }
        | Kind::AbsorbPointer { .. }
        | Kind::Detector { .. }
        | Kind::Semantics { .. }
        | Kind::ExcludeSemantics { .. }
        | Kind::CustomPaint { .. }
        | Kind::CustomLayout { .. } => Ok(alone_made(kind, b, frames, scale, table)),
    }
}

pub(crate) fn line(axis: Axis, main: MainAlign, cross: CrossAlign, size: MainSize) -> FlexLine
    ensures { result ≡ record { axis = axis; main = main; cross = cross; size = size } }
{
    FlexLine {
        axis,
        main,
        cross,
        size,
    }
}

fn sliver_made(
    alloc: Global,
    kind: &Kind,
    count: u64,
    b: SliverBounds,
    told: &[ParentData],
    frames: &[Option<Frame>],
) -> Result<Made, AllocError>
    requires members { FitsLayout (look_in kind.now) }
    requires offset { b.offset ≤ 2 ^ 40 }
    ensures { IfOk result (λ m. ruling_of m ≡ sliver_ruling b (sliver_makes (look_in kind.now) count b told.now frames.now)) }
{
    match kind {
        Kind::SliverToBox => Ok(to_box_made(b, frames)),
        Kind::SliverPadding {
            left,
            top,
            right,
            bottom,
        } => Ok(padding_made(insets_of(*left, *top, *right, *bottom), b, frames)),
        Kind::SliverFixed { extent } => {
            let indices = counted(alloc, told)?;
            list_made(
                alloc,
                *extent,
                told.len() as u64,
                b,
                indices.as_slice(),
                frames,
            )
        }
        Kind::SliverLazy { extent } => {
            let indices = indices_of(alloc, told)?;
            list_made(alloc, *extent, count, b, indices.as_slice(), frames)
        }
        Kind::SizedBox { .. }
        | Kind::ConstrainedBox { .. }
        | Kind::Padding { .. }
        | Kind::Align { .. }
        | Kind::ColoredBox { .. }
        | Kind::Text { .. }
        | Kind::Row { .. }
        | Kind::Column { .. }
        | Kind::Wrap { .. }
        | Kind::Table { .. }
        | Kind::Stack { .. }
        | Kind::Flexible { .. }
        | Kind::Positioned { .. }
        | Kind::Opacity { .. }
        | Kind::ClipRect
        | Kind::RepaintBoundary
        | Kind::MergeSemantics
        | Kind::IntrinsicWidth
        | Kind::IntrinsicHeight
        | Kind::Offstage { .. }
        | Kind::IgnorePointer { .. }
        | Kind::AbsorbPointer { .. }
        | Kind::Detector { .. }
        | Kind::Semantics { .. }
        | Kind::ExcludeSemantics { .. }
        | Kind::CustomPaint { .. }
        | Kind::CustomLayout { .. }
        | Kind::Viewport { .. }
        | Kind::Keep { .. }
        | Kind::Inherit { .. }
        | Kind::Use { .. } => Ok(no_passage(b)),
    }
}
