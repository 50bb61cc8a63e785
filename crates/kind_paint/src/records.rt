// What a node draws of its own.
ghost use Rattle.std.specs.Prelude.{◌≡◌, ◌++◌, ◌≤◌, map, OnOk, All};
ghost use Rattle.fx_geom.specs.Size.{HasLengths};
ghost use Rattle.text_cells.specs.LineText.{LiesInText};
ghost use Rattle.text_cells.specs.Wrapping.{cell_limit};
ghost use Rattle.delegates.specs.Table.{entries_of, meaning_of, meant_in};
ghost use Rattle.draw_records.specs.Shifted.{shifted};
ghost use Rattle.widget_model.specs.View.{look_in};
ghost use Rattle.screen_form.specs.OwnRecords.{fill_of, line_place, run_of, runs_from, runs_of, lengths_of, drawing_of, own_records};

use delegates::{Delegate, DelegateTable};
use draw_records::Record;
use fx_expr::Txt;
use fx_geom::{LEN_MAX, Len, Offset, Rect, Scale, Size};
use plain_tree::Frame;
use std::alloc::{AllocError, Global};
use text_cells::{Line, wrap};
use widget_model::Kind;

// Adds a box's size, filled with a color.
fn push_fill(
    color: u32,
    size: Size,
    at: Offset,
    records: &mut Vec<Record>,
) -> Result<(), AllocError>
    ensures { OnOk result (records.new.items ≡ records.old.items ++ (fill_of color size at)) }
{
    if 0 < size.w && 0 < size.h {
        let rect = Rect { at, size };
        records.push(Record::Fill { rect, color })?;
    }
    Ok(())
}

// How many cells of this width stand in a length, where it has a limit.
fn cell_limit(max_w: Len, cell: Size) -> Option<u64>
    requires { 1 ≤ cell.w }
    ensures { result ≡ cell_limit max_w cell.w }
{
    match max_w {
        Len::Finite(length) => Some(length / cell.w),
        Len::Unbounded => None,
    }
}

// Where line `k` of a text stands.
fn line_place(cell: Size, k: usize, at: Offset) -> Offset
    ensures { result ≡ line_place cell k at }
{
    let down = (k as u64).saturating_mul(cell.h).min(LEN_MAX);
    at.plus(Offset {
        x: 0,
        y: down as i64,
    })
}

// Adds a run of what is seen of a line, where that isn't empty.
fn push_run(
    alloc: Global,
    at: Offset,
    color: u32,
    seen: &str,
    records: &mut Vec<Record>,
) -> Result<(), AllocError>
    ensures { OnOk result (records.new.items ≡ records.old.items ++ (run_of at color seen.now)) }
{
    if seen.is_empty() {
        return Ok(());
    }
    let text = Txt::of(String::from_str(alloc, seen)?);
    records.push(Record::Run { at, color, text })?;
    Ok(())
}

// Adds the runs of a text, of which these are the lines.
fn push_lines(
    alloc: Global,
    words: &str,
    color: u32,
    lines: &[Line],
    cell: Size,
    at: Offset,
    records: &mut Vec<Record>,
) -> Result<(), AllocError>
    requires { All (LiesInText words.now) lines.now }
    ensures { OnOk result (records.new.items ≡ records.old.items ++ (runs_from cell words.now color at 0 lines.now)) }
{
    for (k, line) in lines.iter().enumerate() {
        push_run(
            alloc,
            line_place(cell, k, at),
            color,
            line.text(words),
            records,
        )?;
    }
    Ok(())
}

// Adds the runs of a text in the frame in which it was laid out.
fn push_runs(
    alloc: Global,
    words: &str,
    color: u32,
    frame: Frame,
    scale: Scale,
    at: Offset,
    records: &mut Vec<Record>,
) -> Result<(), AllocError>
    ensures { OnOk result (records.new.items ≡ records.old.items ++ (runs_of scale.cell words.now color frame at)) }
{
    match frame {
        Frame::Boxed { bounds, size: _ } => {
            let lines = wrap(alloc, words, cell_limit(bounds.max_w, scale.cell))?;
            push_lines(
                alloc,
                words,
                color,
                lines.as_slice(),
                scale.cell,
                at,
                records,
            )
        }
        Frame::Sliver { .. } => Ok(()),
    }
}

// A size whose sides stop at the greatest length.
fn lengths_of(size: Size) -> Size
    ensures value { result ≡ lengths_of size }
    ensures lengths { HasLengths result }
{
    Size {
        w: size.w.min(LEN_MAX),
        h: size.h.min(LEN_MAX),
    }
}

// Adds records, moved to a point.
fn push_shifted(
    drawing: Vec<Record>,
    at: Offset,
    records: &mut Vec<Record>,
) -> Result<(), AllocError>
    ensures { OnOk result (records.new.items ≡ records.old.items ++ (map (λ r. shifted r at) drawing.items)) }
{
    for record in drawing {
        records.push(record.shifted(at))?;
    }
    Ok(())
}

// Adds what the delegate of a name draws, if one is plugged.
fn push_drawing(
    alloc: Global,
    delegate: &str,
    size: Size,
    table: &DelegateTable,
    at: Offset,
    records: &mut Vec<Record>,
) -> Result<(), AllocError>
    ensures { OnOk result (records.new.items ≡ records.old.items ++ (drawing_of
        (meaning_of (meant_in table.now ⟦<dyn Delegate as Delegate>⟧) delegate.now) size at)) }
{
    let mut drawing = Vec::new(alloc);
    table.paint(alloc, delegate, lengths_of(size), &mut drawing)?;
    push_shifted(drawing, at, records)
}

/// Adds what a node of each kind draws of its own, where it stands at `at`, in u, in the order in which it is drawn. The table's
/// delegates draw the boxes that name them; the table is that of the layout. An error is want of memory.
pub fn push_own(
    alloc: Global,
    kind: &Kind,
    frame: Frame,
    at: Offset,
    scale: Scale,
    table: &DelegateTable,
    records: &mut Vec<Record>,
) -> Result<(), AllocError>
    ensures { OnOk result (records.new.items ≡ records.old.items ++ (own_records scale.cell
        (meant_in table.now ⟦<dyn Delegate as Delegate>⟧) (look_in kind.now) frame at)) }
{
    match kind {
        Kind::ColoredBox { color } => push_fill(*color, frame.box_size(), at, records),
        Kind::Text { text, color } => {
            push_runs(alloc, text.get(), *color, frame, scale, at, records)
        }
        Kind::CustomPaint { delegate } => {
            push_drawing(alloc, delegate.get(), frame.box_size(), table, at, records)
        }
        Kind::SizedBox { .. }
        | Kind::ConstrainedBox { .. }
        | Kind::Padding { .. }
        | Kind::Align { .. }
        | Kind::Row { .. }
        | Kind::Column { .. }
        | Kind::Wrap { .. }
        | Kind::Table { .. }
        | Kind::Stack { .. }
        | Kind::Flexible { .. }
        | Kind::Positioned { .. }
        | Kind::Opacity { .. }
        | Kind::ClipRect
        | Kind::RepaintBoundary
        | Kind::MergeSemantics
        | Kind::IntrinsicWidth
        | Kind::IntrinsicHeight
        | Kind::Offstage { .. }
        | Kind::IgnorePointer { .. }
        | Kind::AbsorbPointer { .. }
        | Kind::Detector { .. }
        | Kind::Semantics { .. }
        | Kind::ExcludeSemantics { .. }
        | Kind::CustomLayout { .. }
        | Kind::Viewport { .. }
        | Kind::SliverToBox
        | Kind::SliverPadding { .. }
        | Kind::SliverFixed { .. }
        | Kind::SliverLazy { .. }
        | Kind::Keep { .. }
        | Kind::Inherit { .. }
        | Kind::Use { .. } => Ok(()),
    }
}
