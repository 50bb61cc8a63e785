ghost use Rattle.std.specs.Prelude.{◌≡◌, ◌+◌, ◌*◌, ◌^◌, ◌<◌, ◌≤◌, List, ◌++◌, length, max, All, IfOk, OnOk, None};
ghost use Rattle.fx_geom.specs.Len.{stopped};
ghost use Rattle.text_cells.specs.declared.line.Line.{Line};
ghost use Rattle.text_cells.specs.Pass.{listed, HasExtent};
ghost use Rattle.text_cells.specs.Wrapping.{IsWrapping, widest, cell_limit, size_of, lines_width};
ghost use Rattle.text_cells.specs.Wrapped.{wrapped};
ghost use Rattle.text_cells.specs.LineText.{LiesInText};
ghost use Rattle.fx_geom.specs.Size.{HasLengths};

use crate::clusters::{cluster_end, cursor_on};
use crate::line::Line;
use crate::pending::Pending;
use fx_geom::{LEN_MAX, Len, Size};
use std::alloc::{AllocError, Global};

// Adds a line, if there is one.
fn push_line(lines: &mut Vec<Line>, line: Option<Line>) -> Result<(), AllocError>
    ensures { OnOk result (lines.new.items ≡ lines.old.items ++ listed line) }
{
    if let Some(line) = line {
        lines.push(line)?;
    }
    Ok(())
}

/// The lines of a text at a limit of cells, where there is one.
///
/// The text is cut into extended grapheme clusters (UAX #29), of which each takes its width in cells, at most 2. U+000A and
/// U+000D U+000A end a paragraph. What is left of a paragraph is one line where it fits; else a line takes the most clusters
/// that fit, at least one, and is cut after the last space among them where there is one. Spaces at the end of a line stand in
/// it and don't count. Fails only for want of memory.
pub fn wrap(alloc: Global, text: &str, limit: Option<u64>) -> Result<Vec<Line>, AllocError>
    ensures lines { IfOk result (λ lines. lines.items ≡ wrapped limit text.now) }
    ensures wrapping { IfOk result (λ lines. IsWrapping limit text.now lines.items) }
    ensures within { IfOk result (λ lines. All (LiesInText text.now) lines.items) }
{
    let mut lines = Vec::new(alloc);
    let mut pending = Pending::at(limit, 0);
    let mut cursor = cursor_on(text);
    let mut at = 0;
    while at < text.len() {
        if pending.take_plain(text, at) {
            at += 1;
        } else {
            let end = cluster_end(text, at, &mut cursor);
            let ended = pending.take(&text[at..end]);
            push_line(&mut lines, ended.first)?;
            push_line(&mut lines, ended.second)?;
            at = end;
        }
    }
    lines.push(pending.last())?;
    Ok(lines)
}

// How many lines there are, and the cells of the widest one.
#[derive(Clone, Copy)]
struct Extent {
    lines: u64,
    cells: u64,
}

impl Extent {
    // Counts a line, if there is one.
    fn count(self, line: Option<Line>) -> Extent
        requires { self.lines + length (listed line) < 2 ^ 64 }
        ensures lines { result.lines ≡ self.lines + length (listed line) }
        ensures cells { result.cells ≡ max self.cells (widest (listed line)) }
    {
        match line {
            Some(line) => Extent {
                lines: self.lines + 1,
                cells: self.cells.max(line.cells),
            },
            None => self,
        }
    }
}

// The extent of a text's lines at a limit of cells.
fn extent_of(text: &str, limit: Option<u64>) -> Extent
    ensures { HasExtent limit text.now result.lines result.cells }
{
    let mut extent = Extent { lines: 0, cells: 0 };
    let mut pending = Pending::at(limit, 0);
    let mut cursor = cursor_on(text);
    let mut at = 0;
    while at < text.len() {
        if pending.take_plain(text, at) {
            at += 1;
        } else {
            let end = cluster_end(text, at, &mut cursor);
            let ended = pending.take(&text[at..end]);
            extent = extent.count(ended.first).count(ended.second);
            at = end;
        }
    }
    extent.count(Some(pending.last()))
}

// A number of cells as a length, in u: it stops at `LEN_MAX`.
fn cells_length(cells: u64, cell: u64) -> u64
    ensures { result ≡ stopped (cells * cell) }
{
    cells.saturating_mul(cell).min(LEN_MAX)
}

// How many cells of this width stand in a length.
fn cell_limit(max_w: Len, cell: u64) -> Option<u64>
    requires { 1 ≤ cell }
    ensures { result ≡ cell_limit max_w cell }
{
    match max_w {
        Len::Finite(length) => Some(length / cell),
        Len::Unbounded => None,
    }
}

/// The size of a text, in u, with lines that are cut where a width ends: as wide as its widest line and as high as all its
/// lines, in cells of this size. Both sides stop at `LEN_MAX`. Takes no memory.
pub fn measure(text: &str, max_w: Len, cell: Size) -> Size
    requires cell_width { 1 ≤ cell.w }
    requires cell_height { 1 ≤ cell.h }
    ensures value { result ≡ size_of (wrapped (cell_limit max_w cell.w) text.now) cell }
    ensures wrapping { (lines : List Line) → IsWrapping (cell_limit max_w cell.w) text.now lines → result ≡ size_of lines cell }
    ensures lengths { HasLengths result }
{
    let extent = extent_of(text, cell_limit(max_w, cell.w));
    Size {
        w: cells_length(extent.cells, cell.w),
        h: cells_length(extent.lines, cell.h),
    }
}

/// The width of a text's widest paragraph, in u, in cells of this size (`RenderParagraph.computeMaxIntrinsicWidth`). It
/// stops at `LEN_MAX`. Takes no memory.
pub fn max_width(text: &str, cell: Size) -> u64
    requires cell_width { 1 ≤ cell.w }
    requires cell_height { 1 ≤ cell.h }
    ensures value { result ≡ lines_width (wrapped None text.now) cell.w }
    ensures wrapping { (lines : List Line) → IsWrapping None text.now lines → result ≡ lines_width lines cell.w }
    ensures within { result ≤ 2 ^ 40 }
{
    cells_length(extent_of(text, None).cells, cell.w)
}
