// The line of a record.
ghost use Rattle.std.specs.Prelude.{◌≡◌, ◌++◌, ◌≤◌, codes, drop, take, vec_len, OnOk, OnErr};
ghost use Rattle.std.specs.Fmt.{decimal};
ghost use Rattle.draw_records.specs.Printed.{color_text, place_text, extent_text, record_text};
ghost use Rattle.draw_records.specs.Quoted.{quoted};

use crate::ending::{ROOM, put_byte, put_color, put_extent, put_number, put_place, put_word};
use crate::quote::push_quoted;
use crate::record::Record;
use fx_geom::{Offset, Rect, Size};
use std::alloc::AllocError;

/// Adds a place, as its two numbers in u: `X Y`. After want of memory `out` is as before.
pub fn push_place(at: Offset, out: &mut Vec<u8>) -> Result<(), AllocError>
    ensures ok { OnOk result (out.new.items ≡ out.old.items ++ place_text at) }
    ensures err { OnErr result (out.new.items ≡ out.old.items) }
{
    let mut buf = [0; ROOM];
    let start = put_place(at, &mut buf, ROOM);
    out.extend_from_slice(&buf[start..])
}

/// Adds a size, as its two numbers in u: `W H`. After want of memory `out` is as before.
pub fn push_extent(size: Size, out: &mut Vec<u8>) -> Result<(), AllocError>
    ensures ok { OnOk result (out.new.items ≡ out.old.items ++ extent_text size) }
    ensures err { OnErr result (out.new.items ≡ out.old.items) }
{
    let mut buf = [0; ROOM];
    let start = put_extent(size, &mut buf, ROOM);
    out.extend_from_slice(&buf[start..])
}

/// Adds a number in decimal. After want of memory `out` is as before.
pub fn push_number(n: u64, out: &mut Vec<u8>) -> Result<(), AllocError>
    ensures ok { OnOk result (out.new.items ≡ out.old.items ++ decimal n) }
    ensures err { OnErr result (out.new.items ≡ out.old.items) }
{
    let mut buf = [0; ROOM];
    let start = put_number(n, &mut buf, ROOM);
    out.extend_from_slice(&buf[start..])
}

// Writes the line of a filled rectangle at the end of a buffer, and gives where it begins.
fn put_fill(rect: Rect, color: u32, buf: &mut [u8; ROOM]) -> usize
    ensures within { result ≤ 128 }
    ensures written { drop result buf.new ≡ codes "rect " ++ (place_text rect.at ++ (codes " " ++ (extent_text rect.size ++ (codes " " ++ (color_text color ++ codes "\n"))))) }
{
    let start = put_byte(b'\n', buf, ROOM);
    let start = put_color(color, buf, start);
    let start = put_byte(b' ', buf, start);
    let start = put_extent(rect.size, buf, start);
    let start = put_byte(b' ', buf, start);
    let start = put_place(rect.at, buf, start);
    put_word(b"rect ", buf, start)
}

// Writes the line of a run, up to its text, at the end of a buffer, and gives where it begins.
fn put_head(at: Offset, color: u32, buf: &mut [u8; ROOM]) -> usize
    ensures within { result ≤ 128 }
    ensures written { drop result buf.new ≡ codes "text " ++ (place_text at ++ (codes " " ++ (color_text color ++ codes " "))) }
{
    let start = put_byte(b' ', buf, ROOM);
    let start = put_color(color, buf, start);
    let start = put_byte(b' ', buf, start);
    let start = put_place(at, buf, start);
    put_word(b"text ", buf, start)
}

// Adds the line of a filled rectangle.
fn push_fill(rect: Rect, color: u32, out: &mut Vec<u8>) -> Result<(), AllocError>
    ensures ok { OnOk result (out.new.items ≡ out.old.items ++ (codes "rect " ++ (place_text rect.at ++ (codes " " ++ (extent_text rect.size ++ (codes " " ++ (color_text color ++ codes "\n"))))))) }
    ensures err { OnErr result (out.new.items ≡ out.old.items) }
{
    let mut buf = [0; ROOM];
    let start = put_fill(rect, color, &mut buf);
    out.extend_from_slice(&buf[start..])
}

// Adds the line of a run up to its text.
fn push_head(at: Offset, color: u32, out: &mut Vec<u8>) -> Result<(), AllocError>
    ensures ok { OnOk result (out.new.items ≡ out.old.items ++ (codes "text " ++ (place_text at ++ (codes " " ++ (color_text color ++ codes " "))))) }
    ensures err { OnErr result (out.new.items ≡ out.old.items) }
{
    let mut buf = [0; ROOM];
    let start = put_head(at, color, &mut buf);
    out.extend_from_slice(&buf[start..])
}

// Adds the line of a run. After want of memory a part of it may have been added.
fn push_run(at: Offset, color: u32, text: &str, out: &mut Vec<u8>) -> Result<(), AllocError>
    ensures ok { OnOk result (out.new.items ≡ out.old.items ++ ((codes "text " ++ (place_text at ++ (codes " " ++ (color_text color ++ codes " ")))) ++ (quoted text.now ++ codes "\n"))) }
    ensures kept { take (vec_len out.old) out.new.items ≡ out.old.items }
{
    push_head(at, color, out)?;
    push_quoted(text, out)?;
    out.push(b'\n')?;
    Ok(())
}

/// Adds the line of a record: `rect X Y W H COLOR` or `text X Y COLOR "TEXT"`, U+000A included, with no space before it.
/// Lengths are in u, and colors are eight hexadecimal digits. After want of memory `out` is as before.
pub fn print(record: &Record, out: &mut Vec<u8>) -> Result<(), AllocError>
    ensures ok { OnOk result (out.new.items ≡ out.old.items ++ record_text record.now) }
    ensures err { OnErr result (out.new.items ≡ out.old.items) }
{
    match record {
        Record::Fill { rect, color } => push_fill(*rect, *color, out),
        Record::Run { at, color, text } => {
            let before = out.len();
            let pushed = push_run(*at, *color, text.get(), out);
            if pushed.is_err() {
                out.truncate(before);
            }
            pushed
        }
    }
}
