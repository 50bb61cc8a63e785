// Texts that are written into a buffer from its end to its front: each before what stands from a place on.
ghost use Rattle.std.specs.Prelude.{◌≡◌, ◌+◌, ◌≤◌, ◌∷◌, ◌++◌, length, drop};
ghost use Rattle.std.specs.Fmt.{decimal, signed_decimal};
ghost use Rattle.draw_records.specs.Printed.{color_text, place_text, extent_text};

use crate::quote::hex_digit;
use fx_geom::{Offset, Size};
use itoa::write_digits;

/// More bytes than the line of a record has up to the text of a run.
pub(crate) const ROOM: usize = 128;

/// Writes a byte before what stands from `end` on, and gives where it stands.
pub(crate) fn put_byte(byte: u8, buf: &mut [u8; ROOM], end: usize) -> usize
    requires { (1 ≤ end) × (end ≤ 128) }
    ensures start { result + 1 ≡ end }
    ensures written { drop result buf.new ≡ byte ∷ drop end buf.old }
{
    buf[end - 1] = byte;
    end - 1
}

/// Writes a word before what stands from `end` on, and gives where it begins.
pub(crate) fn put_word(word: &[u8], buf: &mut [u8; ROOM], end: usize) -> usize
    requires { (length word.now ≤ end) × (end ≤ 128) }
    ensures start { result + length word.now ≡ end }
    ensures written { drop result buf.new ≡ word.now ++ drop end buf.old }
{
    let start = end - word.len();
    buf[start..end].copy_from_slice(word);
    start
}

/// Writes a number before what stands from `end` on, and gives where it begins.
pub(crate) fn put_number(n: u64, buf: &mut [u8; ROOM], end: usize) -> usize
    requires { (20 ≤ end) × (end ≤ 128) }
    ensures within { (result ≤ end) × (end ≤ result + 20) }
    ensures written { drop result buf.new ≡ decimal n ++ drop end buf.old }
{
    write_digits(n, buf, end)
}

/// Writes a number with its sign before what stands from `end` on, and gives where it begins.
pub(crate) fn put_signed(n: i64, buf: &mut [u8; ROOM], end: usize) -> usize
    requires { (20 ≤ end) × (end ≤ 128) }
    ensures within { (result ≤ end) × (end ≤ result + 20) }
    ensures written { drop result buf.new ≡ signed_decimal n ++ drop end buf.old }
{
    let start = write_digits(n.unsigned_abs(), buf, end);
    if n >= 0 {
        return start;
    }
    buf[start - 1] = b'-';
    start - 1
}

/// Writes a color before what stands from `end` on, and gives where it begins.
pub(crate) fn put_color(color: u32, buf: &mut [u8; ROOM], end: usize) -> usize
    requires { (8 ≤ end) × (end ≤ 128) }
    ensures start { result + 8 ≡ end }
    ensures written { drop result buf.new ≡ color_text color ++ drop end buf.old }
{
    let mut left = color;
    let mut start = end;
    for done in 0..8u32 {
        start -= 1;
        buf[start] = hex_digit((left % 16) as u8);
        left /= 16;
    }
    start
}

/// Writes a place before what stands from `end` on, and gives where it begins.
pub(crate) fn put_place(at: Offset, buf: &mut [u8; ROOM], end: usize) -> usize
    requires { (41 ≤ end) × (end ≤ 128) }
    ensures within { (result ≤ end) × (end ≤ result + 41) }
    ensures written { drop result buf.new ≡ place_text at ++ drop end buf.old }
{
    let start = put_signed(at.y, buf, end);
    let start = put_byte(b' ', buf, start);
    put_signed(at.x, buf, start)
}

/// Writes a size before what stands from `end` on, and gives where it begins.
pub(crate) fn put_extent(size: Size, buf: &mut [u8; ROOM], end: usize) -> usize
    requires { (41 ≤ end) × (end ≤ 128) }
    ensures within { (result ≤ end) × (end ≤ result + 41) }
    ensures written { drop result buf.new ≡ extent_text size ++ drop end buf.old }
{
    let start = put_number(size.h, buf, end);
    let start = put_byte(b' ', buf, start);
    put_number(size.w, buf, start)
}
