// Texts in quotes.
ghost use Rattle.std.specs.Prelude.{◌≡◌, ◌∷◌, [], ◌++◌, ◌<◌, OnOk, OnErr, IsTrue, false, take, vec_len};
ghost use Rattle.std.specs.Fmt.{digit_glyph};
ghost use Rattle.draw_records.specs.Quoted.{escaped, quoted};

use std::alloc::AllocError;

/// The lower-case hexadecimal digit of a number below 16.
pub(crate) fn hex_digit(n: u8) -> u8
    requires { n < 16 }
    ensures { result ≡ digit_glyph false n }
{
    if n < 10 { b'0' + n } else { b'a' + (n - 10) }
}

// Adds a byte of a text, escaped where it must be.
fn push_escaped(byte: u8, out: &mut Vec<u8>) -> Result<(), AllocError>
    ensures ok { OnOk result (out.new.items ≡ out.old.items ++ escaped byte) }
    ensures err { OnErr result (out.new.items ≡ out.old.items) }
{
    if byte == b'"' || byte == b'\\' {
        return out.extend_from_slice(&[b'\\', byte]);
    }
    if byte < 32 || byte == 127 {
        return out.extend_from_slice(&[
            b'\\',
            b'u',
            b'0',
            b'0',
            hex_digit(byte / 16),
            hex_digit(byte % 16),
        ]);
    }
    out.extend_from_slice(&[byte])
}

// Whether a byte of a text stands as it is.
fn is_plain(byte: u8) -> bool
    ensures { IsTrue result → escaped byte ≡ byte ∷ [] }
{
    byte >= 32 && byte != b'"' && byte != b'\\' && byte != 127
}

// Adds a text in quotes. After want of memory a part of it may have been added.
fn push_parts(text: &str, out: &mut Vec<u8>) -> Result<(), AllocError>
    ensures ok { OnOk result (out.new.items ≡ out.old.items ++ quoted text.now) }
    ensures kept { take (vec_len out.old) out.new.items ≡ out.old.items }
{
    let bytes = text.as_bytes();
    let mut from = 0;
    out.push(b'"')?;
    for at in 0..bytes.len() {
        if is_plain(bytes[at]) {
            continue;
        }
        out.extend_from_slice(&bytes[from..at])?;
        push_escaped(bytes[at], out)?;
        from = at + 1;
    }
    out.extend_from_slice(&bytes[from..])?;
    out.push(b'"')?;
    Ok(())
}

/// Adds a text in quotes, escaped so that it stands on one line. After want of memory `out` is as before.
pub fn push_quoted(text: &str, out: &mut Vec<u8>) -> Result<(), AllocError>
    ensures ok { OnOk result (out.new.items ≡ out.old.items ++ quoted text.now) }
    ensures err { OnErr result (out.new.items ≡ out.old.items) }
{
    let before = out.len();
    let pushed = push_parts(text, out);
    if pushed.is_err() {
        out.truncate(before);
    }
    pushed
}
