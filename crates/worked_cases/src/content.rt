ghost use Rattle.std.specs.Prelude.{◌≡◌, ◌++◌, [], ◌∷◌, OnOk, IfOk};

use super::fault::Fault;
use std::alloc::{AllocError, Global};

/// Appends what stands after the mark of a content line: of an input (`<`) or of a text (`>`).
pub fn add_content(alloc: Global, out: &mut Vec<u8>, rest: &str) -> Result<(), Fault> {
    if rest.is_empty() {
        return Ok(add_line(out, "")?);
    }
    if let Some(line) = rest.strip_prefix(' ') {
        return Ok(add_line(out, line)?);
    }
    if let Some(part) = rest.strip_prefix("- ") {
        return Ok(out.extend_from_slice(part.as_bytes())?);
    }
    if let Some(bytes) = rest.strip_prefix("x ") {
        return add_bytes(out, bytes);
    }
    if let Some(repeated) = rest.strip_prefix("* ") {
        return add_repeated(out, repeated);
    }
    if let Some(repeated) = rest.strip_prefix("*x ") {
        return add_repeated_bytes(alloc, out, repeated);
    }
    Err(Fault::Unread)
}

// Appends a line with its line feed.
fn add_line(out: &mut Vec<u8>, line: &str) -> Result<(), AllocError>
    ensures { OnOk result (out.new.items ≡ out.old.items ++ line.now ++ 10 ∷ []) }
{
    out.extend_from_slice(line.as_bytes())?;
    out.push(b'\n')?;
    Ok(())
}

// Appends the bytes of these hexadecimal numbers.
fn add_bytes(out: &mut Vec<u8>, numbers: &str) -> Result<(), Fault> {
    for number in numbers.split_whitespace() {
        out.push(u8::from_str_radix(number, 16)?)?;
    }
    Ok(())
}

// A count and what it counts.
fn counted(repeated: &str) -> Result<(u64, &str), Fault> {
    let (count, rest) = repeated.split_once(' ').ok_or(Fault::Unread)?;
    Ok((count.parse::<u64>()?, rest))
}

// Appends a text so many times, as `70000 x`.
fn add_repeated(out: &mut Vec<u8>, repeated: &str) -> Result<(), Fault> {
    let (count, text) = counted(repeated)?;
    add_times(out, count, text.as_bytes())?;
    Ok(())
}

// Appends bytes so many times, as `70000 0D`.
fn add_repeated_bytes(alloc: Global, out: &mut Vec<u8>, repeated: &str) -> Result<(), Fault> {
    let (count, numbers) = counted(repeated)?;
    let mut bytes = Vec::new(alloc);
    add_bytes(&mut bytes, numbers)?;
    add_times(out, count, bytes.as_slice())?;
    Ok(())
}

// Appends bytes so many times.
fn add_times(out: &mut Vec<u8>, count: u64, bytes: &[u8]) -> Result<(), AllocError> {
    for _ in 0..count {
        out.extend_from_slice(bytes)?;
    }
    Ok(())
}

// The place where a piece goes.
const HOLE: u8 = b'@';

/// A text with the piece in the place of its first `@`; the text itself, where it has none.
pub fn filled(alloc: Global, text: &[u8], piece: &[u8]) -> Result<Vec<u8>, AllocError> {
    let mut whole = Vec::new(alloc);
    match text.iter().position(|byte| *byte == HOLE) {
        Some(at) => {
            whole.extend_from_slice(&text[..at])?;
            whole.extend_from_slice(piece)?;
            whole.extend_from_slice(&text[at + 1..])?;
        }
        None => whole.extend_from_slice(text)?,
    }
    Ok(whole)
}

/// One text in the other's hole: the second in that of the first, where it has one, else the first in that of the second.
pub fn joined(alloc: Global, outer: &[u8], inner: &[u8]) -> Result<Vec<u8>, AllocError> {
    if outer.contains(&HOLE) {
        filled(alloc, outer, inner)
    } else {
        filled(alloc, inner, outer)
    }
}
