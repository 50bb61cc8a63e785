// Names of a program: of components, props, fields, slots, loop variables and inherited values.
ghost use Rattle.std.specs.Prelude.{◌≡◌};
ghost use Rattle.std.specs.List.{list_all};
ghost use Rattle.json_tree.specs.View.{view};
ghost use Rattle.program_read.specs.Answers.{Gives};
ghost use Rattle.program_read.specs.ShapeFault.{at_entry};
ghost use Rattle.program_read.specs.Names.{is_name, is_name_byte, name_or_stop, name_of};

use crate::fault::{ReadStop, ShapeCode, at_entry};
use crate::leaves::read_str;
use fx_expr::Txt;
use json_tree::Json;
use std::alloc::Global;

// The most bytes of a name.
const MAX_NAME: usize = 32;

// Whether the byte may stand in a name.
fn is_name_byte(byte: u8) -> bool
    ensures { result ≡ is_name_byte byte }
{
    byte.is_ascii_alphanumeric() || byte == b'_'
}

// Whether each byte may stand in a name.
fn are_name_bytes(bytes: &[u8]) -> bool
    ensures { result ≡ list_all is_name_byte bytes.now }
{
    bytes.iter().all(|byte| is_name_byte(*byte))
}

// Whether the text is a name.
pub(crate) fn is_name(text: &str) -> bool
    ensures { result ≡ is_name text.now }
{
    match text.as_bytes().first() {
        Some(first) => {
            !first.is_ascii_digit() && text.len() <= MAX_NAME && are_name_bytes(text.as_bytes())
        }
        None => false,
    }
}

// The name that a text is.
pub(crate) fn name_in(alloc: Global, text: &str) -> Result<Txt, ReadStop>
    ensures { Gives result (name_or_stop text.now) }
{
    if !is_name(text) {
        return Err(ReadStop::here(alloc, ShapeCode::BadName));
    }
    Ok(Txt::of(String::from_str(alloc, text)?))
}

// The name that a value is.
pub(crate) fn read_name(alloc: Global, value: &Json<'_>) -> Result<Txt, ReadStop>
    ensures { Gives result (name_of (view value.now)) }
{
    name_in(alloc, read_str(alloc, value)?)
}

// The name that an entry of a list is.
pub(crate) fn name_entry(alloc: Global, value: &Json<'_>, index: usize) -> Result<Txt, ReadStop>
    ensures { Gives result (at_entry index (name_of (view value.now))) }
{
    at_entry(alloc, index, read_name(alloc, value))
}
