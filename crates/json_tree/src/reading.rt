// From a text to its tree, in one pass over the tokens.
ghost use Rattle.std.specs.Prelude.{◌≡◌, ◌<◌, length, None, Some, Err, option_map, IfOk, OnOk};
ghost use Rattle.json.specs.Json.{value, items, members};
ghost use Rattle.serde_json.specs.Data.{no_members};
ghost use Rattle.serde_json.specs.Read.{of_json, of_items, of_members, converted, read as read_text};
ghost use Rattle.json_tree.specs.View.{view, items_view, members_view};

use crate::lists::{Members, fitted, in_order, put};
use crate::numbers::number_in;
use crate::tree::Json;
use json::{Invalid, Reader, Scratch, Token};
use std::alloc::{AllocError, Global};

// How deep arrays and objects may nest.
const MAX_DEPTH: usize = 127;

// Why no value came.
#[derive(Drop)]
enum JsonStop {
    Refused,
    OutOfMemory,
}

impl From<AllocError> for JsonStop {
    ghost use Rattle.json_tree.specs.declared.reading.JsonStop.TheVariants.{OutOfMemory};

    ghost from_gives = { λ _ stop. stop ≡ OutOfMemory };

    fn from(_error: AllocError) -> JsonStop {
        JsonStop::OutOfMemory
    }
}

impl From<Invalid> for JsonStop {
    ghost use Rattle.json_tree.specs.declared.reading.JsonStop.TheVariants.{Refused};

    ghost from_gives = { λ _ stop. stop ≡ Refused };

    fn from(_invalid: Invalid) -> JsonStop {
        JsonStop::Refused
    }
}

/// Reads a text. None where it is no JSON (RFC 8259, as `serde_json` reads it: nesting at most 127, numbers in the
/// range of a float).
pub fn read<'a>(
    alloc: Global,
    text: &'a str,
    scratch: &'a mut Scratch,
) -> Result<Option<Json<'a>>, AllocError>
    ensures { IfOk result (λ json. option_map view json ≡ read_text text.now) }
{
    let mut reader = Reader::new(text, scratch)?;
    match read_value(alloc, &mut reader, MAX_DEPTH) {
        Ok(value) => {
            if reader.next().is_some() {
                return Ok(None);
            }
            Ok(Some(value))
        }
        Err(JsonStop::Refused) => Ok(None),
        Err(JsonStop::OutOfMemory) => Err(AllocError),
    }
}

// The next value, with arrays and objects at most so deep.
#[cycle(read)]
#[inline(always)]
fn read_value<'a>(
    alloc: Global,
    reader: &mut Reader<'a>,
    depth: usize,
) -> Result<Json<'a>, JsonStop>
    ensures ok { IfOk result (λ json. converted of_json (value depth reader.old) ≡ Some (view json, reader.new)) }
    ensures shorter { OnOk result (length reader.new < length reader.old) }
    ensures refused { result ≡ Err JsonStop.Refused → converted of_json (value depth reader.old) ≡ None }
{
    let token = reader.next().ok_or(JsonStop::Refused)?;
    match token {
        Token::String(text) => Ok(Json::String(text)),
        Token::Number(text) => match number_in(text) {
            Some(number) => Ok(Json::Number(number)),
            None => Err(JsonStop::Refused),
        },
        Token::Bool(truth) => Ok(Json::Bool(truth)),
        Token::Null => Ok(Json::Null),
        Token::EndObject | Token::EndArray | Token::Key(_) | Token::Bad => Err(JsonStop::Refused),
        Token::BeginArray => {
            if depth == 0 {
                return Err(JsonStop::Refused);
            }
            Ok(Json::Array(read_items(alloc, reader, depth - 1)?))
        }
        Token::BeginObject => {
            if depth == 0 {
                return Err(JsonStop::Refused);
            }
            Ok(Json::Object(read_members(alloc, reader, depth - 1)?))
        }
    }
}

// An array's items, after its bracket.
#[cycle(read)]
#[inline(never)]
fn read_items<'a>(
    alloc: Global,
    reader: &mut Reader<'a>,
    depth: usize,
) -> Result<Vec<Json<'a>>, JsonStop>
    ensures ok { IfOk result
        (λ list. converted of_items (items (value depth) (length reader.old) reader.old)
        ≡ Some (items_view list.items, reader.new)) }
    ensures shorter { OnOk result (length reader.new < length reader.old) }
    ensures refused { result ≡ Err JsonStop.Refused
        → converted of_items (items (value depth) (length reader.old) reader.old) ≡ None }
{
    let mut found = Vec::new(alloc);
    'items: while !reader.take_end_array() {
        let item = read_value(alloc, reader, depth)?;
        found.push(item).map_err(AllocError::from)?;
    }
    Ok(fitted(alloc, found)?)
}

// An object's members, after its brace.
#[cycle(read)]
#[inline(never)]
fn read_members<'a>(
    alloc: Global,
    reader: &mut Reader<'a>,
    depth: usize,
) -> Result<Vec<(&'a str, Json<'a>)>, JsonStop>
    ensures ok { IfOk result
        (λ list. converted (λ ms. of_members ms no_members)
        (members (value depth) (length reader.old) reader.old)
        ≡ Some (members_view list.items, reader.new)) }
    ensures shorter { OnOk result (length reader.new < length reader.old) }
    ensures refused { result ≡ Err JsonStop.Refused
        → converted (λ ms. of_members ms no_members)
        (members (value depth) (length reader.old) reader.old) ≡ None }
{
    let mut found = Members::new(alloc);
    'members: while let Some(name) = reader.next_key()? {
        let member = read_value(alloc, reader, depth)?;
        put(&mut found, name, member)?;
    }
    Ok(in_order(alloc, found)?)
}
