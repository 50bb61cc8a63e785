// The least parts of a program's text: integers, texts, words, types, and lists of a fixed form.
ghost use Rattle.std.specs.Prelude.{◌≡◌, nat_le, if◌then◌else◌, Ok};
ghost use Rattle.serde_json.specs.Find.{as_array};
ghost use Rattle.json_tree.specs.View.{view, items_view};
ghost use Rattle.serde_json.specs.View.{number_view};
ghost use Rattle.program_read.specs.Answers.{Gives, Answers};
ghost use Rattle.program_read.specs.declared.fault.ShapeCode.TheVariants.{WrongKind, OverLimit};
ghost use Rattle.program_read.specs.ShapeFault.{stops, at_entry, and_then};
ghost use Rattle.program_read.specs.Leaves.{or_stop, string_of, integer_of, number_of, text_in, count_of, entries_of, pair_of, triple_of, word_is, type_named, type_of};

use crate::fault::{ReadStop, ShapeCode, at_entry};
use fx_expr::{Txt, Ty};
use json_tree::Json;
use serde_json::Number;
use std::alloc::Global;

// The most entries of a list, and the most bytes of a text.
pub(crate) const MAX_ENTRIES: usize = 4096;

const MAX_TEXT: usize = 1024;

// The string that a value is, lent.
pub(crate) fn read_str<'a>(alloc: Global, value: &Json<'a>) -> Result<&'a str, ReadStop>
    ensures { Answers (λ s. s.now) result (string_of (view value.now)) }
{
    match value.as_str() {
        Some(text) => Ok(text),
        None => Err(ReadStop::here(alloc, ShapeCode::WrongKind)),
    }
}

// The number as an integer.
pub(crate) fn integer(alloc: Global, number: &Number) -> Result<i64, ReadStop>
    ensures { Gives result (number_of (number_view number.now)) }
{
    match number.as_i64() {
        Some(integer) => Ok(integer),
        None => Err(ReadStop::here(alloc, ShapeCode::NotInteger)),
    }
}

// The integer that a value is.
pub(crate) fn read_integer(alloc: Global, value: &Json<'_>) -> Result<i64, ReadStop>
    ensures { Gives result (integer_of (view value.now)) }
{
    match value.as_number() {
        Some(number) => integer(alloc, number),
        None => Err(ReadStop::here(alloc, ShapeCode::WrongKind)),
    }
}

// The string as a text of the program.
pub(crate) fn text_in(alloc: Global, text: &str) -> Result<Txt, ReadStop>
    ensures { Gives result (text_in text.now) }
{
    if text.len() > MAX_TEXT {
        return Err(ReadStop::here(alloc, ShapeCode::OverLimit));
    }
    Ok(Txt::of(String::from_str(alloc, text)?))
}

// That a list has at most so many entries.
pub(crate) fn expect_within(
    alloc: Global,
    entries: &[Json<'_>],
    limit: usize,
) -> Result<(), ReadStop>
    ensures { Answers (λ _. items_view entries.now) result
        (if nat_le (count_of (items_view entries.now)) limit then Ok (items_view entries.now) else stops OverLimit) }
{
    if entries.len() > limit {
        return Err(ReadStop::here(alloc, ShapeCode::OverLimit));
    }
    Ok(())
}

// The entries of the list that a value is, which are at most so many.
pub(crate) fn read_entries<'a>(
    alloc: Global,
    value: Json<'a>,
    limit: usize,
) -> Result<Vec<Json<'a>>, ReadStop>
    ensures { Answers (λ vs. items_view vs.items) result
        (and_then (or_stop WrongKind (as_array (view value.entry))) (λ ds. if nat_le (count_of ds) limit then Ok ds else stops OverLimit)) }
{
    match value {
        Json::Array(entries) => {
            expect_within(alloc, &entries, limit)?;
            Ok(entries)
        }
        _ => Err(ReadStop::here(alloc, ShapeCode::WrongKind)),
    }
}

// The entries of the list that a value is, lent.
fn entries_in<'v, 'a>(alloc: Global, value: &'v Json<'a>) -> Result<&'v Vec<Json<'a>>, ReadStop>
    ensures { Answers (λ vs. items_view vs.now.items) result (entries_of (view value.now)) }
{
    let Some(entries) = value.as_array() else {
        return Err(ReadStop::here(alloc, ShapeCode::WrongKind));
    };
    expect_within(alloc, entries, MAX_ENTRIES)?;
    Ok(entries)
}

// The two entries of the list that a value is, lent.
pub(crate) fn read_pair<'v, 'a>(
    alloc: Global,
    value: &'v Json<'a>,
) -> Result<(&'v Json<'a>, &'v Json<'a>), ReadStop>
    ensures { Answers (λ p. (view p.0.now, view p.1.now)) result (pair_of (view value.now)) }
{
    let entries = entries_in(alloc, value)?;
    if entries.len() != 2 {
        return Err(ReadStop::here(alloc, ShapeCode::WrongCount));
    }
    Ok((&entries[0], &entries[1]))
}

// The three entries of the list that a value is, lent.
pub(crate) fn read_triple<'v, 'a>(
    alloc: Global,
    value: &'v Json<'a>,
) -> Result<(&'v Json<'a>, &'v Json<'a>, &'v Json<'a>), ReadStop>
    ensures { Answers (λ p. (view p.0.now, view p.1.now, view p.2.now)) result (triple_of (view value.now)) }
{
    let entries = entries_in(alloc, value)?;
    if entries.len() != 3 {
        return Err(ReadStop::here(alloc, ShapeCode::WrongCount));
    }
    Ok((&entries[0], &entries[1], &entries[2]))
}

// That a value is this word.
fn expect_word(alloc: Global, value: &Json<'_>, word: &str) -> Result<(), ReadStop>
    ensures { Gives result (word_is word.now (view value.now)) }
{
    let found = read_str(alloc, value)?;
    if found != word {
        return Err(ReadStop::here(alloc, ShapeCode::WrongKind));
    }
    Ok(())
}

// That an entry of a list is this word.
pub(crate) fn expect_word_entry(
    alloc: Global,
    value: &Json<'_>,
    word: &str,
    index: usize,
) -> Result<(), ReadStop>
    ensures { Gives result (at_entry index (word_is word.now (view value.now))) }
{
    at_entry(alloc, index, expect_word(alloc, value, word))
}

// The type that a word names.
fn type_named(word: &str) -> Option<Ty>
    ensures { result ≡ type_named word.now }
{
    if word == "int" {
        return Some(Ty::Int);
    }
    if word == "bool" {
        return Some(Ty::Bool);
    }
    if word == "text" {
        return Some(Ty::Text);
    }
    if word == "ints" {
        return Some(Ty::Ints);
    }
    if word == "texts" {
        return Some(Ty::Texts);
    }
    None
}

// The type that a value names.
fn read_type(alloc: Global, value: &Json<'_>) -> Result<Ty, ReadStop>
    ensures { Gives result (type_of (view value.now)) }
{
    let word = read_str(alloc, value)?;
    match type_named(word) {
        Some(ty) => Ok(ty),
        None => Err(ReadStop::here(alloc, ShapeCode::WrongKind)),
    }
}

// The type that an entry of a list names.
pub(crate) fn type_entry(alloc: Global, value: &Json<'_>, index: usize) -> Result<Ty, ReadStop>
    ensures { Gives result (at_entry index (type_of (view value.now))) }
{
    at_entry(alloc, index, read_type(alloc, value))
}
