// The value of a field, from JSON of its type.
ghost use Rattle.std.specs.Prelude.{◌≡◌, IfOk, IsUtf8, option_map};
ghost use Rattle.serde_json.specs.Find.{as_bool};
ghost use Rattle.program_read.specs.Reading.{json_of};
ghost use Rattle.json_tree.specs.View.{view, items_view};
ghost use Rattle.session_form.specs.FieldValue.{int_from, text_from, each_from, items_in, list_from, value_from, value_read};

use fx_expr::{IntList, TextList, Txt, Ty, Value};
use json::Scratch;
use json_tree::Json;
use std::alloc::{AllocError, Global};

// The most bytes of a text, and the most items of a list.
const TEXT_MAX: usize = 1024;

const ITEMS_MAX: usize = 4096;

// The integer that a value is.
fn int_from(json: &Json<'_>) -> Option<i64>
    ensures { result ≡ int_from (view json.now) }
{
    json.as_number()?.as_i64()
}

// The text that a value is, where it isn't too long.
fn text_from(alloc: Global, json: &Json<'_>) -> Result<Option<Txt>, AllocError>
    ensures { IfOk result (λ t. t ≡ text_from (view json.now)) }
{
    match json.as_str() {
        Some(text) if text.len() <= TEXT_MAX => {
            Ok(Some(Txt::of(String::from_str(alloc, text)?)))
        }
        Some(_) | None => Ok(None),
    }
}

// The integers that items are.
fn ints_from(alloc: Global, items: &[Json<'_>]) -> Result<Option<Vec<i64>>, AllocError>
    ensures { IfOk result (λ ns. option_map (λ v. v.items) ns ≡ each_from int_from (items_view items.now)) }
{
    let mut numbers = Vec::with_capacity(alloc, items.len())?;
    for item in items {
        let Some(n) = int_from(item) else {
            return Ok(None);
        };
        numbers.push(n)?;
    }
    Ok(Some(numbers))
}

// The texts that items are.
fn texts_from(alloc: Global, items: &[Json<'_>]) -> Result<Option<Vec<Txt>>, AllocError>
    ensures { IfOk result (λ ts. option_map (λ v. v.items) ts ≡ each_from text_from (items_view items.now)) }
{
    let mut texts = Vec::with_capacity(alloc, items.len())?;
    for item in items {
        let Some(text) = text_from(alloc, item)? else {
            return Ok(None);
        };
        texts.push(text)?;
    }
    Ok(Some(texts))
}

// The items of the list that a value is, where they aren't too many.
#[tactic(auto, using(session_form::proofs::ItemsLemmas::too_long, session_form::proofs::ItemsLemmas::not_too_long))]
fn items_in<'a, 'b>(json: &'b Json<'a>) -> Option<&'b [Json<'a>]>
    ensures { option_map (λ items. items_view items.now) result ≡ items_in (view json.now) }
{
    let items = json.as_array()?;
    if items.len() > ITEMS_MAX {
        return None;
    }
    Some(items.as_slice())
}

// The list of integers that a value is.
fn int_list_from(alloc: Global, json: &Json<'_>) -> Result<Option<Value>, AllocError>
    ensures { IfOk result (λ v. v ≡ option_map Value.Ints (list_from int_from (view json.now))) }
{
    let Some(items) = items_in(json) else {
        return Ok(None);
    };
    match ints_from(alloc, items)? {
        Some(numbers) => Ok(Some(Value::Ints(IntList::of(numbers)))),
        None => Ok(None),
    }
}

// The list of texts that a value is.
fn text_list_from(alloc: Global, json: &Json<'_>) -> Result<Option<Value>, AllocError>
    ensures { IfOk result (λ v. v ≡ option_map Value.Texts (list_from text_from (view json.now))) }
{
    let Some(items) = items_in(json) else {
        return Ok(None);
    };
    match texts_from(alloc, items)? {
        Some(texts) => Ok(Some(Value::Texts(TextList::of(texts)))),
        None => Ok(None),
    }
}

// The truth value that a value is.
fn bool_from(json: &Json<'_>) -> Option<Value>
    ensures { result ≡ option_map Value.Bool (as_bool (view json.now)) }
{
    match json {
        Json::Bool(b) => Some(Value::Bool(*b)),
        Json::Null | Json::Number(_) | Json::String(_) | Json::Array(_) | Json::Object(_) => None,
    }
}

// The integer that a value is, as a value of a field.
fn int_value(json: &Json<'_>) -> Option<Value>
    ensures { result ≡ option_map Value.Int (int_from (view json.now)) }
{
    Some(Value::Int(int_from(json)?))
}

// The text that a value is, as a value of a field.
fn text_value(alloc: Global, json: &Json<'_>) -> Result<Option<Value>, AllocError>
    ensures { IfOk result (λ v. v ≡ option_map Value.Text (text_from (view json.now))) }
{
    match text_from(alloc, json)? {
        Some(text) => Ok(Some(Value::Text(text))),
        None => Ok(None),
    }
}

// The value of a type that JSON is.
fn value_from(alloc: Global, ty: Ty, json: &Json<'_>) -> Result<Option<Value>, AllocError>
    ensures { IfOk result (λ v. v ≡ value_from ty (view json.now)) }
{
    match ty {
        Ty::Int => Ok(int_value(json)),
        Ty::Bool => Ok(bool_from(json)),
        Ty::Text => text_value(alloc, json),
        Ty::Ints => int_list_from(alloc, json),
        Ty::Texts => text_list_from(alloc, json),
    }
}

// The bytes of a text as JSON (RFC 8259). Texts with escapes stand in `scratch`.
fn read_json<'a>(
    alloc: Global,
    text: &'a str,
    scratch: &'a mut Scratch,
) -> Result<Option<Json<'a>>, AllocError>
    requires { IsUtf8 text.now }
    ensures { IfOk result (λ v. option_map view v ≡ json_of text.now) }
{
    json_tree::read(alloc, text, scratch)
}

// The value of a type that a text says, where it is JSON of the type.
#[tactic(auto, unfolding(session_form::specs::FieldValue::value_read))]
pub(crate) fn read_value(alloc: Global, ty: Ty, text: &Txt) -> Result<Option<Value>, AllocError>
    ensures { IfOk result (λ v. v ≡ value_read ty text.now) }
{
    let mut scratch = Scratch::new(alloc);
    match read_json(alloc, text.get(), &mut scratch)? {
        Some(json) => value_from(alloc, ty, &json),
        None => Ok(None),
    }
}
