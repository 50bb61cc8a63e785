// The text of values and keys.
ghost use Rattle.std.specs.Prelude.{◌≡◌, ◌++◌, OnOk, map};
ghost use Rattle.std.specs.Fmt.{signed_decimal};
ghost use Rattle.draw_records.specs.Quoted.{quoted};
ghost use Rattle.session_form.specs.Values.{value_text, others_text, list_text, key_text};

use draw_records::push_quoted;
use fx_expr::{Txt, Value};
use std::alloc::{AllocError, Global};
use widget_keys::Key;

// Adds a number in decimal.
fn push_number(alloc: Global, n: i64, out: &mut Vec<u8>) -> Result<(), AllocError>
    ensures { OnOk result (out.new.items ≡ out.old.items ++ signed_decimal n) }
{
    let text = format!(in alloc; "{n}")?;
    out.extend_from_slice(text.as_bytes())
}

// Adds numbers, each after a comma.
fn push_other_numbers(alloc: Global, numbers: &[i64], out: &mut Vec<u8>) -> Result<(), AllocError>
    ensures { OnOk result (out.new.items ≡ out.old.items ++ others_text (map signed_decimal numbers.now)) }
{
    for n in numbers {
        out.extend_from_slice(b",")?;
        push_number(alloc, *n, out)?;
    }
    Ok(())
}

// Adds numbers in brackets.
fn push_numbers(alloc: Global, numbers: &[i64], out: &mut Vec<u8>) -> Result<(), AllocError>
    ensures { OnOk result (out.new.items ≡ out.old.items ++ list_text (map signed_decimal numbers.now)) }
{
    let Some((first, others)) = numbers.split_first() else {
        return out.extend_from_slice(b"[]");
    };
    out.extend_from_slice(b"[")?;
    push_number(alloc, *first, out)?;
    push_other_numbers(alloc, others, out)?;
    out.extend_from_slice(b"]")
}

// Adds texts, each after a comma.
fn push_other_texts(texts: &[Txt], out: &mut Vec<u8>) -> Result<(), AllocError>
    ensures { OnOk result (out.new.items ≡ out.old.items ++ others_text (map quoted texts.now)) }
{
    for text in texts {
        out.extend_from_slice(b",")?;
        push_quoted(text.get(), out)?;
    }
    Ok(())
}

// Adds texts in brackets.
fn push_texts(texts: &[Txt], out: &mut Vec<u8>) -> Result<(), AllocError>
    ensures { OnOk result (out.new.items ≡ out.old.items ++ list_text (map quoted texts.now)) }
{
    let Some((first, others)) = texts.split_first() else {
        return out.extend_from_slice(b"[]");
    };
    out.extend_from_slice(b"[")?;
    push_quoted(first.get(), out)?;
    push_other_texts(others, out)?;
    out.extend_from_slice(b"]")
}

// Adds the text of a value.
pub(crate) fn push_value(alloc: Global, value: &Value, out: &mut Vec<u8>) -> Result<(), AllocError>
    ensures { OnOk result (out.new.items ≡ out.old.items ++ value_text value.now) }
{
    match value {
        Value::Int(n) => push_number(alloc, *n, out),
        Value::Bool(true) => out.extend_from_slice(b"true"),
        Value::Bool(false) => out.extend_from_slice(b"false"),
        Value::Text(text) => push_quoted(text.get(), out),
        Value::Ints(numbers) => push_numbers(alloc, numbers.get(), out),
        Value::Texts(texts) => push_texts(texts.get(), out),
    }
}

// Adds the text of a key.
pub(crate) fn push_key(alloc: Global, key: &Key<Value>, out: &mut Vec<u8>) -> Result<(), AllocError>
    ensures { OnOk result (out.new.items ≡ out.old.items ++ key_text key.now) }
{
    match key {
        Key::None => Ok(()),
        Key::Local(value) => push_value(alloc, value, out),
        Key::Global(value) => {
            out.extend_from_slice(b"global ")?;
            push_value(alloc, value, out)
        }
    }
}
