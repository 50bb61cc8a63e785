// Texts that RFC 8259 and `serde_json` accept or refuse, and what is read of some.
use crate::compare::{expect, expect_at};
use json::Scratch;
use json_tree::{Json, read};
use std::alloc::{AllocError, Global};
use std::fmt::Display;
use std::test::Fail;

// A word and a value.
fn said<T: Display>(alloc: Global, word: &str, value: &T) -> Result<String, AllocError> {
    format!(in alloc; "{word} {value}")
}

// A value's kind, and what tells it from others of its kind.
fn told(alloc: Global, json: &Json<'_>) -> Result<String, AllocError> {
    match json {
        Json::Null => String::from_str(alloc, "null"),
        Json::Bool(truth) => said(alloc, "bool", truth),
        Json::Number(number) => said(alloc, "number", number),
        Json::String(text) => said(alloc, "string", text),
        Json::Array(items) => said(alloc, "array", &items.len()),
        Json::Object(members) => said(alloc, "object", &members.len()),
    }
}

// What a text reads as; `none` where it is no JSON.
fn outcome(alloc: Global, text: &str) -> Result<String, AllocError> {
    let mut scratch = Scratch::new(alloc);
    match read(alloc, text, &mut scratch)? {
        None => String::from_str(alloc, "none"),
        Some(json) => told(alloc, &json),
    }
}

const TEXTS: [(&str, &str); 19] = [
    ("", "none"),
    (" null\n", "null"),
    ("true", "bool true"),
    ("-0", "number -0.0"),
    ("1.50", "number 1.5"),
    ("18446744073709551615", "number 18446744073709551615"),
    ("18446744073709551616", "number 1.8446744073709552e+19"),
    ("-9223372036854775808", "number -9223372036854775808"),
    ("1e400", "none"),
    ("01", "none"),
    (r#""a\n\u00e9\"""#, "string a\né\""),
    (r#""\ud83d""#, "none"),
    ("[]", "array 0"),
    ("[1,[2,3],{}]", "array 3"),
    ("[1,]", "none"),
    ("{}", "object 0"),
    (r#"{"b":1,"a":2,"b":3}"#, "object 2"),
    (r#"{"a":1"#, "none"),
    ("[] []", "none"),
];

#[test]
fn reads_texts(rt: HostRuntime) -> Result<(), Fail> {
    for (text, wanted) in TEXTS {
        let outcome = outcome(rt.alloc(), text)?;
        expect_at(&rt, outcome.as_str(), wanted, &text);
    }
    Ok(())
}

// How many members an object has.
fn count_of(json: &Json<'_>) -> Option<usize> {
    Some(json.as_object()?.len())
}

// The text that is the first entry of the list that a member is.
fn first_text<'a>(json: &Json<'a>, name: &str) -> Option<&'a str> {
    json.get(name)?.as_array()?.first()?.as_str()
}

// The whole number that a member is.
fn whole_number(json: &Json<'_>, name: &str) -> Option<u64> {
    json.get(name)?.as_number()?.as_u64()
}

// Whether a member is an object.
fn is_object_at(json: &Json<'_>, name: &str) -> Option<bool> {
    Some(json.get(name)?.is_object())
}

#[test]
fn finds_members(rt: HostRuntime) -> Result<(), Fail> {
    let mut scratch = Scratch::new(rt.alloc());
    let text = r#"{"b":[1.5,"x"],"a":2,"b":["\u0079","z"],"":{}}"#;
    let json = read(rt.alloc(), text, &mut scratch)?.unwrap_or(Json::Null);
    expect(&rt, json.is_object(), true);
    expect(&rt, count_of(&json), Some(3));
    expect(&rt, first_text(&json, "b"), Some("y"));
    expect(&rt, whole_number(&json, "a"), Some(2));
    expect(&rt, is_object_at(&json, ""), Some(true));
    expect(&rt, json.get("c").is_none(), true);
    Ok(())
}
