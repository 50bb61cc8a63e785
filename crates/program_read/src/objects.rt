// Members of JSON objects: which have to be there, which may be, and each one's reading.
ghost use Rattle.std.specs.Prelude.{◌≡◌, ◌≤◌, map, option_map, IfOk};
ghost use Rattle.std.specs.List.{list_any, list_all, position};
ghost use Rattle.std.specs.Str.{bytes_eq};
ghost use Rattle.serde_json.specs.Data.{object, depth};
ghost use Rattle.serde_json.specs.Find.{get};
ghost use Rattle.json_tree.specs.View.{view, members_view};
ghost use Rattle.program_read.specs.Answers.{Answers, Gives};
ghost use Rattle.program_read.specs.Objects.{object_of, has, shaped, OthersStay};

use crate::fault::{ReadStop, ShapeCode};
use json_tree::Json;
use std::alloc::Global;
use std::mem;

// An object's members, in byte order of their names.
pub(crate) type Members<'a> = Vec<(&'a str, Json<'a>)>;

// The members of the object that a value is, lent.
pub(crate) fn members_in<'v, 'a>(
    alloc: Global,
    value: &'v Json<'a>,
) -> Result<&'v Members<'a>, ReadStop>
    ensures { Answers (λ m. members_view m.now.items) result (object_of (view value.now)) }
{
    match value.as_object() {
        Some(members) => Ok(members),
        None => Err(ReadStop::here(alloc, ShapeCode::WrongKind)),
    }
}

// The members of the object that a value is.
pub(crate) fn read_object<'a>(alloc: Global, value: Json<'a>) -> Result<Members<'a>, ReadStop>
    ensures { Answers (λ m. members_view m.items) result (object_of (view value.entry)) }
{
    match value {
        Json::Object(members) => Ok(members),
        _ => Err(ReadStop::here(alloc, ShapeCode::WrongKind)),
    }
}

// The place of the first member of that name.
fn place_of(members: &Members<'_>, name: &str) -> Option<usize>
    ensures { result ≡ position (λ m. bytes_eq name.now m.0.now) members.now.items }
{
    members.iter().position(|member| name == member.0)
}

// Takes a value out of its place: `null` stands there from then on.
pub(crate) fn taken<'a>(place: &mut Json<'a>) -> Json<'a>
    ensures { view result ≡ view place.old }
{
    mem::replace(place, Json::Null)
}

// Takes the member of that name out of an object's members, where it is there: `null` stands in its place.
pub(crate) fn take<'a>(members: &mut Members<'a>, name: &str) -> Option<Json<'a>>
    ensures taken { option_map view result ≡ get name.now (object (members_view members.old.items)) }
    ensures others { OthersStay name.now (object (members_view members.old.items)) (object (members_view members.new.items)) }
    ensures depth { depth (object (members_view members.new.items)) ≤ depth (object (members_view members.old.items)) }
{
    let place = place_of(members, name)?;
    Some(mem::replace(&mut members[place].1, Json::Null))
}

// Whether the object has the member.
pub(crate) fn has(value: &Json<'_>, name: &str) -> bool
    ensures { result ≡ has (view value.now) name.now }
{
    value.get(name).is_some()
}

// Whether the object has each of the members.
fn has_all(value: &Json<'_>, names: &[&str]) -> bool
    ensures { result ≡ list_all (λ n. has (view value.now) n.now) names.now }
{
    names.iter().all(|name| has(value, *name))
}

// Whether the name is one of those named.
fn is_among(names: &[&str], name: &str) -> bool
    ensures { result ≡ list_any (λ n. bytes_eq n.now name.now) names.now }
{
    names.iter().any(|known| *known == name)
}

// Whether each member's name is one of those named.
fn are_among(names: &[&str], members: &Members<'_>) -> bool
    ensures { result ≡ list_all (λ m. list_any (λ n. bytes_eq n.now m.0.now) names.now) members.now.items }
{
    members.iter().all(|member| is_among(names, member.0))
}

// That a value is an object that has the required members, and none but the known ones.
fn expect_members(
    alloc: Global,
    value: &Json<'_>,
    required: &[&str],
    known: &[&str],
) -> Result<(), ReadStop>
    ensures { Gives result (shaped (map (λ n. n.now) required.now) (map (λ n. n.now) known.now) (view value.now)) }
{
    let members = members_in(alloc, value)?;
    if !has_all(value, required) {
        return Err(ReadStop::here(alloc, ShapeCode::MissingMember));
    }
    if !are_among(known, members) {
        return Err(ReadStop::here(alloc, ShapeCode::UnknownMember));
    }
    Ok(())
}

// The members of the object that a value is, which has the required ones, and none but the known ones.
pub(crate) fn read_shaped<'a>(
    alloc: Global,
    value: Json<'a>,
    required: &[&str],
    known: &[&str],
) -> Result<Members<'a>, ReadStop>
    ensures shape { Answers (λ _. tt) result (shaped (map (λ n. n.now) required.now) (map (λ n. n.now) known.now) (view value.entry)) }
    ensures members { IfOk result (λ m. view value.entry ≡ object (members_view m.items)) }
{
    expect_members(alloc, &value, required, known)?;
    read_object(alloc, value)
}
