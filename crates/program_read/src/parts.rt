// The reading of templates.
ghost use Rattle.std.specs.Prelude.{◌≡◌, ◌≤◌, ◌&&◌, Some, Ok, is_some, if◌then◌else◌, map, filter, codes, option_map};
ghost use Rattle.std.specs.List.{list_any, list_all};
ghost use Rattle.std.specs.Str.{bytes_eq};
ghost use Rattle.serde_json.specs.Data.{depth, object};
ghost use Rattle.serde_json.specs.Find.{as_object};
ghost use Rattle.json_tree.specs.View.{view, items_view, members_view};
ghost use Rattle.program_read.specs.Answers.{Answers, Gives};
ghost use Rattle.program_read.specs.declared.fault.ShapeCode.TheVariants.{WrongKind};
ghost use Rattle.program_read.specs.ShapeFault.{stops, each};
ghost use Rattle.program_read.specs.FormWalk.{form_of};
ghost use Rattle.program_form.specs.KeyView.{plain_key};
ghost use Rattle.program_read.specs.KeyWalk.{key_of};
ghost use Rattle.program_form.specs.Kinds.{has_key, member_text, members_of};
ghost use Rattle.program_read.specs.Leaves.{walks};
ghost use Rattle.program_read.specs.Objects.{has, is_among, shaped, optional_at, walk_found, OthersStay, in_order, named, named_walks};
ghost use Rattle.program_form.specs.Template.{child};
ghost use Rattle.program_form.specs.TemplateView.{plain_template, plain_part, plain_member, plain_key_member, plain_prop, plain_slot};
ghost use Rattle.program_read.specs.TemplateWalk.{kind_of, kind_in, required_names, known_names, template_of, template_parts, part_with, part_of, part_at};

use crate::fault::{ReadStop, ShapeCode, at_entry, within};
use crate::forms::read_form;
use crate::handlers::read_handler;
use crate::keys::read_key;
use crate::leaves::{MAX_ENTRIES, read_entries, read_str};
use crate::names::{name_in, read_name};
use crate::objects::{Members, has, members_in, read_object, take};
use crate::words::read_word;
use json_tree::Json;
use program_form::{KeyForm, KindMember, KindName, MemberForm, Part, PropForm, SlotForm, Template};
use std::alloc::Global;

// The kind that a template's member `w` names, of those that the version has.
fn read_kind(alloc: Global, version: u8, value: &Json<'_>) -> Result<KindName, ReadStop>
    ensures { Gives result (kind_of version (view value.now)) }
{
    let Some(found) = value.get("w") else {
        return Err(ReadStop::here(alloc, ShapeCode::MissingMember));
    };
    let word = within(alloc, "w", read_str(alloc, found))?;
    match KindName::named(version, word) {
        Some(kind) => Ok(kind),
        None => Err(ReadStop::here(alloc, ShapeCode::UnknownKind)),
    }
}

// Whether a template of the kind has each member that it has to have.
fn has_required(kind: KindName, value: &Json<'_>) -> bool
    ensures { result ≡ list_all (λ m. has (view value.now) (member_text m.name)) (filter (λ m. m.required) (members_of kind)) }
{
    kind.members()
        .iter()
        .filter(|member| member.required)
        .all(|member| has(value, member.name.text()))
}

// Whether the kind has the member in its table.
fn is_member(kind: KindName, name: &str) -> bool
    ensures { result ≡ list_any (λ m. bytes_eq (member_text m.name) name.now) (members_of kind) }
{
    kind.members()
        .iter()
        .any(|member| member.name.text() == name)
}

// Whether the member is the one that names the kind.
fn is_w(name: &str) -> bool
    ensures { result ≡ bytes_eq (codes "w") name.now }
{
    "w" == name
}

// Whether the member is a key, and the kind may have one.
fn is_key(kind: KindName, name: &str) -> bool
    ensures { result ≡ (has_key kind && bytes_eq (codes "key") name.now) }
{
    kind.has_key() && "key" == name
}

// Whether a template of the kind may have the member.
fn knows(kind: KindName, name: &str) -> bool
    ensures { result ≡ is_among (known_names kind) name.now }
{
    if is_w(name) {
        return true;
    }
    if is_key(kind, name) {
        return true;
    }
    is_member(kind, name)
}

// Whether a template of the kind may have each of the members.
fn knows_all(kind: KindName, members: &Members<'_>) -> bool
    ensures { result ≡ list_all (λ m. is_among (known_names kind) m.0.now) members.now.items }
{
    members.iter().all(|member| knows(kind, member.0))
}

// That a template of the kind has the members that it has to have, and none but those that it may have.
fn expect_kind(alloc: Global, kind: KindName, value: &Json<'_>) -> Result<(), ReadStop>
    ensures { Gives result (shaped (required_names kind) (known_names kind) (view value.now)) }
{
    let members = members_in(alloc, value)?;
    if !has_required(kind, value) {
        return Err(ReadStop::here(alloc, ShapeCode::MissingMember));
    }
    if !knows_all(kind, members) {
        return Err(ReadStop::here(alloc, ShapeCode::UnknownMember));
    }
    Ok(())
}

// The kind of the template that a value is, which has the members that it has to have, and none but those that it may
// have.
fn expect_template(alloc: Global, version: u8, value: &Json<'_>) -> Result<KindName, ReadStop>
    ensures { Gives result (if is_some (as_object (view value.now)) then kind_in version (view value.now) else stops WrongKind) }
{
    if !value.is_object() {
        return Err(ReadStop::here(alloc, ShapeCode::WrongKind));
    }
    let kind = read_kind(alloc, version, value)?;
    expect_kind(alloc, kind, value)?;
    Ok(kind)
}

// Takes and reads the key of a template, where it has one.
fn key_at(alloc: Global, members: &mut Members<'_>) -> Result<Option<Box<KeyForm>>, ReadStop>
    ensures read { Answers plain_key_member result
        (optional_at key_of (codes "key") (object (members_view members.old.items))) }
    ensures others { OthersStay (codes "key") (object (members_view members.old.items)) (object (members_view members.new.items)) }
    ensures depth { depth (object (members_view members.new.items)) ≤ depth (object (members_view members.old.items)) }
{
    match take(members, "key") {
        Some(found) => {
            let key = within(alloc, "key", read_key(alloc, &found))?;
            Ok(Some(Box::new(alloc, key)?))
        }
        None => Ok(None),
    }
}

// A prop that an object gives.
fn read_prop(alloc: Global, name: &str, value: &Json<'_>) -> Result<PropForm, ReadStop>
    ensures { Answers plain_prop result (named name.now (form_of (view value.now))) }
{
    let name = name_in(alloc, name)?;
    let value = within(alloc, name.get(), read_form(alloc, value))?;
    Ok(PropForm { name, value })
}

// The props that an object gives.
fn read_props(alloc: Global, members: &[(&str, Json<'_>)]) -> Result<Vec<PropForm>, ReadStop>
    ensures { Answers (λ ps. map plain_prop ps.items) result (in_order (named_walks form_of (members_view members.now))) }
{
    let mut props = Vec::with_capacity(alloc, members.len())?;
    for member in members {
        props.push(read_prop(alloc, member.0, &member.1)?)?;
    }
    Ok(props)
}

// What a value is as a member of a form that holds no templates. No value is a member of another form.
fn read_flat_part(alloc: Global, form: MemberForm, value: Json<'_>) -> Result<Part, ReadStop>
    ensures { Answers plain_part result
        (part_with form (view value.entry) (λ _. stops WrongKind) (λ _. stops WrongKind) (λ _. stops WrongKind)) }
{
    match form {
        MemberForm::Expression(_) => Ok(Part::Expression(read_form(alloc, &value)?)),
        MemberForm::Word(list) => Ok(Part::Word(read_word(alloc, list, &value)?)),
        MemberForm::Name => Ok(Part::Name(read_name(alloc, &value)?)),
        MemberForm::Handler => Ok(Part::Handler(read_handler(alloc, value)?)),
        MemberForm::Props => Ok(Part::Props(read_props(alloc, members_in(alloc, &value)?)?)),
        MemberForm::Child(_) | MemberForm::Children(_) | MemberForm::Slots => {
            Err(ReadStop::here(alloc, ShapeCode::WrongKind))
        }
    }
}

// A child as a member.
fn as_child(alloc: Global, template: Template) -> Result<Part, ReadStop>
    ensures { Answers plain_part result (Ok (child (plain_template template))) }
{
    Ok(Part::Child(Box::new(alloc, template)?))
}

// A part as a member that is given.
fn as_member(alloc: Global, part: Part) -> Result<Option<Box<Part>>, ReadStop>
    ensures { Answers plain_member result (Ok (Some (plain_part part))) }
{
    Ok(Some(Box::new(alloc, part)?))
}

// The template that a value is.
#[cycle(read)]
pub(crate) fn read_template(
    alloc: Global,
    version: u8,
    value: Json<'_>,
) -> Result<Template, ReadStop>
    ensures { Answers plain_template result (template_of version (view value.entry)) }
{
    let w = expect_template(alloc, version, &value)?;
    let mut given = read_object(alloc, value)?;
    template_in(alloc, version, w, &mut given)
}

// The template of the kind that an object's members are.
#[cycle(read)]
fn template_in(
    alloc: Global,
    version: u8,
    w: KindName,
    given: &mut Members<'_>,
) -> Result<Template, ReadStop>
    ensures { Answers plain_template result (template_parts version w (object (members_view given.old.items))) }
{
    let key = key_at(alloc, given)?;
    let members = read_members(alloc, version, w, given)?;
    Ok(Template { w, key, members })
}

// The members of a template of the kind, of those that an object gives.
#[cycle(read)]
fn read_members(
    alloc: Global,
    version: u8,
    kind: KindName,
    given: &mut Members<'_>,
) -> Result<Vec<Option<Box<Part>>>, ReadStop>
    ensures { Answers (λ ps. map plain_member ps.items) result
        (in_order (map (part_at version (object (members_view given.old.items))) (members_of kind))) }
{
    let mut members = Vec::with_capacity(alloc, kind.members().len())?;
    for member in kind.members() {
        let found = take(given, member.name.text());
        members.push(read_member(alloc, version, *member, found)?)?;
    }
    Ok(members)
}

// The member of a template, where it is given.
#[cycle(read)]
fn read_member(
    alloc: Global,
    version: u8,
    member: KindMember,
    found: Option<Json<'_>>,
) -> Result<Option<Box<Part>>, ReadStop>
    ensures { Answers plain_member result
        (walk_found (part_of version member.form) (member_text member.name) (option_map view found.entry)) }
{
    match found {
        Some(value) => {
            let name = member.name.text();
            let part = within(alloc, name, read_part(alloc, version, member.form, value))?;
            as_member(alloc, part)
        }
        None => Ok(None),
    }
}

// What a value is as a member of the form.
#[cycle(read)]
fn read_part(
    alloc: Global,
    version: u8,
    form: MemberForm,
    value: Json<'_>,
) -> Result<Part, ReadStop>
    ensures { Answers plain_part result (part_of version form (view value.entry)) }
{
    match form {
        MemberForm::Child(_) => {
            let child = read_template(alloc, version, value)?;
            as_child(alloc, child)
        }
        MemberForm::Children(_) => {
            let entries = read_entries(alloc, value, MAX_ENTRIES)?;
            Ok(Part::Children(read_templates(alloc, version, entries)?))
        }
        MemberForm::Slots => {
            let members = read_object(alloc, value)?;
            Ok(Part::Slots(read_slots(alloc, version, members)?))
        }
        MemberForm::Expression(_)
        | MemberForm::Word(_)
        | MemberForm::Name
        | MemberForm::Handler
        | MemberForm::Props => read_flat_part(alloc, form, value),
    }
}

// The templates that a list's entries are.
#[cycle(read)]
fn read_templates(
    alloc: Global,
    version: u8,
    entries: Vec<Json<'_>>,
) -> Result<Vec<Template>, ReadStop>
    ensures { Answers (λ ts. map plain_template ts.items) result (each 0 (walks (template_of version) (items_view entries.entry.items))) }
{
    let mut templates = Vec::with_capacity(alloc, entries.len())?;
    for entry in entries {
        let template = at_entry(alloc, templates.len(), read_template(alloc, version, entry))?;
        templates.push(template)?;
    }
    Ok(templates)
}

// The contents of slots that an object gives.
#[cycle(read)]
fn read_slots(alloc: Global, version: u8, members: Members<'_>) -> Result<Vec<SlotForm>, ReadStop>
    ensures { Answers (λ ss. map plain_slot ss.items) result (in_order (named_walks (template_of version) (members_view members.entry.items))) }
{
    let mut slots = Vec::with_capacity(alloc, members.len())?;
    for member in members {
        slots.push(read_slot(alloc, version, member.0, member.1)?)?;
    }
    Ok(slots)
}

// The content of a slot that an object gives.
#[cycle(read)]
fn read_slot(alloc: Global, version: u8, name: &str, value: Json<'_>) -> Result<SlotForm, ReadStop>
    ensures { Answers plain_slot result (named name.now (template_of version (view value.entry))) }
{
    let name = name_in(alloc, name)?;
    let content = within(alloc, name.get(), read_template(alloc, version, value))?;
    Ok(SlotForm { name, content })
}
