// The inherited names that stand in checked templates, and what a component declares.
ghost use Rattle.std.specs.Prelude.{◌≡◌, ◌≤◌, ◌||◌, [], map, filter, IfOk, OnOk, length};
ghost use Rattle.std.specs.List.{list_any, range_with_len};
ghost use Rattle.fx_expr.specs.View.{exp_of};
ghost use Rattle.fx_expr.specs.Places.{AddsPlaces};
ghost use Rattle.fx_expr.specs.SomeForm.{reads_inherited};
ghost use Rattle.program_check.specs.Body.{members_in, bodies_in};
ghost use Rattle.program_check.specs.BodyView.{plain_body, plain_body_part, plain_members, plain_body_key_member};
ghost use Rattle.program_check.specs.Decl.{reads_in_key, reads_in_body, reads_in_members, reads_in_part, reads_in_bodies, marked_places, names_read, decl_with};

use crate::checked::{Body, BodyPart, KeyExpr};
use crate::given::marked;
use expr_check::Declared;
use fx_expr::{Expr, SetList, Txt, add_inherited};
use std::alloc::{AllocError, Global};
use std::rc::Rc;
use widget_model::{Decl, FieldList, NameList};

// Adds the places of the inherited names that stand in a template.
#[cycle(naming)]
fn add_in_body(body: &Body, places: &mut Vec<u32>) -> Result<(), AllocError>
    ensures { OnOk result (AddsPlaces places.old.items places.new.items (λ i. reads_in_body i (plain_body body.now))) }
{
    add_in_key(&body.key, places)?;
    add_in_members(body.members.as_slice(), places)
}

// Adds those of a key.
fn add_in_key(key: &Option<Box<KeyExpr>>, places: &mut Vec<u32>) -> Result<(), AllocError>
    ensures { OnOk result (AddsPlaces places.old.items places.new.items (λ i. reads_in_key i (plain_body_key_member key.now))) }
{
    match key {
        Some(key) => match &**key {
            KeyExpr::Local(e) | KeyExpr::Global(e) => add_inherited(e, places),
        },
        None => Ok(()),
    }
}

// Adds those of members.
#[cycle(naming)]
fn add_in_members(
    members: &[Option<Box<BodyPart>>],
    places: &mut Vec<u32>,
) -> Result<(), AllocError>
    ensures { OnOk result (AddsPlaces places.old.items places.new.items (λ i. reads_in_members i (members_in (plain_members members.now)))) }
{
    for member in members {
        if let Some(part) = member {
            add_in_part(part, places)?;
        }
    }
    Ok(())
}

// Adds those of a member.
#[cycle(naming)]
fn add_in_part(part: &BodyPart, places: &mut Vec<u32>) -> Result<(), AllocError>
    ensures { OnOk result (AddsPlaces places.old.items places.new.items (λ i. reads_in_part i (plain_body_part part.now))) }
{
    match part {
        BodyPart::Expression(e) => add_inherited(e, places),
        BodyPart::Word(_) | BodyPart::Name(_) => Ok(()),
        BodyPart::Handler(sets) => add_in_sets(sets, places),
        BodyPart::Child(body) => add_in_body(body, places),
        BodyPart::Children(bodies) => add_in_bodies(bodies.as_slice(), places),
        BodyPart::Props(exprs) => add_in_exprs(exprs.as_slice(), places),
        BodyPart::Slots(bodies) => add_in_bodies(bodies.as_slice(), places),
    }
}

// Adds those of templates.
#[cycle(naming)]
fn add_in_bodies(bodies: &[Body], places: &mut Vec<u32>) -> Result<(), AllocError>
    ensures { OnOk result (AddsPlaces places.old.items places.new.items (λ i. reads_in_bodies i (bodies_in (map plain_body bodies.now)))) }
{
    for body in bodies {
        add_in_body(body, places)?;
    }
    Ok(())
}

// Adds those of expressions.
fn add_in_exprs(exprs: &[Expr], places: &mut Vec<u32>) -> Result<(), AllocError>
    ensures { OnOk result (AddsPlaces places.old.items places.new.items (λ i. list_any (reads_inherited i) (map exp_of exprs.now))) }
{
    for e in exprs {
        add_inherited(e, places)?;
    }
    Ok(())
}

// Adds those of sets.
fn add_in_sets(sets: &SetList, places: &mut Vec<u32>) -> Result<(), AllocError>
    ensures { OnOk result (AddsPlaces places.old.items places.new.items (λ i. list_any (λ set. reads_inherited i set.1) sets.now)) }
{
    let sets = sets.get();
    for i in 0..sets.len() {
        add_inherited(&sets[i].1, places)?;
    }
    Ok(())
}

// The places of those marked, in ascending order.
fn chosen(alloc: Global, marks: &[bool]) -> Result<Vec<u32>, AllocError>
    requires { length marks.now ≤ 4294967295 }
    ensures { IfOk result (λ places. places.items ≡ marked_places marks.now) }
{
    let mut places = Vec::new(alloc);
    for i in 0..marks.len() {
        if marks[i] {
            places.push(i as u32)?;
        }
    }
    Ok(places)
}

// The inherited names that stand in a template, of so many, in ascending order.
fn places_read(alloc: Global, body: &Body, count: usize) -> Result<Vec<u32>, AllocError>
    requires { count ≤ 4294967295 }
    ensures { IfOk result (λ names. names.items ≡ names_read count (plain_body body.now)) }
{
    let mut places = Vec::new(alloc);
    add_in_body(body, &mut places)?;
    let marks = marked(alloc, count, places.as_slice())?;
    chosen(alloc, marks.as_slice())
}

// What a component of this name, with these fields and this body, declares in a program of so many inherited names.
pub(crate) fn component_decl(
    alloc: Global,
    name: &Txt,
    fields: &Declared,
    body: &Body,
    count: usize,
) -> Result<Rc<Decl>, AllocError>
    requires { count ≤ 4294967295 }
    ensures { IfOk result (λ d. d.value ≡ decl_with name.now fields.now (names_read count (plain_body body.now))) }
{
    let name = name.clone()?;
    let fields = FieldList::of(fields.to_list(alloc)?);
    let inherited = NameList::of(places_read(alloc, body, count)?);
    let decl = Decl {
        name,
        fields,
        inherited,
    };
    Ok(Rc::new(alloc, decl)?)
}
