// The reading of expressions.
ghost use Rattle.std.specs.Prelude.{◌≡◌, List, map};
ghost use Rattle.fx_expr.specs.declared.values.Value.TheVariants as value;
ghost use Rattle.serde_json.specs.Data.{depth};
ghost use Rattle.json_tree.specs.View.{view, items_view};
ghost use Rattle.serde_json.specs.View.{number_view};
ghost use Rattle.program_read.specs.Answers.{Answers, Gives};
ghost use Rattle.program_read.specs.ShapeFault.{at_entry, and_then, each, given};
ghost use Rattle.program_read.specs.Leaves.{number_of, text_in, within_limit};
ghost use Rattle.program_form.specs.Form.{literal, named_form};
ghost use Rattle.program_form.specs.FormView.{plain_form};
ghost use Rattle.program_read.specs.FormWalk.{form_of, list_form, forms_of, head_of, one_of, named_of, movement_of, event_of, counted, operation_of};

use crate::fault::{ReadStop, ShapeCode, at_entry};
use crate::leaves::{MAX_ENTRIES, expect_within, integer, read_str, text_in};
use crate::names::name_entry;
use fx_expr::Txt;
use json_tree::Json;
use program_form::{Form, FormList, Head, Naming, Operator};
use serde_json::Number;
use std::alloc::Global;

// The literal that a number is.
fn number_form(alloc: Global, number: &Number) -> Result<Form, ReadStop>
    ensures { Answers plain_form result (given (λ z. literal (value.Int z)) (number_of (number_view number.now))) }
{
    Ok(Form::Int(integer(alloc, number)?))
}

// The literal that a text is.
fn text_form(alloc: Global, text: &str) -> Result<Form, ReadStop>
    ensures { Answers plain_form result (given (λ t. literal (value.Text t)) (text_in text.now)) }
{
    Ok(Form::Text(text_in(alloc, text)?))
}

// The expression that a value is.
#[cycle(read)]
#[tactic(auto, unfolding(crate::specs::FormWalk::form_of))]
pub(crate) fn read_form(alloc: Global, value: &Json<'_>) -> Result<Form, ReadStop>
    ensures { Answers plain_form result (form_of (view value.now)) }
{
    match value {
        Json::Bool(truth) => Ok(Form::Bool(*truth)),
        Json::Number(number) => number_form(alloc, number),
        Json::String(text) => text_form(alloc, text),
        Json::Array(entries) => read_list(alloc, entries),
        Json::Null | Json::Object(_) => Err(ReadStop::here(alloc, ShapeCode::WrongKind)),
    }
}

// The expression that a list's entries are, where they are not too many.
#[cycle(read)]
#[tactic(auto, unfolding(crate::specs::FormWalk::list_form))]
fn read_list(alloc: Global, entries: &[Json<'_>]) -> Result<Form, ReadStop>
    ensures { Answers plain_form result (and_then (within_limit (items_view entries.now)) (λ _. list_form (items_view entries.now))) }
{
    expect_within(alloc, entries, MAX_ENTRIES)?;
    let Some((first, operands)) = entries.split_first() else {
        return Err(ReadStop::here(alloc, ShapeCode::WrongCount));
    };
    match head_entry(alloc, first)? {
        Head::Name(naming) => read_named(alloc, naming, operands),
        Head::Event => read_event(alloc, operands),
        Head::Operation(operator) => read_operation(alloc, operator, operands),
    }
}

// What a list's first entry says that the list is.
fn read_head(alloc: Global, value: &Json<'_>) -> Result<Head, ReadStop>
    ensures { Gives result (head_of (view value.now)) }
{
    let word = read_str(alloc, value)?;
    match Head::named(word) {
        Some(head) => Ok(head),
        None => Err(ReadStop::here(alloc, ShapeCode::UnknownOperator)),
    }
}

// What the first entry of a list says that the list is.
fn head_entry(alloc: Global, value: &Json<'_>) -> Result<Head, ReadStop>
    ensures { Gives result (at_entry 0 (head_of (view value.now))) }
{
    at_entry(alloc, 0, read_head(alloc, value))
}

// The one operand, where there are no others.
fn one_in<'v, 'a>(alloc: Global, operands: &'v [Json<'a>]) -> Result<&'v Json<'a>, ReadStop>
    ensures { Answers (λ v. view v.now) result (one_of (items_view operands.now)) }
{
    if operands.len() != 1 {
        return Err(ReadStop::here(alloc, ShapeCode::WrongCount));
    }
    Ok(&operands[0])
}

// The value in scope that the one operand names.
fn read_named(alloc: Global, naming: Naming, operands: &[Json<'_>]) -> Result<Form, ReadStop>
    ensures { Answers plain_form result (named_of naming (items_view operands.now)) }
{
    let operand = one_in(alloc, operands)?;
    let name = name_entry(alloc, operand, 1)?;
    Ok(named_form(naming, name))
}

// The value in scope that a name gives.
fn named_form(naming: Naming, name: Txt) -> Form
    ensures { plain_form result ≡ named_form naming name }
{
    match naming {
        Naming::Field => Form::Field(name),
        Naming::Prop => Form::Prop(name),
        Naming::Var => Form::Var(name),
        Naming::Inherit => Form::Inherit(name),
    }
}

// The movement of an event that a value names.
fn read_movement(alloc: Global, value: &Json<'_>) -> Result<Form, ReadStop>
    ensures { Answers plain_form result (movement_of (view value.now)) }
{
    let word = read_str(alloc, value)?;
    if word == "dx" {
        return Ok(Form::EventDx);
    }
    if word == "dy" {
        return Ok(Form::EventDy);
    }
    Err(ReadStop::here(alloc, ShapeCode::WrongKind))
}

// The movement of an event that the one operand names.
fn read_event(alloc: Global, operands: &[Json<'_>]) -> Result<Form, ReadStop>
    ensures { Answers plain_form result (event_of (items_view operands.now)) }
{
    let operand = one_in(alloc, operands)?;
    at_entry(alloc, 1, read_movement(alloc, operand))
}

// That an operator has as many operands as it takes.
fn expect_count(alloc: Global, operator: Operator, operands: &[Json<'_>]) -> Result<(), ReadStop>
    ensures { Gives result (counted operator (items_view operands.now)) }
{
    if !operator.takes(operands.len()) {
        return Err(ReadStop::here(alloc, ShapeCode::WrongCount));
    }
    Ok(())
}

// An operator with its operands.
#[cycle(read)]
fn read_operation(
    alloc: Global,
    operator: Operator,
    operands: &[Json<'_>],
) -> Result<Form, ReadStop>
    ensures { Answers plain_form result (operation_of operator (items_view operands.now) (forms_of (items_view operands.now))) }
{
    expect_count(alloc, operator, operands)?;
    let forms = read_operands(alloc, operands)?;
    Ok(Form::Operation(operator, FormList::of(forms)))
}

// The operands of an operator, which stands before them in their list.
#[cycle(read)]
fn read_operands(alloc: Global, operands: &[Json<'_>]) -> Result<Vec<Form>, ReadStop>
    ensures { Answers (λ fs. map plain_form fs.items) result (each 1 (forms_of (items_view operands.now))) }
{
    let mut forms = Vec::with_capacity(alloc, operands.len())?;
    for operand in operands {
        let form = at_entry(alloc, forms.len() + 1, read_form(alloc, operand))?;
        forms.push(form)?;
    }
    Ok(forms)
}

// The expression that an entry of another list is.
pub(crate) fn form_entry(alloc: Global, value: &Json<'_>, index: usize) -> Result<Form, ReadStop>
    ensures { Answers plain_form result (at_entry index (form_of (view value.now))) }
{
    at_entry(alloc, index, read_form(alloc, value))
}
