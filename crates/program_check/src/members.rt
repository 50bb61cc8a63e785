// What is taken out of a template: its members, each as what it has to be. What is taken goes once it is checked.
ghost use Rattle.std.specs.Prelude.{◌≡◌, ◌≤◌, map, set, None, Some, IfOk};
ghost use Rattle.program_form.specs.FormView.{plain_form};
ghost use Rattle.program_form.specs.TemplateView.{plain_prop};
ghost use Rattle.expr_check.specs.Check.{Answers, Gives};
ghost use Rattle.expr_check.specs.declared.fault.CheckCode.TheVariants.{WrongType};
ghost use Rattle.program_check.specs.Place.{or_wrong};
ghost use Rattle.program_check.specs.Judged.{part_at, form_of, name_of, child_of, props_in, slots_in};
ghost use Rattle.program_check.specs.JudgedView.{judged_of, part_of, member_of, parts_of, content_of, first_three, three_parts};
ghost use Rattle.program_check.specs.Steps.{children_in};
ghost use Rattle.program_check.specs.Depth.{depth_of, part_depth_of, member_depth_of, parts_depth, children_depth, contents_depth, three_depth};

use expr_check::{CheckCode, CheckStop};
use fx_expr::Txt;
use program_form::{Form, Part, PropForm, SlotForm, Template};
use std::alloc::Global;
use std::mem;

// The first three members of a kind, each where it is given.
#[derive(Drop)]
pub(crate) struct FirstThree {
    pub(crate) first: Option<Box<Part>>,
    pub(crate) second: Option<Box<Part>>,
    pub(crate) third: Option<Box<Part>>,
}

// Takes the member at a place out of a kind's members, where it is given.
pub(crate) fn take(members: &mut Vec<Option<Box<Part>>>, place: usize) -> Option<Box<Part>>
    ensures taken { member_of result ≡ part_at (parts_of members.old.items) place }
    ensures others { members.new.items ≡ set members.old.items place None }
    ensures depth { member_depth_of result ≤ parts_depth members.old.items }
{
    if place >= members.len() {
        return None;
    }
    mem::replace(&mut members[place], None)
}

// The first three of a kind's members, which are taken out.
pub(crate) fn first_three(members: &mut Vec<Option<Box<Part>>>) -> FirstThree
    ensures parts { three_parts result ≡ first_three (parts_of members.old.items) }
    ensures depth { three_depth result ≤ parts_depth members.old.items }
{
    let first = take(members, 0);
    let second = take(members, 1);
    let third = take(members, 2);
    FirstThree {
        first,
        second,
        third,
    }
}

// An expression, which the part has to be.
#[tactic(auto, unfolding(crate::specs::Judged::judged))]
fn form_of(part: &Part) -> Result<&Form, CheckStop>
    ensures { Answers (λ f. plain_form f.now) result (or_wrong WrongType (form_of (Some (part_of part.now)))) }
{
    match part {
        Part::Expression(form) => Ok(form),
        _ => Err(CheckStop::Bad(CheckCode::WrongType)),
    }
}

// The expression that a member has to be.
pub(crate) fn form_in(member: &Option<Box<Part>>) -> Result<&Form, CheckStop>
    ensures { Answers (λ f. plain_form f.now) result (or_wrong WrongType (form_of (member_of member.now))) }
{
    match member {
        Some(part) => form_of(part),
        None => Err(CheckStop::Bad(CheckCode::WrongType)),
    }
}

// A name, which the part has to be.
#[tactic(auto, unfolding(crate::specs::Judged::judged))]
fn name_of(part: &Part) -> Result<&Txt, CheckStop>
    ensures { Answers (λ n. n.now) result (or_wrong WrongType (name_of (Some (part_of part.now)))) }
{
    match part {
        Part::Name(name) => Ok(name),
        _ => Err(CheckStop::Bad(CheckCode::WrongType)),
    }
}

// The name that a member has to be.
pub(crate) fn name_in(member: &Option<Box<Part>>) -> Result<&Txt, CheckStop>
    ensures { Answers (λ n. n.now) result (or_wrong WrongType (name_of (member_of member.now))) }
{
    match member {
        Some(part) => name_of(part),
        None => Err(CheckStop::Bad(CheckCode::WrongType)),
    }
}

// A child, which the part has to be.
#[tactic(auto, unfolding(crate::specs::Judged::judged))]
pub(crate) fn child_of(part: Part) -> Result<Template, CheckStop>
    ensures answer { Answers judged_of result (or_wrong WrongType (child_of (Some (part_of part)))) }
    ensures depth { IfOk result (λ t. depth_of t ≤ part_depth_of part) }
{
    match part {
        Part::Child(child) => Ok(Box::into_inner(child)),
        _ => Err(CheckStop::Bad(CheckCode::WrongType)),
    }
}

// Children, which the part has to be.
#[tactic(auto, unfolding(crate::specs::Judged::judged))]
pub(crate) fn children_of(part: Part) -> Result<Vec<Template>, CheckStop>
    ensures answer { Answers (λ ts. map judged_of ts.items) result (children_in (part_of part)) }
    ensures depth { IfOk result (λ ts. children_depth ts.items ≤ part_depth_of part) }
{
    match part {
        Part::Children(children) => Ok(children),
        _ => Err(CheckStop::Bad(CheckCode::WrongType)),
    }
}

// Props that are given, which the part has to be.
#[tactic(auto, unfolding(crate::specs::Judged::judged))]
fn props_of(part: Part) -> Result<Vec<PropForm>, CheckStop>
    ensures { Answers (λ ps. map plain_prop ps.items) result (props_in (Some (part_of part))) }
{
    match part {
        Part::Props(props) => Ok(props),
        _ => Err(CheckStop::Bad(CheckCode::WrongType)),
    }
}

// The props of a component that a member has to be; none are given where it is left out.
pub(crate) fn props_from(
    alloc: Global,
    member: Option<Box<Part>>,
) -> Result<Vec<PropForm>, CheckStop>
    ensures { Answers (λ ps. map plain_prop ps.items) result (props_in (member_of member)) }
{
    match member {
        Some(part) => props_of(Box::into_inner(part)),
        None => Ok(Vec::new(alloc)),
    }
}

// Contents of slots that are given, which the part has to be.
#[tactic(auto, using(crate::proofs::PartLemmas::judged_slots_map), unfolding(crate::specs::Judged::judged))]
fn slots_of(part: Part) -> Result<Vec<SlotForm>, CheckStop>
    ensures answer { Answers (λ ss. map content_of ss.items) result (slots_in (Some (part_of part))) }
    ensures depth { IfOk result (λ ss. contents_depth ss.items ≤ part_depth_of part) }
{
    match part {
        Part::Slots(slots) => Ok(slots),
        _ => Err(CheckStop::Bad(CheckCode::WrongType)),
    }
}

// The contents of a component's slots that a member has to be; none are given where it is left out.
pub(crate) fn slots_from(
    alloc: Global,
    member: Option<Box<Part>>,
) -> Result<Vec<SlotForm>, CheckStop>
    ensures answer { Answers (λ ss. map content_of ss.items) result (slots_in (member_of member)) }
    ensures depth { IfOk result (λ ss. contents_depth ss.items ≤ member_depth_of member) }
{
    match member {
        Some(part) => slots_of(Box::into_inner(part)),
        None => Ok(Vec::new(alloc)),
    }
}
