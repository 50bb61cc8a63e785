// The check of templates: their names are found, and their types, sorts and counts of widgets tested. What is checked is
// taken out of its template and goes, and what it becomes is added to the members that are checked.
ghost use Rattle.std.specs.Prelude.{◌≡◌, ◌≤◌, [], map, IfOk};
ghost use Rattle.program_form.specs.TemplateView.{plain_key_member};
ghost use Rattle.expr_check.specs.Check.{Answers, Gives, and_then, in_order};
ghost use Rattle.expr_check.specs.declared.fault.CheckCode.TheVariants.{WrongSort, Uncertain};
ghost use Rattle.program_check.specs.Judged.{child_of, child_at, children_at, slots_in, sort_of, allowed, checked_template, checked_members, checked_inherit, checked_if, checked_else, checked_each, checked_member, checked_part, child_part, children_part, member_checks, amount_of, arranged, slot_place, slots_placed, checked_slot_content};
ghost use Rattle.program_check.specs.JudgedView.{judged_of, part_of, member_of, parts_of, content_of, three_parts, other_parts};
ghost use Rattle.program_check.specs.BodyView.{plain_body, plain_members, plain_content_given};
ghost use Rattle.program_check.specs.Place.{PlainPlace, expected, sorts_agree};
ghost use Rattle.program_check.specs.CheckedView.{signature, plain_place};
ghost use Rattle.program_check.specs.Depth.{member_depth_of, contents_depth};
ghost use Rattle.program_check.specs.Steps.{added, added_one, added_part, placed_slots, slots_part, arranged_slots};

use crate::checked::{Body, BodyPart, CheckedComponent};
use crate::given::{all_there, arrange};
use crate::known::{allows, has_sort, sort_in_member};
use crate::members::{FirstThree, child_of, children_of, first_three, slots_from, take};
use crate::parts::{
    add_child, add_component, add_expression, add_key, add_leaf, add_list, add_part, add_props,
    add_provided, add_slot, leave_out,
};
use crate::places::{Amount, Place, Position, expect};
use crate::slots::SlotNames;
use expr_check::{CheckCode, CheckStop, LoopVariables, Want};
use fx_expr::Ty;
use program_form::{
    ChildSort, KeyForm, KindMember, KindName, MemberForm, MemberName, Part, SlotForm, Template,
};
use std::alloc::Global;

// A member that is a child of the sort, and that has to be there or not.
fn child_member(sort: ChildSort, required: bool) -> KindMember
    ensures form { result.form ≡ MemberForm.Child sort }
    ensures required { result.required ≡ required }
{
    KindMember {
        name: MemberName::Child,
        form: MemberForm::Child(sort),
        required,
    }
}

// That a child fits its position: how many widgets it gives, and then its sort.
fn check_position(
    child: &Template,
    position: Position,
    earlier: &[CheckedComponent],
) -> Result<(), CheckStop>
    ensures { Gives result
        (and_then (expected (allowed position.amount (judged_of child.now)) Uncertain) (λ _. expected (sorts_agree position.sort ((judged_of child.now).sort (map signature earlier.now))) WrongSort)) }
{
    expect(allows(position.amount, child), CheckCode::Uncertain)?;
    expect(
        has_sort(position.sort, child, earlier),
        CheckCode::WrongSort,
    )
}

// A child in its position: how many widgets it gives, then its sort, and then the child itself.
#[cycle(check)]
pub(crate) fn check_child(
    alloc: Global,
    mut child: Template,
    position: Position,
    place: &Place<'_>,
    vars: &LoopVariables,
) -> Result<Body, CheckStop>
    ensures { Answers plain_body result (child_at position (plain_place place.now vars.now) (judged_of child)) }
{
    check_position(&child, position, place.earlier)?;
    check_template(alloc, &mut child, place, vars)
}

// A template.
#[cycle(check)]
fn check_template(
    alloc: Global,
    template: &mut Template,
    place: &Place<'_>,
    vars: &LoopVariables,
) -> Result<Body, CheckStop>
    ensures { Answers plain_body result ((judged_of template.old).check (plain_place place.now vars.now)) }
{
    let members = Vec::with_capacity(alloc, template.members.len())?;
    let mut body = Body {
        w: template.w,
        key: None,
        members,
    };
    fill_body(alloc, template, &mut body, place, vars)?;
    Ok(body)
}

// The key and the members of a template, into a body of its kind that has no members yet.
#[cycle(check)]
fn fill_body(
    alloc: Global,
    template: &mut Template,
    body: &mut Body,
    place: &Place<'_>,
    vars: &LoopVariables,
) -> Result<(), CheckStop>
    requires kind { body.old.w ≡ template.old.w }
    requires empty { body.old.members.items ≡ [] }
    ensures { Answers (λ _. plain_body body.new) result
        (checked_template template.old.w (plain_key_member template.old.key) (parts_of template.old.members.items) (plain_place place.now vars.now)) }
{
    let kind = template.w;
    match kind {
        KindName::Use => check_use(
            alloc,
            template.key.take(),
            &mut first_three(&mut template.members),
            body,
            place,
            vars,
        ),
        _ => {
            add_key(
                alloc,
                template.key.take(),
                &mut body.key,
                &(&*place).names(&*vars),
            )?;
            check_members(
                alloc,
                kind,
                &mut template.members,
                &mut body.members,
                place,
                vars,
            )
        }
    }
}

// A template that uses a component: the component, the key, and then what it is given.
#[cycle(check)]
fn check_use(
    alloc: Global,
    key: Option<Box<KeyForm>>,
    written: &mut FirstThree,
    body: &mut Body,
    place: &Place<'_>,
    vars: &LoopVariables,
) -> Result<(), CheckStop>
    requires kind { body.old.w ≡ KindName.Use }
    requires empty { body.old.members.items ≡ [] }
    ensures { Answers (λ _. plain_body body.new) result
        (checked_template KindName.Use (plain_key_member key) (three_parts written.old) (plain_place place.now vars.now)) }
{
    let component = add_component(alloc, &written.first, &mut body.members, place)?;
    let names = (&*place).names(&*vars);
    add_key(alloc, key, &mut body.key, &names)?;
    add_props(
        alloc,
        written.second.take(),
        &component.props,
        &mut body.members,
        &names,
    )?;
    check_slots(
        alloc,
        written.third.take(),
        &component.slots,
        &mut body.members,
        place,
        vars,
    )
}

// The members of a template of another kind than `use`, after those that are checked.
#[cycle(check)]
fn check_members(
    alloc: Global,
    kind: KindName,
    written: &mut Vec<Option<Box<Part>>>,
    checked: &mut Vec<Option<Box<BodyPart>>>,
    place: &Place<'_>,
    vars: &LoopVariables,
) -> Result<(), CheckStop>
    ensures { Answers (λ _. plain_members checked.new.items) result
        (added (plain_members checked.old.items) (checked_members kind (plain_place place.now vars.now) (parts_of written.old.items))) }
{
    match kind {
        KindName::Inherit => check_inherit(alloc, &mut first_three(written), checked, place, vars),
        KindName::Slot => add_slot(alloc, &first_three(written), checked, place),
        KindName::If => check_if(alloc, &mut first_three(written), checked, place, vars),
        KindName::Each => check_each(alloc, &mut first_three(written), checked, place, vars),
        _ => check_table(alloc, kind.members(), written, checked, place, vars),
    }
}

// `Inherit`: its name, its value, and then its child.
#[cycle(check)]
fn check_inherit(
    alloc: Global,
    written: &mut FirstThree,
    checked: &mut Vec<Option<Box<BodyPart>>>,
    place: &Place<'_>,
    vars: &LoopVariables,
) -> Result<(), CheckStop>
    ensures { Answers (λ _. plain_members checked.new.items) result
        (added (plain_members checked.old.items) (checked_inherit (plain_place place.now vars.now) (three_parts written.old))) }
{
    let ty = add_provided(alloc, &written.first, checked, place.provided)?;
    let names = (&*place).names(&*vars);
    add_expression(
        alloc,
        written.second.take(),
        Want::Exactly(ty),
        checked,
        &names,
    )?;
    check_member(
        alloc,
        child_member(ChildSort::Any, true),
        written.third.take(),
        checked,
        place,
        vars,
    )
}

// `if`: its condition, and then its branches.
#[cycle(check)]
fn check_if(
    alloc: Global,
    written: &mut FirstThree,
    checked: &mut Vec<Option<Box<BodyPart>>>,
    place: &Place<'_>,
    vars: &LoopVariables,
) -> Result<(), CheckStop>
    ensures { Answers (λ _. plain_members checked.new.items) result
        (added (plain_members checked.old.items) (checked_if (plain_place place.now vars.now) (three_parts written.old))) }
{
    let names = (&*place).names(&*vars);
    add_expression(
        alloc,
        written.first.take(),
        Want::Exactly(Ty::Bool),
        checked,
        &names,
    )?;
    expect(written.second.is_some(), CheckCode::WrongType)?;
    let sort = wanted_of_else(&written.second, &written.third, place.earlier);
    check_member(
        alloc,
        child_member(ChildSort::Any, false),
        written.second.take(),
        checked,
        place,
        vars,
    )?;
    check_member(
        alloc,
        child_member(sort, false),
        written.third.take(),
        checked,
        place,
        vars,
    )
}

// The sort that `else` has to be of: that of `then`, which is looked up only where `else` is given.
fn wanted_of_else(
    then: &Option<Box<Part>>,
    other: &Option<Box<Part>>,
    earlier: &[CheckedComponent],
) -> ChildSort
    ensures { (there : PlainPlace) → checked_else result there (other_parts other.now)
        ≡ checked_else (sort_of (map signature earlier.now) (child_of (member_of then.now))) there (other_parts other.now) }
{
    match other {
        Some(_) => sort_in_member(then, earlier),
        None => ChildSort::Any,
    }
}

// `each`: its list, and then its body, with one more variable.
#[cycle(check)]
fn check_each(
    alloc: Global,
    written: &mut FirstThree,
    checked: &mut Vec<Option<Box<BodyPart>>>,
    place: &Place<'_>,
    vars: &LoopVariables,
) -> Result<(), CheckStop>
    ensures { Answers (λ _. plain_members checked.new.items) result
        (added (plain_members checked.old.items) (checked_each (plain_place place.now vars.now) (three_parts written.old))) }
{
    let inner = add_list(alloc, written, checked, place, vars)?;
    check_member(
        alloc,
        child_member(ChildSort::Any, true),
        written.third.take(),
        checked,
        place,
        &inner,
    )
}

// The members of a kind, in the table's order.
#[cycle(check)]
fn check_table(
    alloc: Global,
    table: &[KindMember],
    written: &mut Vec<Option<Box<Part>>>,
    checked: &mut Vec<Option<Box<BodyPart>>>,
    place: &Place<'_>,
    vars: &LoopVariables,
) -> Result<(), CheckStop>
    ensures { Answers (λ _. plain_members checked.new.items) result
        (added (plain_members checked.old.items) (in_order (member_checks (plain_place place.now vars.now) table.now (parts_of written.old.items)))) }
{
    for i in 0..table.len() {
        let part = take(written, i);
        check_member(alloc, table[i], part, checked, place, vars)?;
    }
    Ok(())
}

// A member, where it is given.
#[cycle(check)]
fn check_member(
    alloc: Global,
    member: KindMember,
    written: Option<Box<Part>>,
    checked: &mut Vec<Option<Box<BodyPart>>>,
    place: &Place<'_>,
    vars: &LoopVariables,
) -> Result<(), CheckStop>
    ensures { Answers (λ _. plain_members checked.new.items) result
        (added_one (plain_members checked.old.items) (checked_member (plain_place place.now vars.now) member (member_of written))) }
{
    match written {
        Some(part) => check_part(alloc, member, Box::into_inner(part), checked, place, vars),
        None => leave_out(member.required, checked),
    }
}

// A member that is given.
#[cycle(check)]
fn check_part(
    alloc: Global,
    member: KindMember,
    part: Part,
    checked: &mut Vec<Option<Box<BodyPart>>>,
    place: &Place<'_>,
    vars: &LoopVariables,
) -> Result<(), CheckStop>
    ensures { Answers (λ _. plain_members checked.new.items) result
        (added_part (plain_members checked.old.items) (checked_part (plain_place place.now vars.now) member.required member.form (part_of part))) }
{
    let form = member.form;
    match form {
        MemberForm::Child(wanted) => {
            check_child_part(alloc, wanted, part, member.required, checked, place, vars)
        }
        MemberForm::Children(wanted) => {
            check_children_part(alloc, wanted, part, checked, place, vars)
        }
        MemberForm::Expression(_)
        | MemberForm::Word(_)
        | MemberForm::Name
        | MemberForm::Handler
        | MemberForm::Props
        | MemberForm::Slots => add_leaf(alloc, form, part, checked, &(&*place).names(&*vars)),
    }
}

// How many widgets may come where a child is a member.
fn amount_of(required: bool) -> Amount
    ensures { result ≡ amount_of required }
{
    if required {
        Amount::One
    } else {
        Amount::AtMostOne
    }
}

// A member that is a child.
#[cycle(check)]
fn check_child_part(
    alloc: Global,
    wanted: ChildSort,
    part: Part,
    required: bool,
    checked: &mut Vec<Option<Box<BodyPart>>>,
    place: &Place<'_>,
    vars: &LoopVariables,
) -> Result<(), CheckStop>
    ensures { Answers (λ _. plain_members checked.new.items) result
        (added_part (plain_members checked.old.items) (child_part (plain_place place.now vars.now) required wanted (part_of part))) }
{
    let child = child_of(part)?;
    let position = Position {
        amount: amount_of(required),
        sort: wanted,
    };
    let body = check_child(alloc, child, position, place, vars)?;
    add_child(alloc, checked, body)
}

// A member that is a list of children.
#[cycle(check)]
fn check_children_part(
    alloc: Global,
    wanted: ChildSort,
    part: Part,
    checked: &mut Vec<Option<Box<BodyPart>>>,
    place: &Place<'_>,
    vars: &LoopVariables,
) -> Result<(), CheckStop>
    ensures { Answers (λ _. plain_members checked.new.items) result
        (added_part (plain_members checked.old.items) (children_part (plain_place place.now vars.now) wanted (part_of part))) }
{
    let children = children_of(part)?;
    let position = Position {
        amount: Amount::Any,
        sort: wanted,
    };
    let bodies = check_children(alloc, children, position, place, vars)?;
    add_part(alloc, checked, BodyPart::Children(bodies))
}

// Children in a list, in order.
#[cycle(check)]
fn check_children(
    alloc: Global,
    children: Vec<Template>,
    position: Position,
    place: &Place<'_>,
    vars: &LoopVariables,
) -> Result<Vec<Body>, CheckStop>
    ensures { Answers (λ bs. map plain_body bs.items) result (children_at position (plain_place place.now vars.now) (map judged_of children.items)) }
{
    let mut bodies = Vec::with_capacity(alloc, children.len())?;
    for child in children {
        bodies.push(check_child(alloc, child, position, place, vars)?)?;
    }
    Ok(bodies)
}

// The contents that a component's slots are given: those declared, all of them, each one box.
#[cycle(check)]
fn check_slots(
    alloc: Global,
    slots: Option<Box<Part>>,
    declared: &SlotNames,
    checked: &mut Vec<Option<Box<BodyPart>>>,
    place: &Place<'_>,
    vars: &LoopVariables,
) -> Result<(), CheckStop>
    ensures { Answers (λ _. plain_members checked.new.items) result
        (added_part (plain_members checked.old.items) (slots_part (plain_place place.now vars.now) declared.now (slots_in (member_of slots)))) }
{
    let slots = placed_slots(alloc, slots, declared)?;
    let contents = check_contents(alloc, slots, declared, place, vars)?;
    add_slots(alloc, declared.len(), contents, checked)
}

// The slots that are given, which are those declared, all of them.
fn placed_slots(
    alloc: Global,
    slots: Option<Box<Part>>,
    declared: &SlotNames,
) -> Result<Vec<SlotForm>, CheckStop>
    ensures answer { Answers (λ ss. map content_of ss.items) result (placed_slots declared.now (slots_in (member_of slots))) }
    ensures depth { IfOk result (λ ss. contents_depth ss.items ≤ member_depth_of slots) }
{
    let slots = slots_from(alloc, slots)?;
    check_slot_places(alloc, slots.as_slice(), declared)?;
    Ok(slots)
}

// That slots are those declared, all of them.
fn check_slot_places(
    alloc: Global,
    slots: &[SlotForm],
    declared: &SlotNames,
) -> Result<(), CheckStop>
    ensures { Gives result (slots_placed declared.now (map content_of slots.now)) }
{
    let places = slot_places(alloc, slots, declared)?;
    expect(
        all_there(alloc, declared.len(), places.as_slice())?,
        CheckCode::OtherDeclared,
    )
}

// The contents that are given at places, in order, as a member.
fn add_slots(
    alloc: Global,
    count: usize,
    contents: Vec<(u32, Body)>,
    checked: &mut Vec<Option<Box<BodyPart>>>,
) -> Result<(), CheckStop>
    ensures { Answers (λ _. plain_members checked.new.items) result
        (added_part (plain_members checked.old.items) (arranged_slots count (map plain_content_given contents.items))) }
{
    let bodies = arrange_bodies(alloc, count, contents)?;
    add_part(alloc, checked, BodyPart::Slots(bodies))
}

// The contents that are given at places, in order.
fn arrange_bodies(
    alloc: Global,
    count: usize,
    given: Vec<(u32, Body)>,
) -> Result<Vec<Body>, CheckStop>
    ensures { Answers (λ bs. map plain_body bs.items) result (arranged count (map plain_content_given given.items)) }
{
    arrange(alloc, count, given)
}

// The place of a slot that is given, among those declared.
fn slot_place(slot: &SlotForm, declared: &SlotNames) -> Result<u32, CheckStop>
    ensures { Gives result (slot_place declared.now (content_of slot.now)) }
{
    match declared.find(&slot.name) {
        Some(i) => Ok(i),
        None => Err(CheckStop::Bad(CheckCode::OtherDeclared)),
    }
}

// The places of the slots that are given.
fn slot_places(
    alloc: Global,
    given: &[SlotForm],
    declared: &SlotNames,
) -> Result<Vec<u32>, CheckStop>
    ensures { Answers (λ ps. ps.items) result (in_order (map (slot_place declared.now) (map content_of given.now))) }
{
    let mut places = Vec::with_capacity(alloc, given.len())?;
    for i in 0..given.len() {
        places.push(slot_place(&given[i], declared)?)?;
    }
    Ok(places)
}

// The contents of slots, each with its slot's place.
#[cycle(check)]
fn check_contents(
    alloc: Global,
    given: Vec<SlotForm>,
    declared: &SlotNames,
    place: &Place<'_>,
    vars: &LoopVariables,
) -> Result<Vec<(u32, Body)>, CheckStop>
    ensures { Answers (λ cs. map plain_content_given cs.items) result
        (in_order (map (checked_slot_content (plain_place place.now vars.now) declared.now) (map content_of given.items))) }
{
    let mut contents = Vec::with_capacity(alloc, given.len())?;
    for slot in given {
        contents.push(check_content(alloc, slot, declared, place, vars)?)?;
    }
    Ok(contents)
}

// The content of a slot, with the slot's place.
#[cycle(check)]
fn check_content(
    alloc: Global,
    slot: SlotForm,
    declared: &SlotNames,
    place: &Place<'_>,
    vars: &LoopVariables,
) -> Result<(u32, Body), CheckStop>
    ensures { Answers plain_content_given result (checked_slot_content (plain_place place.now vars.now) declared.now (content_of slot)) }
{
    let i = slot_place(&slot, declared)?;
    let position = Position {
        amount: Amount::One,
        sort: ChildSort::Box,
    };
    let body = check_child(alloc, slot.content, position, place, vars)?;
    Ok((i, body))
}
