// Members of a template that hold no template: keys, expressions, words, handlers, and what a component is given.
ghost use Rattle.std.specs.Prelude.{◌≡◌, Ok, Some, None, ◌∷◌, [], ◌++◌, map, length, not};
ghost use Rattle.fx_expr.specs.View.{exp_of};
ghost use Rattle.program_form.specs.FormView.{plain_form};
ghost use Rattle.program_form.specs.KeyView.{plain_key};
ghost use Rattle.program_form.specs.TemplateView.{plain_key_member, plain_prop};
ghost use Rattle.expr_check.specs.declared.fault.CheckCode.TheVariants.{WrongType};
ghost use Rattle.expr_check.specs.Check.{Answers, Gives, and_then, given, in_order};
ghost use Rattle.expr_check.specs.Names.{place_of};
ghost use Rattle.expr_check.specs.Exprs.{or_missing, typed_form};
ghost use Rattle.expr_check.specs.ExprsView.{plain_typed};
ghost use Rattle.program_check.specs.Body.{child, expression, name};
ghost use Rattle.program_check.specs.Place.{or_wrong, used_component, expected};
ghost use Rattle.program_check.specs.Judged.{want_of, is_local_key, is_global_key, local_key, global_key, checked_key, optional_key, is_of, expression_part, word_part, handler_part, leaf_part, name_of, checked_slot, props_in, arranged, prop_place, props_placed, checked_prop, checked_props, loop_list};
ghost use Rattle.program_check.specs.JudgedView.{part_of, member_of, three_parts};
ghost use Rattle.program_check.specs.Steps.{added, added_part, beside, value_of, props_part};
ghost use Rattle.program_check.specs.BodyView.{plain_body_key, plain_body_key_member, plain_body_part, plain_body, plain_members, plain_prop_given};
ghost use Rattle.program_check.specs.CheckedView.{signature, plain_place};
ghost use Rattle.expr_check.specs.ScopeView.{plain_names};

use crate::checked::{Body, BodyPart, CheckedComponent, KeyExpr};
use crate::given::{all_there, arrange};
use crate::members::{FirstThree, form_in, name_in, props_from};
use crate::places::{Place, expect};
use expr_check::{
    CheckCode, CheckStop, Declared, LoopVariables, Names, TypedExpr, Want, check_as, check_form,
    check_handler, found, item_of,
};
use fx_expr::{Expr, Ty};
use program_form::{Form, KeyForm, MemberForm, MemberMeaning, Part, PropForm, Word, WordList};
use std::alloc::Global;

// Whether a local key may have the type.
fn is_local_key(ty: Ty) -> bool
    ensures { result ≡ is_local_key ty }
{
    matches!(ty, Ty::Int | Ty::Text)
}

// Whether a global key may have the type.
fn is_global_key(ty: Ty) -> bool
    ensures { result ≡ is_global_key ty }
{
    matches!(ty, Ty::Text)
}

// A local key: its expression, and then its type.
fn check_local_key(alloc: Global, form: &Form, names: &Names<'_>) -> Result<KeyExpr, CheckStop>
    ensures { Answers plain_body_key result (and_then (typed_form (plain_names names.now) (plain_form form.now)) local_key) }
{
    let typed = check_form(alloc, form, names)?;
    expect(is_local_key(typed.ty), CheckCode::WrongType)?;
    Ok(KeyExpr::Local(typed.expr))
}

// A global key: its expression, and then its type.
fn check_global_key(alloc: Global, form: &Form, names: &Names<'_>) -> Result<KeyExpr, CheckStop>
    ensures { Answers plain_body_key result (and_then (typed_form (plain_names names.now) (plain_form form.now)) global_key) }
{
    let typed = check_form(alloc, form, names)?;
    expect(is_global_key(typed.ty), CheckCode::WrongType)?;
    Ok(KeyExpr::Global(typed.expr))
}

// A key.
fn check_key(alloc: Global, key: &KeyForm, names: &Names<'_>) -> Result<KeyExpr, CheckStop>
    ensures { Answers plain_body_key result (checked_key (plain_names names.now) (plain_key key.now)) }
{
    match key {
        KeyForm::Local(form) => check_local_key(alloc, form, names),
        KeyForm::Global(form) => check_global_key(alloc, form, names),
    }
}

// The key of a template, where it has one.
fn check_optional_key(
    alloc: Global,
    key: &Option<Box<KeyForm>>,
    names: &Names<'_>,
) -> Result<Option<Box<KeyExpr>>, CheckStop>
    ensures { Answers plain_body_key_member result (optional_key (plain_names names.now) (plain_key_member key.now)) }
{
    match key {
        Some(key) => {
            let key = check_key(alloc, key, names)?;
            Ok(Some(Box::new(alloc, key)?))
        }
        None => Ok(None),
    }
}

// The key of a template, where it has one, into its place. What is written goes right after.
pub(crate) fn add_key(
    alloc: Global,
    key: Option<Box<KeyForm>>,
    checked: &mut Option<Box<KeyExpr>>,
    names: &Names<'_>,
) -> Result<(), CheckStop>
    ensures { Answers (λ _. plain_body_key_member checked.new) result (optional_key (plain_names names.now) (plain_key_member key)) }
{
    *checked = check_optional_key(alloc, &key, names)?;
    Ok(())
}

// What is asked of the type of a member's expression.
fn want_of(meaning: MemberMeaning) -> Want
    ensures { result ≡ want_of meaning }
{
    match meaning {
        MemberMeaning::Length
        | MemberMeaning::Offset
        | MemberMeaning::Alignment
        | MemberMeaning::Color
        | MemberMeaning::Flex
        | MemberMeaning::Alpha
        | MemberMeaning::Extent => Want::Exactly(Ty::Int),
        MemberMeaning::Widths => Want::Exactly(Ty::Ints),
        MemberMeaning::Flag => Want::Exactly(Ty::Bool),
        MemberMeaning::Text => Want::Exactly(Ty::Text),
        MemberMeaning::List => Want::List,
        MemberMeaning::Any => Want::Any,
    }
}

// Whether the word is one of the list.
fn is_of(list: WordList, word: Word) -> bool
    ensures { result ≡ is_of list word }
{
    match (list, word) {
        (WordList::Main, Word::Main(_))
        | (WordList::Cross, Word::Cross(_))
        | (WordList::Size, Word::Size(_))
        | (WordList::StackFit, Word::StackFit(_))
        | (WordList::FlexFit, Word::FlexFit(_))
        | (WordList::Behavior, Word::Behavior(_))
        | (WordList::Axis, Word::Axis(_)) => true,
        _ => false,
    }
}

// A member that is an expression.
#[tactic(auto, unfolding(crate::specs::Judged::judged))]
fn check_expression(
    alloc: Global,
    meaning: MemberMeaning,
    part: &Part,
    names: &Names<'_>,
) -> Result<BodyPart, CheckStop>
    ensures { Answers plain_body_part result (expression_part (plain_names names.now) meaning (part_of part.now)) }
{
    match part {
        Part::Expression(form) => {
            let typed = check_as(alloc, form, want_of(meaning), names)?;
            Ok(BodyPart::Expression(typed.expr))
        }
        _ => Err(CheckStop::Bad(CheckCode::WrongType)),
    }
}

// A member that is a word of a list.
#[tactic(auto, unfolding(crate::specs::Judged::judged))]
fn check_word(list: WordList, part: &Part) -> Result<BodyPart, CheckStop>
    ensures { Answers plain_body_part result (word_part list (part_of part.now)) }
{
    match part {
        Part::Word(word) => {
            expect(is_of(list, *word), CheckCode::WrongType)?;
            Ok(BodyPart::Word(*word))
        }
        _ => Err(CheckStop::Bad(CheckCode::WrongType)),
    }
}

// A member that is a handler.
#[tactic(auto, unfolding(crate::specs::Judged::judged))]
fn check_handler_part(alloc: Global, part: &Part, names: &Names<'_>) -> Result<BodyPart, CheckStop>
    ensures { Answers plain_body_part result (handler_part (plain_names names.now) (part_of part.now)) }
{
    match part {
        Part::Handler(handler) => {
            let sets = check_handler(alloc, handler, names)?;
            Ok(BodyPart::Handler(sets))
        }
        _ => Err(CheckStop::Bad(CheckCode::WrongType)),
    }
}

// A member that holds no template.
fn check_leaf(
    alloc: Global,
    form: MemberForm,
    part: &Part,
    names: &Names<'_>,
) -> Result<BodyPart, CheckStop>
    ensures { Answers plain_body_part result (leaf_part (plain_names names.now) form (part_of part.now)) }
{
    match form {
        MemberForm::Expression(meaning) => check_expression(alloc, meaning, part, names),
        MemberForm::Word(list) => check_word(list, part),
        MemberForm::Handler => check_handler_part(alloc, part, names),
        MemberForm::Child(_)
        | MemberForm::Children(_)
        | MemberForm::Name
        | MemberForm::Props
        | MemberForm::Slots => Err(CheckStop::Bad(CheckCode::WrongType)),
    }
}

// Adds a member that is given.
pub(crate) fn add_part(
    alloc: Global,
    checked: &mut Vec<Option<Box<BodyPart>>>,
    part: BodyPart,
) -> Result<(), CheckStop>
    ensures { Answers (λ _. plain_members checked.new.items) result (Ok (plain_members checked.old.items ++ Some (plain_body_part part) ∷ [])) }
{
    let part = Box::new(alloc, part)?;
    checked.push(Some(part))?;
    Ok(())
}

// Adds a child.
pub(crate) fn add_child(
    alloc: Global,
    checked: &mut Vec<Option<Box<BodyPart>>>,
    body: Body,
) -> Result<(), CheckStop>
    ensures { Answers (λ _. plain_members checked.new.items) result (Ok (plain_members checked.old.items ++ Some (child (plain_body body)) ∷ [])) }
{
    let body = Box::new(alloc, body)?;
    add_part(alloc, checked, BodyPart::Child(body))
}

// A member that is left out, which it may be where it isn't required.
pub(crate) fn leave_out(
    required: bool,
    checked: &mut Vec<Option<Box<BodyPart>>>,
) -> Result<(), CheckStop>
    ensures { Answers (λ _. plain_members checked.new.items) result
        (given (λ _. plain_members checked.old.items ++ None ∷ []) (expected (not required) WrongType)) }
{
    expect(!required, CheckCode::WrongType)?;
    checked.push(None)?;
    Ok(())
}

// A member that holds no template, as `check_leaf` checks it. What is written goes right after.
pub(crate) fn add_leaf(
    alloc: Global,
    form: MemberForm,
    part: Part,
    checked: &mut Vec<Option<Box<BodyPart>>>,
    names: &Names<'_>,
) -> Result<(), CheckStop>
    ensures { Answers (λ _. plain_members checked.new.items) result
        (added_part (plain_members checked.old.items) (leaf_part (plain_names names.now) form (part_of part))) }
{
    let part = check_leaf(alloc, form, &part, names)?;
    add_part(alloc, checked, part)
}

// The expression that a member has to be, and what its type has to be.
fn check_value(
    alloc: Global,
    member: &Option<Box<Part>>,
    want: Want,
    names: &Names<'_>,
) -> Result<TypedExpr, CheckStop>
    ensures { Answers plain_typed result (value_of (plain_names names.now) want (member_of member.now)) }
{
    let form = form_in(member)?;
    check_as(alloc, form, want, names)
}

// Adds the expression that a member has to be, and gives its type. What is written goes right after.
pub(crate) fn add_expression(
    alloc: Global,
    member: Option<Box<Part>>,
    want: Want,
    checked: &mut Vec<Option<Box<BodyPart>>>,
    names: &Names<'_>,
) -> Result<Ty, CheckStop>
    ensures { Answers (λ ty. beside (plain_members checked.new.items) ty) result
        (given (λ e. beside (plain_members checked.old.items ++ Some (expression e.exp) ∷ []) e.ty) (value_of (plain_names names.now) want (member_of member))) }
{
    let typed = check_value(alloc, &member, want, names)?;
    let ty = typed.ty;
    add_part(alloc, checked, BodyPart::Expression(typed.expr))?;
    Ok(ty)
}

// Adds the place of an inherited name, and gives its type.
pub(crate) fn add_provided(
    alloc: Global,
    written: &Option<Box<Part>>,
    checked: &mut Vec<Option<Box<BodyPart>>>,
    provided: &Declared,
) -> Result<Ty, CheckStop>
    ensures { Answers (λ ty. beside (plain_members checked.new.items) ty) result
        (given (λ p. beside (plain_members checked.old.items ++ Some (name p.0) ∷ []) p.1) (and_then (or_wrong WrongType (name_of (member_of written.now))) (λ n. or_missing (place_of provided.now n)))) }
{
    let name = name_in(written)?;
    let (i, ty) = found(provided.find(name))?;
    add_part(alloc, checked, BodyPart::Name(i))?;
    Ok(ty)
}

// Adds the place of the variable of `each`, and its list, and gives the variables inside.
pub(crate) fn add_list(
    alloc: Global,
    written: &mut FirstThree,
    checked: &mut Vec<Option<Box<BodyPart>>>,
    place: &Place<'_>,
    vars: &LoopVariables,
) -> Result<LoopVariables, CheckStop>
    ensures answer { Answers (λ inner. beside (plain_members checked.new.items) inner) result
        (given (λ l. beside (plain_members checked.old.items ++ Some (name (length vars.now)) ∷ Some (expression l.1) ∷ []) l.0) (loop_list (plain_place place.now vars.now) (three_parts written.old))) }
    ensures third { written.new.third ≡ written.old.third }
{
    let name = name_in(&written.first)?;
    add_part(alloc, checked, BodyPart::Name(vars.len()))?;
    let names = (&*place).names(&*vars);
    let ty = add_expression(alloc, written.second.take(), Want::List, checked, &names)?;
    Ok(vars.with(alloc, name, item_of(ty))?)
}

// Adds the place of a slot.
pub(crate) fn add_slot(
    alloc: Global,
    written: &FirstThree,
    checked: &mut Vec<Option<Box<BodyPart>>>,
    place: &Place<'_>,
) -> Result<(), CheckStop>
    ensures { Answers (λ _. plain_members checked.new.items) result
        (added (plain_members checked.old.items) (checked_slot (plain_place place.now []) (three_parts written.now))) }
{
    let name = name_in(&written.first)?;
    match place.slots.find(name) {
        Some(i) => add_part(alloc, checked, BodyPart::Name(i)),
        None => Err(CheckStop::Bad(CheckCode::MissingName)),
    }
}

// Adds the place of the component that a member names, and gives the component.
pub(crate) fn add_component<'a>(
    alloc: Global,
    written: &Option<Box<Part>>,
    checked: &mut Vec<Option<Box<BodyPart>>>,
    place: &Place<'a>,
) -> Result<&'a CheckedComponent, CheckStop>
    ensures { Answers (λ c. beside (plain_members checked.new.items) (signature c.now)) result
        (given (λ c. beside (plain_members checked.old.items ++ Some (name c.0) ∷ []) c.1) (and_then (or_wrong WrongType (name_of (member_of written.now))) (λ n. used_component (plain_place place.now []) n))) }
{
    let name = name_in(written)?;
    let (i, component) = place.used_component(name)?;
    add_part(alloc, checked, BodyPart::Name(i))?;
    Ok(component)
}

// Adds the props that a component is given.
pub(crate) fn add_props(
    alloc: Global,
    written: Option<Box<Part>>,
    declared: &Declared,
    checked: &mut Vec<Option<Box<BodyPart>>>,
    names: &Names<'_>,
) -> Result<(), CheckStop>
    ensures { Answers (λ _. plain_members checked.new.items) result
        (added_part (plain_members checked.old.items) (props_part (plain_names names.now) declared.now (props_in (member_of written)))) }
{
    let written = props_from(alloc, written)?;
    let props = check_props(alloc, written, declared, names)?;
    add_part(alloc, checked, BodyPart::Props(props))
}

// The props that are given at places, in order.
fn arrange_props(
    alloc: Global,
    count: usize,
    given: Vec<(u32, Expr)>,
) -> Result<Vec<Expr>, CheckStop>
    ensures { Answers (λ es. map exp_of es.items) result (arranged count (map plain_prop_given given.items)) }
{
    arrange(alloc, count, given)
}

// The place of a prop that is given, among those declared.
fn prop_place(prop: &PropForm, declared: &Declared) -> Result<u32, CheckStop>
    ensures { Gives result (prop_place declared.now (plain_prop prop.now)) }
{
    match declared.find(&prop.name) {
        Some((place, _)) => Ok(place),
        None => Err(CheckStop::Bad(CheckCode::OtherDeclared)),
    }
}

// The places of the props that are given.
fn prop_places(
    alloc: Global,
    given: &[PropForm],
    declared: &Declared,
) -> Result<Vec<u32>, CheckStop>
    ensures { Answers (λ ps. ps.items) result (in_order (map (prop_place declared.now) (map plain_prop given.now))) }
{
    let mut places = Vec::with_capacity(alloc, given.len())?;
    for i in 0..given.len() {
        places.push(prop_place(&given[i], declared)?)?;
    }
    Ok(places)
}

// That props are those declared, all of them.
fn check_prop_places(
    alloc: Global,
    props: &[PropForm],
    declared: &Declared,
) -> Result<(), CheckStop>
    ensures { Gives result (props_placed declared.now (map plain_prop props.now)) }
{
    let places = prop_places(alloc, props, declared)?;
    expect(
        all_there(alloc, declared.len(), places.as_slice())?,
        CheckCode::OtherDeclared,
    )
}

// A prop that is given, with its place: its expression, and then its type.
fn check_lent_prop(
    alloc: Global,
    prop: &PropForm,
    declared: &Declared,
    names: &Names<'_>,
) -> Result<(u32, Expr), CheckStop>
    ensures { Answers plain_prop_given result (checked_prop (plain_names names.now) declared.now (plain_prop prop.now)) }
{
    match declared.find(&prop.name) {
        Some((i, ty)) => {
            let typed = check_as(alloc, &prop.value, Want::Exactly(ty), names)?;
            Ok((i, typed.expr))
        }
        None => Err(CheckStop::Bad(CheckCode::OtherDeclared)),
    }
}

// A prop that is taken out of its template, as `check_lent_prop` checks it; it goes right after.
fn check_prop(
    alloc: Global,
    prop: PropForm,
    declared: &Declared,
    names: &Names<'_>,
) -> Result<(u32, Expr), CheckStop>
    ensures { Answers plain_prop_given result (checked_prop (plain_names names.now) declared.now (plain_prop prop)) }
{
    check_lent_prop(alloc, &prop, declared, names)
}

// The props that are given, each with its place.
fn check_each_prop(
    alloc: Global,
    given: Vec<PropForm>,
    declared: &Declared,
    names: &Names<'_>,
) -> Result<Vec<(u32, Expr)>, CheckStop>
    ensures { Answers (λ ps. map plain_prop_given ps.items) result
        (in_order (map (checked_prop (plain_names names.now) declared.now) (map plain_prop given.items))) }
{
    let mut props = Vec::with_capacity(alloc, given.len())?;
    for prop in given {
        props.push(check_prop(alloc, prop, declared, names)?)?;
    }
    Ok(props)
}

// The props that are given, each checked, in the order of those declared.
fn check_in_order(
    alloc: Global,
    given: Vec<PropForm>,
    declared: &Declared,
    names: &Names<'_>,
) -> Result<Vec<Expr>, CheckStop>
    ensures { Answers (λ es. map exp_of es.items) result
        (and_then (in_order (map (checked_prop (plain_names names.now) declared.now) (map plain_prop given.items))) (arranged (length declared.now))) }
{
    let props = check_each_prop(alloc, given, declared, names)?;
    arrange_props(alloc, declared.len(), props)
}

// The props that a component is given: those declared, all of them, each of its type.
pub(crate) fn check_props(
    alloc: Global,
    given: Vec<PropForm>,
    declared: &Declared,
    names: &Names<'_>,
) -> Result<Vec<Expr>, CheckStop>
    ensures { Answers (λ es. map exp_of es.items) result (checked_props (plain_names names.now) declared.now (map plain_prop given.items)) }
{
    check_prop_places(alloc, given.as_slice(), declared)?;
    check_in_order(alloc, given, declared, names)
}
