// Expressions of a type that is asked for, and handlers with their fields found and their types tested.
ghost use Rattle.std.specs.Prelude.{◌≡◌, map, IfOk, Ok, Err};
ghost use Rattle.fx_expr.specs.View.{exp_of, set_of};
ghost use Rattle.program_form.specs.FormView.{plain_form};
ghost use Rattle.program_form.specs.HandlerView.{plain_set, plain_handler};
ghost use Rattle.expr_check.specs.Check.{Answers, Gives, in_order};
ghost use Rattle.expr_check.specs.Names.{types_of};
ghost use Rattle.expr_check.specs.Sight.{sight_of, IsTypedIn};
ghost use Rattle.expr_check.specs.ScopeView.{plain_names};
ghost use Rattle.expr_check.specs.ExprsView.{plain_typed};
ghost use Rattle.expr_check.specs.Handlers.{typed_as, with_event, checked_set, checked_handler, AreTypedSets};

use crate::exprs::{TypedExpr, check_form, expect_type, found};
use crate::fault::CheckStop;
use crate::names::Names;
use crate::wants::Want;
use fx_expr::{Expr, SetList};
use program_form::{Form, HandlerForm, SetForm};
use std::alloc::Global;

/// An expression of a type that is asked for: the expression first, and then its type, which has the code `WrongType`
/// where it is another.
pub fn check_as(
    alloc: Global,
    form: &Form,
    want: Want,
    names: &Names<'_>,
) -> Result<TypedExpr, CheckStop>
    ensures answer { Answers plain_typed result (typed_as (plain_names names.now) want (plain_form form.now)) }
    ensures typed { IfOk result (λ e. IsTypedIn (sight_of (plain_names names.now)) (exp_of e.expr) e.ty) }
{
    let typed = check_form(alloc, form, names)?;
    expect_type(want, typed.ty)?;
    Ok(typed)
}

// The same names, and the event.
fn with_event<'a>(names: &Names<'a>) -> Names<'a>
    ensures { plain_names result ≡ with_event (plain_names names.now) }
{
    Names {
        fields: names.fields,
        props: names.props,
        vars: names.vars,
        inherited: names.inherited,
        event: true,
    }
}

// A set of a handler: its field, its expression, and then its type.
#[tactic(auto, unfolding(crate::specs::Handlers::checked_set))]
fn check_set(alloc: Global, set: &SetForm, names: &Names<'_>) -> Result<(u32, Expr), CheckStop>
    ensures { Answers set_of result (checked_set (plain_names names.now) (plain_set set.now)) }
{
    let (place, ty) = found(names.fields.find(&set.name))?;
    let seen = with_event(names);
    let typed = check_as(alloc, &set.value, Want::Exactly(ty), &seen)?;
    Ok((place, typed.expr))
}

/// Finds the fields that a handler sets, and tests its expressions, which see the event, and their types:
/// set by set, each its field, its expression, and then its type, which is the field's. The answer is the
/// first fault (`MissingName` or `WrongType`), or the sets.
pub fn check_handler(
    alloc: Global,
    handler: &HandlerForm,
    names: &Names<'_>,
) -> Result<SetList, CheckStop>
    ensures answer { Gives result (checked_handler (plain_names names.now) (plain_handler handler.now)) }
    ensures typed { IfOk result (λ sets. AreTypedSets (types_of (plain_names names.now)) sets) }
{
    let sets = check_sets(alloc, handler.sets.as_slice(), names)?;
    Ok(SetList::of(sets))
}

// Sets in order.
fn check_sets(
    alloc: Global,
    sets: &[SetForm],
    names: &Names<'_>,
) -> Result<Vec<(u32, Expr)>, CheckStop>
    ensures { Answers (λ v. map set_of v.items) result (checked_handler (plain_names names.now) (map plain_set sets.now)) }
{
    let mut checked = Vec::new(alloc);
    for i in 0..sets.len() {
        let set = check_set(alloc, &sets[i], names)?;
        checked.push(set)?;
    }
    Ok(checked)
}
