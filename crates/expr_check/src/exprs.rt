// Expressions with their names found and their types tested.
ghost use Rattle.std.specs.Prelude.{◌≡◌, map, length, vec_len, true, IfOk, OnOk};
ghost use Rattle.fx_expr.specs.View.{exp_of};
ghost use Rattle.program_form.specs.Operators.{takes};
ghost use Rattle.program_form.specs.Form.{operands_in};
ghost use Rattle.program_form.specs.FormView.{plain_form};
ghost use Rattle.expr_check.specs.Check.{Answers, Gives};
ghost use Rattle.expr_check.specs.Sight.{sight_of, IsTypedIn};
ghost use Rattle.expr_check.specs.ScopeView.{plain_names};
ghost use Rattle.expr_check.specs.Wants.{none_seen};
ghost use Rattle.fx_expr.specs.Exp.{literal};
ghost use Rattle.fx_expr.specs.Value.{type_of};
ghost use Rattle.expr_check.specs.Exprs.{typed, or_missing, moved, fits, counted, form_count, typed_form, typed_forms, typed_operation, typed_operands};
ghost use Rattle.expr_check.specs.ExprsView.{plain_typed, plain_operands};

use crate::builds::built;
use crate::fault::{CheckCode, CheckStop};
use crate::names::Names;
use crate::wants::{Seen, Want, given_type, wanted};
use fx_expr::{Expr, Ty, Value};
use program_form::{Form, Operator};
use std::alloc::Global;

/// An expression and its type.
#[derive(Drop)]
pub struct TypedExpr {
    pub expr: Expr,
    pub ty: Ty,
}

// Operands, and the types of the first two.
#[derive(Drop)]
struct Operands {
    exprs: Vec<Expr>,
    seen: Seen,
}

/// Finds the names of an expression and tests its types, operands in order: each its names and operands,
/// and then its type. A name that isn't there has the code `MissingName`, also `event` where it isn't
/// seen; a type that an operator doesn't take has `WrongType`, also an operator over another number of
/// operands than it takes. The answer is the first of them, or the expression with its type.
pub fn check_form(alloc: Global, form: &Form, names: &Names<'_>) -> Result<TypedExpr, CheckStop>
    ensures answers { Answers plain_typed result (typed_form (plain_names names.now) (plain_form form.now)) }
    ensures typed { IfOk result (λ e. IsTypedIn (sight_of (plain_names names.now)) (exp_of e.expr) e.ty) }
{
    typed_form(alloc, form, names)
}

// A value as it is written.
fn literal(value: Value) -> TypedExpr
    ensures { plain_typed result ≡ typed (literal value) (type_of value) }
{
    let ty = value.ty();
    let expr = Expr::Literal(value);
    TypedExpr { expr, ty }
}

/// What was found under a name; `MissingName` where nothing was.
pub fn found(found: Option<(u32, Ty)>) -> Result<(u32, Ty), CheckStop>
    ensures { Gives result (or_missing found) }
{
    match found {
        Some(place) => Ok(place),
        None => Err(CheckStop::Bad(CheckCode::MissingName)),
    }
}

// The movement of an event, where it is seen.
fn moved(expr: Expr, seen: bool) -> Result<TypedExpr, CheckStop>
    ensures { Answers plain_typed result (moved (exp_of expr) seen) }
{
    if !seen {
        return Err(CheckStop::Bad(CheckCode::MissingName));
    }
    Ok(TypedExpr { expr, ty: Ty::Int })
}

// That a type is one of those asked for.
pub(crate) fn expect_type(want: Want, ty: Ty) -> Result<(), CheckStop>
    ensures { Gives result (fits want ty) }
{
    if !want.meets(ty) {
        return Err(CheckStop::Bad(CheckCode::WrongType));
    }
    Ok(())
}

// That there are as many operands as the operator takes.
fn expect_count(operator: Operator, operands: &[Form]) -> Result<(), CheckStop>
    ensures answer { Gives result (counted operator (form_count (operands_in (map plain_form operands.now)))) }
    ensures takes { OnOk result (takes operator (length operands.now) ≡ true) }
{
    if !operator.takes(operands.len()) {
        return Err(CheckStop::Bad(CheckCode::WrongType));
    }
    Ok(())
}

// An expression, form by form.
#[cycle(check)]
#[tactic(auto, unfolding(crate::specs::Exprs::typed_form))]
fn typed_form(alloc: Global, form: &Form, names: &Names<'_>) -> Result<TypedExpr, CheckStop>
    ensures { Answers plain_typed result (typed_form (plain_names names.now) (plain_form form.now)) }
{
    match form {
        Form::Int(number) => Ok(literal(Value::Int(*number))),
        Form::Bool(truth) => Ok(literal(Value::Bool(*truth))),
        Form::Text(text) => Ok(literal(Value::Text(text.clone()?))),
        Form::Field(name) => {
            let (place, ty) = found(names.fields.find(name))?;
            let expr = Expr::Field(place);
            Ok(TypedExpr { expr, ty })
        }
        Form::Prop(name) => {
            let (place, ty) = found(names.props.find(name))?;
            let expr = Expr::Prop(place);
            Ok(TypedExpr { expr, ty })
        }
        Form::Var(name) => {
            let (place, ty) = found(names.vars.find(name))?;
            let expr = Expr::Var(place);
            Ok(TypedExpr { expr, ty })
        }
        Form::Inherit(name) => {
            let (place, ty) = found(names.inherited.find(name))?;
            let expr = Expr::Inherit(place);
            Ok(TypedExpr { expr, ty })
        }
        Form::EventDx => moved(Expr::EventDx, names.event),
        Form::EventDy => moved(Expr::EventDy, names.event),
        Form::Operation(operator, operands) => {
            typed_operation(alloc, *operator, operands.get(), names)
        }
    }
}

// An operator with its operands.
#[cycle(check)]
fn typed_operation(
    alloc: Global,
    operator: Operator,
    operands: &[Form],
    names: &Names<'_>,
) -> Result<TypedExpr, CheckStop>
    ensures { Answers plain_typed result
        (typed_operation operator (operands_in (map plain_form operands.now)) (typed_forms (plain_names names.now) (operands_in (map plain_form operands.now)))) }
{
    expect_count(operator, operands)?;
    let operands = typed_operands(alloc, operator, operands, names)?;
    let ty = given_type(operator, operands.seen);
    let expr = built(alloc, operator, operands.exprs)?;
    Ok(TypedExpr { expr, ty })
}

// The operands of an operator, in order.
#[cycle(check)]
fn typed_operands(
    alloc: Global,
    operator: Operator,
    operands: &[Form],
    names: &Names<'_>,
) -> Result<Operands, CheckStop>
    ensures answer { Answers plain_operands result
        (typed_operands operator none_seen (typed_forms (plain_names names.now) (operands_in (map plain_form operands.now)))) }
    ensures count { IfOk result (λ o. vec_len o.exprs ≡ length operands.now) }
{
    let mut exprs = Vec::new(alloc);
    let mut seen = Seen {
        first: None,
        second: None,
    };
    for i in 0..operands.len() {
        let operand = typed_form(alloc, &operands[i], names)?;
        expect_type(wanted(operator, seen), operand.ty)?;
        seen = seen.with(operand.ty);
        exprs.push(operand.expr)?;
    }
    Ok(Operands { exprs, seen })
}
