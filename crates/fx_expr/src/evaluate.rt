// The value of an expression.
ghost use Rattle.std.specs.Prelude.{◌≡◌, ◌<◌, IfOk, map, length};
ghost use Rattle.fx_expr.specs.declared.values.Ty.{Ty};
ghost use Rattle.fx_expr.specs.declared.values.Ty.TheVariants as ty;
ghost use Rattle.fx_expr.specs.Limit.{cut_list};
ghost use Rattle.fx_expr.specs.Value.{type_of, int_in, text_in};
ghost use Rattle.fx_expr.specs.Exp.{exps_of};
ghost use Rattle.fx_expr.specs.Scope.{types_in, value_at};
ghost use Rattle.fx_expr.specs.ValueOf.{value_of, values_of};
ghost use Rattle.fx_expr.specs.Typed.{IsTyped, AreTyped, HasType};
ghost use Rattle.fx_expr.specs.declared.opened.Three.TheVariants as three;
ghost use Rattle.fx_expr.specs.Forms.{three_of};
ghost use Rattle.fx_expr.specs.View.{exp_of, list_of};
ghost use Rattle.fx_expr.specs.ScopeView.{env_of};

use crate::exprs::{Expr, ExprList};
use crate::lists::{IntList, TextList};
use crate::opened::{Opened, Three, open_expr};
use crate::scopes::Scope;
use crate::text::Txt;
use crate::values::Value;
use crate::{forms, items};
use std::alloc::{AllocError, Global};

/// The value of an expression in a scope in which it has a type; the value has that type. It takes
/// time in proportion to the expression and the values that it makes. A value that is named or
/// written is copied once, and the first operand of `cat` and `push` is not copied.
pub fn eval(alloc: Global, e: &Expr, s: &Scope<'_>) -> Result<Value, AllocError>
    requires { HasType (types_in (env_of s.now)) (exp_of e.now) }
    ensures value { IfOk result (λ v. v ≡ value_of (exp_of e.now) (env_of s.now)) }
    ensures typed { IfOk result (λ v. (t : Ty) → IsTyped (types_in (env_of s.now)) (exp_of e.now) t → type_of v ≡ t) }
{
    evaluated(alloc, e, s)
}

// The value of an expression, form by form.
#[cycle(eval)]
fn evaluated(alloc: Global, e: &Expr, s: &Scope<'_>) -> Result<Value, AllocError>
    requires { HasType (types_in (env_of s.now)) (exp_of e.now) }
    ensures { IfOk result (λ v. v ≡ value_of (exp_of e.now) (env_of s.now)) }
{
    match open_expr(e) {
        Opened::Literal(v) => v.clone(),
        Opened::Field(i) => value_in(s.fields, i),
        Opened::Prop(i) => value_in(s.props, i),
        Opened::Var(i) => value_in(s.vars, i),
        Opened::Inherit(i) => value_in(s.inherited, i),
        Opened::EventDx => Ok(Value::Int(s.event.0)),
        Opened::EventDy => Ok(Value::Int(s.event.1)),
        Opened::Ints(es) => Ok(Value::Ints(eval_ints(alloc, es, s)?)),
        Opened::Texts(es) => Ok(Value::Texts(eval_texts(alloc, es, s)?)),
        Opened::One(form, a) => {
            let operand = evaluated(alloc, a, s)?;
            forms::over_one(alloc, form, operand)
        }
        Opened::Two(form, a, b) => {
            let left = evaluated(alloc, a, s)?;
            if forms::settles(form, &left) {
                return Ok(left);
            }
            let right = evaluated(alloc, b, s)?;
            forms::over_two(form, left, right)
        }
        Opened::Three(form, a, b, c) => match form {
            Three::If => eval_choice(alloc, a, b, c, s),
            Three::At => eval_item(alloc, a, b, c, s),
        },
    }
}

// The value at a place, copied.
pub(crate) fn value_in(values: &[Value], i: u32) -> Result<Value, AllocError>
    requires { i < length values.now }
    ensures { IfOk result (λ v. v ≡ value_at values.now i) }
{
    values[i as usize].clone()
}

// The value of a number.
#[cycle(eval)]
fn eval_int(alloc: Global, e: &Expr, s: &Scope<'_>) -> Result<i64, AllocError>
    requires { IsTyped (types_in (env_of s.now)) (exp_of e.now) ty.Int }
    ensures { IfOk result (λ n. n ≡ int_in (value_of (exp_of e.now) (env_of s.now))) }
{
    Ok(evaluated(alloc, e, s)?.into_int())
}

// The value of a text.
#[cycle(eval)]
fn eval_text(alloc: Global, e: &Expr, s: &Scope<'_>) -> Result<Txt, AllocError>
    requires { IsTyped (types_in (env_of s.now)) (exp_of e.now) ty.Text }
    ensures { IfOk result (λ t. t ≡ text_in (value_of (exp_of e.now) (env_of s.now))) }
{
    Ok(evaluated(alloc, e, s)?.into_text())
}

// The second where the first is true, else the third.
#[cycle(eval)]
fn eval_choice(
    alloc: Global,
    c: &Expr,
    a: &Expr,
    b: &Expr,
    s: &Scope<'_>,
) -> Result<Value, AllocError>
    requires { HasType (types_in (env_of s.now)) (three_of three.If (exp_of c.now) (exp_of a.now) (exp_of b.now)) }
    ensures { IfOk result (λ v. v ≡ value_of (three_of three.If (exp_of c.now) (exp_of a.now) (exp_of b.now)) (env_of s.now)) }
{
    let choice = evaluated(alloc, c, s)?;
    if choice.into_bool() {
        evaluated(alloc, a, s)
    } else {
        evaluated(alloc, b, s)
    }
}

// An item of a list, or what stands for one where there is none.
#[cycle(eval)]
fn eval_item(
    alloc: Global,
    l: &Expr,
    i: &Expr,
    d: &Expr,
    s: &Scope<'_>,
) -> Result<Value, AllocError>
    requires { HasType (types_in (env_of s.now)) (three_of three.At (exp_of l.now) (exp_of i.now) (exp_of d.now)) }
    ensures { IfOk result (λ v. v ≡ value_of (three_of three.At (exp_of l.now) (exp_of i.now) (exp_of d.now)) (env_of s.now)) }
{
    let list = evaluated(alloc, l, s)?;
    let index = evaluated(alloc, i, s)?;
    match forms::item(list, index.into_int()) {
        Some(item) => Ok(item),
        None => evaluated(alloc, d, s),
    }
}

// The numbers of a list, cut at the limit.
#[cycle(eval)]
fn eval_ints(alloc: Global, es: &ExprList, s: &Scope<'_>) -> Result<IntList, AllocError>
    requires { AreTyped (types_in (env_of s.now)) (exps_of (list_of es.now)) ty.Int }
    ensures { IfOk result (λ l. l ≡ cut_list (map int_in (values_of (exps_of (list_of es.now)) (env_of s.now)))) }
{
    let mut numbers = Vec::new(alloc);
    for e in es.items.iter() {
        numbers.push(eval_int(alloc, e, s)?)?;
    }
    Ok(IntList::of(items::cut(numbers)))
}

// The texts of a list, cut at the limit.
#[cycle(eval)]
fn eval_texts(alloc: Global, es: &ExprList, s: &Scope<'_>) -> Result<TextList, AllocError>
    requires { AreTyped (types_in (env_of s.now)) (exps_of (list_of es.now)) ty.Text }
    ensures { IfOk result (λ l. l ≡ cut_list (map text_in (values_of (exps_of (list_of es.now)) (env_of s.now)))) }
{
    let mut texts = Vec::new(alloc);
    for e in es.items.iter() {
        texts.push(eval_text(alloc, e, s)?)?;
    }
    Ok(TextList::of(items::cut(texts)))
}
