// An expression with what it names outside the fields put in as values.
ghost use Rattle.std.specs.Prelude.{◌≡◌, IfOk, map};
ghost use Rattle.fx_expr.specs.declared.values.Ty.{Ty};
ghost use Rattle.fx_expr.specs.Value.{type_of};
ghost use Rattle.fx_expr.specs.Exp.{exps_of};
ghost use Rattle.fx_expr.specs.Scope.{Env, types_in, with_names, field_types_alone};
ghost use Rattle.fx_expr.specs.ValueOf.{value_of};
ghost use Rattle.fx_expr.specs.Typed.{IsTyped, AreTyped, HasType};
ghost use Rattle.fx_expr.specs.Closed.{closed, all_closed, IsClosed};
ghost use Rattle.fx_expr.specs.View.{exp_of, list_of};
ghost use Rattle.fx_expr.specs.ScopeView.{env_of};

use crate::evaluate::value_in;
use crate::exprs::{Expr, ExprList};
use crate::opened::{Opened, open_expr};
use crate::scopes::Scope;
use std::alloc::{AllocError, Global};

/// The expression with its props, loop variables and inherited values replaced by their values in a
/// scope in which it has a type, as a handler keeps it: its value in a later scope uses that scope's
/// fields and event alone.
pub fn close(alloc: Global, e: &Expr, s: &Scope<'_>) -> Result<Expr, AllocError>
    requires { HasType (types_in (env_of s.now)) (exp_of e.now) }
    ensures expression { IfOk result (λ c. exp_of c ≡ closed (exp_of e.now) (env_of s.now)) }
    ensures names { IfOk result (λ c. IsClosed (exp_of c)) }

    // The value in any later scope is that of the expression with the names of this one.
    ensures value { IfOk result (λ c. (later : Env) → value_of (exp_of c) later ≡ value_of (exp_of e.now) (with_names (env_of s.now) later)) }
    ensures typed { IfOk result (λ c. (t : Ty) → IsTyped (types_in (env_of s.now)) (exp_of e.now) t → IsTyped (field_types_alone (map type_of s.now.fields.now)) (exp_of c) t) }
{
    substituted(alloc, e, s)
}

// The expression with those names replaced.
#[cycle(close)]
fn substituted(alloc: Global, e: &Expr, s: &Scope<'_>) -> Result<Expr, AllocError>
    requires { HasType (types_in (env_of s.now)) (exp_of e.now) }
    ensures { IfOk result (λ c. exp_of c ≡ closed (exp_of e.now) (env_of s.now)) }
{
    match open_expr(e) {
        Opened::Literal(v) => Ok(Expr::Literal(v.clone()?)),
        Opened::Field(i) => Ok(Expr::Field(i)),
        Opened::Prop(i) => Ok(Expr::Literal(value_in(s.props, i)?)),
        Opened::Var(i) => Ok(Expr::Literal(value_in(s.vars, i)?)),
        Opened::Inherit(i) => Ok(Expr::Literal(value_in(s.inherited, i)?)),
        Opened::EventDx => Ok(Expr::EventDx),
        Opened::EventDy => Ok(Expr::EventDy),
        Opened::Ints(es) => Ok(Expr::Ints(all(alloc, es, s)?)),
        Opened::Texts(es) => Ok(Expr::Texts(all(alloc, es, s)?)),
        Opened::One(form, a) => Ok(form.over(boxed(alloc, a, s)?)),
        Opened::Two(form, a, b) => {
            let a = boxed(alloc, a, s)?;
            Ok(form.over(a, boxed(alloc, b, s)?))
        }
        Opened::Three(form, a, b, c) => {
            let a = boxed(alloc, a, s)?;
            let b = boxed(alloc, b, s)?;
            Ok(form.over(a, b, boxed(alloc, c, s)?))
        }
    }
}

// An operand with those names replaced.
#[cycle(close)]
fn boxed(alloc: Global, e: &Expr, s: &Scope<'_>) -> Result<Box<Expr>, AllocError>
    requires { HasType (types_in (env_of s.now)) (exp_of e.now) }
    ensures { IfOk result (λ c. exp_of c.value ≡ closed (exp_of e.now) (env_of s.now)) }
{
    let operand = substituted(alloc, e, s)?;
    Ok(Box::new(alloc, operand)?)
}

// The items of a list with those names replaced.
#[cycle(close)]
fn all(alloc: Global, es: &ExprList, s: &Scope<'_>) -> Result<ExprList, AllocError>
    requires { (t : Ty) × AreTyped (types_in (env_of s.now)) (exps_of (list_of es.now)) t }
    ensures { IfOk result (λ c. exps_of (list_of c) ≡ all_closed (exps_of (list_of es.now)) (env_of s.now)) }
{
    let mut items = Vec::new(alloc);
    for e in es.items.iter() {
        items.push(substituted(alloc, e, s)?)?;
    }
    Ok(ExprList::of(items))
}
