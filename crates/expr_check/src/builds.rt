// The expression of an operator over its operands.
ghost use Rattle.std.specs.Prelude.{◌≡◌, ◌∷◌, [], map, IfOk, true, vec_len, Some, None};
ghost use Rattle.fx_expr.specs.View.{exp_of};
ghost use Rattle.program_form.specs.Operators.{operands_of, takes};
ghost use Rattle.expr_check.specs.Built.{built};

use fx_expr::{Expr, ExprList};
use program_form::Operator;
use std::alloc::{AllocError, Global};

// An operator over one operand.
fn over_one(operator: Operator, a: Box<Expr>) -> Expr
    requires { operands_of operator ≡ Some 1 }
    ensures { exp_of result ≡ built operator (exp_of a.value ∷ []) }
{
    match operator {
        Operator::Not => Expr::Not(a),
        Operator::Len => Expr::Len(a),
        Operator::Reverse => Expr::Reverse(a),
        Operator::Range => Expr::Range(a),
        Operator::Show => Expr::Show(a),
        _ => unreachable!(),
    }
}

// An operator over two operands.
fn over_two(operator: Operator, a: Box<Expr>, b: Box<Expr>) -> Expr
    requires { operands_of operator ≡ Some 2 }
    ensures { exp_of result ≡ built operator (exp_of a.value ∷ exp_of b.value ∷ []) }
{
    match operator {
        Operator::Add => Expr::Add(a, b),
        Operator::Sub => Expr::Sub(a, b),
        Operator::Mul => Expr::Mul(a, b),
        Operator::Div => Expr::Div(a, b),
        Operator::Mod => Expr::Mod(a, b),
        Operator::Equal => Expr::Equal(a, b),
        Operator::Less => Expr::Less(a, b),
        Operator::And => Expr::And(a, b),
        Operator::Or => Expr::Or(a, b),
        Operator::Cat => Expr::Cat(a, b),
        Operator::Push => Expr::Push(a, b),
        Operator::Drop => Expr::Drop(a, b),
        _ => unreachable!(),
    }
}

// An operator over three operands.
fn over_three(operator: Operator, a: Box<Expr>, b: Box<Expr>, c: Box<Expr>) -> Expr
    requires { operands_of operator ≡ Some 3 }
    ensures { exp_of result ≡ built operator (exp_of a.value ∷ exp_of b.value ∷ exp_of c.value ∷ []) }
{
    match operator {
        Operator::If => Expr::If(a, b, c),
        Operator::At => Expr::At(a, b, c),
        _ => unreachable!(),
    }
}

// A list of items, however many they are.
fn over_all(operator: Operator, items: Vec<Expr>) -> Expr
    requires { operands_of operator ≡ None }
    ensures { exp_of result ≡ built operator (map exp_of items.items) }
{
    match operator {
        Operator::Ints => Expr::Ints(ExprList::of(items)),
        Operator::Texts => Expr::Texts(ExprList::of(items)),
        _ => unreachable!(),
    }
}

// An operator over its operands, as many as it takes.
pub(crate) fn built(
    alloc: Global,
    operator: Operator,
    mut operands: Vec<Expr>,
) -> Result<Expr, AllocError>
    requires { takes operator (vec_len operands) ≡ true }
    ensures { IfOk result (λ e. exp_of e ≡ built operator (map exp_of operands.items)) }
{
    let Some(count) = operator.operands() else {
        return Ok(over_all(operator, operands));
    };
    let last = Box::new(alloc, operands.pop().unwrap())?;
    if count == 1 {
        return Ok(over_one(operator, last));
    }
    let second = Box::new(alloc, operands.pop().unwrap())?;
    if count == 2 {
        return Ok(over_two(operator, second, last));
    }
    let first = Box::new(alloc, operands.pop().unwrap())?;
    Ok(over_three(operator, first, second, last))
}
