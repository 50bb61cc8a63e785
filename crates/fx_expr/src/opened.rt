// One level of an expression: its form, and what stands in it.
ghost use Rattle.std.specs.Prelude.{◌≡◌};
ghost use Rattle.fx_expr.specs.declared.exprs.Expr.{size-Expr};
ghost use Rattle.fx_expr.specs.Forms.{one_of, two_of, three_of};
ghost use Rattle.fx_expr.specs.Opened.{form_in, AreLess};
ghost use Rattle.fx_expr.specs.View.{exp_of};

use crate::exprs::{Expr, ExprList};
use crate::values::Value;

// The forms over one operand.
#[derive(Clone, Copy, PartialEq, Eq)]
pub(crate) enum One {
    Not,
    Len,
    Reverse,
    Range,
    Show,
}

// The forms over two operands.
#[derive(Clone, Copy, PartialEq, Eq)]
pub(crate) enum Two {
    Add,
    Sub,
    Mul,
    Div,
    Mod,
    Equal,
    Less,
    And,
    Or,
    Cat,
    Push,
    Drop,
}

// The forms over three operands.
#[derive(Clone, Copy, PartialEq, Eq)]
pub(crate) enum Three {
    If,
    At,
}

// What stands in an expression: a value, a place, a list, or operands under their form.
#[derive(Drop)]
pub(crate) enum Opened<'a> {
    Literal(&'a Value),
    Field(u32),
    Prop(u32),
    Var(u32),
    Inherit(u32),
    EventDx,
    EventDy,
    Ints(&'a ExprList),
    Texts(&'a ExprList),
    One(One, &'a Expr),
    Two(Two, &'a Expr, &'a Expr),
    Three(Three, &'a Expr, &'a Expr, &'a Expr),
}

impl One {
    // The form over an operand.
    pub(crate) fn over(self, a: Box<Expr>) -> Expr
        ensures { exp_of result ≡ one_of self (exp_of a.value) }
    {
        match self {
            One::Not => Expr::Not(a),
            One::Len => Expr::Len(a),
            One::Reverse => Expr::Reverse(a),
            One::Range => Expr::Range(a),
            One::Show => Expr::Show(a),
        }
    }
}

impl Two {
    // The form over two operands.
    pub(crate) fn over(self, a: Box<Expr>, b: Box<Expr>) -> Expr
        ensures { exp_of result ≡ two_of self (exp_of a.value) (exp_of b.value) }
    {
        match self {
            Two::Add => Expr::Add(a, b),
            Two::Sub => Expr::Sub(a, b),
            Two::Mul => Expr::Mul(a, b),
            Two::Div => Expr::Div(a, b),
            Two::Mod => Expr::Mod(a, b),
            Two::Equal => Expr::Equal(a, b),
            Two::Less => Expr::Less(a, b),
            Two::And => Expr::And(a, b),
            Two::Or => Expr::Or(a, b),
            Two::Cat => Expr::Cat(a, b),
            Two::Push => Expr::Push(a, b),
            Two::Drop => Expr::Drop(a, b),
        }
    }
}

impl Three {
    // The form over three operands.
    pub(crate) fn over(self, a: Box<Expr>, b: Box<Expr>, c: Box<Expr>) -> Expr
        ensures { exp_of result ≡ three_of self (exp_of a.value) (exp_of b.value) (exp_of c.value) }
    {
        match self {
            Three::If => Expr::If(a, b, c),
            Three::At => Expr::At(a, b, c),
        }
    }
}

// What stands in an expression.
pub(crate) fn open_expr(e: &Expr) -> Opened<'_>
    ensures form { form_in result ≡ exp_of e.now }
    ensures depth { AreLess (size-Expr e.now) result }
{
    match e {
        Expr::Literal(v) => Opened::Literal(v),
        Expr::Field(i) => Opened::Field(*i),
        Expr::Prop(i) => Opened::Prop(*i),
        Expr::Var(i) => Opened::Var(*i),
        Expr::Inherit(i) => Opened::Inherit(*i),
        Expr::EventDx => Opened::EventDx,
        Expr::EventDy => Opened::EventDy,
        Expr::Ints(es) => Opened::Ints(es),
        Expr::Texts(es) => Opened::Texts(es),
        Expr::Not(a) => Opened::One(One::Not, a),
        Expr::Len(a) => Opened::One(One::Len, a),
        Expr::Reverse(a) => Opened::One(One::Reverse, a),
        Expr::Range(a) => Opened::One(One::Range, a),
        Expr::Show(a) => Opened::One(One::Show, a),
        Expr::Add(a, b) => Opened::Two(Two::Add, a, b),
        Expr::Sub(a, b) => Opened::Two(Two::Sub, a, b),
        Expr::Mul(a, b) => Opened::Two(Two::Mul, a, b),
        Expr::Div(a, b) => Opened::Two(Two::Div, a, b),
        Expr::Mod(a, b) => Opened::Two(Two::Mod, a, b),
        Expr::Equal(a, b) => Opened::Two(Two::Equal, a, b),
        Expr::Less(a, b) => Opened::Two(Two::Less, a, b),
        Expr::And(a, b) => Opened::Two(Two::And, a, b),
        Expr::Or(a, b) => Opened::Two(Two::Or, a, b),
        Expr::Cat(a, b) => Opened::Two(Two::Cat, a, b),
        Expr::Push(a, b) => Opened::Two(Two::Push, a, b),
        Expr::Drop(a, b) => Opened::Two(Two::Drop, a, b),
        Expr::If(a, b, c) => Opened::Three(Three::If, a, b, c),
        Expr::At(a, b, c) => Opened::Three(Three::At, a, b, c),
    }
}
