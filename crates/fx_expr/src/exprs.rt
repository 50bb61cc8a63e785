// Expressions of a program, one variant for each form.
ghost use Rattle.std.specs.Prelude.{◌≡◌, List, map};
ghost use Rattle.fx_expr.specs.View.{exp_of, list_of};

use crate::values::Value;

/// An expression. Operands stand in the order in which a program writes them. A name is its place in
/// its list, counted from 0; loop variables are counted from the outermost loop.
#[cycle(expr)]
#[derive(Drop)]
pub enum Expr {
    /// A value as it is written.
    Literal(Value),
    /// `["field",x]`: a field of the component.
    Field(u32),
    /// `["prop",x]`: a prop of the component.
    Prop(u32),
    /// `["var",x]`: the item of a loop.
    Var(u32),
    /// `["inherit",x]`: an inherited value.
    Inherit(u32),
    /// `["event","dx"]`: how far a gesture's update moved to the right, in u; 0 for other gestures.
    EventDx,
    /// `["event","dy"]`: how far it moved down, in u.
    EventDy,
    /// `["ints",e..]`: a list of numbers, cut at 4,096 items.
    Ints(ExprList),
    /// `["texts",e..]`: a list of texts, cut at 4,096 items.
    Texts(ExprList),
    /// `["not",a]`.
    Not(Box<Expr>),
    /// `["len",l]`: the number of a list's items.
    Len(Box<Expr>),
    /// `["reverse",l]`: a list from its last item to its first.
    Reverse(Box<Expr>),
    /// `["range",n]`: the numbers from 0 to n - 1, at most 4,096; none where n is negative.
    Range(Box<Expr>),
    /// `["show",i]`: a number in decimal.
    Show(Box<Expr>),
    /// `["+",a,b]`: the sum, which stops at the ends of 64 bits, as all of these do.
    Add(Box<Expr>, Box<Expr>),
    /// `["-",a,b]`: the difference.
    Sub(Box<Expr>, Box<Expr>),
    /// `["*",a,b]`: the product.
    Mul(Box<Expr>, Box<Expr>),
    /// `["div",a,b]`: the quotient, rounded down; 0 where b is 0.
    Div(Box<Expr>, Box<Expr>),
    /// `["mod",a,b]`: what that quotient leaves of a; 0 where b is 0.
    Mod(Box<Expr>, Box<Expr>),
    /// `["=",a,b]`: whether two values of one type are equal.
    Equal(Box<Expr>, Box<Expr>),
    /// `["<",a,b]`: whether a number is less than another.
    Less(Box<Expr>, Box<Expr>),
    /// `["and",a,b]`.
    And(Box<Expr>, Box<Expr>),
    /// `["or",a,b]`.
    Or(Box<Expr>, Box<Expr>),
    /// `["cat",a,b]`: two texts joined and cut at the last character boundary within 1,024 bytes, or
    /// two lists of one type joined and cut at 4,096 items.
    Cat(Box<Expr>, Box<Expr>),
    /// `["push",l,x]`: a list with x added last, or unchanged at 4,096 items.
    Push(Box<Expr>, Box<Expr>),
    /// `["drop",l,i]`: a list without item i, or unchanged where there is none.
    Drop(Box<Expr>, Box<Expr>),
    /// `["if",c,a,b]`: a where c is true, else b.
    If(Box<Expr>, Box<Expr>, Box<Expr>),
    /// `["at",l,i,d]`: item i of a list, counted from 0, or d where there is none.
    At(Box<Expr>, Box<Expr>, Box<Expr>),
}

/// A list of expressions.
#[cycle(expr)]
#[derive(Drop)]
pub struct ExprList {
    pub(crate) items: Vec<Expr>,
}

impl ExprList {
    /// The list that `items` holds.
    pub fn of(items: Vec<Expr>) -> ExprList
        ensures { list_of result ≡ map exp_of items.items }
    {
        ExprList { items }
    }

    /// The items, lent.
    pub fn get(&self) -> &[Expr]
        ensures { map exp_of result.now ≡ list_of self.now }
    {
        self.items.as_slice()
    }
}
