// What type each operand of an operator must have, and what type the whole then has.
ghost use Rattle.std.specs.Prelude.{◌≡◌};
ghost use Rattle.expr_check.specs.Wants.{same_ty, is_list, meets, item_of, with_type, wanted, given_type};

use fx_expr::Ty;
use program_form::Operator;

/// What is asked of the type of an operand, or of a member.
#[derive(Clone, Copy)]
pub enum Want {
    /// Any type.
    Any,
    /// This one.
    Exactly(Ty),
    /// A list's.
    List,
    /// A text's or a list's.
    Joinable,
}

// Whether two types are the same.
fn same_ty(a: Ty, b: Ty) -> bool
    ensures { result ≡ same_ty a b }
{
    match (a, b) {
        (Ty::Int, Ty::Int)
        | (Ty::Bool, Ty::Bool)
        | (Ty::Text, Ty::Text)
        | (Ty::Ints, Ty::Ints)
        | (Ty::Texts, Ty::Texts) => true,
        _ => false,
    }
}

impl Want {
    // Whether a type is one of those asked for.
    pub(crate) fn meets(self, ty: Ty) -> bool
        ensures { result ≡ meets self ty }
    {
        match self {
            Want::Any => true,
            Want::Exactly(want) => same_ty(want, ty),
            Want::List => matches!(ty, Ty::Ints | Ty::Texts),
            Want::Joinable => matches!(ty, Ty::Text | Ty::Ints | Ty::Texts),
        }
    }
}

// The types of the first two operands, as far as they were tested.
#[derive(Clone, Copy)]
pub(crate) struct Seen {
    pub(crate) first: Option<Ty>,
    pub(crate) second: Option<Ty>,
}

impl Seen {
    // The same with the type of the next operand.
    pub(crate) fn with(self, ty: Ty) -> Seen
        ensures { result ≡ with_type self ty }
    {
        match (self.first, self.second) {
            (None, _) => Seen {
                first: Some(ty),
                second: None,
            },
            (first, None) => Seen {
                first,
                second: Some(ty),
            },
            (first, second) => Seen { first, second },
        }
    }
}

// The type of a list's items.
pub fn item_of(list: Ty) -> Ty
    ensures { result ≡ item_of list }
{
    match list {
        Ty::Ints => Ty::Int,
        Ty::Texts => Ty::Text,
        other => other,
    }
}

// What is asked of the next operand.
pub(crate) fn wanted(operator: Operator, seen: Seen) -> Want
    ensures { result ≡ wanted operator seen }
{
    match operator {
        Operator::Ints
        | Operator::Add
        | Operator::Sub
        | Operator::Mul
        | Operator::Div
        | Operator::Mod
        | Operator::Less
        | Operator::Range
        | Operator::Show => Want::Exactly(Ty::Int),
        Operator::Texts => Want::Exactly(Ty::Text),
        Operator::And | Operator::Or | Operator::Not => Want::Exactly(Ty::Bool),
        Operator::Equal => match seen.first {
            Some(ty) => Want::Exactly(ty),
            None => Want::Any,
        },
        Operator::If => match (seen.first, seen.second) {
            (None, _) => Want::Exactly(Ty::Bool),
            (Some(_), None) => Want::Any,
            (Some(_), Some(ty)) => Want::Exactly(ty),
        },
        Operator::Cat => match seen.first {
            Some(ty) => Want::Exactly(ty),
            None => Want::Joinable,
        },
        Operator::Len | Operator::Reverse => Want::List,
        Operator::At => match (seen.first, seen.second) {
            (None, _) => Want::List,
            (Some(_), None) => Want::Exactly(Ty::Int),
            (Some(list), Some(_)) => Want::Exactly(item_of(list)),
        },
        Operator::Push => match seen.first {
            None => Want::List,
            Some(list) => Want::Exactly(item_of(list)),
        },
        Operator::Drop => match seen.first {
            None => Want::List,
            Some(_) => Want::Exactly(Ty::Int),
        },
    }
}

// The type of the whole, once its operands' types were tested.
pub(crate) fn given_type(operator: Operator, seen: Seen) -> Ty
    ensures { result ≡ given_type operator seen }
{
    match operator {
        Operator::Add
        | Operator::Sub
        | Operator::Mul
        | Operator::Div
        | Operator::Mod
        | Operator::Len => Ty::Int,
        Operator::Equal | Operator::Less | Operator::And | Operator::Or | Operator::Not => Ty::Bool,
        Operator::Show => Ty::Text,
        Operator::Ints | Operator::Range => Ty::Ints,
        Operator::Texts => Ty::Texts,
        Operator::If => seen.second.unwrap_or(Ty::Int),
        Operator::At => item_of(seen.first.unwrap_or(Ty::Ints)),
        Operator::Cat | Operator::Push | Operator::Drop | Operator::Reverse => seen
            .first
            .unwrap_or(Ty::Ints),
    }
}
