// The values of a program's expressions, and their types.
ghost use Rattle.std.specs.Prelude.{◌≡◌, ◌↔◌, IsTrue};
ghost use Rattle.fx_expr.specs.Value.{type_of, int_in, bool_in, text_in, value_eq};
ghost use Rattle.fx_expr.specs.declared.values.Ty.TheVariants as ty;

use crate::lists::{IntList, TextList};
use crate::text::Txt;
use std::marker::Model;

/// The type of a value.
#[derive(Clone, Copy, Debug, PartialEq, Eq)]
pub enum Ty {
    Int,
    Bool,
    Text,
    Ints,
    Texts,
}

/// A value: a whole number of 64 bits, a truth value, a text, or a list of numbers or texts. Values
/// are equal where type and content are. They are ordered by type, then by content.
#[derive(Clone, Debug, PartialEq, Eq, PartialOrd, Ord, Drop)]
pub enum Value {
    Int(i64),
    Bool(bool),
    Text(Txt),
    Ints(IntList),
    Texts(TextList),
}

impl Value {
    /// The type of the value.
    pub fn ty(&self) -> Ty
        ensures { result ≡ type_of self.now }
    {
        match self {
            Value::Int(_) => Ty::Int,
            Value::Bool(_) => Ty::Bool,
            Value::Text(_) => Ty::Text,
            Value::Ints(_) => Ty::Ints,
            Value::Texts(_) => Ty::Texts,
        }
    }

    // The number that the value is.
    pub(crate) fn into_int(self) -> i64
        requires { type_of self ≡ ty.Int }
        ensures { result ≡ int_in self }
    {
        match self {
            Value::Int(n) => n,
            _ => unreachable!(),
        }
    }

    // The truth value that the value is.
    pub(crate) fn into_bool(self) -> bool
        requires { type_of self ≡ ty.Bool }
        ensures { result ≡ bool_in self }
    {
        match self {
            Value::Bool(b) => b,
            _ => unreachable!(),
        }
    }

    // The text that the value is.
    pub(crate) fn into_text(self) -> Txt
        requires { type_of self ≡ ty.Text }
        ensures { result ≡ text_in self }
    {
        match self {
            Value::Text(t) => t,
            _ => unreachable!(),
        }
    }
}

/// Whether two values are equal: of one type, and the same in content.
pub fn same_value(a: &Value, b: &Value) -> bool
    ensures test { result ≡ value_eq a.now b.now }
    ensures meaning { IsTrue result ↔ (a.now ≡ b.now) }
{
    a == b
}

/// A list of values.
#[derive(Debug, Drop)]
pub struct ValueList {
    items: Vec<Value>,
}

impl Model for ValueList {
    ghost use Rattle.std.specs.Prelude.{List};
    ghost use Rattle.fx_expr.specs.declared.values.Value.{Value as AnyValue};

    ghost Value = { List AnyValue };

    ghost view = { λ l. l.items.items };
}

impl ValueList {
    /// The list that `items` holds.
    pub fn of(items: Vec<Value>) -> ValueList
        ensures { result ≡ items.items }
    {
        ValueList { items }
    }

    /// The items, lent.
    pub fn get(&self) -> &[Value]
        ensures { result.now ≡ self.now }
    {
        self.items.as_slice()
    }
}
