// What the forms with operands give of values of their types.
ghost use Rattle.std.specs.Prelude.{◌≡◌, pos, IfOk, IsTrue, Some};
ghost use Rattle.fx_expr.specs.Value.{type_of, joined_values, item_count, item_at, with_last, without_item, reversed_value};
ghost use Rattle.fx_expr.specs.Typed.{item_type, IsJoinable, IsList};
ghost use Rattle.fx_expr.specs.declared.values.Value.{Value};
ghost use Rattle.fx_expr.specs.Forms.{TakesOne, TakesTwo, one_value, two_value};

use crate::items;
use crate::lists::{IntList, TextList};
use crate::numbers::{quotient, remainder};
use crate::opened::{One, Two};
use crate::text::Txt;
use crate::values::{Value, same_value};
use std::alloc::{AllocError, Global};

// The value of a form over one operand.
pub(crate) fn over_one(alloc: Global, form: One, v: Value) -> Result<Value, AllocError>
    requires { TakesOne form (type_of v) }
    ensures { IfOk result (λ r. r ≡ one_value form v) }
{
    match form {
        One::Not => Ok(Value::Bool(!v.into_bool())),
        One::Len => Ok(Value::Int(len(&v))),
        One::Reverse => Ok(reverse(v)),
        One::Range => Ok(Value::Ints(IntList::of(items::range(alloc, v.into_int())?))),
        One::Show => Ok(Value::Text(Txt::shown(alloc, v.into_int())?)),
    }
}

// Whether the value of a form over two operands is that of the first, whatever the second is.
pub(crate) fn settles(form: Two, left: &Value) -> bool
    ensures { IsTrue result → (w : Value) → two_value form left.now w ≡ left.now }
{
    match (form, left) {
        (Two::And, Value::Bool(b)) => !*b,
        (Two::Or, Value::Bool(b)) => *b,
        _ => false,
    }
}

// The value of a form over two operands.
pub(crate) fn over_two(form: Two, a: Value, b: Value) -> Result<Value, AllocError>
    requires { TakesTwo form (type_of a) (type_of b) }
    ensures { IfOk result (λ r. r ≡ two_value form a b) }
{
    match form {
        Two::Add => Ok(Value::Int(a.into_int().saturating_add(b.into_int()))),
        Two::Sub => Ok(Value::Int(a.into_int().saturating_sub(b.into_int()))),
        Two::Mul => Ok(Value::Int(a.into_int().saturating_mul(b.into_int()))),
        Two::Div => Ok(Value::Int(quotient(a.into_int(), b.into_int()))),
        Two::Mod => Ok(Value::Int(remainder(a.into_int(), b.into_int()))),
        Two::Equal => Ok(Value::Bool(same_value(&a, &b))),
        Two::Less => Ok(Value::Bool(a.into_int() < b.into_int())),
        Two::And => Ok(Value::Bool(a.into_bool() && b.into_bool())),
        Two::Or => Ok(Value::Bool(a.into_bool() || b.into_bool())),
        Two::Cat => cat(a, b),
        Two::Push => push(a, b),
        Two::Drop => Ok(without(a, b.into_int())),
    }
}

// `cat`: two texts, or two lists of one type, joined and cut. What is in the first is not copied, nor
// are the items of the second.
fn cat(left: Value, right: Value) -> Result<Value, AllocError>
    requires joinable { IsJoinable (type_of left) }
    requires same { type_of right ≡ type_of left }
    ensures { IfOk result (λ v. v ≡ joined_values left right) }
{
    match (left, right) {
        (Value::Text(a), Value::Text(b)) => Ok(Value::Text(a.joined(&b)?)),
        (Value::Ints(a), Value::Ints(b)) => {
            let all = items::joined(a.into_items(), b.into_items())?;
            Ok(Value::Ints(IntList::of(all)))
        }
        (Value::Texts(a), Value::Texts(b)) => {
            let all = items::joined(a.into_items(), b.into_items())?;
            Ok(Value::Texts(TextList::of(all)))
        }
        _ => unreachable!(),
    }
}

// `len`: how many items a list has.
fn len(list: &Value) -> i64
    requires { IsList (type_of list.now) }
    ensures { result ≡ pos (item_count list.now) }
{
    match list {
        Value::Ints(numbers) => numbers.get().len() as i64,
        Value::Texts(texts) => texts.get().len() as i64,
        _ => unreachable!(),
    }
}

// `at`: the item of a list at a place, taken out of it, where there is one.
pub(crate) fn item(list: Value, index: i64) -> Option<Value>
    requires { IsList (type_of list) }
    ensures { result ≡ item_at list index }
{
    match list {
        Value::Ints(numbers) => items::taken(numbers.into_items(), index).map(Value::Int),
        Value::Texts(texts) => items::taken(texts.into_items(), index).map(Value::Text),
        _ => unreachable!(),
    }
}

// `push`: a list with an item added last, or unchanged at the limit. The list is not copied.
fn push(list: Value, item: Value) -> Result<Value, AllocError>
    requires { item_type (type_of list) ≡ Some (type_of item) }
    ensures { IfOk result (λ v. v ≡ with_last list item) }
{
    match (list, item) {
        (Value::Ints(numbers), Value::Int(n)) => {
            let more = items::pushed(numbers.into_items(), n)?;
            Ok(Value::Ints(IntList::of(more)))
        }
        (Value::Texts(texts), Value::Text(t)) => {
            let more = items::pushed(texts.into_items(), t)?;
            Ok(Value::Texts(TextList::of(more)))
        }
        _ => unreachable!(),
    }
}

// `drop`: a list without the item at a place, where there is one.
fn without(list: Value, index: i64) -> Value
    requires { IsList (type_of list) }
    ensures { result ≡ without_item list index }
{
    match list {
        Value::Ints(numbers) => {
            Value::Ints(IntList::of(items::without(numbers.into_items(), index)))
        }
        Value::Texts(texts) => {
            Value::Texts(TextList::of(items::without(texts.into_items(), index)))
        }
        _ => unreachable!(),
    }
}

// `reverse`: a list from its last item to its first.
fn reverse(list: Value) -> Value
    requires { IsList (type_of list) }
    ensures { result ≡ reversed_value list }
{
    match list {
        Value::Ints(numbers) => Value::Ints(IntList::of(items::reversed(numbers.into_items()))),
        Value::Texts(texts) => Value::Texts(TextList::of(items::reversed(texts.into_items()))),
        _ => unreachable!(),
    }
}
