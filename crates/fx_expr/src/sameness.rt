// Whether two expressions, values or handlers are the same, without memory and in the time that the smaller takes.
ghost use Rattle.std.specs.Prelude.{◌≡◌, ◌↔◌, ℕ, ◌<◌, IsTrue};
ghost use Rattle.fx_expr.specs.declared.sameness.ExprForm.TheVariants as form;
ghost use Rattle.fx_expr.specs.Exp.{exps_of};
ghost use Rattle.fx_expr.specs.Level.{level_of, named};
ghost use Rattle.fx_expr.specs.LevelView.{seen, items_in, operand_in, AreBelow};
ghost use Rattle.fx_expr.specs.View.{exp_of, list_of, set_of};
ghost use Rattle.fx_expr.specs.declared.exprs.Expr.{size-Expr};
ghost use Rattle.fx_expr.specs.declared.exprs.ExprList.{size-ExprList};

use crate::exprs::{Expr, ExprList};
use crate::handlers::{Handler, SetList};
use crate::opened::{One, Opened, Three, Two, open_expr};
use crate::values::{Value, ValueList, same_value};

// A form of expressions, without what stands in it.
#[derive(Clone, Copy, PartialEq, Eq)]
enum ExprForm {
    Literal,
    Field,
    Prop,
    Var,
    Inherit,
    EventDx,
    EventDy,
    Ints,
    Texts,
    One(One),
    Two(Two),
    Three(Three),
}

// One level of an expression: its form, and what stands in it. A form that names no place has place 0.
#[derive(Drop)]
struct ExprParts<'a> {
    form: ExprForm,
    place: u32,
    value: Option<&'a Value>,
    items: Option<&'a ExprList>,
    first: Option<&'a Expr>,
    second: Option<&'a Expr>,
    third: Option<&'a Expr>,
}

/// Whether two expressions are the same: of one form, with the same place, value, items and operands in it.
/// It takes no memory.
#[cycle(sameness)]
pub fn same_expr(a: &Expr, b: &Expr) -> bool
    ensures { IsTrue result ↔ (exp_of a.now ≡ exp_of b.now) }
{
    let a = parts_of(a);
    let b = parts_of(b);
    if !same_heads(&a, &b) {
        return false;
    }
    if !same_lists(a.items, b.items) {
        return false;
    }
    if !same_operands(a.first, b.first) {
        return false;
    }
    if !same_operands(a.second, b.second) {
        return false;
    }
    same_operands(a.third, b.third)
}

// Whether two operands are the same: both absent, or the same expression.
#[cycle(sameness)]
fn same_operands(a: Option<&Expr>, b: Option<&Expr>) -> bool
    ensures { IsTrue result ↔ (operand_in a.entry ≡ operand_in b.entry) }
{
    match (a, b) {
        (Some(a), Some(b)) => same_expr(a, b),
        (None, None) => true,
        _ => false,
    }
}

// Whether two lists are the same: both absent, or with the same items in order.
#[cycle(sameness)]
fn same_lists(a: Option<&ExprList>, b: Option<&ExprList>) -> bool
    ensures { IsTrue result ↔ (items_in a.entry ≡ items_in b.entry) }
{
    match (a, b) {
        (Some(a), Some(b)) => same_items(a, b),
        (None, None) => true,
        _ => false,
    }
}

#[cycle(sameness)]
fn same_items(a: &ExprList, b: &ExprList) -> bool
    ensures { IsTrue result ↔ (list_of a.now ≡ list_of b.now) }
{
    let others = b.items.as_slice();
    if a.items.len() != others.len() {
        return false;
    }
    for (i, e) in a.items.iter().enumerate() {
        if !same_expr(e, &others[i]) {
            return false;
        }
    }
    true
}

/// Whether two lists of sets are the same: the same places, set to the same expressions, in order. It takes no memory.
pub fn same_sets(a: &SetList, b: &SetList) -> bool
    ensures { IsTrue result ↔ (a.now ≡ b.now) }
{
    let sets = a.get();
    let others = b.get();
    if sets.len() != others.len() {
        return false;
    }
    for (i, set) in sets.iter().enumerate() {
        if !same_set(set, &others[i]) {
            return false;
        }
    }
    true
}

// Whether two sets are the same: one place, set to the same expression.
fn same_set(a: &(u32, Expr), b: &(u32, Expr)) -> bool
    ensures { IsTrue result ↔ (set_of a.now ≡ set_of b.now) }
{
    a.0 == b.0 && same_expr(&a.1, &b.1)
}

/// Whether two handlers are the same: of one owner, with the same sets. It takes no memory.
pub fn same_handler(a: &Handler, b: &Handler) -> bool
    ensures { IsTrue result ↔ (a.now ≡ b.now) }
{
    a.owner == b.owner && same_sets(&a.sets, &b.sets)
}

/// Whether two lists of values are the same: equal values in order. It takes no memory.
pub fn same_values(a: &ValueList, b: &ValueList) -> bool
    ensures { IsTrue result ↔ (a.now ≡ b.now) }
{
    a.get() == b.get()
}

// Whether two forms are the same, of one place and one value.
fn same_heads(a: &ExprParts, b: &ExprParts) -> bool
    ensures form { IsTrue result → a.now.form ≡ b.now.form }
    ensures place { IsTrue result → a.now.place ≡ b.now.place }
    ensures value { IsTrue result → (seen a.now).value ≡ (seen b.now).value }
    ensures same { a.now.form ≡ b.now.form → a.now.place ≡ b.now.place → (seen a.now).value ≡ (seen b.now).value → IsTrue result }
{
    if a.form != b.form || a.place != b.place {
        return false;
    }
    match (a.value, b.value) {
        (Some(v), Some(w)) => same_value(v, w),
        (None, None) => true,
        _ => false,
    }
}

// What stands in an expression.
fn parts_of(e: &Expr) -> ExprParts<'_>
    ensures level { seen result ≡ level_of (exp_of e.now) }
    ensures depth { AreBelow (size-Expr e.now) result }
{
    match open_expr(e) {
        Opened::Literal(v) => valued(v),
        Opened::Field(i) => named(ExprForm::Field, i),
        Opened::Prop(i) => named(ExprForm::Prop, i),
        Opened::Var(i) => named(ExprForm::Var, i),
        Opened::Inherit(i) => named(ExprForm::Inherit, i),
        Opened::EventDx => named(ExprForm::EventDx, 0),
        Opened::EventDy => named(ExprForm::EventDy, 0),
        Opened::Ints(es) => listed(ExprForm::Ints, es),
        Opened::Texts(es) => listed(ExprForm::Texts, es),
        Opened::One(form, a) => with_one(ExprForm::One(form), a),
        Opened::Two(form, a, b) => with_two(ExprForm::Two(form), a, b),
        Opened::Three(form, a, b, c) => with_three(ExprForm::Three(form), a, b, c),
    }
}

// A form in which nothing stands but a place.
fn named<'a>(form: ExprForm, place: u32) -> ExprParts<'a>
    ensures level { seen result ≡ named form place }
    ensures depth { (n : ℕ) → 0 < n → AreBelow n result }
{
    ExprParts {
        form,
        place,
        value: None,
        items: None,
        first: None,
        second: None,
        third: None,
    }
}

// A value as it is written.
fn valued(value: &Value) -> ExprParts<'_>
    ensures level { seen result ≡ record (named form.Literal 0) { value = Some value.now } }
    ensures depth { (n : ℕ) → 0 < n → AreBelow n result }
{
    ExprParts {
        value: Some(value),
        ..named(ExprForm::Literal, 0)
    }
}

// A form with a list.
fn listed(form: ExprForm, items: &ExprList) -> ExprParts<'_>
    ensures level { seen result ≡ record (named form 0) { items = Some (exps_of (list_of items.now)) } }
    ensures depth { (n : ℕ) → size-ExprList items.now < n → AreBelow n result }
{
    ExprParts {
        items: Some(items),
        ..named(form, 0)
    }
}

// A form with one operand.
fn with_one(form: ExprForm, first: &Expr) -> ExprParts<'_>
    ensures level { seen result ≡ record (named form 0) { first = Some (exp_of first.now) } }
    ensures depth { (n : ℕ) → size-Expr first.now < n → AreBelow n result }
{
    ExprParts {
        first: Some(first),
        ..named(form, 0)
    }
}

// A form with two operands.
fn with_two<'a>(form: ExprForm, first: &'a Expr, second: &'a Expr) -> ExprParts<'a>
    ensures level { seen result ≡ record (named form 0) { first = Some (exp_of first.now); second = Some (exp_of second.now) } }
    ensures depth { (n : ℕ) → size-Expr first.now < n → size-Expr second.now < n → AreBelow n result }
{
    ExprParts {
        second: Some(second),
        ..with_one(form, first)
    }
}

// A form with three operands.
fn with_three<'a>(
    form: ExprForm,
    first: &'a Expr,
    second: &'a Expr,
    third: &'a Expr,
) -> ExprParts<'a>
    ensures level { seen result ≡ record (named form 0) { first = Some (exp_of first.now); second = Some (exp_of second.now); third = Some (exp_of third.now) } }
    ensures depth { (n : ℕ) → size-Expr first.now < n → size-Expr second.now < n → size-Expr third.now < n → AreBelow n result }
{
    ExprParts {
        third: Some(third),
        ..with_two(form, first, second)
    }
}
