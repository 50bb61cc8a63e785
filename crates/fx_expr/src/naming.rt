// The inherited names that stand in an expression.
ghost use Rattle.std.specs.Prelude.{◌≡◌, ◌==◌, ◌||◌, OnOk, OnErr, take, vec_len};
ghost use Rattle.fx_expr.specs.Exp.{exps_of};
ghost use Rattle.fx_expr.specs.SomeForm.{reads_inherited, is_inherited, some_form_of_each};
ghost use Rattle.fx_expr.specs.Places.{AddsPlaces};
ghost use Rattle.fx_expr.specs.View.{exp_of, list_of};

use crate::exprs::{Expr, ExprList};
use crate::opened::{Opened, open_expr};
use std::alloc::AllocError;

// Adds the places of the inherited names that stand in an expression. After want of memory some may have been added.
#[cycle(naming)]
fn add_names(e: &Expr, places: &mut Vec<u32>) -> Result<(), AllocError>
    ensures added { OnOk result (AddsPlaces places.old.items places.new.items (λ i. reads_inherited i (exp_of e.now))) }
    ensures kept { take (vec_len places.old) places.new.items ≡ places.old.items }
{
    match open_expr(e) {
        Opened::Literal(_)
        | Opened::Field(_)
        | Opened::Prop(_)
        | Opened::Var(_)
        | Opened::EventDx
        | Opened::EventDy => Ok(()),
        Opened::Inherit(i) => add_place(i, places),
        Opened::Ints(es) | Opened::Texts(es) => add_each(es, places),
        Opened::One(_, a) => add_names(a, places),
        Opened::Two(_, a, b) => {
            add_names(a, places)?;
            add_names(b, places)
        }
        Opened::Three(_, a, b, c) => {
            add_names(a, places)?;
            add_names(b, places)?;
            add_names(c, places)
        }
    }
}

// Adds a place.
fn add_place(i: u32, places: &mut Vec<u32>) -> Result<(), AllocError>
    ensures added { OnOk result (AddsPlaces places.old.items places.new.items (λ k. i == k)) }
    ensures kept { take (vec_len places.old) places.new.items ≡ places.old.items }
{
    places.push(i)?;
    Ok(())
}

// Adds those of the items of a list.
#[cycle(naming)]
fn add_each(es: &ExprList, places: &mut Vec<u32>) -> Result<(), AllocError>
    ensures added { OnOk result (AddsPlaces places.old.items places.new.items (λ i. some_form_of_each (is_inherited i) (exps_of (list_of es.now)))) }
    ensures kept { take (vec_len places.old) places.new.items ≡ places.old.items }
{
    for e in es.items.iter() {
        add_names(e, places)?;
    }
    Ok(())
}

/// Adds the places of the inherited names that stand in an expression, whichever branches it takes; one that stands
/// there twice may be added twice. It takes time in proportion to the expression. After want of memory `places` is as
/// before.
pub fn add_inherited(e: &Expr, places: &mut Vec<u32>) -> Result<(), AllocError>
    ensures ok { OnOk result (AddsPlaces places.old.items places.new.items (λ i. reads_inherited i (exp_of e.now))) }
    ensures err { OnErr result (places.new.items ≡ places.old.items) }
{
    let before = places.len();
    let added = add_names(e, places);
    if added.is_err() {
        places.truncate(before);
    }
    added
}
