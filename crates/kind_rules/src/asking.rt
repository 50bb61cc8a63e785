// Who is asked, and in which bounds.
ghost use Rattle.std.specs.Prelude.{◌≡◌, is_none, IfOk};
ghost use Rattle.layout_form.specs.declared.asks.Ask.TheVariants.{AsBox};
ghost use Rattle.layout_form.specs.Protocol.{ask_if, everybody, first_alone, nobody};
ghost use Rattle.layout_form.specs.Frames.{others_by};
ghost use Rattle.kind_rules.specs.Few.{items_of};

use crate::family::Family;
use crate::few::Few;
use fx_geom::{Bounds, Size};
use layout_form::Ask;
use plain_tree::ParentData;
use std::alloc::{AllocError, Global};

pub(crate) fn ask_if(test: bool, ask: Ask) -> Option<Ask>
    ensures { result ≡ ask_if test ask }
{
    if test { Some(ask) } else { None }
}

pub(crate) fn nobody() -> Few<Option<Ask>>
    ensures { items_of result ≡ nobody }
{
    Few::Empty
}

pub(crate) fn first_alone(ask: Ask) -> Few<Option<Ask>>
    ensures { items_of result ≡ first_alone ask }
{
    Few::Alone(Some(ask))
}

pub(crate) fn everybody(
    alloc: Global,
    ask: Ask,
    told: &[ParentData],
) -> Result<Few<Option<Ask>>, AllocError>
    ensures { IfOk result (λ v. items_of v ≡ everybody ask told.now) }
{
    let mut asks = Vec::with_capacity(alloc, told.len())?;
    for _child in told {
        asks.push(Some(ask))?;
    }
    Ok(Few::Each(asks))
}

// A child that hasn't answered is asked.
fn other(b: Bounds, size: Option<Size>) -> Option<Ask>
    ensures { result ≡ ask_if (is_none size) (AsBox b) }
{
    match size {
        None => Some(Ask::AsBox(b)),
        Some(_) => None,
    }
}

// Those that haven't answered, each in its bounds.
pub(crate) fn others<F: Family>(
    alloc: Global,
    bounds: &[Bounds],
    family: F,
) -> Result<Few<Option<Ask>>, AllocError>
    ensures { IfOk result (λ v. items_of v ≡ others_by bounds.now (F.frames family)) }
{
    let mut asks = Vec::with_capacity(alloc, family.answers())?;
    for i in 0..family.answers() {
        match bounds.get(i) {
            None => continue,
            Some(b) => asks.push_reserved(other(*b, family.size_at(i))),
        }
    }
    Ok(Few::Each(asks))
}
