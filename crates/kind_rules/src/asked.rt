// The rules over families: a Row or a Column reads its children where they are, other kinds as lists.
ghost use Rattle.std.specs.Prelude.{◌≡◌, ◌^◌, ◌<◌, sum, IfOk};
ghost use Rattle.fx_geom.specs.Size.{HasLengths};
ghost use Rattle.delegates.specs.Meaning.{Meaning};
ghost use Rattle.delegates.specs.Table.{meant_in};
ghost use Rattle.widget_model.specs.View.{look_in};
ghost use Rattle.layout_form.specs.Fits.{Fits, FitsLayout};
ghost use Rattle.layout_form.specs.FlexRule.{factors_of};
ghost use Rattle.layout_form.specs.Frames.{frames_given};
ghost use Rattle.layout_form.specs.Object.{setting_of};
ghost use Rattle.layout_form.specs.Protocol.{nothing_found};
ghost use Rattle.kind_rules.specs.Asks.{asks_of};
ghost use Rattle.kind_rules.specs.Asked.{first_for, found_of, found_for, rest_for, ruling_for, AreLong, IsOffset, IsWalk};
ghost use Rattle.kind_rules.specs.Ruling.{ruling_of};

use crate::asks::Asks;
use crate::family::{Family, frames_in, told_in};
use crate::first::first_asks;
use crate::line::{line_asked, line_made, line_rested};
use crate::made::Made;
use crate::makes::{line, make};
use crate::rest::{Found, findings, rest_asks};
use delegates::{Delegate, DelegateTable};
use fx_geom::{Axis, Scale, Size};
use layout_form::Ask;
use std::alloc::{AllocError, Global};
use widget_model::Kind;

/// Who is asked first, as `first_asks` has it. The error is want of memory.
pub fn first_asked<F: Family>(
    alloc: Global,
    kind: &Kind,
    count: u64,
    ask: Ask,
    liked: u64,
    family: F,
    scale: Scale,
    table: &DelegateTable,
) -> Result<Asks, AllocError>
    requires { FitsLayout (look_in kind.now) }
    ensures { IfOk result (λ v. asks_of v ≡ first_for (setting_of scale (meant_in table.now ⟦<dyn Delegate as Delegate>⟧)) (look_in kind.now) count ask liked (F.told family)) }
{
    match (kind, ask) {
        (Kind::Row { cross, .. }, Ask::AsBox(b)) => {
            line_asked(alloc, Axis::Horizontal, *cross, b, family)
        }
        (Kind::Column { cross, .. }, Ask::AsBox(b)) => {
            line_asked(alloc, Axis::Vertical, *cross, b, family)
        }
        _ => {
            let told = told_in(alloc, family)?;
            Ok(Asks::Each(first_asks(
                alloc,
                kind,
                count,
                ask,
                liked,
                told.as_slice(),
                scale,
                table,
            )?))
        }
    }
}

/// What the first answers tell, and who is asked then.
#[derive(Drop)]
pub struct Second {
    pub found: Found,
    pub asks: Asks,
}

/// What the first answers of a node tell that was scrolled so far, and who is asked then, as `findings` and `rest_asks` have
/// it. The error is want of memory.
pub fn second_asked<F: Family>(
    alloc: Global,
    kind: &Kind,
    scroll: u64,
    ask: Ask,
    family: F,
) -> Result<Second, AllocError>
    requires { sum (factors_of (F.told family)) < 2 ^ 64 }
    ensures found { IfOk result (λ v. found_of v.found ≡ found_for (look_in kind.now) scroll ask (F.frames family)) }
    ensures asks { IfOk result (λ v. asks_of v.asks ≡ rest_for (look_in kind.now) ask (found_of v.found) (F.told family) (F.frames family)) }
{
    match (kind, ask) {
        (Kind::Row { cross, .. }, Ask::AsBox(b)) => Ok(Second {
            found: nothing_found(),
            asks: line_rested(alloc, Axis::Horizontal, *cross, b, family)?,
        }),
        (Kind::Column { cross, .. }, Ask::AsBox(b)) => Ok(Second {
            found: nothing_found(),
            asks: line_rested(alloc, Axis::Vertical, *cross, b, family)?,
        }),
        _ => {
            let told = told_in(alloc, family)?;
            let frames = frames_in(alloc, family)?;
            let found = findings(kind, scroll, ask, frames.as_slice());
            let asks = rest_asks(alloc, kind, ask, found, told.as_slice(), frames.as_slice())?;
            Ok(Second {
                found,
                asks: Asks::Each(asks),
            })
        }
    }
}

fn nothing_found() -> Found
    ensures { found_of result ≡ nothing_found }
{
    Found {
        size: Size::ZERO,
        start: 0,
    }
}

/// What comes of the frames of the children, as `make` has it. The error is want of memory.
pub fn made_of<F: Family>(
    alloc: Global,
    kind: &Kind,
    count: u64,
    ask: Ask,
    found: Found,
    family: F,
    scale: Scale,
    table: &DelegateTable,
) -> Result<Made, AllocError>
    requires fits { Fits (look_in kind.now) (F.told family) }
    requires sizes { AreLong ask (frames_given (F.frames family)) }
    requires stack { HasLengths found.size }
    requires offset { IsOffset ask }
    requires walk { IsWalk (look_in kind.now) ask found.start (frames_given (F.frames family)) }
    ensures { IfOk result (λ m. ruling_of m ≡ ruling_for (setting_of scale (meant_in table.now ⟦<dyn Delegate as Delegate>⟧)) (look_in kind.now) count ask (found_of found) (F.told family) (F.frames family)) }
{
    match (kind, ask) {
        (Kind::Row { main, cross, size }, Ask::AsBox(b)) => line_made(
            alloc,
            line(Axis::Horizontal, *main, *cross, *size),
            b,
            family,
        ),
        (Kind::Column { main, cross, size }, Ask::AsBox(b)) => line_made(
            alloc,
            line(Axis::Vertical, *main, *cross, *size),
            b,
            family,
        ),
        _ => {
            let told = told_in(alloc, family)?;
            let frames = frames_in(alloc, family)?;
            make(
                alloc,
                kind,
                count,
                ask,
                found,
                told.as_slice(),
                frames.as_slice(),
                scale,
                table,
            )
        }
    }
}
