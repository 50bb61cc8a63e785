// The items of a lazy list: those of its child widgets that are entered.
ghost use Rattle.std.specs.Prelude.{◌≡◌, ◌∷◌, ◌++◌, [], ◌&&◌, is_some, filter, map, IfOk, OnOk};
ghost use Rattle.widget_model.specs.Plain.{look_of};
ghost use Rattle.widget_model.specs.View.{shared};
ghost use Rattle.build_form.specs.BuildRole.{build_role_of};
ghost use Rattle.build_form.specs.FullBuild.{keeps_alive};
ghost use Rattle.build_owner.specs.ArrivalView.{coming, is_there};

use crate::arriving::{Arrival, arrives};
use build_form::{BuildRole, build_role_of};
use sliver_layout::Window;
use std::alloc::{AllocError, Global};

// Whether a child of a lazy list stays while it isn't near what is seen.
fn stays(arrival: &Arrival) -> bool
    ensures { result ≡ (keeps_alive (build_role_of (look_of (shared arrival.now.widget))) && is_some arrival.now.beside) }
{
    match build_role_of(&arrival.widget.kind) {
        BuildRole::Keeps(kept) => kept && arrival.beside.is_some(),
        BuildRole::Composes { .. }
        | BuildRole::Provides { .. }
        | BuildRole::Lists(_)
        | BuildRole::Holds => false,
    }
}

// Whether a child of a lazy list is there.
fn is_item(range: Window, arrival: &Arrival) -> bool
    ensures { result ≡ is_there range (coming arrival.now) }
{
    if range.first <= arrival.place && arrival.place < range.end {
        return true;
    }
    stays(arrival)
}

// Adds a child of a lazy list, if it is there.
fn add_item(items: &mut Vec<Arrival>, range: Window, arrival: &Arrival) -> Result<(), AllocError>
    ensures { OnOk result (map coming items.new.items ≡ map coming items.old.items ++ filter (is_there range) (coming arrival.now ∷ [])) }
{
    if !is_item(range, arrival) {
        return Ok(());
    }
    let item = arrives(&arrival.widget, arrival.place, arrival.beside)?;
    items.push(item)?;
    Ok(())
}

/// The children of a lazy list that are there: those in a range, and those that stay.
pub(crate) fn items_among(
    alloc: Global,
    range: Window,
    arriving: &[Arrival],
) -> Result<Vec<Arrival>, AllocError>
    ensures { IfOk result (λ v. map coming v.items ≡ filter (is_there range) (map coming arriving.now)) }
{
    let mut items = Vec::new(alloc);
    for i in 0..arriving.len() {
        add_item(&mut items, range, &arriving[i])?;
    }
    Ok(items)
}
