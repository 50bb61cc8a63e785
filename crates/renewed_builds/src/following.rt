// The places from which widgets go on where no map of keys is needed: one alone, and those with numbers for keys.
ghost use Rattle.std.specs.Prelude.{◌≡◌, ◌<◌, ◌≤◌, true, false, Bool, List, None, Ok, length, map, get_or, IfOk, IfSome, IsTrue};
ghost use Rattle.widget_keys.specs.Key.{is_given};
ghost use Rattle.widget_model.specs.Plain.{PlainWidget, key_of};
ghost use Rattle.widget_model.specs.Update.{updates};
ghost use Rattle.widget_model.specs.View.{plain_of, shared};
ghost use Rattle.reconcile.specs.Keys.{NoKeyRepeats};
ghost use Rattle.settled_builds.specs.Retaken.{can_follow_all};
ghost use Rattle.renewed_builds.specs.Taking.{FollowAt};

use fx_expr::Value;
use std::alloc::{AllocError, Global};
use std::rc::Rc;
use widget_keys::Key;
use widget_model::{Widget, can_update};

// A table of fewer slots isn't worth its room.
const FEWEST_SLOTS: usize = 8;

/// The place of the one widget that another follows, if it can be updated to it; no places where there are none.
pub(crate) fn place_of_one(
    alloc: Global,
    was: &[Rc<Widget>],
    now: &[Rc<Widget>],
) -> Result<Option<Vec<usize>>, AllocError>
    requires many { length was.now ≡ length now.now }
    requires few { length now.now ≤ 1 }
    ensures some { IfOk result (λ o. IfSome o (λ places. FollowAt (map shared was.now) (map shared now.now) places.items)) }
    ensures none { result ≡ Ok None → (cans : List (PlainWidget → Bool)) → can_follow_all (map shared was.now) (map shared now.now) cans ≡ false }
{
    if was.is_empty() {
        return Ok(Some(Vec::new(alloc)));
    }
    let old: &Widget = &was[0];
    let new: &Widget = &now[0];
    if !can_update(old, new) {
        return Ok(None);
    }
    let mut places = Vec::with_capacity(alloc, 1)?;
    places.push(0)?;
    Ok(Some(places))
}

// The slot of a widget whose local key is a number.
fn slot_of(widget: &Widget, slots: usize) -> Option<usize>
    requires { 0 < slots }
    ensures { IfSome result (λ _. IsTrue (is_given (key_of (plain_of widget.now)))) }
{
    let Key::Local(Value::Int(number)) = &widget.key else {
        return None;
    };
    Some((number.unsigned_abs() % slots as u64) as usize)
}

// For each slot the last place of a widget whose it is, if each widget has a slot. Where two share one, the place of the other is missing.
fn places_by_slot(
    alloc: Global,
    widgets: &[Rc<Widget>],
    slots: usize,
) -> Result<Option<Vec<usize>>, AllocError>
    requires { 0 < slots }
{
    let mut places = vec![in alloc; 0; slots]?;
    for i in 0..widgets.len() {
        let Some(slot) = slot_of(&widgets[i], slots) else {
            return Ok(None);
        };
        if let Some(place) = places.get_mut(slot) {
            *place = i;
        }
    }
    Ok(Some(places))
}

// The place by slot of an old widget that can be updated to a new one with a key, where there is one.
fn place_for(old: &[Rc<Widget>], widget: &Widget, by_slot: &[usize]) -> Option<usize>
    ensures within { IfSome result (λ j. j < length old.now) }
    ensures given { IfSome result (λ j. IsTrue (is_given (key_of (plain_of widget.now)))) }
    ensures updates { IfSome result (λ j. updates (get_or (map shared old.now) j (plain_of widget.now)) (plain_of widget.now) ≡ true) }
{
    if by_slot.is_empty() {
        return None;
    }
    let slot = slot_of(widget, by_slot.len())?;
    let place = *by_slot.get(slot)?;
    let other = old.get(place)?;
    if !can_update(other, widget) {
        return None;
    }
    Some(place)
}

/// The places from which widgets follow others, where the keys of all are numbers that don't meet in a table; `None` says nothing.
pub(crate) fn places_by_number(
    alloc: Global,
    was: &[Rc<Widget>],
    now: &[Rc<Widget>],
) -> Result<Option<Vec<usize>>, AllocError>
    requires apart { NoKeyRepeats (map shared was.now) }
    requires many { length was.now ≡ length now.now }
    ensures { IfOk result (λ o. IfSome o (λ places. FollowAt (map shared was.now) (map shared now.now) places.items)) }
{
    let slots = was.len().saturating_mul(2);
    if slots < FEWEST_SLOTS || slot_of(&was[0], slots).is_none() {
        return Ok(None);
    }
    let Some(by_slot) = places_by_slot(alloc, was, slots)? else {
        return Ok(None);
    };
    let mut taken = vec![in alloc; false; was.len()]?;
    let mut places = Vec::with_capacity(alloc, now.len())?;
    for i in 0..now.len() {
        let widget: &Widget = &now[i];
        let Some(place) = place_for(was, widget, by_slot.as_slice()) else {
            return Ok(None);
        };
        if taken[place] {
            return Ok(None);
        }
        taken[place] = true;
        places.push(place)?;
    }
    Ok(Some(places))
}
