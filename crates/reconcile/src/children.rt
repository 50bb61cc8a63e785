// The matching of a new child list to an old one, by a map of keys.
ghost use Rattle.std.specs.Prelude.{◌≡◌, ◌<◌, ◌≤◌, ◌-◌, length, OnOk, OnErr, IfOk, IfSome, All, map};
ghost use Rattle.reconcile.specs.Keys.{NoKeyRepeats};
ghost use Rattle.reconcile.specs.Matching.{matching, match_at};
ghost use Rattle.reconcile.specs.Middle.{IsMiddleOf};
ghost use Rattle.reconcile.specs.Places.{ArePlaces};
ghost use Rattle.widget_model.specs.View.{shared};

use crate::middle::{Middle, middle_of};
use crate::places::{place_of, places_by_key};
use fx_expr::Value;
use std::alloc::{AllocError, Global};
use std::collections::BTreeMap;
use std::rc::Rc;
use widget_keys::Key;
use widget_model::{Widget, can_update};

// The old place of the new child at place i, by the places that are kept for keys.
fn match_at<'a>(
    old: &[Rc<Widget>],
    new: &'a [Rc<Widget>],
    middle: &Middle,
    places: &BTreeMap<&'a Key<Value>, usize>,
    i: usize,
) -> Option<usize>
    requires within { i < length new.now }
    requires no_repeats { NoKeyRepeats (map shared old.now) }
    requires middle { IsMiddleOf (map shared old.now) (map shared new.now) middle.now }
    requires places { ArePlaces (map shared old.now) middle.now.start middle.now.old_end places.now }
    ensures { result ≡ match_at (map shared old.now) (map shared new.now) i }
{
    if let Some(place) = middle.shared_place(i) {
        return Some(place);
    }
    let widget: &Widget = &new[i];
    if let Key::None = widget.key {
        return None;
    }
    let place = place_of(places, &widget.key)?;
    if !can_update(&old[place], widget) {
        return None;
    }
    Some(place)
}

/// Replaces `out` by what each new child goes on from: the place of a child in the old list, or `None`.
///
/// The front of the two lists, as long as its pairs can update, is matched place by place, and so is the end, in what
/// the front leaves of both. Between them a new child with a key is matched to the old child there that has the same
/// key and the same type; all others are matched to none. It takes (m + n) log m comparisons of keys, for m old children
/// and n new ones. Want of memory is the only error, and leaves `out` as it was.
///
/// No key may repeat in the old list.
pub fn match_children(
    alloc: Global,
    old: &[Rc<Widget>],
    new: &[Rc<Widget>],
    out: &mut Vec<Option<usize>>,
) -> Result<(), AllocError>
    requires { NoKeyRepeats (map shared old.now) }
    ensures ok { OnOk result (out.new.items ≡ matching (map shared old.now) (map shared new.now)) }
    ensures err { OnErr result (out.new.items ≡ out.old.items) }
    ensures within { OnOk result (All (λ place. IfSome place (λ j. j < length old.now)) out.new.items) }
{
    let middle = middle_of(old, new);
    let places = places_by_key(alloc, old, middle.start, middle.old_end)?;
    let mut matches = Vec::with_capacity(alloc, new.len())?;
    for i in 0..new.len() {
        matches.push(match_at(old, new, &middle, &places, i))?;
    }
    *out = matches;
    Ok(())
}
