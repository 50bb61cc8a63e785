// The matching of a new child list to an old one, by a scan for each new child.
ghost use Rattle.std.specs.Prelude.{◌≡◌, ◌<◌, ◌≤◌, length, slice_range, OnOk, OnErr, IfSome, All, map};
ghost use Rattle.std.specs.List.{position_from};
ghost use Rattle.widget_model.specs.Update.{updates};
ghost use Rattle.widget_model.specs.View.{plain_of};
ghost use Rattle.reconcile.specs.Matching.{matching, match_at};
ghost use Rattle.reconcile.specs.Middle.{IsMiddleOf};
ghost use Rattle.widget_model.specs.View.{shared};

use crate::middle::{Middle, middle_of};
use std::alloc::{AllocError, Global};
use std::rc::Rc;
use widget_keys::Key;
use widget_model::{Widget, can_update};

// The place of the first old child of the middle that can update to a new one.
fn first_place(old: &[Rc<Widget>], middle: &Middle, widget: &Widget) -> Option<usize>
    requires ordered { middle.now.start ≤ middle.now.old_end }
    requires within { middle.now.old_end ≤ length old.now }
    ensures { result ≡ position_from (λ o. updates o (plain_of widget.now)) middle.now.start
        (slice_range (map shared old.now) middle.now.start middle.now.old_end) }
{
    for place in middle.start..middle.old_end {
        if can_update(&old[place], widget) {
            return Some(place);
        }
    }
    None
}

// The old place of the new child at place i.
fn match_at(old: &[Rc<Widget>], new: &[Rc<Widget>], middle: &Middle, i: usize) -> Option<usize>
    requires within { i < length new.now }
    requires middle { IsMiddleOf (map shared old.now) (map shared new.now) middle.now }
    ensures { result ≡ match_at (map shared old.now) (map shared new.now) i }
{
    if let Some(place) = middle.shared_place(i) {
        return Some(place);
    }
    let widget: &Widget = &new[i];
    if let Key::None = widget.key {
        return None;
    }
    first_place(old, middle, widget)
}

/// What `match_children` does, without a map of keys: it goes over the middle of the old list again for each new child
/// that has a key, and takes up to as many comparisons as the product of the two lengths. Keys may repeat; the first old
/// child that can update counts. Want of memory is the only error, and leaves `out` as it was.
pub fn match_by_scan(
    alloc: Global,
    old: &[Rc<Widget>],
    new: &[Rc<Widget>],
    out: &mut Vec<Option<usize>>,
) -> Result<(), AllocError>
    ensures ok { OnOk result (out.new.items ≡ matching (map shared old.now) (map shared new.now)) }
    ensures err { OnErr result (out.new.items ≡ out.old.items) }
    ensures within { OnOk result (All (λ place. IfSome place (λ j. j < length old.now)) out.new.items) }
{
    let middle = middle_of(old, new);
    let mut matches = Vec::with_capacity(alloc, new.len())?;
    for i in 0..new.len() {
        matches.push(match_at(old, new, &middle, i))?;
    }
    *out = matches;
    Ok(())
}
