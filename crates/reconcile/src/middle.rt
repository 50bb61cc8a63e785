// What the front and the end of two child lists have in common, and what stands between them.
ghost use Rattle.std.specs.Prelude.{◌≡◌, ◌+◌, ◌-◌, ◌^◌, ◌<◌, ◌≤◌, min, length, reverse, map};
ghost use Rattle.std.specs.List.{common_prefix_len};
ghost use Rattle.widget_model.specs.Update.{updates};
ghost use Rattle.reconcile.specs.Middle.{IsMiddleOf, shared_place};
ghost use Rattle.widget_model.specs.View.{shared};

use std::rc::Rc;
use widget_model::{Widget, can_update};

// How many pairs from the front on can update.
fn common_front(old: &[Rc<Widget>], new: &[Rc<Widget>]) -> usize
    ensures { result ≡ common_prefix_len updates (map shared old.now) (map shared new.now) }
{
    let most = old.len().min(new.len());
    for i in 0..most {
        if !can_update(&old[i], &new[i]) {
            return i;
        }
    }
    most
}

// How many pairs from the end on can update, at most a given number of them.
fn common_end(old: &[Rc<Widget>], new: &[Rc<Widget>], most: usize) -> usize
    requires in_old { most ≤ length old.now }
    requires in_new { most ≤ length new.now }
    ensures { result ≡ min (common_prefix_len updates (reverse (map shared old.now)) (reverse (map shared new.now))) most }
{
    for i in 0..most {
        if !can_update(&old[old.len() - 1 - i], &new[new.len() - 1 - i]) {
            return i;
        }
    }
    most
}

/// Where the front that two child lists share stops, and where in each the end that they share begins.
#[derive(Clone, Copy)]
pub(crate) struct Middle {
    pub(crate) start: usize,
    pub(crate) old_end: usize,
    pub(crate) new_end: usize,
}

impl Middle {
    /// The old place of the new child at place `i`, where it stands in the front or at the end.
    pub(crate) fn shared_place(&self, i: usize) -> Option<usize>
        requires { self.now.old_end + (i - self.now.new_end) < 2 ^ 64 }
        ensures { result ≡ shared_place self.now i }
    {
        if i < self.start {
            return Some(i);
        }
        if i >= self.new_end {
            return Some(self.old_end + (i - self.new_end));
        }
        None
    }
}

/// The middle of two child lists. It takes two more comparisons at most than the shorter list has children.
pub(crate) fn middle_of(old: &[Rc<Widget>], new: &[Rc<Widget>]) -> Middle
    ensures { IsMiddleOf (map shared old.now) (map shared new.now) result }
{
    let start = common_front(old, new);
    let shared = common_end(old, new, old.len().min(new.len()) - start);
    Middle {
        start,
        old_end: old.len() - shared,
        new_end: new.len() - shared,
    }
}
