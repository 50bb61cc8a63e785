//! Laws of matching. None of these calls does anything: their contracts say what holds of all lists.
ghost use Rattle.std.specs.Prelude.{◌≡◌, ◌↔◌, ℕ, ◌+◌, ◌-◌, ◌<◌, ◌≤◌, Some, None, List, map, length, slice_get};
ghost use Rattle.std.specs.Ordering.{eq_by_cmp};
ghost use Rattle.fx_expr.specs.Value.{value_eq};
ghost use Rattle.widget_keys.specs.Key.{IsRepeat};
ghost use Rattle.widget_model.specs.Plain.{PlainWidget};
ghost use Rattle.widget_model.specs.Plain.{key_of};
ghost use Rattle.std.specs.Borrow.{Bor};
ghost use Rattle.widget_keys.specs.declared.keys.Key.{Key};
ghost use Rattle.reconcile.specs.Keys.{NoKeyRepeats, of_lent};
ghost use Rattle.reconcile.specs.Laws.{CanUpdateAt, IsMatched, IsBetween, WasBetween, HasNoKeyAt, FrontCanUpdate, EndCanUpdate, IsGreatest, each_place};
ghost use Rattle.reconcile.specs.Matching.{prefix_len, suffix_len, matching};

use fx_expr::Value;

/// Each new child gets an answer.
pub fn one_answer_a_child()
    ensures { (old new : List PlainWidget) → length (matching old new) ≡ length new }
{}

/// An old child that a new one goes on from stands, and can update to it.
pub fn matched_pairs_can_update()
    ensures { (old new : List PlainWidget) (i j : ℕ) → IsMatched old new i j → CanUpdateAt old new j i }
{}

/// Where no key of the new list repeats, no two new children go on from one old child.
pub fn no_child_is_matched_twice()
    ensures { (old new : List PlainWidget) → NoKeyRepeats new
        → (i k j : ℕ) → IsMatched old new i j → IsMatched old new k j → i ≡ k }
{}

/// In a list matched with itself each child goes on from itself.
pub fn a_list_matches_itself()
    ensures { (ws : List PlainWidget) → matching ws ws ≡ map (λ i. Some i) (each_place (length ws)) }
{}

/// The front and the end that two lists share are kept whole.
pub fn front_and_end_are_kept()
    ensures front { (old new : List PlainWidget) (i : ℕ) → i < prefix_len old new → IsMatched old new i i }
    ensures end { (old new : List PlainWidget) (i : ℕ) → length new - suffix_len old new ≤ i → i < length new
        → IsMatched old new i (length old + i - length new) }
{}

/// Between the front and the end a new child with a key is matched to the old child there that can update to it, where no
/// key of the old list repeats; one without a key is matched to none.
pub fn keyed_children_are_matched()
    ensures keyed { (old new : List PlainWidget) (i j : ℕ) → NoKeyRepeats old → IsBetween old new i → WasBetween old new j
        → ¬ HasNoKeyAt new i → CanUpdateAt old new j i → IsMatched old new i j }
    ensures unkeyed { (old new : List PlainWidget) (i : ℕ) → IsBetween old new i → HasNoKeyAt new i
        → slice_get (matching old new) i ≡ Some None }
{}

/// The front is the longest whose pairs can update, and so is the end in what the front leaves.
pub fn front_and_end_are_longest()
    ensures front { (old new : List PlainWidget) → IsGreatest (FrontCanUpdate old new) (prefix_len old new) }
    ensures end { (old new : List PlainWidget) → IsGreatest (EndCanUpdate old new) (suffix_len old new) }
{}

/// No key repeats in a list of widgets exactly where no place of it is a repeat, by equality of values, or by their order, as
/// `first_repeat` finds it.
pub fn no_repeat_is_found()
    ensures by_value { (ws : List PlainWidget) → ((k : ℕ) → ¬ IsRepeat value_eq (map key_of ws) k) ↔ NoKeyRepeats ws }
    ensures by_order { (ws : List PlainWidget) → ((k : ℕ) → ¬ IsRepeat (eq_by_cmp ⟦<Value as Ord>⟧.cmp) (map key_of ws) k) ↔ NoKeyRepeats ws }
{}

/// So it is where the keys' values are lent, and `first_repeat` compares them by what they refer to.
pub fn no_lent_repeat_is_found()
    ensures { (ws : List PlainWidget) (keys : List (Key (Bor Value))) → map of_lent keys ≡ map key_of ws
        → ((k : ℕ) → ¬ IsRepeat (eq_by_cmp (λ v w. ⟦<Value as Ord>⟧.cmp v.now w.now)) keys k) → NoKeyRepeats ws }
{}
