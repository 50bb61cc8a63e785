// Laws of the focus in a run.
ghost use Rattle.std.specs.Prelude.{◌≡◌, ◌↔◌, ℕ, Some, List, Contains};
ghost use Rattle.delegates.specs.Table.{Plug};
ghost use Rattle.fx_geom.specs.declared.shapes.Offset.{Offset};
ghost use Rattle.plain_tree.specs.Laid.{Laid};
ghost use Rattle.plain_tree.specs.Laws.{laid_numbers_of, AllDiffer};
ghost use Rattle.program_check.specs.Checked.{PlainChecked};
ghost use Rattle.program_check.specs.TypedChecked.{IsTypedChecked};
ghost use Rattle.screen_form.specs.FocusOrder.{spots_of, focus_order_of};
ghost use Rattle.screen_form.specs.declared.spot.Spot.{Spot};
ghost use Rattle.script_lines.specs.declared.entry.Entry.{Entry};
ghost use Rattle.live_session.specs.EntryStep.{frame_entry, entry_step};
ghost use Rattle.live_session.specs.RunState.{RunState, went, state_after};
ghost use Rattle.session_laws.specs.Focus.{CanHaveFocus, CanTakeFocus, CanTakeFocusIn, IsThere};
ghost use Rattle.session_laws.specs.Runs.{run_after, HasFocus};

use crate::numbers::numbers_stay_apart;
use live_session::focus_stays;
use screen_form::order_has_each_once;

/// The detectors that can have the focus are those with a tap to which a way leads that nothing on it hides: each spot is the place of
/// such a one, and the order has their numbers, where all numbers differ.
pub fn ways_lead_to_the_focus()
    ensures spots { (root : Laid) (from : Offset) (spot : Spot) → Contains (spots_of root from) spot ↔ CanHaveFocus root from spot }
    ensures order { (root : Laid) (number : ℕ) → AllDiffer (laid_numbers_of root) → Contains (focus_order_of root) number ↔ CanTakeFocus root number }
{
    order_has_each_once();
}

/// In each state of a run who has the focus can have it. After a frame a node has it exactly where it had it before, was in the tree,
/// is in the new one and can have it there.
pub fn focus_stays_with_its_node()
    ensures next { (r : RunState) (entry : Entry) → HasFocus r → HasFocus (state_after r (entry_step r entry)) }
    ensures run { (c : PlainChecked) (delegates : List Plug) (entries : List Entry) → HasFocus (run_after c delegates entries) }
    ensures frames { (c : PlainChecked) (delegates : List Plug) (entries : List Entry) (next : RunState) (text : List ℕ) (number : ℕ) → IsTypedChecked c
        → let r = run_after c delegates entries in frame_entry r ≡ went next text
        → (next.focus ≡ Some number)
        ↔ ((r.focus ≡ Some number) × IsThere r.session.tree number × IsThere next.session.tree number × CanTakeFocusIn next.session.shown number) }
{
    numbers_stay_apart();
    focus_stays();
    order_has_each_once();
}
