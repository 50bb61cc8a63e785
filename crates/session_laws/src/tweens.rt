// Laws of the tweens of a run.
ghost use Rattle.std.specs.Prelude.{◌≡◌, ℕ, ◌⊎◌, Some, None, List, All, Contains};
ghost use Rattle.delegates.specs.Table.{Plug};
ghost use Rattle.fx_expr.specs.declared.values.Value.TheVariants.{Int};
ghost use Rattle.program_check.specs.Checked.{PlainChecked};
ghost use Rattle.program_check.specs.TypedChecked.{IsTypedChecked};
ghost use Rattle.script_lines.specs.EntryReading.{HasEntryRanges};
ghost use Rattle.script_lines.specs.declared.entry.Entry.{Entry};
ghost use Rattle.tickers.specs.Tween.{tween_value_of};
ghost use Rattle.tickers.specs.declared.tween.Tween.{Tween};
ghost use Rattle.session_form.specs.Handlers.{node_in};
ghost use Rattle.live_session.specs.EntryStep.{frame_entry, entry_step};
ghost use Rattle.live_session.specs.Fields.{field_in};
ghost use Rattle.live_session.specs.RunState.{RunState, went, state_after};
ghost use Rattle.session_laws.specs.Focus.{IsThere};
ghost use Rattle.session_laws.specs.Runs.{run_after};
ghost use Rattle.session_laws.specs.Tweens.{IsCancelled, IsEnded, IsStarted};

use crate::numbers::sound_changes;
use build_form::{builds_are_well_built, states_survive, survivors};
use live_session::{running_tweens_keep_time, tweens_stay_apart};

/// A tween runs from its line on: one that runs after a line ran before, or the line starts it, at the present time. It goes on as
/// it is, with its node, field, start and all else, until it is replaced, cancelled or over.
pub fn tweens_run_on()
    ensures begins { (r : RunState) (entry : Entry) (t : Tween) → Contains (state_after r (entry_step r entry)).tweens t → Contains r.tweens t ⊎ IsStarted r entry t }
    ensures goes_on { (r : RunState) (entry : Entry) (t : Tween) → Contains r.tweens t → Contains (state_after r (entry_step r entry)).tweens t ⊎ IsEnded entry r t }
{}

/// In each state of a run of a checked program, by lines with numbers in their ranges, a running tween is cancelled only where its
/// node is gone.
pub fn tweens_are_cancelled_with_their_nodes()
    ensures { (c : PlainChecked) (delegates : List Plug) (entries : List Entry) (t : Tween) → IsTypedChecked c → All HasEntryRanges entries
        → let r = run_after c delegates entries in Contains r.tweens t → IsCancelled r.session.time r.session r.tweens t → node_in r.session.tree t.node ≡ None }
{
    sound_changes();
    survivors();
    builds_are_well_built();
    states_survive();
}

/// After a frame of such a run the field of each tween that ran until then, and whose node is in the tree then, is the tween's value
/// at the frame's time, whatever frames lay between.
pub fn tweens_show_their_values()
    ensures { (c : PlainChecked) (delegates : List Plug) (entries : List Entry) (next : RunState) (text : List ℕ) (t : Tween) → IsTypedChecked c
        → All HasEntryRanges entries → let r = run_after c delegates entries in Contains r.tweens t → frame_entry r ≡ went next text
        → IsThere next.session.tree t.node → field_in next.session t.node t.field ≡ Some (Int (tween_value_of t r.session.time)) }
{
    sound_changes();
    survivors();
    builds_are_well_built();
    states_survive();
    tweens_stay_apart();
    running_tweens_keep_time();
}
