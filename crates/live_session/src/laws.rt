// What the definitions of a script line give together.
ghost use Rattle.std.specs.Prelude.{◌≡◌, ◌↔◌, ℕ, false, Some, List, ◌∷◌, ◌++◌, All, Contains};
ghost use Rattle.fx_expr.specs.declared.values.Value.{Value};
ghost use Rattle.fx_expr.specs.declared.values.Value.TheVariants.{Int};
ghost use Rattle.script_lines.specs.declared.entry.Entry.{Entry};
ghost use Rattle.tickers.specs.Running.{AreApart, is_on};
ghost use Rattle.tickers.specs.Tween.{IsInRange, tween_value_of};
ghost use Rattle.tickers.specs.declared.tween.Tween.{Tween};
ghost use Rattle.session_form.specs.Outcome as outcome;
ghost use Rattle.session_form.specs.State.{SessionState};
ghost use Rattle.session_form.specs.Step.{step};
ghost use Rattle.live_session.specs.EntryStep.{frame_entry, entry_step};
ghost use Rattle.live_session.specs.Fields.{field_in};
ghost use Rattle.live_session.specs.Focus.{order_in};
ghost use Rattle.live_session.specs.RunState.{RunState, at_first, went, state_after};
ghost use Rattle.live_session.specs.Tweens.{set_at, with_values};

/// In the state that a frame is built from, the field of a tween whose `set` is accepted has the tween's value at the frame's
/// time, where no other tween is on that field. So it doesn't depend on what frames came before.
pub fn tweens_keep_time()
    ensures { (now : ℕ) (s next : SessionState) (front back : List Tween) (t : Tween) (text : List ℕ) (old : Value) → IsInRange t
        → All (λ u. is_on t.node t.field u ≡ false) front → All (λ u. is_on t.node t.field u ≡ false) back
        → field_in s t.node t.field ≡ Some old → step (with_values now front s) (set_at now t) ≡ outcome.done next text
        → field_in (with_values now (front ++ t ∷ back) s) t.node t.field ≡ Some (Int (tween_value_of t now)) }
{}

/// In each state of a run no two running tweens have one node and field: so it is before the first line, and so each line leaves it.
pub fn tweens_stay_apart()
    ensures first { (s : SessionState) → AreApart (at_first s).tweens }
    ensures next { (r : RunState) (entry : Entry) → AreApart r.tweens → AreApart (state_after r (entry_step r entry)).tweens }
{}

/// So in each state of a run the field of a running tween whose `set` is accepted has the tween's value at the present time when
/// `frame` builds.
pub fn running_tweens_keep_time()
    ensures { (r : RunState) (next : SessionState) (front back : List Tween) (t : Tween) (text : List ℕ) (old : Value) → AreApart r.tweens
        → r.tweens ≡ front ++ t ∷ back → IsInRange t → field_in r.session t.node t.field ≡ Some old
        → step (with_values r.session.time front r.session) (set_at r.session.time t) ≡ outcome.done next text
        → field_in (with_values r.session.time r.tweens r.session) t.node t.field ≡ Some (Int (tween_value_of t r.session.time)) }
{}

/// After a frame a node has the focus exactly where it had it before, and is among those that the frame shows and that can
/// have it.
pub fn focus_stays()
    ensures { (r next : RunState) (text : List ℕ) (number : ℕ) → frame_entry r ≡ went next text
        → (next.focus ≡ Some number) ↔ ((r.focus ≡ Some number) × Contains (order_in next.session.shown) number) }
{}
