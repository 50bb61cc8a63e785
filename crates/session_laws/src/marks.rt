// Laws of what lines mark and touch.
ghost use Rattle.std.specs.Prelude.{◌≡◌, ℕ, List, []};
ghost use Rattle.script_lines.specs.declared.command.Command.{Command};
ghost use Rattle.script_lines.specs.declared.command.Command.TheVariants.{Frame};
ghost use Rattle.script_lines.specs.declared.entry.Entry.{Entry};
ghost use Rattle.session_form.specs.Outcome as outcome;
ghost use Rattle.session_form.specs.State.{SessionState};
ghost use Rattle.session_form.specs.Step.{step};
ghost use Rattle.session_form.specs.declared.refusal.Refusal.{Refusal};
ghost use Rattle.live_session.specs.EntryStep.{entry_step};
ghost use Rattle.live_session.specs.RunState.{RunState, refused, state_after};
ghost use Rattle.live_session.specs.declared.refusal.LineRefusal.{LineRefusal};
ghost use Rattle.session_laws.specs.Marks.{marks_after, touched_after};

/// What a command marks and touches where it is done: `set` marks its node; each handler that an event runs marks its owner, but for
/// one outside components, which marks nothing; `scroll`, `delegate` and `unplug` touch what they name; and after a frame nothing is
/// marked or touched. A command that is refused leaves the state.
pub fn lines_mark_what_they_change()
    ensures done { (s next : SessionState) (command : Command) (text : List ℕ) → step s command ≡ outcome.done next text
        → (next.marks ≡ marks_after s command) × (next.touched ≡ touched_after s command) }
    ensures frames { (s next : SessionState) (text : List ℕ) → step s Frame ≡ outcome.done next text → (next.marks ≡ []) × (next.touched ≡ []) }
    ensures refused { (s : SessionState) (command : Command) (why : Refusal) → step s command ≡ outcome.refused why → outcome.state_after s (step s command) ≡ s }
    ensures refused_lines { (r : RunState) (entry : Entry) (why : LineRefusal) → entry_step r entry ≡ refused why → state_after r (entry_step r entry) ≡ r }
{}
