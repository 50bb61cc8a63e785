// One command over what a session keeps and its delegates.
ghost use Rattle.std.specs.Prelude.{◌≡◌, ◌+◌, ◌*◌, ◌++◌, ◌<◌, ◌≤◌, ◌≤ℤ◌, ◌^◌, pos, neg_ℤ, [], length, IfOk, IsUtf8, OnOk, OnErr};
ghost use Rattle.delegates.specs.Table.{meant_in};
ghost use Rattle.gesture_arena.specs.StandsFor.{events_left};
ghost use Rattle.session_form.specs.Changing.{delegate_line, unplug_line};
ghost use Rattle.session_form.specs.Outcome.{state_after, text_of, end_of};
ghost use Rattle.script_lines.specs.Ranges.{HasSignedRanges};
ghost use Rattle.session_form.specs.Step.{frames_of};
ghost use Rattle.frame_session.specs.Ending.{IfGoesOn};
ghost use Rattle.frame_session.specs.Memory.{MayLackMemory};
ghost use Rattle.frame_session.specs.StandsFor.{StandsFor, IsRightStill, IsSound};
ghost use Rattle.frame_session.specs.Works.{NodesGoOn};
ghost use Rattle.work_sets.specs.Before.{Frames};
ghost use Rattle.work_sets.specs.Work.{due_components};
ghost use Rattle.versioned_kinds.specs.Versions.{StateKeepsToVersion};
ghost use Rattle.counted_work.specs.Known.{WorkIsCaused, DelegateGoes};
ghost use Rattle.session_form.specs.State.{SessionState};
ghost use Rattle.session_form.specs.Step.{step};

use crate::held::HeldSession;
use counted_work::lines_keep_causes;
use delegates::{Delegate, DelegateTable, SetEnd};
use frame_owner::what_stands_is_drawn;
use fx_expr::Txt;
use fx_geom::Offset;
use fx_outside::Steps;
use script_lines::Command;
use session_form::{LineEnd, Refusal};
use std::alloc::{AllocError, Global};
use std::sync::ledger::Ledger;

impl HeldSession {
    // `delegate NAME FIELD N`
    fn set_delegate(
        &mut self,
        delegates: &mut DelegateTable,
        name: &Txt,
        field: &Txt,
        n: i64,
    ) -> Result<LineEnd, AllocError>
        requires sound { IsSound self.old }
        requires low { neg_ℤ (pos (2 ^ 40)) ≤ℤ n }
        requires high { n ≤ℤ pos (2 ^ 40) }
        ensures state { (s : SessionState) → StandsFor self.old (meant_in delegates.old ⟦<dyn Delegate as Delegate>⟧) s
            → OnOk result (StandsFor self.new (meant_in delegates.new ⟦<dyn Delegate as Delegate>⟧) (state_after s (delegate_line name.now field.now n s))) }
        ensures end { (s : SessionState) → StandsFor self.old (meant_in delegates.old ⟦<dyn Delegate as Delegate>⟧) s
            → IfOk result (λ end. end ≡ end_of (delegate_line name.now field.now n s)) }
        ensures memory { (s : SessionState) → StandsFor self.old (meant_in delegates.old ⟦<dyn Delegate as Delegate>⟧) s
            → OnErr result (MayLackMemory (delegate_line name.now field.now n s)) }
        ensures goes { (s : SessionState) → StandsFor self.old (meant_in delegates.old ⟦<dyn Delegate as Delegate>⟧) s
            → OnOk result (DelegateGoes name.now (delegate_line name.now field.now n s) s self.old.owner.screen.nodes self.new.owner.screen.nodes) }
        ensures sound { OnOk result (IsSound self.new) }
        ensures pointers { self.new.pointers ≡ self.old.pointers }
        ensures frames { self.new.frames ≡ self.old.frames }
    {
        what_stands_is_drawn();
        match delegates.set(name.get(), field.get(), n) {
            SetEnd::Done => {
                self.owner.delegate_changed(name.get())?;
                Ok(LineEnd::Done)
            }
            SetEnd::NoDelegate => Ok(LineEnd::Refused(Refusal::NoDelegate)),
            SetEnd::NoField => Ok(LineEnd::Refused(Refusal::NoDelegateField)),
        }
    }

    // `unplug NAME`
    fn unplug(&mut self, delegates: &mut DelegateTable, name: &str) -> Result<LineEnd, AllocError>
        requires sound { IsSound self.old }
        requires name { IsUtf8 name.now }
        ensures state { (s : SessionState) → StandsFor self.old (meant_in delegates.old ⟦<dyn Delegate as Delegate>⟧) s
            → OnOk result (StandsFor self.new (meant_in delegates.new ⟦<dyn Delegate as Delegate>⟧) (state_after s (unplug_line name.now s))) }
        ensures end { (s : SessionState) → StandsFor self.old (meant_in delegates.old ⟦<dyn Delegate as Delegate>⟧) s
            → IfOk result (λ end. end ≡ end_of (unplug_line name.now s)) }
        ensures memory { (s : SessionState) → StandsFor self.old (meant_in delegates.old ⟦<dyn Delegate as Delegate>⟧) s
            → OnErr result (MayLackMemory (unplug_line name.now s)) }
        ensures goes { (s : SessionState) → StandsFor self.old (meant_in delegates.old ⟦<dyn Delegate as Delegate>⟧) s
            → OnOk result (DelegateGoes name.now (unplug_line name.now s) s self.old.owner.screen.nodes self.new.owner.screen.nodes) }
        ensures sound { OnOk result (IsSound self.new) }
        ensures pointers { self.new.pointers ≡ self.old.pointers }
        ensures frames { self.new.frames ≡ self.old.frames }
    {
        what_stands_is_drawn();
        if delegates.unplug(name) {
            self.owner.delegate_changed(name)?;
            return Ok(LineEnd::Done);
        }
        Ok(LineEnd::Refused(Refusal::NoDelegate))
    }
}

// Does one command, and appends its text.
pub(crate) fn step<B: Ledger, L: Ledger, P: Ledger>(
    alloc: Global,
    held: &mut HeldSession,
    delegates: &mut DelegateTable,
    command: &Command,
    out: &mut Vec<u8>,
    builds: &mut Steps<B>,
    layouts: &mut Steps<L>,
    paints: &mut Steps<P>,
) -> Result<LineEnd, AllocError>
    requires in_range { HasSignedRanges command.now }
    requires sound { IsSound held.old }
    requires right { IsRightStill (meant_in delegates.old ⟦<dyn Delegate as Delegate>⟧) held.old.owner }
    requires none_left { events_left held.old.pointers ≡ [] }
    requires frames { held.old.frames < 2 ^ 32 }
    ensures state { (s : SessionState) → StandsFor held.old (meant_in delegates.old ⟦<dyn Delegate as Delegate>⟧) s
        → IfGoesOn result (StandsFor held.new (meant_in delegates.new ⟦<dyn Delegate as Delegate>⟧) (state_after s (step s command.now))) }
    ensures text { (s : SessionState) → StandsFor held.old (meant_in delegates.old ⟦<dyn Delegate as Delegate>⟧) s
        → OnOk result (out.new.items ≡ out.old.items ++ text_of (step s command.now)) }
    ensures end { (s : SessionState) → StandsFor held.old (meant_in delegates.old ⟦<dyn Delegate as Delegate>⟧) s → IfOk result (λ end. end ≡ end_of (step s command.now)) }
    ensures memory { (s : SessionState) → StandsFor held.old (meant_in delegates.old ⟦<dyn Delegate as Delegate>⟧) s
        → OnErr result (MayLackMemory (step s command.now)) }
    ensures work { (frames : Frames) (s : SessionState) → StandsFor held.old (meant_in delegates.old ⟦<dyn Delegate as Delegate>⟧) s
        → StateKeepsToVersion s → WorkIsCaused frames s held.old.owner.screen.nodes
        → OnOk result (NodesGoOn frames s command.now held.new.owner.screen.nodes layouts.old layouts.new paints.old paints.new) }
    ensures built { (s : SessionState) → StandsFor held.old (meant_in delegates.old ⟦<dyn Delegate as Delegate>⟧) s
        → OnOk result (builds.new ≤ builds.old + frames_of command.now * length (due_components s)) }
    ensures idle { frames_of command.now ≡ 0 → (builds.new ≡ builds.old) × (layouts.new ≡ layouts.old) × (paints.new ≡ paints.old) }
    ensures sound { IfGoesOn result (IsSound held.new) }
    ensures none_left { IfGoesOn result (events_left held.new.pointers ≡ []) }
    ensures frames { OnOk result (held.new.frames ≤ held.old.frames + frames_of command.now) }
{
    lines_keep_causes();
    what_stands_is_drawn();
    match command {
        Command::Frame => held.frame(alloc, delegates, out, builds, layouts, paints),
        Command::At { t } => held.advance(alloc, *t, out),
        Command::Set { node, field, value } => held.set(alloc, *node, field, value),
        Command::Root { json } => held.replace_root(alloc, json),
        Command::Resize { w, h } => Ok(held.resize(*w, *h)),
        Command::Scroll { node, by } => Ok(held.scroll(*node, *by)),
        Command::Down { pointer, x, y } => held.down(alloc, *pointer, Offset { x: *x, y: *y }, out),
        Command::Move { pointer, x, y } => {
            held.move_to(alloc, *pointer, Offset { x: *x, y: *y }, out)
        }
        Command::Up { pointer } => held.up(alloc, *pointer, out),
        Command::Cancel { pointer } => held.cancel(alloc, *pointer, out),
        Command::Hit { x, y } => {
            held.hit(alloc, Offset { x: *x, y: *y }, out)?;
            Ok(LineEnd::Done)
        }
        Command::Semantics => {
            held.semantics(alloc, out)?;
            Ok(LineEnd::Done)
        }
        Command::Act { node, action } => held.act(alloc, *node, *action, out),
        Command::Delegate { name, field, n } => held.set_delegate(delegates, name, field, *n),
        Command::Unplug { name } => held.unplug(delegates, name.get()),
        Command::States => {
            held.states(alloc, out)?;
            Ok(LineEnd::Done)
        }
    }
}
