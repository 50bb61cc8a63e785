// The line `tween`, and `frame` with the tweens that run.
ghost use Rattle.std.specs.Prelude.{◌≡◌, Some, ◌+◌, ◌^◌, ◌<◌, ◌≤◌, ◌++◌, if◌then◌else◌, length, slice_get, string_bytes, IfOk, OnOk, OnErr};
ghost use Rattle.std.specs.Fmt.{signed_decimal};
ghost use Rattle.frame_session.specs.Holds.{IsOver, HoldsState, HoldsSome, frames_shown};
ghost use Rattle.session_form.specs.Outcome as outcome;
ghost use Rattle.session_form.specs.State.{SessionState};
ghost use Rattle.tickers.specs.Tween.{IsInRange};
ghost use Rattle.work_sets.specs.Before.{Frames};
ghost use Rattle.work_sets.specs.Work.{due_components};
ghost use Rattle.frame_session.specs.Works.{IsCaused};
ghost use Rattle.live_session.specs.Tweens.{set_number, set_at, stays};

use super::live::{Ended, Live};
use super::refusal::LineRefusal;
use counted_work::lines_keep_causes;
use delegates::Delegate;
use frame_session::{LineEnd, Session};
use fx_expr::Txt;
use fx_outside::Steps;
use script_lines::Command;
use std::alloc::{AllocError, Global};
use std::sync::ledger::Ledger;
use tickers::{StartFault, Tween, value};

// A number in decimal.
fn decimal(alloc: Global, n: i64) -> Result<String, AllocError>
    ensures { IfOk result (λ s. string_bytes s ≡ signed_decimal n) }
{
    format!(in alloc; "{n}")
}

// `set` of a field to a number.
fn set_number(alloc: Global, node: u64, field: &Txt, n: i64) -> Result<Command, AllocError>
    ensures { IfOk result (λ command. command ≡ set_number node field.now n) }
{
    let field = field.clone()?;
    let value = Txt::of(decimal(alloc, n)?);
    Ok(Command::Set { node, field, value })
}

// Whether a tween stays, by how its `set` ended.
fn stays(end: &LineEnd) -> bool
    ensures { (o : outcome.Outcome) → end.now ≡ outcome.end_of o → result ≡ stays o }
{
    match end {
        LineEnd::Done => true,
        LineEnd::Refused(_) => false,
        LineEnd::Fault(_) => true,
    }
}

impl Live {
    ghost use Rattle.std.specs.Prelude.{false};
    ghost use Rattle.tickers.specs.Running.{is_full, started, unfinished, without_at};
    ghost use Rattle.session_form.specs.Step.{step};
    ghost use Rattle.live_session.specs.EntryStep.{frame_entry};
    ghost use Rattle.live_session.specs.Focus.{order_in, focus_kept};
    ghost use Rattle.live_session.specs.LiveStands.{LiveStands, LiveLands, end_of, text_of};
    ghost use Rattle.live_session.specs.Memory.{MayLackMemory};
    ghost use Rattle.live_session.specs.RunState.{RunState, state_after};
    ghost use Rattle.live_session.specs.Tweens.{tween_entry, with_values, tweens_kept};
    ghost use Rattle.live_session.specs.Works.{framed_from, CameGoesOn};

    // `set` of a field to a number, as a line of the session.
    fn set_field<B: Ledger, L: Ledger, P: Ledger>(
        session: &mut Session,
        alloc: Global,
        node: u64,
        field: &Txt,
        n: i64,
        out: &mut Vec<u8>,
        builds: &mut Steps<B>,
        layouts: &mut Steps<L>,
        paints: &mut Steps<P>,
    ) -> Result<LineEnd, AllocError>
        requires going { IsOver session.old → ⊥ }
        requires holds { HoldsSome session.old ⟦<dyn Delegate as Delegate>⟧ }
        requires frames { frames_shown session.old < 2 ^ 32 }
        ensures state { (s : SessionState) → HoldsState session.old ⟦<dyn Delegate as Delegate>⟧ s → OnOk result (HoldsState session.new ⟦<dyn Delegate as Delegate>⟧ (outcome.state_after s (step s (set_number node field.now n)))) }
        ensures text { (s : SessionState) → HoldsState session.old ⟦<dyn Delegate as Delegate>⟧ s → OnOk result (out.new.items ≡ out.old.items ++ outcome.text_of (step s (set_number node field.now n))) }
        ensures end { (s : SessionState) → HoldsState session.old ⟦<dyn Delegate as Delegate>⟧ s → IfOk result (λ end. end ≡ outcome.end_of (step s (set_number node field.now n))) }
        ensures frames { frames_shown session.new ≤ frames_shown session.old }
        ensures causes { (frames : Frames) (s : SessionState) → HoldsState session.old ⟦<dyn Delegate as Delegate>⟧ s → IsCaused frames s session.old
            → OnOk result (IsCaused frames (outcome.state_after s (step s (set_number node field.now n))) session.new) }
        ensures idle { (builds.new ≡ builds.old) × (layouts.new ≡ layouts.old) × (paints.new ≡ paints.old) }
    {
        lines_keep_causes();
        let set = set_number(alloc, node, field, n)?;
        session.line(&set, out, builds, layouts, paints)
    }

    // `set` of a tween's field to its value at a time. The answer says whether the tween stays.
    fn play<B: Ledger, L: Ledger, P: Ledger>(
        session: &mut Session,
        alloc: Global,
        tween: &Tween,
        now: u64,
        out: &mut Vec<u8>,
        builds: &mut Steps<B>,
        layouts: &mut Steps<L>,
        paints: &mut Steps<P>,
    ) -> Result<bool, AllocError>
        requires going { IsOver session.old → ⊥ }
        requires holds { HoldsSome session.old ⟦<dyn Delegate as Delegate>⟧ }
        requires frames { frames_shown session.old < 2 ^ 32 }
        requires in_range { IsInRange tween.now }
        ensures session { (s : SessionState) → HoldsState session.old ⟦<dyn Delegate as Delegate>⟧ s → OnOk result (HoldsState session.new ⟦<dyn Delegate as Delegate>⟧ (outcome.state_after s (step s (set_at now tween.now)))) }
        ensures stays { (s : SessionState) → HoldsState session.old ⟦<dyn Delegate as Delegate>⟧ s → IfOk result (λ kept. kept ≡ stays (step s (set_at now tween.now))) }
        ensures text { (s : SessionState) → HoldsState session.old ⟦<dyn Delegate as Delegate>⟧ s → OnOk result (out.new.items ≡ out.old.items) }
        ensures frames { frames_shown session.new ≤ frames_shown session.old }
        ensures causes { (frames : Frames) (s : SessionState) → HoldsState session.old ⟦<dyn Delegate as Delegate>⟧ s → IsCaused frames s session.old
            → OnOk result (IsCaused frames (outcome.state_after s (step s (set_at now tween.now))) session.new) }
        ensures idle { (builds.new ≡ builds.old) × (layouts.new ≡ layouts.old) × (paints.new ≡ paints.old) }
    {
        let n = value(tween, now);
        let end = Live::set_field(
            session,
            alloc,
            tween.node,
            &tween.field,
            n,
            out,
            builds,
            layouts,
            paints,
        )?;
        Ok(stays(&end))
    }

    // `tween #n FIELD FROM TO MS CURVE`: sets the first value, and starts the tween where that is accepted.
    pub(crate) fn tween<B: Ledger, L: Ledger, P: Ledger>(
        &mut self,
        alloc: Global,
        tween: Tween,
        out: &mut Vec<u8>,
        builds: &mut Steps<B>,
        layouts: &mut Steps<L>,
        paints: &mut Steps<P>,
    ) -> Result<Ended, AllocError>
        requires going { IsOver self.old.session → ⊥ }
        requires holds { HoldsSome self.old.session ⟦<dyn Delegate as Delegate>⟧ }
        requires frames { frames_shown self.old.session < 2 ^ 32 }
        requires in_range { IsInRange tween }
        ensures state { (r : RunState) → LiveStands self.old ⟦<dyn Delegate as Delegate>⟧ r → OnOk result (LiveStands self.new ⟦<dyn Delegate as Delegate>⟧ (state_after r (tween_entry tween r))) }
        ensures text { (r : RunState) → LiveStands self.old ⟦<dyn Delegate as Delegate>⟧ r → OnOk result (out.new.items ≡ out.old.items ++ text_of (tween_entry tween r)) }
        ensures end { (r : RunState) → LiveStands self.old ⟦<dyn Delegate as Delegate>⟧ r → IfOk result (λ end. end ≡ end_of (tween_entry tween r)) }
        ensures frames { frames_shown self.new.session ≤ frames_shown self.old.session }
        ensures work { (frames : Frames) (r : RunState) → LiveStands self.old ⟦<dyn Delegate as Delegate>⟧ r → IsCaused frames r.session self.old.session
            → OnOk result (CameGoesOn frames r (tween_entry tween r) 0 self.new layouts.old layouts.new paints.old paints.new) }
        ensures unbuilt { builds.new ≡ builds.old }
    {
        if self.tickers.is_full(tween.node, tween.field.get()) {
            return Ok(Ended::Refused(LineRefusal::TooManyTweens));
        }
        let end = Live::set_field(
            &mut self.session,
            alloc,
            tween.node,
            &tween.field,
            tween.from,
            out,
            builds,
            layouts,
            paints,
        )?;
        match end {
            LineEnd::Done => self.start(tween),
            LineEnd::Refused(why) => Ok(Ended::Refused(LineRefusal::Command(why))),
            LineEnd::Fault(_) => Ok(Ended::Fault),
        }
    }

    // Starts a tween, for which there is room.
    fn start(&mut self, tween: Tween) -> Result<Ended, AllocError>
        requires room { is_full self.old.tickers tween.node tween.field ≡ false }
        requires in_range { IsInRange tween }
        ensures end { IfOk result (λ end. end ≡ Ended.Done) }
        ensures tickers { OnOk result (self.new.tickers ≡ started tween self.old.tickers) }
        ensures session { self.new.session ≡ self.old.session }
        ensures focus { self.new.focus ≡ self.old.focus }
        ensures raster { self.new.raster ≡ self.old.raster }
    {
        match self.tickers.start(tween) {
            Ok(()) => Ok(Ended::Done),
            Err(StartFault::TooManyTweens) => unreachable!(),
            Err(StartFault::OutOfMemory) => Err(AllocError),
        }
    }

    // Sets the value of the tween at a place, if there is one. Where that is refused the tween is dropped, and the answer is
    // false.
    fn set_value<B: Ledger, L: Ledger, P: Ledger>(
        &mut self,
        alloc: Global,
        i: usize,
        now: u64,
        out: &mut Vec<u8>,
        builds: &mut Steps<B>,
        layouts: &mut Steps<L>,
        paints: &mut Steps<P>,
    ) -> Result<bool, AllocError>
        requires going { IsOver self.old.session → ⊥ }
        requires holds { HoldsSome self.old.session ⟦<dyn Delegate as Delegate>⟧ }
        requires frames { frames_shown self.old.session < 2 ^ 32 }
        ensures session { (s : SessionState) (t : Tween) → HoldsState self.old.session ⟦<dyn Delegate as Delegate>⟧ s → slice_get self.old.tickers i ≡ Some t
            → OnOk result (HoldsState self.new.session ⟦<dyn Delegate as Delegate>⟧ (outcome.state_after s (step s (set_at now t)))) }
        ensures stays { (s : SessionState) (t : Tween) → HoldsState self.old.session ⟦<dyn Delegate as Delegate>⟧ s → slice_get self.old.tickers i ≡ Some t
            → IfOk result (λ kept. kept ≡ stays (step s (set_at now t))) }
        ensures tickers { IfOk result (λ kept. self.new.tickers ≡ (if kept then self.old.tickers else without_at i self.old.tickers)) }
        ensures text { (s : SessionState) → HoldsState self.old.session ⟦<dyn Delegate as Delegate>⟧ s → OnOk result (out.new.items ≡ out.old.items) }
        ensures focus { self.new.focus ≡ self.old.focus }
        ensures raster { self.new.raster ≡ self.old.raster }
        ensures frames { frames_shown self.new.session ≤ frames_shown self.old.session }
        ensures causes { (frames : Frames) (s : SessionState) (t : Tween) → HoldsState self.old.session ⟦<dyn Delegate as Delegate>⟧ s → slice_get self.old.tickers i ≡ Some t
            → IsCaused frames s self.old.session → OnOk result (IsCaused frames (outcome.state_after s (step s (set_at now t))) self.new.session) }
        ensures idle { (builds.new ≡ builds.old) × (layouts.new ≡ layouts.old) × (paints.new ≡ paints.old) }
    {
        let Some(tween) = self.tickers.at(i) else {
            return Ok(true);
        };
        if Live::play(
            &mut self.session,
            alloc,
            tween,
            now,
            out,
            builds,
            layouts,
            paints,
        )? {
            return Ok(true);
        }
        self.tickers.cancel_at(i);
        Ok(false)
    }

    // Sets the values that the tweens have at this time, one after another.
    fn set_values<B: Ledger, L: Ledger, P: Ledger>(
        &mut self,
        alloc: Global,
        now: u64,
        out: &mut Vec<u8>,
        builds: &mut Steps<B>,
        layouts: &mut Steps<L>,
        paints: &mut Steps<P>,
    ) -> Result<(), AllocError>
        requires holds { (r : RunState) × LiveStands self.old ⟦<dyn Delegate as Delegate>⟧ r }
        requires frames { frames_shown self.old.session < 2 ^ 32 }
        ensures state { (r : RunState) → LiveStands self.old ⟦<dyn Delegate as Delegate>⟧ r
            → OnOk result (LiveStands self.new ⟦<dyn Delegate as Delegate>⟧ (record r { session = with_values now r.tweens r.session; tweens = tweens_kept now r.session r.tweens })) }
        ensures text { (r : RunState) → LiveStands self.old ⟦<dyn Delegate as Delegate>⟧ r → OnOk result (out.new.items ≡ out.old.items) }
        ensures frames { frames_shown self.new.session ≤ frames_shown self.old.session }
        ensures causes { (frames : Frames) (r : RunState) → LiveStands self.old ⟦<dyn Delegate as Delegate>⟧ r → IsCaused frames r.session self.old.session
            → OnOk result (IsCaused frames (with_values now r.tweens r.session) self.new.session) }
        ensures idle { (builds.new ≡ builds.old) × (layouts.new ≡ layouts.old) × (paints.new ≡ paints.old) }
    {
        let mut i = 0;
        while i < self.tickers.count() {
            if self.set_value(alloc, i, now, out, builds, layouts, paints)? {
                i += 1;
            }
        }
        Ok(())
    }

    // After a frame that is shown: tweens are dropped that are at their end, and the focus stays where it can.
    fn after_frame(&mut self, alloc: Global, now: u64) -> Result<Ended, AllocError>
        ensures state { (r : RunState) → LiveStands self.old ⟦<dyn Delegate as Delegate>⟧ r
            → OnOk result (LiveStands self.new ⟦<dyn Delegate as Delegate>⟧ (record r { tweens = unfinished now r.tweens; focus = focus_kept (order_in r.session.shown) r.focus })) }
        ensures end { IfOk result (λ end. end ≡ Ended.Done) }
        ensures session { self.new.session ≡ self.old.session }
    {
        self.tickers.finish(now);
        self.keep_focus(alloc)?;
        Ok(Ended::Done)
    }

    // `frame`: it sets the tweens' values, then comes the session's frame, then tweens are dropped that are at their end, and
    // the focus stays where it can.
    pub(crate) fn frame<B: Ledger, L: Ledger, P: Ledger>(
        &mut self,
        alloc: Global,
        out: &mut Vec<u8>,
        builds: &mut Steps<B>,
        layouts: &mut Steps<L>,
        paints: &mut Steps<P>,
    ) -> Result<Ended, AllocError>
        requires holds { (r : RunState) × LiveStands self.old ⟦<dyn Delegate as Delegate>⟧ r }
        requires frames { frames_shown self.old.session < 2 ^ 32 }
        ensures state { (r : RunState) → LiveStands self.old ⟦<dyn Delegate as Delegate>⟧ r → OnOk result (LiveLands self.new ⟦<dyn Delegate as Delegate>⟧ r (frame_entry r)) }
        ensures text { (r : RunState) → LiveStands self.old ⟦<dyn Delegate as Delegate>⟧ r → OnOk result (out.new.items ≡ out.old.items ++ text_of (frame_entry r)) }
        ensures end { (r : RunState) → LiveStands self.old ⟦<dyn Delegate as Delegate>⟧ r → IfOk result (λ end. end ≡ end_of (frame_entry r)) }
        ensures memory { (r : RunState) → LiveStands self.old ⟦<dyn Delegate as Delegate>⟧ r → OnErr result (MayLackMemory (frame_entry r)) }
        ensures frames { frames_shown self.new.session ≤ frames_shown self.old.session + 1 }
        ensures work { (frames : Frames) (r : RunState) → LiveStands self.old ⟦<dyn Delegate as Delegate>⟧ r → IsCaused frames r.session self.old.session
            → OnOk result (CameGoesOn frames r (frame_entry r) 1 self.new layouts.old layouts.new paints.old paints.new) }
        ensures built { (r : RunState) → LiveStands self.old ⟦<dyn Delegate as Delegate>⟧ r → OnOk result (builds.new ≤ builds.old + length (due_components (framed_from r))) }
    {
        let now = self.session.time();
        self.set_values(alloc, now, out, builds, layouts, paints)?;
        match Ended::of(self.session.frame(out, builds, layouts, paints)?) {
            Ended::Done => self.after_frame(alloc, now),
            end => Ok(end),
        }
    }
}
