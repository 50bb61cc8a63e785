// A session, and what a run keeps beside it: tweens, the focus, and the cells that were printed last.
ghost use Rattle.std.specs.Prelude.{◌≡◌, ◌+◌, ◌*◌, ◌^◌, ◌<◌, ◌≤◌, ◌≢◌, ◌↔◌, [], ◌++◌, true, false, All, length, Ok, IfOk, OnOk, OnErr};
ghost use Rattle.frame_session.specs.Holds.{HoldsState, frames_shown};
ghost use Rattle.session_form.specs.State.{SessionState};
ghost use Rattle.tickers.specs.Tween as tween;
ghost use Rattle.work_sets.specs.Before.{Frames};
ghost use Rattle.work_sets.specs.Work.{due_components};
ghost use Rattle.frame_session.specs.Works.{IsCaused};

use super::refusal::LineRefusal;
use cell_raster::Raster;
use delegates::Delegate;
use frame_session::{LineEnd, Session};
use fx_outside::Steps;
use script_lines::{Action, Command, Entry};
use std::alloc::{AllocError, Global};
use std::mem;
use std::sync::ledger::Ledger;
use tickers::{Tickers, Tween};

/// How a line ended, without the fault of a frame, whose line is printed.
#[derive(Clone, Copy)]
pub enum Ended {
    Done,
    Refused(LineRefusal),
    Fault,
}

impl Ended {
    ghost use Rattle.live_session.specs.LiveStands.{ended_by};

    pub fn of(end: LineEnd) -> Ended
        ensures { result ≡ ended_by end }
    {
        match end {
            LineEnd::Done => Ended::Done,
            LineEnd::Refused(why) => Ended::Refused(LineRefusal::Command(why)),
            LineEnd::Fault(_) => Ended::Fault,
        }
    }
}

// An empty text, in the room of `out` where nothing stands there.
fn empty_text(alloc: Global, out: &mut Vec<u8>) -> Vec<u8>
    ensures empty { result.items ≡ [] }
    ensures kept { out.new.items ≡ out.old.items }
{
    if out.is_empty() {
        return mem::replace(out, Vec::new(alloc));
    }
    Vec::new(alloc)
}

// How a line ends whose text is added. It takes memory only where there is a text, and where none was there before it is taken whole.
fn added(end: Ended, text: Vec<u8>, out: &mut Vec<u8>) -> Result<Ended, AllocError>
    ensures end { IfOk result (λ same. same ≡ end) }
    ensures ok { OnOk result (out.new.items ≡ out.old.items ++ text.items) }
    ensures err { OnErr result (out.new.items ≡ out.old.items) }
    ensures memory { OnErr result (text.items ≢ []) }
{
    if out.is_empty() {
        *out = text;
        return Ok(end);
    }
    if !text.is_empty() {
        out.extend_from_slice(text.as_slice())?;
    }
    Ok(end)
}

/// A session, and what stands beside it. The numbers of each tween lie in their ranges. After want of memory it is spent: each
/// later line answers want of memory.
#[derive(Drop)]
pub struct Live {
    pub(crate) session: Session,
    pub(crate) tickers: Tickers,
    pub(crate) focus: Option<u64>,
    pub(crate) raster: Raster,
    spent: bool,
    ghost in_range: { All tween.IsInRange tickers },
}

impl Live {
    ghost use Rattle.script_lines.specs.EntryReading.{HasEntryRanges};
    ghost use Rattle.script_lines.specs.Ranges.{IsInRange, HasSignedRanges};
    ghost use Rattle.session_form.specs.Step.{frames_of, step};
    ghost use Rattle.live_session.specs.EntryStep.{command_step, entry_step};
    ghost use Rattle.live_session.specs.Focus.{press_entry};
    ghost use Rattle.live_session.specs.LiveStands.{LiveStands, LiveLands, StandsSome, IsSpent, end_of, text_of, frames_in};
    ghost use Rattle.live_session.specs.Memory.{MayLackMemory, is_tween, takes_no_memory};
    ghost use Rattle.live_session.specs.Works.{frames_of_entry, framed_from, IsLiveCaused, CameGoesOn, EntryGoesOn};
    ghost use Rattle.live_session.specs.RunState.{RunState, refused, state_after, at_first, with_session};
    ghost use Rattle.live_session.specs.declared.refusal.LineRefusal.{LineRefusal};

    /// A session before its first script line.
    pub fn new(alloc: Global, session: Session) -> Live
        ensures stands { (s : SessionState) → HoldsState session ⟦<dyn Delegate as Delegate>⟧ s → LiveStands result ⟦<dyn Delegate as Delegate>⟧ (at_first s) }
        ensures causes { (frames : Frames) (s : SessionState) → IsCaused frames s session → IsLiveCaused frames (at_first s) result }
        ensures frames { frames_in result ≡ frames_shown session }
        ensures fresh { IsSpent result → ⊥ }
    {
        Live {
            session,
            tickers: Tickers::new(alloc),
            focus: None,
            raster: Raster::new(alloc),
            spent: false,
        }
    }

    /// Does what a line asks for, and appends its text, without that of a refusal. Unless it is spent it stands for some state of a run.
    /// Want of memory spends it, and leaves `out` as it was. It never comes in place of a refusal that is found before anything takes memory.
    pub fn entry<B: Ledger, L: Ledger, P: Ledger>(
        &mut self,
        alloc: Global,
        entry: &Entry,
        out: &mut Vec<u8>,
        builds: &mut Steps<B>,
        layouts: &mut Steps<L>,
        paints: &mut Steps<P>,
    ) -> Result<Ended, AllocError>
        requires holds { StandsSome self.old ⟦<dyn Delegate as Delegate>⟧ }
        requires frames { frames_in self.old < 2 ^ 32 }
        requires in_range { HasEntryRanges entry.now }
        ensures state { (r : RunState) → LiveStands self.old ⟦<dyn Delegate as Delegate>⟧ r → OnOk result (LiveLands self.new ⟦<dyn Delegate as Delegate>⟧ r (entry_step r entry.now)) }
        ensures text { (r : RunState) → LiveStands self.old ⟦<dyn Delegate as Delegate>⟧ r → OnOk result (out.new.items ≡ out.old.items ++ text_of (entry_step r entry.now)) }
        ensures end { (r : RunState) → LiveStands self.old ⟦<dyn Delegate as Delegate>⟧ r → IfOk result (λ end. end ≡ end_of (entry_step r entry.now)) }
        ensures refused { (r : RunState) (why : LineRefusal) → (IsSpent self.old → ⊥) → is_tween entry.now ≡ false → takes_no_memory why ≡ true
            → LiveStands self.old ⟦<dyn Delegate as Delegate>⟧ r → (result ≡ Ok (Ended.Refused why)) ↔ (entry_step r entry.now ≡ refused why) }
        // Where the line makes a frame no more layouts and paints are counted than the frame's work, where it is known which frames layouts
        // left and that flags have causes; the line leaves it known. Any other line counts none.
        ensures work { (frames : Frames) (r : RunState) → LiveStands self.old ⟦<dyn Delegate as Delegate>⟧ r → IsLiveCaused frames r self.old
            → OnOk result (EntryGoesOn frames r entry.now self.new layouts.old layouts.new paints.old paints.new) }
        // It builds no more components then than are due, and any other line none.
        ensures built { (r : RunState) → LiveStands self.old ⟦<dyn Delegate as Delegate>⟧ r → OnOk result (builds.new ≤ builds.old + frames_of_entry entry.now * length (due_components (framed_from r))) }
        ensures frames { frames_in self.new ≤ frames_in self.old + 1 }
        ensures err { OnErr result (out.new.items ≡ out.old.items) }
        ensures fresh { OnOk result (IsSpent self.new → ⊥) }
        ensures spent { OnErr result (IsSpent self.new) }
        ensures stays_spent { IsSpent self.old → OnOk result ⊥ }
    {
        if self.spent {
            return Err(AllocError);
        }
        let end = self.answer_whole(alloc, entry, out, builds, layouts, paints);
        self.spent = end.is_err();
        end
    }

    // Does what a line asks for, where no want of memory came before. Its text is made whole and then added.
    fn answer_whole<B: Ledger, L: Ledger, P: Ledger>(
        &mut self,
        alloc: Global,
        entry: &Entry,
        out: &mut Vec<u8>,
        builds: &mut Steps<B>,
        layouts: &mut Steps<L>,
        paints: &mut Steps<P>,
    ) -> Result<Ended, AllocError>
        requires holds { (r : RunState) × LiveStands self.old ⟦<dyn Delegate as Delegate>⟧ r }
        requires frames { frames_in self.old < 2 ^ 32 }
        requires in_range { HasEntryRanges entry.now }
        ensures state { (r : RunState) → LiveStands self.old ⟦<dyn Delegate as Delegate>⟧ r → OnOk result (LiveLands self.new ⟦<dyn Delegate as Delegate>⟧ r (entry_step r entry.now)) }
        ensures text { (r : RunState) → LiveStands self.old ⟦<dyn Delegate as Delegate>⟧ r → OnOk result (out.new.items ≡ out.old.items ++ text_of (entry_step r entry.now)) }
        ensures end { (r : RunState) → LiveStands self.old ⟦<dyn Delegate as Delegate>⟧ r → IfOk result (λ end. end ≡ end_of (entry_step r entry.now)) }
        ensures memory { (r : RunState) → is_tween entry.now ≡ false → LiveStands self.old ⟦<dyn Delegate as Delegate>⟧ r → OnErr result (MayLackMemory (entry_step r entry.now)) }
        ensures work { (frames : Frames) (r : RunState) → LiveStands self.old ⟦<dyn Delegate as Delegate>⟧ r → IsCaused frames r.session self.old.session
            → OnOk result (EntryGoesOn frames r entry.now self.new layouts.old layouts.new paints.old paints.new) }
        ensures built { (r : RunState) → LiveStands self.old ⟦<dyn Delegate as Delegate>⟧ r → OnOk result (builds.new ≤ builds.old + frames_of_entry entry.now * length (due_components (framed_from r))) }
        ensures frames { frames_in self.new ≤ frames_in self.old + 1 }
        ensures err { OnErr result (out.new.items ≡ out.old.items) }
    {
        let mut text = empty_text(alloc, out);
        let end = self.answer(alloc, entry, &mut text, builds, layouts, paints)?;
        added(end, text, out)
    }

    // Does what a line asks for, where no want of memory came before.
    fn answer<B: Ledger, L: Ledger, P: Ledger>(
        &mut self,
        alloc: Global,
        entry: &Entry,
        out: &mut Vec<u8>,
        builds: &mut Steps<B>,
        layouts: &mut Steps<L>,
        paints: &mut Steps<P>,
    ) -> Result<Ended, AllocError>
        requires holds { (r : RunState) × LiveStands self.old ⟦<dyn Delegate as Delegate>⟧ r }
        requires frames { frames_in self.old < 2 ^ 32 }
        requires in_range { HasEntryRanges entry.now }
        ensures state { (r : RunState) → LiveStands self.old ⟦<dyn Delegate as Delegate>⟧ r → OnOk result (LiveLands self.new ⟦<dyn Delegate as Delegate>⟧ r (entry_step r entry.now)) }
        ensures text { (r : RunState) → LiveStands self.old ⟦<dyn Delegate as Delegate>⟧ r → OnOk result (out.new.items ≡ out.old.items ++ text_of (entry_step r entry.now)) }
        ensures end { (r : RunState) → LiveStands self.old ⟦<dyn Delegate as Delegate>⟧ r → IfOk result (λ end. end ≡ end_of (entry_step r entry.now)) }
        ensures memory { (r : RunState) → is_tween entry.now ≡ false → LiveStands self.old ⟦<dyn Delegate as Delegate>⟧ r → OnErr result (MayLackMemory (entry_step r entry.now)) }
        ensures work { (frames : Frames) (r : RunState) → LiveStands self.old ⟦<dyn Delegate as Delegate>⟧ r → IsCaused frames r.session self.old.session
            → OnOk result (EntryGoesOn frames r entry.now self.new layouts.old layouts.new paints.old paints.new) }
        ensures built { (r : RunState) → LiveStands self.old ⟦<dyn Delegate as Delegate>⟧ r → OnOk result (builds.new ≤ builds.old + frames_of_entry entry.now * length (due_components (framed_from r))) }
        ensures frames { frames_in self.new ≤ frames_in self.old + 1 }
    {
        match entry {
            Entry::Line(command) => self.line(alloc, command, out, builds, layouts, paints),
            Entry::Tween {
                node,
                field,
                from,
                to,
                ms,
                curve,
            } => {
                let tween = Tween {
                    node: *node,
                    field: field.clone()?,
                    from: *from,
                    to: *to,
                    start: self.session.time(),
                    ms: *ms,
                    curve: *curve,
                };
                self.tween(alloc, tween, out, builds, layouts, paints)
            }
            Entry::FocusNext => self.focus_next(alloc, out),
            Entry::FocusPrev => self.focus_prev(alloc, out),
            Entry::FocusOn { node } => self.focus_on(alloc, *node, out),
            Entry::FocusNone => self.focus_to(alloc, None, out),
            Entry::Press => self.press(out, builds, layouts, paints),
            Entry::Cells => self.cells(alloc, out),
        }
    }

    // Does a command of the session, and at `frame` what comes with it.
    fn line<B: Ledger, L: Ledger, P: Ledger>(
        &mut self,
        alloc: Global,
        command: &Command,
        out: &mut Vec<u8>,
        builds: &mut Steps<B>,
        layouts: &mut Steps<L>,
        paints: &mut Steps<P>,
    ) -> Result<Ended, AllocError>
        requires holds { (r : RunState) × LiveStands self.old ⟦<dyn Delegate as Delegate>⟧ r }
        requires frames { frames_shown self.old.session < 2 ^ 32 }
        requires in_range { IsInRange command.now }
        ensures state { (r : RunState) → LiveStands self.old ⟦<dyn Delegate as Delegate>⟧ r → OnOk result (LiveLands self.new ⟦<dyn Delegate as Delegate>⟧ r (command_step r command.now)) }
        ensures text { (r : RunState) → LiveStands self.old ⟦<dyn Delegate as Delegate>⟧ r → OnOk result (out.new.items ≡ out.old.items ++ text_of (command_step r command.now)) }
        ensures end { (r : RunState) → LiveStands self.old ⟦<dyn Delegate as Delegate>⟧ r → IfOk result (λ end. end ≡ end_of (command_step r command.now)) }
        ensures memory { (r : RunState) → LiveStands self.old ⟦<dyn Delegate as Delegate>⟧ r → OnErr result (MayLackMemory (command_step r command.now)) }
        ensures work { (frames : Frames) (r : RunState) → LiveStands self.old ⟦<dyn Delegate as Delegate>⟧ r → IsCaused frames r.session self.old.session
            → OnOk result (CameGoesOn frames r (command_step r command.now) (frames_of command.now) self.new layouts.old layouts.new paints.old paints.new) }
        ensures built { (r : RunState) → LiveStands self.old ⟦<dyn Delegate as Delegate>⟧ r → OnOk result (builds.new ≤ builds.old + frames_of command.now * length (due_components (framed_from r))) }
        ensures frames { frames_shown self.new.session ≤ frames_shown self.old.session + 1 }
    {
        match command {
            Command::Frame => self.frame(alloc, out, builds, layouts, paints),
            _ => self.command(command, out, builds, layouts, paints),
        }
    }

    // `press`
    fn press<B: Ledger, L: Ledger, P: Ledger>(
        &mut self,
        out: &mut Vec<u8>,
        builds: &mut Steps<B>,
        layouts: &mut Steps<L>,
        paints: &mut Steps<P>,
    ) -> Result<Ended, AllocError>
        requires holds { (r : RunState) × LiveStands self.old ⟦<dyn Delegate as Delegate>⟧ r }
        requires frames { frames_shown self.old.session < 2 ^ 32 }
        ensures state { (r : RunState) → LiveStands self.old ⟦<dyn Delegate as Delegate>⟧ r → OnOk result (LiveStands self.new ⟦<dyn Delegate as Delegate>⟧ (state_after r (press_entry r))) }
        ensures text { (r : RunState) → LiveStands self.old ⟦<dyn Delegate as Delegate>⟧ r → OnOk result (out.new.items ≡ out.old.items ++ text_of (press_entry r)) }
        ensures end { (r : RunState) → LiveStands self.old ⟦<dyn Delegate as Delegate>⟧ r → IfOk result (λ end. end ≡ end_of (press_entry r)) }
        ensures memory { (r : RunState) → LiveStands self.old ⟦<dyn Delegate as Delegate>⟧ r → OnErr result (MayLackMemory (press_entry r)) }
        ensures work { (frames : Frames) (r : RunState) → LiveStands self.old ⟦<dyn Delegate as Delegate>⟧ r → IsCaused frames r.session self.old.session
            → OnOk result (CameGoesOn frames r (press_entry r) 0 self.new layouts.old layouts.new paints.old paints.new) }
        ensures unbuilt { builds.new ≡ builds.old }
        ensures frames { frames_shown self.new.session ≤ frames_shown self.old.session }
    {
        let Some(node) = self.focus else {
            return Ok(Ended::Refused(LineRefusal::NoFocus));
        };
        let tap = Command::Act {
            node,
            action: Action::Tap,
        };
        self.command(&tap, out, builds, layouts, paints)
    }

    // Does a command of the session that is no frame. What stands beside it stays.
    fn command<B: Ledger, L: Ledger, P: Ledger>(
        &mut self,
        command: &Command,
        out: &mut Vec<u8>,
        builds: &mut Steps<B>,
        layouts: &mut Steps<L>,
        paints: &mut Steps<P>,
    ) -> Result<Ended, AllocError>
        requires holds { (r : RunState) × LiveStands self.old ⟦<dyn Delegate as Delegate>⟧ r }
        requires frames { frames_shown self.old.session < 2 ^ 32 }
        requires in_range { HasSignedRanges command.now }
        ensures state { (r : RunState) → frames_of command.now ≡ 0 → LiveStands self.old ⟦<dyn Delegate as Delegate>⟧ r → OnOk result (LiveStands self.new ⟦<dyn Delegate as Delegate>⟧ (state_after r (with_session (step r.session command.now) r))) }
        ensures text { (r : RunState) → LiveStands self.old ⟦<dyn Delegate as Delegate>⟧ r → OnOk result (out.new.items ≡ out.old.items ++ text_of (with_session (step r.session command.now) r)) }
        ensures end { (r : RunState) → LiveStands self.old ⟦<dyn Delegate as Delegate>⟧ r → IfOk result (λ end. end ≡ end_of (with_session (step r.session command.now) r)) }
        ensures memory { (r : RunState) → LiveStands self.old ⟦<dyn Delegate as Delegate>⟧ r → OnErr result (MayLackMemory (with_session (step r.session command.now) r)) }
        ensures work { (frames : Frames) (r : RunState) → frames_of command.now ≡ 0 → LiveStands self.old ⟦<dyn Delegate as Delegate>⟧ r → IsCaused frames r.session self.old.session
            → OnOk result (CameGoesOn frames r (with_session (step r.session command.now) r) 0 self.new layouts.old layouts.new paints.old paints.new) }
        ensures unbuilt { frames_of command.now ≡ 0 → builds.new ≡ builds.old }
        ensures frames { frames_shown self.new.session ≤ frames_shown self.old.session + frames_of command.now }
    {
        let end = self.session.line(command, out, builds, layouts, paints)?;
        Ok(Ended::of(end))
    }
}
