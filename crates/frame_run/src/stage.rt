ghost use Rattle.std.specs.Prelude.{◌≡◌, ℕ, ◌+◌, ◌^◌, ◌<◌, ◌≤◌, Bool, true, [], ◌∷◌, ◌++◌, List, IfOk, IfSome, OnOk, length, take, if◌then◌else◌};

use super::begin::begin;
use super::line::InputLine;
use super::script;
use super::script::Asked;
use super::status::Status;
use super::words::Mode;
use delegates::{Delegate, Named};
use fx_outside::Steps;
use live_session::{Ended, LineRefusal, Live};
use script_lines::Entry;
use std::alloc::{AllocError, Global};
use std::mem;
use std::sync::ledger::Ledger;

/// What stops a run before its input's end.
#[derive(Clone, Copy)]
pub enum RunStop {
    /// The program part is refused.
    BadProgram,
    /// A frame had a fault.
    FrameFault,
}

impl RunStop {
    ghost use Rattle.frame_run.specs.Job.{IsOwn};
    ghost use Rattle.frame_run.specs.Text.{stop_status};

    /// The status of a run that it stopped.
    pub fn status(self) -> Status
        ensures status { result ≡ stop_status self }
        ensures own { IsOwn result }
    {
        match self {
            RunStop::BadProgram => Status::BadProgram,
            RunStop::FrameFault => Status::FrameFault,
        }
    }
}

/// The program part as far as it has come, with what has come of its last line, and the delegates that the program may call.
#[derive(Drop)]
pub struct ProgramPart {
    pub mode: Mode,
    pub delegates: Vec<Named>,
    pub bytes: Vec<u8>,
    pub line_start: usize,
    ghost in_range: { line_start ≤ length bytes.items },
}

impl ProgramPart {
    /// Takes the next byte of the last line.
    pub fn push(&mut self, byte: u8) -> Result<(), AllocError>
        ensures bytes { OnOk result (self.new.bytes.items ≡ self.old.bytes.items ++ byte ∷ []) }
        ensures line_start { self.new.line_start ≡ self.old.line_start }
        ensures mode { self.new.mode ≡ self.old.mode }
        ensures delegates { self.new.delegates ≡ self.old.delegates }
    {
        self.bytes.push(byte)?;
        Ok(())
    }

    /// Ends the last line, which belongs to the program.
    pub fn end_line(&mut self) -> Result<(), AllocError>
        ensures bytes { OnOk result (self.new.bytes.items ≡ self.old.bytes.items ++ 10 ∷ []) }
        ensures line_start { OnOk result (self.new.line_start ≡ length self.new.bytes.items) }
        ensures mode { self.new.mode ≡ self.old.mode }
        ensures delegates { self.new.delegates ≡ self.old.delegates }
    {
        self.bytes.push(b'\n')?;
        self.line_start = self.bytes.len();
        Ok(())
    }

    /// Takes the delegates out.
    pub fn take_delegates(&mut self, alloc: Global) -> Vec<Named>
        ensures taken { result.items ≡ self.old.delegates.items }
        ensures mode { self.new.mode ≡ self.old.mode }
        ensures bytes { self.new.bytes ≡ self.old.bytes }
        ensures line_start { self.new.line_start ≡ self.old.line_start }
    {
        mem::replace(&mut self.delegates, Vec::new(alloc))
    }

    /// The program, at the end of the input: all that came, but for a last line that ends the program part.
    pub fn program(&self, is_marked: bool) -> &[u8]
        ensures { result.now ≡ (if is_marked then take self.now.line_start self.now.bytes.items else self.now.bytes.items) }
    {
        if is_marked {
            return self.before_line();
        }
        self.bytes.as_slice()
    }

    /// What came before the last line.
    pub fn before_line(&self) -> &[u8]
        ensures { result.now ≡ take self.now.line_start self.now.bytes.items }
    {
        &self.bytes[..self.line_start]
    }
}

/// The script as far as it has run.
#[derive(Drop)]
pub struct Script {
    pub live: Live,
    pub lines: u64,
    pub some_refused: bool,
}

impl Script {
    ghost use Rattle.frame_run.specs.InputLine.{HoldsLine};
    ghost use Rattle.live_session.specs.LiveStands.{StandsSome, frames_in};
    ghost use Rattle.script_lines.specs.EntryReading.{HasEntryRanges};
    ghost use Rattle.live_session.specs.EntryStep.{entry_step};
    ghost use Rattle.live_session.specs.RunState.{RunState};
    ghost use Rattle.frame_run.specs.Text.{stepped, stepped_text, after_script_line, script_text};
    ghost use Rattle.frame_run.specs.Script.{refused_text};
    ghost use Rattle.frame_run.specs.Job.{ScriptStands, ScriptLands};
    ghost use Rattle.frame_run.specs.Work.{asked_work, script_work};
    ghost use Rattle.frame_run.specs.Works.{IsScriptCaused, Went};
    ghost use Rattle.work_sets.specs.Before.{Frames};
    ghost use Rattle.live_session.specs.Works.{IsLiveCaused};

    /// Takes the line that ended, and appends its text. `Some` is what stopped the run.
    #[inline(always)]
    pub fn take_line<B: Ledger, L: Ledger, P: Ledger>(
        &mut self,
        alloc: Global,
        line: &InputLine,
        out: &mut Vec<u8>,
        builds: &mut Steps<B>,
        layouts: &mut Steps<L>,
        paints: &mut Steps<P>,
    ) -> Result<Option<RunStop>, AllocError>
        requires holds { StandsSome self.old.live ⟦<dyn Delegate as Delegate>⟧ }
        requires counted { self.old.lines + frames_in self.old.live + 2 < 2 ^ 32 }
        ensures lands { (s : RunState) (lines : ℕ) (refused : Bool) (raw : List ℕ) → ScriptStands self.old ⟦<dyn Delegate as Delegate>⟧ s lines refused → HoldsLine line.now raw
            → IfOk result (λ stop. ScriptLands stop self.new ⟦<dyn Delegate as Delegate>⟧ (after_script_line s (lines + 1) refused raw)) }
        ensures text { (s : RunState) (lines : ℕ) (refused : Bool) (raw : List ℕ) → ScriptStands self.old ⟦<dyn Delegate as Delegate>⟧ s lines refused → HoldsLine line.now raw
            → OnOk result (out.new.items ≡ out.old.items ++ script_text s (lines + 1) raw) }
        // Where flags have causes a frame counts no more builds, layouts and paints than its work, and leaves it so.
        ensures work { (frames : Frames) (s : RunState) (lines : ℕ) (refused : Bool) (raw : List ℕ) → ScriptStands self.old ⟦<dyn Delegate as Delegate>⟧ s lines refused → IsLiveCaused frames s self.old.live → HoldsLine line.now raw
            → OnOk result (Went (IsScriptCaused self.new) frames (after_script_line s (lines + 1) refused raw) (script_work frames s raw) builds.old builds.new layouts.old layouts.new paints.old paints.new) }
        ensures counted { self.new.lines + frames_in self.new.live ≤ self.old.lines + frames_in self.old.live + 2 }
    {
        self.lines += 1;
        if line.is_blank() {
            return Ok(None);
        }
        self.take_asked(alloc, line, out, builds, layouts, paints)
    }

    // Does what the present line asks for, and appends its text. A function of its own, so that a line of which nothing is left
    // costs no call.
    #[inline(never)]
    #[tactic(auto, unfolding(crate::specs::Text::after_script_line, crate::specs::Text::script_text))]
    fn take_asked<B: Ledger, L: Ledger, P: Ledger>(
        &mut self,
        alloc: Global,
        line: &InputLine,
        out: &mut Vec<u8>,
        builds: &mut Steps<B>,
        layouts: &mut Steps<L>,
        paints: &mut Steps<P>,
    ) -> Result<Option<RunStop>, AllocError>
        requires holds { StandsSome self.old.live ⟦<dyn Delegate as Delegate>⟧ }
        requires frames { frames_in self.old.live < 2 ^ 32 }
        ensures lands { (s : RunState) (lines : ℕ) (refused : Bool) (raw : List ℕ) → ScriptStands self.old ⟦<dyn Delegate as Delegate>⟧ s lines refused → HoldsLine line.now raw
            → IfOk result (λ stop. ScriptLands stop self.new ⟦<dyn Delegate as Delegate>⟧ (after_script_line s lines refused raw)) }
        ensures text { (s : RunState) (lines : ℕ) (refused : Bool) (raw : List ℕ) → ScriptStands self.old ⟦<dyn Delegate as Delegate>⟧ s lines refused → HoldsLine line.now raw
            → OnOk result (out.new.items ≡ out.old.items ++ script_text s lines raw) }
        ensures work { (frames : Frames) (s : RunState) (lines : ℕ) (refused : Bool) (raw : List ℕ) → ScriptStands self.old ⟦<dyn Delegate as Delegate>⟧ s lines refused → IsLiveCaused frames s self.old.live → HoldsLine line.now raw
            → OnOk result (Went (IsScriptCaused self.new) frames (after_script_line s lines refused raw) (script_work frames s raw) builds.old builds.new layouts.old layouts.new paints.old paints.new) }
        ensures lines { self.new.lines ≡ self.old.lines }
        ensures frames { frames_in self.new.live ≤ frames_in self.old.live + 1 }
    {
        match line.asked(alloc)? {
            Asked::Nothing => Ok(None),
            Asked::Entry(entry) => self.take_entry(alloc, &entry, out, builds, layouts, paints),
            Asked::Refused(refusal) => {
                self.refuse(refusal, out)?;
                Ok(None)
            }
        }
    }

    // Does what the present line asks for.
    fn take_entry<B: Ledger, L: Ledger, P: Ledger>(
        &mut self,
        alloc: Global,
        entry: &Entry,
        out: &mut Vec<u8>,
        builds: &mut Steps<B>,
        layouts: &mut Steps<L>,
        paints: &mut Steps<P>,
    ) -> Result<Option<RunStop>, AllocError>
        requires holds { StandsSome self.old.live ⟦<dyn Delegate as Delegate>⟧ }
        requires frames { frames_in self.old.live < 2 ^ 32 }
        requires in_range { HasEntryRanges entry.now }
        ensures lands { (s : RunState) (lines : ℕ) (refused : Bool) → ScriptStands self.old ⟦<dyn Delegate as Delegate>⟧ s lines refused
            → IfOk result (λ stop. ScriptLands stop self.new ⟦<dyn Delegate as Delegate>⟧ (stepped (entry_step s entry.now) s lines refused)) }
        ensures text { (s : RunState) (lines : ℕ) (refused : Bool) → ScriptStands self.old ⟦<dyn Delegate as Delegate>⟧ s lines refused
            → OnOk result (out.new.items ≡ out.old.items ++ stepped_text (entry_step s entry.now) lines) }
        ensures work { (frames : Frames) (s : RunState) (lines : ℕ) (refused : Bool) → ScriptStands self.old ⟦<dyn Delegate as Delegate>⟧ s lines refused → IsLiveCaused frames s self.old.live
            → OnOk result (Went (IsScriptCaused self.new) frames (stepped (entry_step s entry.now) s lines refused) (asked_work frames s (Asked.Entry entry.now)) builds.old builds.new layouts.old layouts.new paints.old paints.new) }
        ensures lines { self.new.lines ≡ self.old.lines }
        ensures frames { frames_in self.new.live ≤ frames_in self.old.live + 1 }
    {
        match self.live.entry(alloc, entry, out, builds, layouts, paints)? {
            Ended::Done => Ok(None),
            Ended::Refused(why) => {
                self.refuse(why, out)?;
                Ok(None)
            }
            Ended::Fault => Ok(Some(RunStop::FrameFault)),
        }
    }

    // Prints that the present line is refused.
    fn refuse(&mut self, refusal: LineRefusal, out: &mut Vec<u8>) -> Result<(), AllocError>
        ensures text { OnOk result (out.new.items ≡ out.old.items ++ refused_text self.old.lines refusal) }
        ensures refused { OnOk result (self.new ≡ record self.old { some_refused = true }) }
        ensures lines { self.new.lines ≡ self.old.lines }
        ensures live { self.new.live ≡ self.old.live }
    {
        script::print_refused(self.lines, refusal, out)?;
        self.some_refused = true;
        Ok(())
    }
}

/// Where a run stands between two lines.
#[derive(Drop)]
pub enum Stage {
    Reading(ProgramPart),
    Running(Script),
    /// The program was checked, and its script isn't run.
    Checked,
    Stopped(RunStop),
}

impl Stage {
    ghost use Rattle.frame_run.specs.InputLine.{HoldsLine};
    ghost use Rattle.frame_run.specs.Text.{At, stopped, after_line, line_text, after_last, last_text, end_status, over_status};
    ghost use Rattle.frame_run.specs.Job.{StageStands, StageStandsSomewhere, IsReading, stop_of, IsOwn, counted_stage};
    ghost use Rattle.frame_run.specs.Work.{line_work, RoseWithin};
    ghost use Rattle.frame_run.specs.Works.{IsStageCaused, Went};
    ghost use Rattle.work_sets.specs.Before.{Frames};
    ghost use Rattle.frame_run.specs.Words.{meant, task_with};

    /// Takes the next byte of the present line.
    pub fn push(&mut self, byte: u8) -> Result<(), AllocError>
        ensures stands { (place : At) (raw : List ℕ) → StageStands self.old ⟦<dyn Delegate as Delegate>⟧ place raw → OnOk result (StageStands self.new ⟦<dyn Delegate as Delegate>⟧ place (raw ++ byte ∷ [])) }
        ensures causes { (frames : Frames) (place : At) → IsStageCaused self.old frames place → OnOk result (IsStageCaused self.new frames place) }
        ensures counted { counted_stage self.new ≡ counted_stage self.old }
    {
        match self {
            Stage::Reading(part) => part.push(byte),
            Stage::Running(_) => Ok(()),
            Stage::Checked => Ok(()),
            Stage::Stopped(_) => Ok(()),
        }
    }

    // Goes on where the run stands next.
    fn go_on(&mut self, next: Stage)
        ensures { self.new ≡ next }
    {
        *self = next;
    }

    /// Takes the line that ended, and appends its text.
    #[inline(always)]
    pub fn take_line<B: Ledger, L: Ledger, P: Ledger>(
        &mut self,
        alloc: Global,
        line: &InputLine,
        out: &mut Vec<u8>,
        builds: &mut Steps<B>,
        layouts: &mut Steps<L>,
        paints: &mut Steps<P>,
    ) -> Result<(), AllocError>
        requires holds { StageStandsSomewhere self.old ⟦<dyn Delegate as Delegate>⟧ }
        requires counted { counted_stage self.old + 2 < 2 ^ 32 }
        ensures stands { (place : At) (raw : List ℕ) → StageStands self.old ⟦<dyn Delegate as Delegate>⟧ place raw → HoldsLine line.now raw
            → OnOk result (StageStands self.new ⟦<dyn Delegate as Delegate>⟧ (after_line place raw) []) }
        ensures text { (place : At) (raw : List ℕ) → StageStands self.old ⟦<dyn Delegate as Delegate>⟧ place raw → HoldsLine line.now raw
            → OnOk result (out.new.items ≡ out.old.items ++ line_text place raw) }
        ensures work { (frames : Frames) (place : At) (raw : List ℕ) → StageStands self.old ⟦<dyn Delegate as Delegate>⟧ place raw → IsStageCaused self.old frames place → HoldsLine line.now raw
            → OnOk result (Went (IsStageCaused self.new) frames (after_line place raw) (line_work frames place raw) builds.old builds.new layouts.old layouts.new paints.old paints.new) }
        ensures counted { counted_stage self.new ≤ counted_stage self.old + 2 }
    {
        match self {
            Stage::Reading(_) => self.take_program_line(alloc, line, out),
            Stage::Running(script) => match script.take_line(
                alloc, line, out, builds, layouts, paints,
            )? {
                None => Ok(()),
                Some(stop) => {
                    self.stop(stop);
                    Ok(())
                }
            },
            Stage::Checked => Ok(()),
            Stage::Stopped(_) => Ok(()),
        }
    }

    // Stops the run.
    fn stop(&mut self, stop: RunStop)
        ensures { self.new ≡ Stage.Stopped stop }
    {
        self.go_on(Stage::Stopped(stop));
    }

    // Takes a line of the program part that ended, and appends its text. A function of its own, since the place of a next
    // stage is large, and few lines need one.
    #[inline(never)]
    fn take_program_line(
        &mut self,
        alloc: Global,
        line: &InputLine,
        out: &mut Vec<u8>,
    ) -> Result<(), AllocError>
        requires reading { IsReading self.old }
        ensures stands { (place : At) (raw : List ℕ) → StageStands self.old ⟦<dyn Delegate as Delegate>⟧ place raw → HoldsLine line.now raw
            → OnOk result (StageStands self.new ⟦<dyn Delegate as Delegate>⟧ (after_line place raw) []) }
        ensures text { (place : At) (raw : List ℕ) → StageStands self.old ⟦<dyn Delegate as Delegate>⟧ place raw → HoldsLine line.now raw
            → OnOk result (out.new.items ≡ out.old.items ++ line_text place raw) }
        ensures work { (frames : Frames) (place : At) (raw : List ℕ) (builds layouts paints : ℕ) → StageStands self.old ⟦<dyn Delegate as Delegate>⟧ place raw → IsStageCaused self.old frames place → HoldsLine line.now raw
            → OnOk result (Went (IsStageCaused self.new) frames (after_line place raw) (line_work frames place raw) builds builds layouts layouts paints paints) }
        ensures counted { counted_stage self.new ≤ counted_stage self.old + 2 }
    {
        match self {
            Stage::Reading(part) => {
                if line.is_mark() {
                    let delegates = part.take_delegates(alloc);
                    let next = begin(alloc, part.mode, delegates, part.before_line(), 0, out)?;
                    self.go_on(next);
                    return Ok(());
                }
                part.end_line()
            }
            Stage::Running(_) | Stage::Checked | Stage::Stopped(_) => unreachable!(),
        }
    }

    /// Takes what has come of a last line at the end of the input, and appends its text.
    pub fn take_last<B: Ledger, L: Ledger, P: Ledger>(
        &mut self,
        alloc: Global,
        line: &InputLine,
        out: &mut Vec<u8>,
        builds: &mut Steps<B>,
        layouts: &mut Steps<L>,
        paints: &mut Steps<P>,
    ) -> Result<(), AllocError>
        requires holds { StageStandsSomewhere self.old ⟦<dyn Delegate as Delegate>⟧ }
        requires counted { counted_stage self.old + 2 < 2 ^ 32 }
        ensures stands { (place : At) (raw : List ℕ) → StageStands self.old ⟦<dyn Delegate as Delegate>⟧ place raw → HoldsLine line.now raw
            → OnOk result (StageStands self.new ⟦<dyn Delegate as Delegate>⟧ (after_last place raw) []) }
        ensures text { (place : At) (raw : List ℕ) → StageStands self.old ⟦<dyn Delegate as Delegate>⟧ place raw → HoldsLine line.now raw
            → OnOk result (out.new.items ≡ out.old.items ++ last_text place raw) }
        ensures work { (frames : Frames) (place : At) (raw : List ℕ) → StageStands self.old ⟦<dyn Delegate as Delegate>⟧ place raw → IsStageCaused self.old frames place → HoldsLine line.now raw
            → OnOk result (RoseWithin (line_work frames place raw) builds.old builds.new layouts.old layouts.new paints.old paints.new) }
    {
        match self {
            Stage::Reading(part) => {
                let delegates = part.take_delegates(alloc);
                let program = part.program(line.is_mark());
                let next = begin(alloc, part.mode, delegates, program, 0, out)?;
                self.go_on(next);
                Ok(())
            }
            Stage::Running(_) => self.take_line(alloc, line, out, builds, layouts, paints),
            Stage::Checked => Ok(()),
            Stage::Stopped(_) => Ok(()),
        }
    }

    /// What stopped the run, if something did.
    pub fn stopped(&self) -> Option<RunStop>
        ensures stop { (place : At) (raw : List ℕ) → StageStands self.now ⟦<dyn Delegate as Delegate>⟧ place raw → result ≡ stop_of place }
        ensures stopped { (place : At) (raw : List ℕ) → StageStands self.now ⟦<dyn Delegate as Delegate>⟧ place raw → IfSome result (λ stop. place ≡ stopped stop) }
    {
        match self {
            Stage::Reading(_) => None,
            Stage::Running(_) => None,
            Stage::Checked => None,
            Stage::Stopped(stop) => Some(*stop),
        }
    }

    /// The status at the end of the input.
    pub fn end_status(&self) -> Status
        ensures status { (place : At) (raw : List ℕ) → StageStands self.now ⟦<dyn Delegate as Delegate>⟧ place raw → result ≡ end_status place }
        ensures own { IsOwn result }
    {
        match self {
            Stage::Reading(_) => Status::BadProgram,
            Stage::Running(script) => {
                if script.some_refused {
                    return Status::SomeRefused;
                }
                Status::AllAccepted
            }
            Stage::Checked => Status::AllAccepted,
            Stage::Stopped(stop) => stop.status(),
        }
    }

    /// The status where more bytes come than a run takes.
    pub fn over_status(&self) -> Status
        ensures status { (place : At) (raw : List ℕ) → StageStands self.now ⟦<dyn Delegate as Delegate>⟧ place raw → result ≡ over_status place }
        ensures own { IsOwn result }
    {
        match self {
            Stage::Reading(_) => Status::TooLong,
            Stage::Running(_) => Status::TooLong,
            Stage::Checked => Status::TooLong,
            Stage::Stopped(stop) => stop.status(),
        }
    }
}

// How many bytes of a program have room from the start, 1 MiB; no page of it is touched before they come. Once a piece of that size has
// been let go, malloc keeps up to twice as much where the end of its heap is free. Before that it gives all but 128 KiB back to the
// system, which hands out each page anew when the next pointers go down.
const PROGRAM_ROOM: usize = 1 << 20;

// No bytes, with room for those of a program; without it where there is no memory for so much.
fn program_room(alloc: Global) -> Vec<u8>
    ensures { result.items ≡ [] }
{
    match Vec::with_capacity(alloc, PROGRAM_ROOM) {
        Ok(room) => room,
        Err(AllocError) => Vec::new(alloc),
    }
}

/// A run between two bytes of its input.
#[derive(Drop)]
pub struct Job {
    pub stage: Stage,
    pub line: InputLine,
}

impl Job {
    ghost use Rattle.frame_run.specs.Text.{At, start, after_line, line_text, after_last, last_text, end_status};
    ghost use Rattle.frame_run.specs.Job.{Stands, StandsSomewhere, IsOwn, counted};
    ghost use Rattle.frame_run.specs.Work.{line_work, RoseWithin};
    ghost use Rattle.frame_run.specs.Works.{IsJobCaused, Went};
    ghost use Rattle.work_sets.specs.Before.{Frames};
    ghost use Rattle.frame_run.specs.Words.{meant, task_with};

    /// A run in a mode before its first byte, with the delegates that its program may call.
    pub fn new(alloc: Global, mode: Mode, delegates: Vec<Named>) -> Job
        ensures stands { Stands result ⟦<dyn Delegate as Delegate>⟧ (start (task_with mode (meant delegates.items ⟦<dyn Delegate as Delegate>⟧))) [] }
        ensures counted { counted result ≡ 0 }
    {
        let part = ProgramPart {
            mode,
            delegates,
            bytes: program_room(alloc),
            line_start: 0,
        };
        Job {
            stage: Stage::Reading(part),
            line: InputLine::new(alloc),
        }
    }

    /// Takes the next byte, which doesn't end the line.
    pub fn push(&mut self, byte: u8) -> Result<(), AllocError>
        requires { counted self.old + 1 < 2 ^ 32 }
        ensures stands { (place : At) (raw : List ℕ) → Stands self.old ⟦<dyn Delegate as Delegate>⟧ place raw → OnOk result (Stands self.new ⟦<dyn Delegate as Delegate>⟧ place (raw ++ byte ∷ [])) }
        ensures causes { (frames : Frames) (place : At) → IsJobCaused self.old frames place → OnOk result (IsJobCaused self.new frames place) }
        ensures counted { OnOk result (counted self.new ≤ counted self.old + 1) }
    {
        self.stage.push(byte)?;
        self.line.push(byte)
    }

    /// Takes the line that ended, and appends its text.
    pub fn end_line<B: Ledger, L: Ledger, P: Ledger>(
        &mut self,
        alloc: Global,
        out: &mut Vec<u8>,
        builds: &mut Steps<B>,
        layouts: &mut Steps<L>,
        paints: &mut Steps<P>,
    ) -> Result<(), AllocError>
        requires holds { StandsSomewhere self.old ⟦<dyn Delegate as Delegate>⟧ }
        requires counted { counted self.old + 2 < 2 ^ 32 }
        ensures stands { (place : At) (raw : List ℕ) → Stands self.old ⟦<dyn Delegate as Delegate>⟧ place raw → OnOk result (Stands self.new ⟦<dyn Delegate as Delegate>⟧ (after_line place raw) []) }
        ensures text { (place : At) (raw : List ℕ) → Stands self.old ⟦<dyn Delegate as Delegate>⟧ place raw → OnOk result (out.new.items ≡ out.old.items ++ line_text place raw) }
        // Where flags have causes no more builds, layouts and paints are counted than the line's work, and flags have causes again.
        ensures work { (frames : Frames) (place : At) (raw : List ℕ) → Stands self.old ⟦<dyn Delegate as Delegate>⟧ place raw → IsJobCaused self.old frames place
            → OnOk result (Went (IsJobCaused self.new) frames (after_line place raw) (line_work frames place raw) builds.old builds.new layouts.old layouts.new paints.old paints.new) }
        ensures counted { OnOk result (counted self.new ≤ counted self.old + 2) }
    {
        self.stage
            .take_line(alloc, &self.line, out, builds, layouts, paints)?;
        self.line.clear();
        Ok(())
    }

    /// Ends the input, appends the text of its last line, and gives the run's status.
    pub fn end_input<B: Ledger, L: Ledger, P: Ledger>(
        &mut self,
        alloc: Global,
        out: &mut Vec<u8>,
        builds: &mut Steps<B>,
        layouts: &mut Steps<L>,
        paints: &mut Steps<P>,
    ) -> Result<Status, AllocError>
        requires holds { StandsSomewhere self.old ⟦<dyn Delegate as Delegate>⟧ }
        requires counted { counted self.old + 2 < 2 ^ 32 }
        ensures status { (place : At) (raw : List ℕ) → Stands self.old ⟦<dyn Delegate as Delegate>⟧ place raw → IfOk result (λ status. status ≡ end_status (after_last place raw)) }
        ensures own { IfOk result IsOwn }
        ensures text { (place : At) (raw : List ℕ) → Stands self.old ⟦<dyn Delegate as Delegate>⟧ place raw → OnOk result (out.new.items ≡ out.old.items ++ last_text place raw) }
        ensures work { (frames : Frames) (place : At) (raw : List ℕ) → Stands self.old ⟦<dyn Delegate as Delegate>⟧ place raw → IsJobCaused self.old frames place
            → OnOk result (RoseWithin (line_work frames place raw) builds.old builds.new layouts.old layouts.new paints.old paints.new) }
    {
        self.stage
            .take_last(alloc, &self.line, out, builds, layouts, paints)?;
        Ok(self.stage.end_status())
    }
}
