ghost use Rattle.std.specs.Prelude.{◌≡◌, ◌≢◌, ◌⊎◌, ℕ, ◌+◌, ◌*◌, ◌^◌, ◌<◌, ◌≤◌, [], ◌∷◌, List, Some, None, length, take};
ghost use Rattle.fx_outside.specs.Faults.{Rose};
ghost use Rattle.fx_outside.specs.Told.{HasWritten, HasPart, IsAtEnd};
ghost use Rattle.frame_run.specs.Lines.{ended_lines, last_line};
ghost use Rattle.frame_run.specs.Text.{At, start, after_line, line_text, after_lines, lines_text, after_last, last_text, end_status, job_ended, job_status, job_text};
ghost use Rattle.frame_run.specs.Reads.{EndsRead, TookRead};
ghost use Rattle.frame_run.specs.Run.{CutOff, Answered, AnsweredWithin};
ghost use Rattle.frame_run.specs.Status.{OnEnd, OnMemory};
ghost use Rattle.frame_run.specs.Words.{Task, meant, task_with};
ghost use Rattle.frame_run.specs.Job.{Stands, StandsSomewhere, Took, Gathers, counted};
ghost use Rattle.frame_run.specs.Work.{line_work, lines_work, job_work, RoseWithin};
ghost use Rattle.frame_run.specs.Works.{IsJobCaused, TurnWorks, ReadWorks};
ghost use Rattle.work_sets.specs.Before.{Frames};

use super::ending::{AtEnd, end_job};
use super::gathered::Gathered;
use super::output::{Written, write_all};
use super::stage::{Job, RunStop};
use super::status::Status;
use super::top::INPUT_MAX;
use super::words::Mode;
use delegates::{Delegate, Named};
use fx_outside::{Read, Sink, Source, Steps};
use std::alloc::Global;
use std::sync::ledger::Ledger;

/// What came of some bytes of the input.
#[derive(Clone, Copy)]
pub enum InputTurn {
    /// The run goes on.
    Goes,
    /// The run has stopped.
    Stops(RunStop),
    /// There was no memory.
    NoMemory,
    /// The sink had a fault.
    WriteFault,
}

impl InputTurn {
    ghost use Rattle.frame_run.specs.Job.{at_fault};

    // What comes of it where the sink had a fault after it.
    fn at_fault(self) -> InputTurn
        ensures { result ≡ at_fault self }
    {
        match self {
            InputTurn::NoMemory => InputTurn::NoMemory,
            InputTurn::Goes => InputTurn::WriteFault,
            InputTurn::Stops(_) => InputTurn::WriteFault,
            InputTurn::WriteFault => InputTurn::WriteFault,
        }
    }
}

/// Takes the next piece of the input. The text of the lines that end in it is written before more is read, together where
/// it isn't long.
pub fn take_piece<K: Sink, B: Ledger, L: Ledger, P: Ledger>(
    alloc: Global,
    job: &mut Job,
    sink: &mut K,
    piece: &[u8],
    builds: &mut Steps<B>,
    layouts: &mut Steps<L>,
    paints: &mut Steps<P>,
) -> InputTurn
    requires holds { StandsSomewhere job.old ⟦<dyn Delegate as Delegate>⟧ }
    requires counted { counted job.old + 2 * length piece.now < 2 ^ 32 }
    ensures took { (place : At) (raw : List ℕ) → Stands job.old ⟦<dyn Delegate as Delegate>⟧ place raw
        → Took result (Stands job.new ⟦<dyn Delegate as Delegate>⟧) (after_lines place (ended_lines raw piece.now)) (last_line raw piece.now)
        (K.held sink.old) (K.held sink.new) (lines_text place (ended_lines raw piece.now)) }
    // Where flags have causes no more builds, layouts and paints are counted than the work of the lines that end in it, unless
    // memory was wanting; and flags have causes again.
    ensures work { (frames : Frames) (place : At) (raw : List ℕ) → Stands job.old ⟦<dyn Delegate as Delegate>⟧ place raw → IsJobCaused job.old frames place
        → TurnWorks result (Stands job.new ⟦<dyn Delegate as Delegate>⟧) (IsJobCaused job.new) frames place raw piece.now builds.old builds.new layouts.old layouts.new paints.old paints.new }
    ensures counted { result ≡ InputTurn.Goes → counted job.new ≤ counted job.old + 2 * length piece.now }
    ensures later { K.faults sink.old ≤ K.faults sink.new }
    ensures cause { result ≡ InputTurn.WriteFault → Rose (K.faults sink.old) (K.faults sink.new) }
{
    let mut gathered = Gathered::new(alloc);
    let turn = gather_piece(
        alloc,
        job,
        sink,
        &mut gathered,
        piece,
        builds,
        layouts,
        paints,
    );
    match gathered.write(sink) {
        Written::Whole => turn,
        Written::NoMemory => InputTurn::NoMemory,
        Written::Failed => turn.at_fault(),
    }
}

// Takes the next piece of the input. What isn't written of the text of the lines that end in it is gathered.
fn gather_piece<K: Sink, B: Ledger, L: Ledger, P: Ledger>(
    alloc: Global,
    job: &mut Job,
    sink: &mut K,
    gathered: &mut Gathered,
    piece: &[u8],
    builds: &mut Steps<B>,
    layouts: &mut Steps<L>,
    paints: &mut Steps<P>,
) -> InputTurn
    requires holds { StandsSomewhere job.old ⟦<dyn Delegate as Delegate>⟧ }
    requires counted { counted job.old + 2 * length piece.now < 2 ^ 32 }
    ensures took { (place : At) (raw : List ℕ) → Stands job.old ⟦<dyn Delegate as Delegate>⟧ place raw
        → Gathers result (Stands job.new ⟦<dyn Delegate as Delegate>⟧) (after_lines place (ended_lines raw piece.now)) (last_line raw piece.now)
        (K.held sink.old) (K.held sink.new) gathered.old.text.items gathered.new.text.items (lines_text place (ended_lines raw piece.now)) }
    ensures work { (frames : Frames) (place : At) (raw : List ℕ) → Stands job.old ⟦<dyn Delegate as Delegate>⟧ place raw → IsJobCaused job.old frames place
        → TurnWorks result (Stands job.new ⟦<dyn Delegate as Delegate>⟧) (IsJobCaused job.new) frames place raw piece.now builds.old builds.new layouts.old layouts.new paints.old paints.new }
    ensures counted { result ≡ InputTurn.Goes → counted job.new ≤ counted job.old + 2 * length piece.now }
    ensures later { K.faults sink.old ≤ K.faults sink.new }
    ensures cause { result ≡ InputTurn.WriteFault → Rose (K.faults sink.old) (K.faults sink.new) }
{
    for byte in piece {
        match take_byte(alloc, job, sink, gathered, *byte, builds, layouts, paints) {
            InputTurn::Goes => {}
            InputTurn::Stops(stop) => return InputTurn::Stops(stop),
            InputTurn::NoMemory => return InputTurn::NoMemory,
            InputTurn::WriteFault => return InputTurn::WriteFault,
        }
    }
    InputTurn::Goes
}

// Takes the next byte of the input.
fn take_byte<K: Sink, B: Ledger, L: Ledger, P: Ledger>(
    alloc: Global,
    job: &mut Job,
    sink: &mut K,
    gathered: &mut Gathered,
    byte: u8,
    builds: &mut Steps<B>,
    layouts: &mut Steps<L>,
    paints: &mut Steps<P>,
) -> InputTurn
    requires holds { StandsSomewhere job.old ⟦<dyn Delegate as Delegate>⟧ }
    requires counted { counted job.old + 2 < 2 ^ 32 }
    ensures took { (place : At) (raw : List ℕ) → Stands job.old ⟦<dyn Delegate as Delegate>⟧ place raw
        → Gathers result (Stands job.new ⟦<dyn Delegate as Delegate>⟧) (after_lines place (ended_lines raw (byte ∷ []))) (last_line raw (byte ∷ []))
        (K.held sink.old) (K.held sink.new) gathered.old.text.items gathered.new.text.items (lines_text place (ended_lines raw (byte ∷ []))) }
    ensures work { (frames : Frames) (place : At) (raw : List ℕ) → Stands job.old ⟦<dyn Delegate as Delegate>⟧ place raw → IsJobCaused job.old frames place
        → TurnWorks result (Stands job.new ⟦<dyn Delegate as Delegate>⟧) (IsJobCaused job.new) frames place raw (byte ∷ []) builds.old builds.new layouts.old layouts.new paints.old paints.new }
    ensures counted { result ≡ InputTurn.Goes → counted job.new ≤ counted job.old + 2 }
    ensures later { K.faults sink.old ≤ K.faults sink.new }
    ensures cause { result ≡ InputTurn.WriteFault → Rose (K.faults sink.old) (K.faults sink.new) }
{
    if byte == b'\n' {
        return end_line(alloc, job, sink, gathered, builds, layouts, paints);
    }
    match job.push(byte) {
        Ok(()) => InputTurn::Goes,
        Err(_) => InputTurn::NoMemory,
    }
}

// Ends the present line: takes it, and gathers its text or writes it.
fn end_line<K: Sink, B: Ledger, L: Ledger, P: Ledger>(
    alloc: Global,
    job: &mut Job,
    sink: &mut K,
    gathered: &mut Gathered,
    builds: &mut Steps<B>,
    layouts: &mut Steps<L>,
    paints: &mut Steps<P>,
) -> InputTurn
    requires holds { StandsSomewhere job.old ⟦<dyn Delegate as Delegate>⟧ }
    requires counted { counted job.old + 2 < 2 ^ 32 }
    ensures took { (place : At) (raw : List ℕ) → Stands job.old ⟦<dyn Delegate as Delegate>⟧ place raw
        → Gathers result (Stands job.new ⟦<dyn Delegate as Delegate>⟧) (after_line place raw) [] (K.held sink.old) (K.held sink.new)
        gathered.old.text.items gathered.new.text.items (line_text place raw) }
    ensures work { (frames : Frames) (place : At) (raw : List ℕ) → Stands job.old ⟦<dyn Delegate as Delegate>⟧ place raw → IsJobCaused job.old frames place
        → TurnWorks result (Stands job.new ⟦<dyn Delegate as Delegate>⟧) (IsJobCaused job.new) frames place raw (10 ∷ []) builds.old builds.new layouts.old layouts.new paints.old paints.new }
    ensures counted { result ≡ InputTurn.Goes → counted job.new ≤ counted job.old + 2 }
    ensures later { K.faults sink.old ≤ K.faults sink.new }
    ensures cause { result ≡ InputTurn.WriteFault → Rose (K.faults sink.old) (K.faults sink.new) }
{
    gathered.line.clear();
    let Ok(()) = job.end_line(alloc, &mut gathered.line, builds, layouts, paints) else {
        return InputTurn::NoMemory;
    };
    match gathered.end_line(alloc, sink) {
        Written::Whole => match job.stage.stopped() {
            None => InputTurn::Goes,
            Some(stop) => InputTurn::Stops(stop),
        },
        Written::NoMemory => InputTurn::NoMemory,
        Written::Failed => InputTurn::WriteFault,
    }
}

/// Takes the next bytes that were read, of which there is room for so many within the limit. `Some` is the status that
/// ends the run.
fn take_read<K: Sink, B: Ledger, L: Ledger, P: Ledger>(
    alloc: Global,
    job: &mut Job,
    sink: &mut K,
    room: usize,
    bytes: &[u8],
    builds: &mut Steps<B>,
    layouts: &mut Steps<L>,
    paints: &mut Steps<P>,
) -> Option<Status>
    requires holds { StandsSomewhere job.old ⟦<dyn Delegate as Delegate>⟧ }
    requires counted { counted job.old + 2 * room < 2 ^ 32 }
    ensures took { (place : At) (raw : List ℕ) → Stands job.old ⟦<dyn Delegate as Delegate>⟧ place raw
        → TookRead result (Stands job.new ⟦<dyn Delegate as Delegate>⟧) place raw room bytes.now (K.held sink.old) (K.held sink.new) }
    ensures work { (frames : Frames) (place : At) (raw : List ℕ) → Stands job.old ⟦<dyn Delegate as Delegate>⟧ place raw → IsJobCaused job.old frames place
        → ReadWorks result (Stands job.new ⟦<dyn Delegate as Delegate>⟧) (IsJobCaused job.new) frames place raw room bytes.now builds.old builds.new layouts.old layouts.new paints.old paints.new }
    ensures fits { result ≡ None → length bytes.now ≤ room }
    ensures counted { result ≡ None → counted job.new ≤ counted job.old + 2 * length bytes.now }
    ensures later { K.faults sink.old ≤ K.faults sink.new }
    ensures cause { result ≡ Some Status.WriteFault → Rose (K.faults sink.old) (K.faults sink.new) }
    ensures no_read { result ≢ Some Status.ReadFault }
    ensures no_words { result ≢ Some Status.BadWords }
{
    if room < bytes.len() {
        return Some(take_front(alloc, job, sink, room, bytes, builds, layouts, paints));
    }
    match take_piece(alloc, job, sink, bytes, builds, layouts, paints) {
        InputTurn::Goes => None,
        InputTurn::Stops(stop) => Some(stop.status()),
        InputTurn::NoMemory => Some(Status::NoMemory),
        InputTurn::WriteFault => Some(Status::WriteFault),
    }
}

// Takes so many of the bytes as there is room for. More come after them, so this ends the run.
fn take_front<K: Sink, B: Ledger, L: Ledger, P: Ledger>(
    alloc: Global,
    job: &mut Job,
    sink: &mut K,
    room: usize,
    bytes: &[u8],
    builds: &mut Steps<B>,
    layouts: &mut Steps<L>,
    paints: &mut Steps<P>,
) -> Status
    requires holds { StandsSomewhere job.old ⟦<dyn Delegate as Delegate>⟧ }
    requires counted { counted job.old + 2 * room < 2 ^ 32 }
    requires more { room < length bytes.now }
    ensures took { (place : At) (raw : List ℕ) → Stands job.old ⟦<dyn Delegate as Delegate>⟧ place raw
        → EndsRead result place raw room bytes.now (K.held sink.old) (K.held sink.new) }
    ensures work { (frames : Frames) (place : At) (raw : List ℕ) → Stands job.old ⟦<dyn Delegate as Delegate>⟧ place raw → IsJobCaused job.old frames place
        → OnMemory result (RoseWithin (lines_work frames place (ended_lines raw (take room bytes.now))) builds.old builds.new layouts.old layouts.new paints.old paints.new) }
    ensures later { K.faults sink.old ≤ K.faults sink.new }
    ensures cause { result ≡ Status.WriteFault → Rose (K.faults sink.old) (K.faults sink.new) }
    ensures no_read { result ≢ Status.ReadFault }
    ensures no_words { result ≢ Status.BadWords }
{
    match take_piece(alloc, job, sink, &bytes[..room], builds, layouts, paints) {
        InputTurn::Goes => job.stage.over_status(),
        InputTurn::Stops(stop) => stop.status(),
        InputTurn::NoMemory => Status::NoMemory,
        InputTurn::WriteFault => Status::WriteFault,
    }
}

// Ends the input: takes its last line and writes that line's text.
fn finish<K: Sink, B: Ledger, L: Ledger, P: Ledger>(
    alloc: Global,
    job: &mut Job,
    sink: &mut K,
    builds: &mut Steps<B>,
    layouts: &mut Steps<L>,
    paints: &mut Steps<P>,
) -> Status
    requires holds { StandsSomewhere job.old ⟦<dyn Delegate as Delegate>⟧ }
    requires counted { counted job.old + 2 < 2 ^ 32 }
    ensures status { (place : At) (raw : List ℕ) → Stands job.old ⟦<dyn Delegate as Delegate>⟧ place raw → OnEnd result (result ≡ end_status (after_last place raw)) }
    ensures whole { (place : At) (raw : List ℕ) → Stands job.old ⟦<dyn Delegate as Delegate>⟧ place raw → OnEnd result (HasWritten (K.held sink.old) (K.held sink.new) (last_text place raw)) }
    ensures part { (place : At) (raw : List ℕ) → Stands job.old ⟦<dyn Delegate as Delegate>⟧ place raw → HasPart (K.held sink.old) (K.held sink.new) (last_text place raw) }
    ensures work { (frames : Frames) (place : At) (raw : List ℕ) → Stands job.old ⟦<dyn Delegate as Delegate>⟧ place raw → IsJobCaused job.old frames place
        → OnMemory result (RoseWithin (line_work frames place raw) builds.old builds.new layouts.old layouts.new paints.old paints.new) }
    ensures later { K.faults sink.old ≤ K.faults sink.new }
    ensures cause { result ≡ Status.WriteFault → Rose (K.faults sink.old) (K.faults sink.new) }
    ensures no_read { result ≢ Status.ReadFault }
    ensures no_words { result ≢ Status.BadWords }
{
    let mut out = Vec::new(alloc);
    let Ok(status) = job.end_input(alloc, &mut out, builds, layouts, paints) else {
        return Status::NoMemory;
    };
    match write_all(sink, out.as_slice()) {
        Written::Whole => status,
        Written::NoMemory => Status::NoMemory,
        Written::Failed => Status::WriteFault,
    }
}

// Reads the whole input, or up to what ends the run before its end, and takes each of its lines as soon as it has ended.
fn take_input<S: Source, K: Sink, B: Ledger, L: Ledger, P: Ledger>(
    alloc: Global,
    job: &mut Job,
    source: &mut S,
    sink: &mut K,
    builds: &mut Steps<B>,
    layouts: &mut Steps<L>,
    paints: &mut Steps<P>,
) -> Status
    requires holds { (task : Task) × Stands job.old ⟦<dyn Delegate as Delegate>⟧ (start task) [] }
    requires counted { counted job.old ≡ 0 }
    ensures status { (task : Task) (b : List ℕ) → Stands job.old ⟦<dyn Delegate as Delegate>⟧ (start task) [] → S.left source.old ≡ Some b → OnEnd result (result ≡ job_status task INPUT_MAX b) }
    ensures text { (task : Task) (b : List ℕ) → Stands job.old ⟦<dyn Delegate as Delegate>⟧ (start task) [] → S.left source.old ≡ Some b
        → OnEnd result (HasWritten (K.held sink.old) (K.held sink.new) (job_text task INPUT_MAX b)) }
    ensures cut_off { (task : Task) → Stands job.old ⟦<dyn Delegate as Delegate>⟧ (start task) []
        → CutOff (job_ended task INPUT_MAX) (job_text task INPUT_MAX) result (S.left source.old) (S.left source.new) (K.held sink.old) (K.held sink.new) }
    ensures answered { (task : Task) → Stands job.old ⟦<dyn Delegate as Delegate>⟧ (start task) []
        → Answered (job_status task INPUT_MAX) (job_text task INPUT_MAX) result (S.left source.old) (S.left source.new) (K.held sink.old) (K.held sink.new) }
    ensures work { (task : Task) (b : List ℕ) → Stands job.old ⟦<dyn Delegate as Delegate>⟧ (start task) [] → S.left source.old ≡ Some b → OnMemory result (RoseWithin (job_work task INPUT_MAX b) builds.old builds.new layouts.old layouts.new paints.old paints.new) }
    ensures answered_within { (task : Task) → Stands job.old ⟦<dyn Delegate as Delegate>⟧ (start task) []
        → AnsweredWithin (job_status task INPUT_MAX) (job_text task INPUT_MAX) (job_work task INPUT_MAX) result (S.left source.old) (S.left source.new) (K.held sink.old) (K.held sink.new) builds.old builds.new layouts.old layouts.new paints.old paints.new }
    ensures read_cause { result ≡ Status.ReadFault → Rose (S.faults source.old) (S.faults source.new) }
    ensures write_cause { result ≡ Status.WriteFault → Rose (K.faults sink.old) (K.faults sink.new) }
    ensures source_later { S.faults source.old ≤ S.faults source.new }
    ensures sink_later { K.faults sink.old ≤ K.faults sink.new }
    ensures no_words { result ≢ Status.BadWords }
    ensures at_end { (task : Task) → Stands job.old ⟦<dyn Delegate as Delegate>⟧ (start task) [] → (result ≡ Status.AllAccepted) ⊎ (result ≡ Status.SomeRefused)
        → IsAtEnd (S.left source.new) }
{
    let mut buf = [0; 4096];
    let mut count = 0;
    for turn in 0..INPUT_MAX + 1 {
        match source.read(&mut buf) {
            Read::Failed => return Status::ReadFault,
            Read::End => return finish(alloc, job, sink, builds, layouts, paints),
            Read::Got(taken) => {
                let room = INPUT_MAX - count;
                let bytes = &buf[..taken];
                match take_read(alloc, job, sink, room, bytes, builds, layouts, paints) {
                    Some(status) => return status,
                    None => count += taken,
                }
            }
        }
    }
    unreachable!()
}

/// Does a mode's job: reads the input to its end, or to what ends the run before it, and takes each of its lines as soon as
/// it has ended.
pub fn run_input<S: Source, K: Sink, B: Ledger, L: Ledger, P: Ledger>(
    alloc: Global,
    mode: Mode,
    delegates: Vec<Named>,
    source: &mut S,
    sink: &mut K,
    builds: &mut Steps<B>,
    layouts: &mut Steps<L>,
    paints: &mut Steps<P>,
    rest: AtEnd,
) -> Status
    ensures status { (b : List ℕ) → S.left source.old ≡ Some b → OnEnd result (result ≡ job_status (task_with mode (meant delegates.items ⟦<dyn Delegate as Delegate>⟧)) INPUT_MAX b) }
    ensures text { (b : List ℕ) → S.left source.old ≡ Some b → OnEnd result (HasWritten (K.held sink.old) (K.held sink.new) (job_text (task_with mode (meant delegates.items ⟦<dyn Delegate as Delegate>⟧)) INPUT_MAX b)) }
    ensures cut_off { CutOff (job_ended (task_with mode (meant delegates.items ⟦<dyn Delegate as Delegate>⟧)) INPUT_MAX) (job_text (task_with mode (meant delegates.items ⟦<dyn Delegate as Delegate>⟧)) INPUT_MAX) result (S.left source.old) (S.left source.new) (K.held sink.old) (K.held sink.new) }
    ensures answered { Answered (job_status (task_with mode (meant delegates.items ⟦<dyn Delegate as Delegate>⟧)) INPUT_MAX) (job_text (task_with mode (meant delegates.items ⟦<dyn Delegate as Delegate>⟧)) INPUT_MAX) result (S.left source.old) (S.left source.new) (K.held sink.old) (K.held sink.new) }
    // Unless memory was wanting, no more builds, layouts and paints are counted than the work of the frames among the lines.
    ensures work { (b : List ℕ) → S.left source.old ≡ Some b → OnMemory result (RoseWithin (job_work (task_with mode (meant delegates.items ⟦<dyn Delegate as Delegate>⟧)) INPUT_MAX b) builds.old builds.new layouts.old layouts.new paints.old paints.new) }
    ensures answered_within { AnsweredWithin (job_status (task_with mode (meant delegates.items ⟦<dyn Delegate as Delegate>⟧)) INPUT_MAX) (job_text (task_with mode (meant delegates.items ⟦<dyn Delegate as Delegate>⟧)) INPUT_MAX) (job_work (task_with mode (meant delegates.items ⟦<dyn Delegate as Delegate>⟧)) INPUT_MAX) result (S.left source.old) (S.left source.new) (K.held sink.old) (K.held sink.new) builds.old builds.new layouts.old layouts.new paints.old paints.new }
    ensures read_cause { result ≡ Status.ReadFault → Rose (S.faults source.old) (S.faults source.new) }
    ensures write_cause { result ≡ Status.WriteFault → Rose (K.faults sink.old) (K.faults sink.new) }
    ensures source_later { S.faults source.old ≤ S.faults source.new }
    ensures sink_later { K.faults sink.old ≤ K.faults sink.new }
    ensures no_words { result ≢ Status.BadWords }
    ensures at_end { (result ≡ Status.AllAccepted) ⊎ (result ≡ Status.SomeRefused) → IsAtEnd (S.left source.new) }
{
    let mut job = Job::new(alloc, mode, delegates);
    let status = take_input(alloc, &mut job, source, sink, builds, layouts, paints);
    end_job(job, rest);
    status
}
