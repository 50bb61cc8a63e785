// The run that the program makes: its delegates, and counters that begin at 0 and are told at its end.
ghost use Rattle.std.specs.Prelude.{◌≡◌, ◌≢◌, ℕ, ◌<◌, ◌≤◌, ◌↔◌, ◌⊎◌, true, false, List, Some, None};
ghost use Rattle.fx_outside.specs.Faults.{Rose};
ghost use Rattle.fx_outside.specs.Told.{HasWritten, IsAtEnd};
ghost use Rattle.frame_run.specs.Answers.{IsDone, IsBadProgram, IsFaulted, IsTooLong, IsRefusedFor, has_refused, EndsInFault};
ghost use Rattle.frame_run.specs.Run.{CutOff, Answered, AnsweredWithin};
ghost use Rattle.frame_run.specs.Status.{OnEnd, OnMemory};
ghost use Rattle.frame_run.specs.Text.{status_of, text_of, ended_text_of, fault_line};
ghost use Rattle.frame_run.specs.Words.{request_given, input_given, TakesInput};
ghost use Rattle.frame_run.specs.declared.program.ProgramFault.{ProgramFault};
ghost use Rattle.frame_run.specs.declared.words.Mode.TheVariants.{Check};
ghost use Rattle.frame_run.specs.declared.words.Request.TheVariants.{Input, Demo};
ghost use Rattle.frame_run.specs.HandedIn.{given_with};
ghost use Rattle.frame_run.specs.Work.{work_of, RoseWithin};

use crate::ending::AtEnd;
use crate::handing::listed;
use crate::status::Status;
use crate::top::run;
use delegates::{Bars, Corner, Grid};
use fx_outside::{Sink, Source, Steps};
use std::alloc::Global;
use std::sync::ledger::{Blank, Ledger};

/// What a run ended with, and how many components were built in it, rules of layout run and nodes painted; each number is
/// `u64::MAX` where there were more.
#[derive(Clone, Copy, Debug, PartialEq, Eq)]
pub struct CountedRun {
    pub status: Status,
    pub builds: u64,
    pub layouts: u64,
    pub paints: u64,
}

// A run for which there was no memory before it began.
const UNBEGUN: CountedRun = CountedRun {
    status: Status::NoMemory,
    builds: 0,
    layouts: 0,
    paints: 0,
};

/// `frame_run::run` over `bars`, `grid` and `corner` as they are at first, whose builds, layouts and paints are counted from 0
/// on three ledgers. Each clause is the one of `run` by that name, for these delegates; what comes where is said there.
pub fn run_counted<S: Source, K: Sink, B: Ledger, L: Ledger, P: Ledger>(
    alloc: Global,
    words: &[String],
    source: &mut S,
    sink: &mut K,
    builds: Blank,
    layouts: Blank,
    paints: Blank,
    rest: AtEnd,
) -> CountedRun
    requires builds_name { builds.name ≡ B.name }
    requires builds_parts { builds.parts ≡ B.parts }
    requires builds_some { 0 < B.parts }
    requires layouts_name { layouts.name ≡ L.name }
    requires layouts_parts { layouts.parts ≡ L.parts }
    requires layouts_some { 0 < L.parts }
    requires paints_name { paints.name ≡ P.name }
    requires paints_parts { paints.parts ≡ P.parts }
    requires paints_some { 0 < P.parts }
    // What is written is the definition's text, with its status, unless a fault or want of memory cut the run off.
    ensures status { (b : List ℕ) → S.left source.old ≡ Some b → OnEnd result.status (result.status ≡ status_of (given_with words.now) b) }
    ensures text { (b : List ℕ) → S.left source.old ≡ Some b
        → OnEnd result.status (HasWritten (K.held sink.old) (K.held sink.new) (text_of (given_with words.now) b)) }
    ensures answered { Answered (status_of (given_with words.now)) (text_of (given_with words.now)) result.status
        (S.left source.old) (S.left source.new) (K.held sink.old) (K.held sink.new) }

    // Each status comes exactly where it is said here, unless one of 5, 6 and 7 comes instead.
    ensures all_accepted { let g = given_with words.now in (b : List ℕ) → S.left source.old ≡ Some b
        → OnEnd result.status ((result.status ≡ Status.AllAccepted) ↔ (IsDone g (input_given g b) × (has_refused g (input_given g b) ≡ false))) }
    ensures some_refused { let g = given_with words.now in (b : List ℕ) → S.left source.old ≡ Some b
        → OnEnd result.status ((result.status ≡ Status.SomeRefused) ↔ (IsDone g (input_given g b) × (has_refused g (input_given g b) ≡ true))) }
    ensures bad_program { let g = given_with words.now in (b : List ℕ) → S.left source.old ≡ Some b
        → OnEnd result.status ((result.status ≡ Status.BadProgram) ↔ IsBadProgram g (input_given g b)) }
    ensures frame_fault { let g = given_with words.now in (b : List ℕ) → S.left source.old ≡ Some b
        → OnEnd result.status ((result.status ≡ Status.FrameFault) ↔ IsFaulted g (input_given g b)) }
    ensures too_long { let g = given_with words.now in (b : List ℕ) → S.left source.old ≡ Some b
        → OnEnd result.status ((result.status ≡ Status.TooLong) ↔ IsTooLong g (input_given g b)) }
    ensures bad_words { OnEnd result.status ((result.status ≡ Status.BadWords) ↔ (request_given (given_with words.now) ≡ None)) }
    ensures refused_words { request_given (given_with words.now) ≡ None → (result.status ≡ Status.BadWords) ⊎ (result.status ≡ Status.NoMemory) }

    // What is read and written with each status.
    ensures at_end { TakesInput (given_with words.now) → (result.status ≡ Status.AllAccepted) ⊎ (result.status ≡ Status.SomeRefused)
        → IsAtEnd (S.left source.new) }
    ensures unread { request_given (given_with words.now) ≡ None → source.new ≡ source.old }
    ensures demo_unread { (seed size : ℕ) → request_given (given_with words.now) ≡ Some (Demo seed size) → source.new ≡ source.old }
    ensures unwritten { request_given (given_with words.now) ≡ None → sink.new ≡ sink.old }
    ensures bad_program_text { let g = given_with words.now in (b : List ℕ) (fault : ProgramFault) → TakesInput g → S.left source.old ≡ Some b
        → result.status ≡ Status.BadProgram → IsRefusedFor g b fault → HasWritten (K.held sink.old) (K.held sink.new) (fault_line fault) }
    ensures frame_fault_text { let g = given_with words.now in (b : List ℕ) → TakesInput g → S.left source.old ≡ Some b
        → result.status ≡ Status.FrameFault → EndsInFault (text_of g b) × HasWritten (K.held sink.old) (K.held sink.new) (text_of g b) }
    ensures too_long_text { (b : List ℕ) → S.left source.old ≡ Some b → result.status ≡ Status.TooLong
        → HasWritten (K.held sink.old) (K.held sink.new) (ended_text_of (given_with words.now) b) }

    // 5 and 6 come only where the source or the sink had a fault in this call.
    ensures read_cause { result.status ≡ Status.ReadFault → Rose (S.faults source.old) (S.faults source.new) }
    ensures write_cause { result.status ≡ Status.WriteFault → Rose (K.faults sink.old) (K.faults sink.new) }
    ensures source_later { S.faults source.old ≤ S.faults source.new }
    ensures sink_later { K.faults sink.old ≤ K.faults sink.new }

    // Where 5, 6 or 7 cut the run off, what was written is a front of the text of what was read.
    ensures cut_off { CutOff (ended_text_of (given_with words.now)) (text_of (given_with words.now)) result.status
        (S.left source.old) (S.left source.new) (K.held sink.old) (K.held sink.new) }

    // Unless memory was wanting, no more was counted than the work of the frames among the lines. Refused words count nothing,
    // nor does mode `check`.
    ensures work { (b : List ℕ) → S.left source.old ≡ Some b
        → OnMemory result.status (RoseWithin (work_of (given_with words.now) b) 0 result.builds 0 result.layouts 0 result.paints) }
    ensures answered_within { let g = given_with words.now in AnsweredWithin (status_of g) (text_of g) (work_of g) result.status
        (S.left source.old) (S.left source.new) (K.held sink.old) (K.held sink.new) 0 result.builds 0 result.layouts 0 result.paints }
    ensures uncounted { request_given (given_with words.now) ≡ None → (result.builds ≡ 0) × (result.layouts ≡ 0) × (result.paints ≡ 0) }
    ensures checked_uncounted { request_given (given_with words.now) ≡ Some (Input Check)
        → OnMemory result.status ((result.builds ≡ 0) × (result.layouts ≡ 0) × (result.paints ≡ 0)) }

    // Where nothing fails it ends with the definition's answer: 0 or 1, where the job is done.
    ensures complete { let g = given_with words.now in (b : List ℕ) → S.left source.old ≡ Some b
        → ¬ (Rose (S.faults source.old) (S.faults source.new)) → ¬ (Rose (K.faults sink.old) (K.faults sink.new)) → result.status ≢ Status.NoMemory
        → (result.status ≡ status_of g b) × HasWritten (K.held sink.old) (K.held sink.new) (text_of g b) }
    ensures done { let g = given_with words.now in (b : List ℕ) → S.left source.old ≡ Some b → IsDone g (input_given g b)
        → ¬ (Rose (S.faults source.old) (S.faults source.new)) → ¬ (Rose (K.faults sink.old) (K.faults sink.new)) → result.status ≢ Status.NoMemory
        → ((result.status ≡ Status.AllAccepted) ⊎ (result.status ≡ Status.SomeRefused)) × HasWritten (K.held sink.old) (K.held sink.new) (text_of g b) }
{
    let mut builds = Steps::<B>::at_zero(builds);
    let mut layouts = Steps::<L>::at_zero(layouts);
    let mut paints = Steps::<P>::at_zero(paints);
    let Ok(bars) = Box::new(alloc, Bars::new()) else {
        return UNBEGUN;
    };
    let Ok(grid) = Box::new(alloc, Grid::new()) else {
        return UNBEGUN;
    };
    let Ok(corner) = Box::new(alloc, Corner::new()) else {
        return UNBEGUN;
    };
    let Ok(delegates) = listed(alloc, bars, grid, corner) else {
        return UNBEGUN;
    };
    let status = run(
        alloc,
        words,
        source,
        sink,
        delegates,
        &mut builds,
        &mut layouts,
        &mut paints,
        rest,
    );
    CountedRun {
        status,
        builds: builds.told(),
        layouts: layouts.told(),
        paints: paints.told(),
    }
}
