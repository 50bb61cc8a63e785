ghost use Rattle.std.specs.Prelude.{◌≡◌, ◌≢◌, ℕ, ◌≤◌, ◌↔◌, ◌⊎◌, true, false, List, Some, None};
ghost use Rattle.fx_outside.specs.Faults.{Rose};
ghost use Rattle.fx_outside.specs.Told.{HasWritten, IsAtEnd};
ghost use Rattle.frame_run.specs.Status.{OnEnd, OnMemory};
ghost use Rattle.frame_run.specs.Words.{given, meant, request_given, input_given, TakesInput};
ghost use Rattle.frame_run.specs.Text.{status_of, text_of, ended_text_of, fault_line};
ghost use Rattle.frame_run.specs.Answers.{IsDone, IsBadProgram, IsFaulted, IsTooLong, IsRefusedFor, has_refused, EndsInFault};
ghost use Rattle.frame_run.specs.declared.program.ProgramFault.{ProgramFault};
ghost use Rattle.frame_run.specs.declared.words.Mode.TheVariants.{Check};
ghost use Rattle.frame_run.specs.declared.words.Request.TheVariants.{Input, Demo};
ghost use Rattle.frame_run.specs.Run.{CutOff, Answered, AnsweredWithin};
ghost use Rattle.frame_run.specs.Work.{work_of, RoseWithin};

use super::demo_run::run_demo;
use super::ending::AtEnd;
use super::input::run_input;
use super::status::Status;
use super::words::{Request, read_words};
use delegates::{Delegate, Named};
use fx_outside::{Sink, Source, Steps};
use std::alloc::Global;
use std::sync::ledger::Ledger;

/// A run takes at most so many bytes.
pub const INPUT_MAX: usize = 67_108_864;

/// Does the job of the words, on the source's bytes or on the input that mode `demo` makes. The three counters count the
/// components that are built, the rules of layout that are run, and the nodes that are painted. What the run holds is let go
/// at its end, or left as it is.
pub fn run<S: Source, K: Sink, B: Ledger, L: Ledger, P: Ledger>(
    alloc: Global,
    words: &[String],
    source: &mut S,
    sink: &mut K,
    delegates: Vec<Named>,
    builds: &mut Steps<B>,
    layouts: &mut Steps<L>,
    paints: &mut Steps<P>,
    rest: AtEnd,
) -> Status
    // Whatever input comes, what is written is the definition's text, with its status, unless a fault or want of memory
    // cut the run off.
    ensures status { let g = given INPUT_MAX words.now (meant delegates.items ⟦<dyn Delegate as Delegate>⟧) in
        (b : List ℕ) → S.left source.old ≡ Some b → OnEnd result (result ≡ status_of g b) }
    ensures text { let g = given INPUT_MAX words.now (meant delegates.items ⟦<dyn Delegate as Delegate>⟧) in
        (b : List ℕ) → S.left source.old ≡ Some b → OnEnd result (HasWritten (K.held sink.old) (K.held sink.new) (text_of g b)) }

    // Whether the source tells its bytes or not, it is the text of some bytes that were read, with their status.
    ensures answered { let g = given INPUT_MAX words.now (meant delegates.items ⟦<dyn Delegate as Delegate>⟧) in
        Answered (status_of g) (text_of g) result (S.left source.old) (S.left source.new) (K.held sink.old) (K.held sink.new) }

    // Each status comes exactly where it is said here, unless one of 5, 6 and 7 comes instead.
    ensures all_accepted { let g = given INPUT_MAX words.now (meant delegates.items ⟦<dyn Delegate as Delegate>⟧) in
        (b : List ℕ) → S.left source.old ≡ Some b → OnEnd result ((result ≡ Status.AllAccepted) ↔ (IsDone g (input_given g b) × (has_refused g (input_given g b) ≡ false))) }
    ensures some_refused { let g = given INPUT_MAX words.now (meant delegates.items ⟦<dyn Delegate as Delegate>⟧) in
        (b : List ℕ) → S.left source.old ≡ Some b → OnEnd result ((result ≡ Status.SomeRefused) ↔ (IsDone g (input_given g b) × (has_refused g (input_given g b) ≡ true))) }
    ensures bad_program { let g = given INPUT_MAX words.now (meant delegates.items ⟦<dyn Delegate as Delegate>⟧) in
        (b : List ℕ) → S.left source.old ≡ Some b → OnEnd result ((result ≡ Status.BadProgram) ↔ IsBadProgram g (input_given g b)) }
    ensures frame_fault { let g = given INPUT_MAX words.now (meant delegates.items ⟦<dyn Delegate as Delegate>⟧) in
        (b : List ℕ) → S.left source.old ≡ Some b → OnEnd result ((result ≡ Status.FrameFault) ↔ IsFaulted g (input_given g b)) }
    ensures too_long { let g = given INPUT_MAX words.now (meant delegates.items ⟦<dyn Delegate as Delegate>⟧) in
        (b : List ℕ) → S.left source.old ≡ Some b → OnEnd result ((result ≡ Status.TooLong) ↔ IsTooLong g (input_given g b)) }
    ensures bad_words { let g = given INPUT_MAX words.now (meant delegates.items ⟦<dyn Delegate as Delegate>⟧) in
        OnEnd result ((result ≡ Status.BadWords) ↔ (request_given g ≡ None)) }
    ensures refused_words { let g = given INPUT_MAX words.now (meant delegates.items ⟦<dyn Delegate as Delegate>⟧) in
        request_given g ≡ None → (result ≡ Status.BadWords) ⊎ (result ≡ Status.NoMemory) }

    // Where the words are refused nothing is read or written, and mode `demo` reads nothing. In the other modes: with 0 and
    // 1 the input was read to its end; with 3 the line of the program's fault is written; and with 4 the text ends with the
    // line of the frame's fault. With 8 it is that of the lines that end within the limit.
    ensures at_end { let g = given INPUT_MAX words.now (meant delegates.items ⟦<dyn Delegate as Delegate>⟧) in
        TakesInput g → (result ≡ Status.AllAccepted) ⊎ (result ≡ Status.SomeRefused) → IsAtEnd (S.left source.new) }
    ensures unread { let g = given INPUT_MAX words.now (meant delegates.items ⟦<dyn Delegate as Delegate>⟧) in
        request_given g ≡ None → source.new ≡ source.old }
    ensures demo_unread { let g = given INPUT_MAX words.now (meant delegates.items ⟦<dyn Delegate as Delegate>⟧) in
        (seed size : ℕ) → request_given g ≡ Some (Demo seed size) → source.new ≡ source.old }
    ensures unwritten { let g = given INPUT_MAX words.now (meant delegates.items ⟦<dyn Delegate as Delegate>⟧) in
        request_given g ≡ None → sink.new ≡ sink.old }
    ensures bad_program_text { let g = given INPUT_MAX words.now (meant delegates.items ⟦<dyn Delegate as Delegate>⟧) in
        (b : List ℕ) (fault : ProgramFault) → TakesInput g → S.left source.old ≡ Some b → result ≡ Status.BadProgram
        → IsRefusedFor g b fault → HasWritten (K.held sink.old) (K.held sink.new) (fault_line fault) }
    ensures frame_fault_text { let g = given INPUT_MAX words.now (meant delegates.items ⟦<dyn Delegate as Delegate>⟧) in
        (b : List ℕ) → TakesInput g → S.left source.old ≡ Some b → result ≡ Status.FrameFault
        → EndsInFault (text_of g b) × HasWritten (K.held sink.old) (K.held sink.new) (text_of g b) }
    ensures too_long_text { let g = given INPUT_MAX words.now (meant delegates.items ⟦<dyn Delegate as Delegate>⟧) in
        (b : List ℕ) → S.left source.old ≡ Some b → result ≡ Status.TooLong
        → HasWritten (K.held sink.old) (K.held sink.new) (ended_text_of g b) }

    // 5 and 6 come only where the source or the sink had a fault in this call.
    ensures read_cause { result ≡ Status.ReadFault → Rose (S.faults source.old) (S.faults source.new) }
    ensures write_cause { result ≡ Status.WriteFault → Rose (K.faults sink.old) (K.faults sink.new) }
    ensures source_later { S.faults source.old ≤ S.faults source.new }
    ensures sink_later { K.faults sink.old ≤ K.faults sink.new }

    // Where 5, 6 or 7 cut the run off, what was written is a front of the text of what was read; at 5 it is the whole
    // text of the lines that had ended.
    ensures cut_off { let g = given INPUT_MAX words.now (meant delegates.items ⟦<dyn Delegate as Delegate>⟧) in
        CutOff (ended_text_of g) (text_of g) result (S.left source.old) (S.left source.new) (K.held sink.old) (K.held sink.new) }

    // Unless memory was wanting, no more builds, layouts and paints are counted than the work of the frames among the lines: those
    // of the source, or in mode `demo` of its own input, and none in mode `check` and where words or program are refused. Whether
    // the source tells its bytes or not, it is so of the bytes whose text is written. Refused words count nothing, and in mode
    // `check` none of the three counts rises.
    ensures work { let g = given INPUT_MAX words.now (meant delegates.items ⟦<dyn Delegate as Delegate>⟧) in
        (b : List ℕ) → S.left source.old ≡ Some b → OnMemory result (RoseWithin (work_of g b) builds.old builds.new layouts.old layouts.new paints.old paints.new) }
    ensures answered_within { let g = given INPUT_MAX words.now (meant delegates.items ⟦<dyn Delegate as Delegate>⟧) in
        AnsweredWithin (status_of g) (text_of g) (work_of g) result (S.left source.old) (S.left source.new) (K.held sink.old) (K.held sink.new)
        builds.old builds.new layouts.old layouts.new paints.old paints.new }
    ensures uncounted { let g = given INPUT_MAX words.now (meant delegates.items ⟦<dyn Delegate as Delegate>⟧) in
        request_given g ≡ None → (builds.new ≡ builds.old) × (layouts.new ≡ layouts.old) × (paints.new ≡ paints.old) }
    ensures checked_uncounted { let g = given INPUT_MAX words.now (meant delegates.items ⟦<dyn Delegate as Delegate>⟧) in
        request_given g ≡ Some (Input Check) → OnMemory result ((builds.new ≤ builds.old) × (layouts.new ≤ layouts.old) × (paints.new ≤ paints.old)) }

    // Where nothing fails it ends with the definition's answer: 0 or 1, where words and program are accepted, the input
    // isn't too long and no frame has a fault.
    ensures complete { let g = given INPUT_MAX words.now (meant delegates.items ⟦<dyn Delegate as Delegate>⟧) in
        (b : List ℕ) → S.left source.old ≡ Some b
        → ¬ (Rose (S.faults source.old) (S.faults source.new)) → ¬ (Rose (K.faults sink.old) (K.faults sink.new)) → result ≢ Status.NoMemory
        → (result ≡ status_of g b) × HasWritten (K.held sink.old) (K.held sink.new) (text_of g b) }
    ensures done { let g = given INPUT_MAX words.now (meant delegates.items ⟦<dyn Delegate as Delegate>⟧) in
        (b : List ℕ) → S.left source.old ≡ Some b → IsDone g (input_given g b)
        → ¬ (Rose (S.faults source.old) (S.faults source.new)) → ¬ (Rose (K.faults sink.old) (K.faults sink.new)) → result ≢ Status.NoMemory
        → ((result ≡ Status.AllAccepted) ⊎ (result ≡ Status.SomeRefused))
        × HasWritten (K.held sink.old) (K.held sink.new) (text_of g b) }
{
    match read_words(alloc, words) {
        Ok(Some(Request::Input(mode))) => run_input(
            alloc, mode, delegates, source, sink, builds, layouts, paints, rest,
        ),
        Ok(Some(Request::Demo { seed, size })) => run_demo(
            alloc, seed, size, delegates, sink, builds, layouts, paints, rest,
        ),
        Ok(None) => Status::BadWords,
        Err(_) => Status::NoMemory,
    }
}
