// Mode `demo`: the job of `run` on an input in memory, and the line that sums it up.
ghost use Rattle.std.specs.Prelude.{◌≡◌, ◌≢◌, ◌++◌, ◌≤◌};
ghost use Rattle.fx_outside.specs.Faults.{Rose};
ghost use Rattle.fx_outside.specs.Told.{HasWritten, HasPart};
ghost use Rattle.frame_run.specs.Demo.{demo_input, summary};
ghost use Rattle.frame_run.specs.Status.{OnEnd, OnMemory};
ghost use Rattle.frame_run.specs.Text.{job_status, job_text};
ghost use Rattle.frame_run.specs.Words.{meant, task_with};
ghost use Rattle.frame_run.specs.Work.{job_work, RoseWithin};

use super::demo::{demo_input, print_summary};
use super::ending::AtEnd;
use super::input::run_input;
use super::output::{Written, write_all};
use super::status::Status;
use super::top::INPUT_MAX;
use super::words::Mode;
use delegates::{Delegate, Named};
use fx_outside::{MemorySink, MemorySource, Sink, Steps};
use std::alloc::Global;
use std::sync::ledger::Ledger;

/// Does the job of `run` on the input that a seed and a size give, and writes the line that sums it up.
pub fn run_demo<K: Sink, B: Ledger, L: Ledger, P: Ledger>(
    alloc: Global,
    seed: u64,
    size: u64,
    delegates: Vec<Named>,
    sink: &mut K,
    builds: &mut Steps<B>,
    layouts: &mut Steps<L>,
    paints: &mut Steps<P>,
    rest: AtEnd,
) -> Status
    requires least { 1 ≤ size }
    requires most { size ≤ 4096 }
    ensures status { OnEnd result (result ≡ job_status (task_with Mode.Run (meant delegates.items ⟦<dyn Delegate as Delegate>⟧)) INPUT_MAX (demo_input seed size)) }
    ensures text { OnEnd result (HasWritten (K.held sink.old) (K.held sink.new) (summary seed size (job_text (task_with Mode.Run (meant delegates.items ⟦<dyn Delegate as Delegate>⟧)) INPUT_MAX (demo_input seed size)))) }
    ensures part { HasPart (K.held sink.old) (K.held sink.new) (summary seed size (job_text (task_with Mode.Run (meant delegates.items ⟦<dyn Delegate as Delegate>⟧)) INPUT_MAX (demo_input seed size))) }
    ensures work { OnMemory result (RoseWithin (job_work (task_with Mode.Run (meant delegates.items ⟦<dyn Delegate as Delegate>⟧)) INPUT_MAX (demo_input seed size)) builds.old builds.new layouts.old layouts.new paints.old paints.new) }
    ensures later { K.faults sink.old ≤ K.faults sink.new }
    ensures cause { result ≡ Status.WriteFault → Rose (K.faults sink.old) (K.faults sink.new) }
    ensures no_read { result ≢ Status.ReadFault }
    ensures no_words { result ≢ Status.BadWords }
{
    let Ok(input) = demo_input(alloc, seed, size) else {
        return Status::NoMemory;
    };
    let mut memory = MemorySink::new(alloc, Vec::new(alloc));
    match run_in_memory(
        alloc,
        input,
        delegates,
        &mut memory,
        builds,
        layouts,
        paints,
        rest,
    ) {
        // Neither the source nor the sink in memory has a fault.
        Status::ReadFault | Status::WriteFault | Status::NoMemory => Status::NoMemory,
        status => write_summary(alloc, seed, size, memory.bytes(), status, sink),
    }
}

// Does the job of `run` on an input in memory, into a sink in memory.
fn run_in_memory<B: Ledger, L: Ledger, P: Ledger>(
    alloc: Global,
    input: Vec<u8>,
    delegates: Vec<Named>,
    memory: &mut MemorySink,
    builds: &mut Steps<B>,
    layouts: &mut Steps<L>,
    paints: &mut Steps<P>,
    rest: AtEnd,
) -> Status
    ensures status { OnEnd result (result ≡ job_status (task_with Mode.Run (meant delegates.items ⟦<dyn Delegate as Delegate>⟧)) INPUT_MAX input.items) }
    ensures text { OnEnd result (memory.new.held ≡ memory.old.held ++ job_text (task_with Mode.Run (meant delegates.items ⟦<dyn Delegate as Delegate>⟧)) INPUT_MAX input.items) }
    ensures work { OnMemory result (RoseWithin (job_work (task_with Mode.Run (meant delegates.items ⟦<dyn Delegate as Delegate>⟧)) INPUT_MAX input.items) builds.old builds.new layouts.old layouts.new paints.old paints.new) }
    ensures no_words { result ≢ Status.BadWords }
{
    let mut source = MemorySource::new(input, 4096, Vec::new(alloc));
    run_input(
        alloc,
        Mode::Run,
        delegates,
        &mut source,
        memory,
        builds,
        layouts,
        paints,
        rest,
    )
}

// Writes the line that sums up a text, after which the run ends with this status.
fn write_summary<K: Sink>(
    alloc: Global,
    seed: u64,
    size: u64,
    text: &[u8],
    status: Status,
    sink: &mut K,
) -> Status
    requires most { size ≤ 4096 }
    requires no_read { status ≢ Status.ReadFault }
    requires no_write { status ≢ Status.WriteFault }
    ensures status { OnEnd result (result ≡ status) }
    ensures text { OnEnd result (HasWritten (K.held sink.old) (K.held sink.new) (summary seed size text.now)) }
    ensures part { HasPart (K.held sink.old) (K.held sink.new) (summary seed size text.now) }
    ensures later { K.faults sink.old ≤ K.faults sink.new }
    ensures cause { result ≡ Status.WriteFault → Rose (K.faults sink.old) (K.faults sink.new) }
    ensures no_read { result ≢ Status.ReadFault }
    ensures no_words { status ≢ Status.BadWords → result ≢ Status.BadWords }
{
    let mut out = Vec::new(alloc);
    let Ok(()) = print_summary(alloc, seed, size, text, &mut out) else {
        return Status::NoMemory;
    };
    match write_all(sink, out.as_slice()) {
        Written::Whole => status,
        Written::NoMemory => Status::NoMemory,
        Written::Failed => Status::WriteFault,
    }
}
