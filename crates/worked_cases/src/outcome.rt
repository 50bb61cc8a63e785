ghost use Rattle.std.specs.Prelude.{◌≡◌, ◌<◌};

use super::asking::{Asked, CountingBars, alone};
use super::case::Case;
use super::fault::Fault;
use delegates::Named;
use frame_run::{AtEnd, Status, run, run_counted};
use fx_outside::{MemorySink, MemorySource, Steps};
use std::alloc::{AllocError, Global};
use std::cell::Cell;
use std::marker::Brand;
use std::rc::Rc;
use std::sync::ledger::{Blank, Ledger};

/// The read or the write that fails in a run, by its number, from 0.
#[derive(Clone, Copy)]
pub enum Failing {
    Nothing,
    Read(u64),
    Write(u64),
}

impl Failing {
    // The numbers of the reads that fail, and those of the writes.
    fn numbers(self, alloc: Global) -> Result<(Vec<u64>, Vec<u64>), AllocError> {
        let mut reads = Vec::new(alloc);
        let mut writes = Vec::new(alloc);
        match self {
            Failing::Nothing => {}
            Failing::Read(number) => reads.push(number)?,
            Failing::Write(number) => writes.push(number)?,
        }
        Ok((reads, writes))
    }
}

/// What a run ended with and wrote.
#[derive(Drop)]
pub struct Outcome {
    pub status: u8,
    pub text: Vec<u8>,
}

/// How many components a run builds, rules of layout it runs, and nodes it paints.
#[derive(Clone, Copy, PartialEq, Eq)]
pub struct Counts {
    pub builds: u64,
    pub layouts: u64,
    pub paints: u64,
}

impl Counts {
    /// The three numbers of a line, as `2 5 5`.
    pub fn read(numbers: &str) -> Result<Counts, Fault> {
        let (builds, rest) = numbers.split_once(' ').ok_or(Fault::Unread)?;
        let (layouts, paints) = rest.split_once(' ').ok_or(Fault::Unread)?;
        Ok(Counts {
            builds: builds.parse::<u64>()?,
            layouts: layouts.parse::<u64>()?,
            paints: paints.parse::<u64>()?,
        })
    }
}

/// Runs a case's words over an input in pieces of this size, where this fails, and tells what was counted.
pub fn ran(
    alloc: Global,
    case: &Case,
    input: &[u8],
    piece: usize,
    failing: Failing,
) -> Result<(Outcome, Counts), AllocError> {
    let (reads, writes) = failing.numbers(alloc)?;
    let mut source = MemorySource::new(input.to_vec(alloc)?, piece, reads);
    let mut sink = MemorySink::new(alloc, writes);
    let counted = run_counted::<_, _, Brand, Brand, Brand>(
        alloc,
        case.words.as_slice(),
        &mut source,
        &mut sink,
        Blank::new(1),
        Blank::new(1),
        Blank::new(1),
        AtEnd::LetGo,
    );
    let outcome = Outcome {
        status: counted.status.code(),
        text: sink.bytes().to_vec(alloc)?,
    };
    let counts = Counts {
        builds: counted.builds,
        layouts: counted.layouts,
        paints: counted.paints,
    };
    Ok((outcome, counts))
}

// A run over these delegates, whose builds, layouts and paints are counted from 0 on three ledgers.
fn run_over<B: Ledger, L: Ledger, P: Ledger>(
    alloc: Global,
    words: &[String],
    source: &mut MemorySource,
    sink: &mut MemorySink,
    delegates: Vec<Named>,
    builds: Blank,
    layouts: Blank,
    paints: Blank,
) -> Status
    requires builds_name { builds.name ≡ B.name }
    requires builds_parts { builds.parts ≡ B.parts }
    requires builds_some { 0 < B.parts }
    requires layouts_name { layouts.name ≡ L.name }
    requires layouts_parts { layouts.parts ≡ L.parts }
    requires layouts_some { 0 < L.parts }
    requires paints_name { paints.name ≡ P.name }
    requires paints_parts { paints.parts ≡ P.parts }
    requires paints_some { 0 < P.parts }
{
    let mut builds = Steps::<B>::at_zero(builds);
    let mut layouts = Steps::<L>::at_zero(layouts);
    let mut paints = Steps::<P>::at_zero(paints);
    run(
        alloc,
        words,
        source,
        sink,
        delegates,
        &mut builds,
        &mut layouts,
        &mut paints,
        AtEnd::LetGo,
    )
}

/// Runs a case's words over an input in one piece, where `bars` is the only delegate, and tells how often it was asked.
pub fn ran_asking(
    alloc: Global,
    case: &Case,
    input: &[u8],
) -> Result<(Outcome, Asked), AllocError> {
    let mut source = MemorySource::new(input.to_vec(alloc)?, input.len(), Vec::new(alloc));
    let mut sink = MemorySink::new(alloc, Vec::new(alloc));
    let nothing = Asked {
        sizes: 0,
        paints: 0,
    };
    let asked = Rc::new(alloc, Cell::new(nothing))?;
    let bars = CountingBars::new(Rc::clone(&asked)?);
    let delegates = alone(alloc, Box::new(alloc, bars)?)?;
    let status = run_over::<Brand, Brand, Brand>(
        alloc,
        case.words.as_slice(),
        &mut source,
        &mut sink,
        delegates,
        Blank::new(1),
        Blank::new(1),
        Blank::new(1),
    );
    let outcome = Outcome {
        status: status.code(),
        text: sink.bytes().to_vec(alloc)?,
    };
    Ok((outcome, asked.get()))
}
