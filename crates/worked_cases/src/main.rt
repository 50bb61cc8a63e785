//! Runs the case files of data/: each case's input through `frame_run::run`, in pieces of several sizes, and compares what
//! is written and the status with what the case wants. README.md, beside this folder, says how cases are written.
#![tactic(auto)]

mod asking;
mod case;
mod content;
mod fault;
mod outcome;
mod report;
mod sheet;

use fault::Fault;
use report::Report;
use sheet::Sheet;
use std::alloc::Global;
use std::process::ExitCode;
use std::{fs, io};

// The case files, in the order in which they are run.
const FILES: [&str; 35] = [
    "statuses.cases",
    "words.cases",
    "lines.cases",
    "script.cases",
    "shape_faults.cases",
    "check_names.cases",
    "check_types.cases",
    "check_places.cases",
    "check_order.cases",
    "expressions.cases",
    "versions.cases",
    "layout.cases",
    "limits.cases",
    "input_limit.cases",
    "keyed_children.cases",
    "inherited.cases",
    "boxes.cases",
    "text.cases",
    "slivers.cases",
    "layers.cases",
    "delegates.cases",
    "pointers.cases",
    "refusals.cases",
    "tweens.cases",
    "focus.cases",
    "cells.cases",
    "engine.cases",
    "engine_lists.cases",
    "engine_layers.cases",
    "engine_pairs.cases",
    "engine_calls.cases",
    "large_trees.cases",
    "largest_trees.cases",
    "deep_widgets.cases",
    "counter.cases",
];

// Runs the cases of a text.
fn run_text(alloc: Global, text: &str, report: &mut Report) -> Result<(), Fault> {
    let mut sheet = Sheet::new(alloc);
    for line in text.lines() {
        report.lines = report.lines.saturating_add(1);
        sheet.take(alloc, line, report)?;
    }
    sheet.close(alloc, report)
}

// Runs the cases of a file, and tells of them.
fn run_file(alloc: Global, name: &str, text: &str) -> io::Result<Report> {
    let mut report = Report::new(alloc);
    match run_text(alloc, text, &mut report) {
        Ok(()) => {}
        Err(Fault::Unread) => report.tell_unread()?,
        Err(Fault::NoMemory) => return Err(io::ErrorKind::OutOfMemory.into()),
    }
    report.tell_counts(name)?;
    Ok(report)
}

fn main(rt: HostRuntime) -> io::Result<ExitCode> {
    let alloc = rt.alloc();
    let mut code = ExitCode::SUCCESS;
    for name in FILES {
        let text = fs::read_to_string(&rt, name)?;
        let report = run_file(alloc, name, text.as_str())?;
        print!(rt; "{}", report.text.as_str())?;
        if report.wrong {
            code = ExitCode::FAILURE;
        }
    }
    Ok(code)
}
