//! The program: a run over standard input and output, which ends with the run's status.
#![tactic(auto)]

use frame_run::{AtEnd, Status, run_counted};
use fx_outside::{StdSink, StdSource};
use std::env;
use std::io::ErrorKind;
use std::marker::Brand;
use std::rt::Env;
use std::sync::ledger::Blank;

fn main(rt: HostRuntime) -> Status {
    match words(&rt) {
        Ok(words) => {
            run_counted::<_, _, Brand, Brand, Brand>(
                rt.alloc(),
                words.as_slice(),
                &mut StdSource::new(rt.stdin()),
                &mut StdSink::new(rt.stdout()),
                Blank::new(1),
                Blank::new(1),
                Blank::new(1),
                AtEnd::Left,
            )
            .status
        }
        Err(status) => status,
    }
}

// The words after the program's name. A word that isn't UTF-8 is refused.
fn words<R: Env + AllocGlobal>(rt: &R) -> Result<Vec<String>, Status> {
    match env::args(rt) {
        Ok(args) => args
            .skip(1)
            .collect(rt.alloc())
            .map_err(|_| Status::NoMemory),
        Err(error) => match error.kind() {
            ErrorKind::OutOfMemory => Err(Status::NoMemory),
            _ => Err(Status::BadWords),
        },
    }
}
