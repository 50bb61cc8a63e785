//! The run of a program: its input's lines are taken as they come, and the text of those that have ended is written before
//! more is read.
#![tactic(auto)]

mod begin;
mod counting;
mod demo;
mod demo_run;
mod ending;
mod gathered;
mod handing;
mod input;
mod laws;
mod line;
mod output;
mod program;
mod script;
mod stage;
mod status;
mod top;
mod words;

pub use counting::{CountedRun, run_counted};
pub use demo::worked_demo;
pub use ending::AtEnd;
pub use laws::{worked_cells, worked_checks, worked_lines, worked_sums};
pub use program::ProgramFault;
pub use status::Status;
pub use top::{INPUT_MAX, run};
