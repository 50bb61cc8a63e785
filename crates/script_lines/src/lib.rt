//! The lines of a script: what each asks for, and how it is read. The session that does what a line asks for stands on
//! this crate, and so does the run that reads the lines.
#![tactic(auto)]

mod command;
mod entry;
mod fault;
mod numbers;
mod own_lines;
mod reading;
mod table;
mod words;

pub use command::{Action, Command};
pub use entry::Entry;
pub use fault::LineFault;
pub use reading::{LINE_MAX, read_line};
