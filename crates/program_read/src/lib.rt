//! Reading the program part of an input: its JSON, and then the form of a program.
#![tactic(auto)]

mod calls;
mod fault;
mod forms;
mod handlers;
mod keys;
mod laws;
mod leaves;
mod lists;
mod names;
mod objects;
mod parts;
mod reading;
mod words;

pub use calls::{ReadFault, read_program, read_widget};
pub use fault::{ShapeCode, ShapeFault};
pub use laws::worked_programs;
