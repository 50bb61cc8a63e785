//! Checking expressions and handlers: their names are found, and their types tested.
#![tactic(auto)]

mod builds;
mod exprs;
mod fault;
mod handlers;
mod laws;
mod names;
mod wants;

pub use exprs::{TypedExpr, check_form, found};
pub use fault::{CheckCode, CheckStop};
pub use handlers::{check_as, check_handler};
pub use laws::{checked_expressions_are_typed, checked_handlers_are_typed};
pub use names::{Declared, LoopVariables, Names};
pub use wants::{Want, item_of};
