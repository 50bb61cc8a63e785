//! The plain program that says what a laid tree means to a user who doesn't see it, by what `screen_form` says: a tree of
//! labels and actions, what its actions do, and how it is printed (`SemanticsNode`).
//!
//! Lengths are whole numbers of u, 1/64 of a logical pixel, or 1/256 in version 3 of a program.
#![tactic(auto)]

mod acting;
mod forming;
mod gathering;
mod nodes;
mod printing;
mod semantics_role;

pub use acting::act;
pub use gathering::{semantics, semantics_from};
pub use nodes::{SemList, SemNode};
pub use printing::print;
pub use screen_form::ActFault;
pub use script_lines::Action;
