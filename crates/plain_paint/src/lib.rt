//! The plain program that paints a whole laid tree, by what `screen_form` says: its layers, and what the layout remarks.
//!
//! Lengths are whole numbers of u, 1/64 of a logical pixel, or 1/256 in version 3 of a program.
#![tactic(auto)]

mod painting;
mod remarks;

pub use painting::paint;
pub use remarks::notes;
pub use screen_form::{Note, PaintRole, Remark};
