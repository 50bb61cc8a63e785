//! What a node of each kind is to painting, and what it draws of its own, by what `screen_form` says. Each painting program
//! stands on it, whatever tree it walks.
//!
//! Lengths are whole numbers of u, 1/64 of a logical pixel, or 1/256 in version 3 of a program.
#![tactic(auto)]

mod records;
mod role;

pub use records::push_own;
pub use role::{paint_role, point_below};
