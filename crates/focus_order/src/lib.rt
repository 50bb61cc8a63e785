//! The plain program that puts the detectors of a laid tree in the order in which they take the focus, by what `screen_form`
//! says, and finds the one that comes next (`ReadingOrderTraversalPolicy`).
//!
//! Lengths are whole numbers of u, 1/64 of a logical pixel, or 1/256 in version 3 of a program.
#![tactic(auto)]

mod focus_role;
mod ordering;
mod stepping;

pub use ordering::{order, order_from};
pub use screen_form::Spot;
pub use stepping::{next, prev};
