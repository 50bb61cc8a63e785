//! A place in a laid tree, however the tree is kept, and what can be read from there. What goes through laid trees is written
//! once, over such places.
//!
//! Lengths are whole numbers of u, 1/64 of a logical pixel, or 1/256 in version 3 of a program.
#![tactic(auto)]

mod cursor;
mod place;

pub use cursor::LaidCursor;
pub use place::LaidPlace;
