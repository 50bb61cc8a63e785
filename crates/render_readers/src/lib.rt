//! What a point of the screen meets, what it means, in which order its detectors take the focus and what its layout remarks,
//! read off the tree of render nodes as it stands in its arena, without a copy of it.
//!
//! Lengths are whole numbers of u, 1/64 of a logical pixel, or 1/256 in version 3 of a program.
#![tactic(auto)]

mod place;
mod readers;
mod remarks;

pub use readers::{handler_of, hit_members, hit_path, notes, order, semantics};
