//! Layout over a tree of render nodes in an arena: what boxes in it would like, how a layout sees its nodes, and what a duty of a
//! layout comes to at one of them.
//!
//! Lengths are whole numbers of u, 1/64 of a logical pixel, or 1/256 in version 3 of a program.
#![tactic(auto)]

mod asking;
mod cursor;
mod duties;
mod ending;
mod extents;
mod fixed;
mod laws;
mod laying;
mod liking;
mod lone;
mod made;
mod only;
mod reading;
mod stepping;
mod walk;
mod writing;

pub use duties::{Course, Duty};
pub use laws::{courses_end_well, layouts_look_as_listed, layouts_see_render_nodes, subtrees_turn};
pub use laying::{lay_one, lay_outer};
pub use liking::{max_h, max_w};
