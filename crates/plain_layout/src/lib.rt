//! The plain program that lays out a whole tree: each child once, and each node by the rule of its kind (`kind_rules`).
//!
//! Lengths are whole numbers of u, 1/64 of a logical pixel, or 1/256 in version 3 of a program.
#![tactic(auto)]

mod answers;
mod bare;
mod family;
mod intrinsic;
mod layout;
mod live;
mod opened;
mod place;
mod rules;
mod slivers;

pub use intrinsic::greatest;
pub use layout::lay_view;
pub use live::{lazy_views, live_range};
