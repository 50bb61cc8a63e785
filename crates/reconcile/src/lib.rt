//! Matching of child lists: which child of an old list each child of a new list goes on from
//! (`updateChildren` in Flutter).
#![tactic(auto)]

mod children;
pub mod laws;
mod middle;
mod places;
mod scan;

pub use children::match_children;
pub use scan::match_by_scan;
