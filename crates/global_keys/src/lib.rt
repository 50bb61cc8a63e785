//! Who has which global key: no two elements of a tree have one, and an element that has one keeps its state wherever it goes
//! (`GlobalKey`, `BuildOwner._globalKeyRegistry`).
#![tactic(auto)]

mod laws;
mod registry;

pub use laws::{
    claims_take_holders, edits_keep_names, names_cover, notes_name_new, removals_leave_covered,
};
pub use registry::{Claim, Registry};
