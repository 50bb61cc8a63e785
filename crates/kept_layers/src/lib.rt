//! What a frame keeps of the layers of the last one: the group of each repaint boundary, what is kept of it, and when that is
//! what a full painting would give. The definitions stand in specs/; here are their laws.
#![tactic(auto)]

mod changes;
mod laws;

pub use changes::{
    changes_are_listed, listed_changes_repaint, other_delegates_are_listed,
    repainted_trees_stay_fresh,
};
pub use laws::{
    filled_parts_are_painted, flagged_groups_are_counted, flags_go_by_handles,
    stale_boundaries_suffice, unmarked_groups_stay, worked_groups,
};
