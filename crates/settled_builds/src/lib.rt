//! Trees that a build leaves as they are, and builds nothing of: those that a build gave for the same root, of which nothing was marked
//! since; and trees of which some components are to be built anew. The definitions stand in specs/; here are their laws.
#![tactic(auto)]

mod in_place;
mod laws;
mod rearranging;
mod steps;

pub use in_place::{lines_leave_marked_trees, marked_trees_are_stale};
pub use laws::{
    builds_leave_settled_trees, lines_leave_settled_trees, settled_trees_stay, worked_settled_trees,
};
pub use rearranging::{
    marked_spots_stay, projections_are_rearranged, rearrangements_go_on, steps_vanish_alone,
    worked_rearrangements,
};
pub use steps::{
    builds_go_on_alike, first_components_stand, first_components_stop_builds,
    first_phases_go_on_alike, left_steps_lead, lines_leave_ready_trees, ready_trees_settle,
    regiven_values_mark_readers, retaken_trees_are_ready, steps_follow_on, steps_lead,
    worked_steps,
};
