//! How a build goes on from the one before: which outputs of components it keeps, and that it comes to what the full build
//! comes to. The definitions stand in specs/; here are their laws.
#![tactic(auto)]

mod frames;
mod laws;
mod old_elements;
mod second;
mod steps;

pub use frames::{
    builds_leave_standing_trees, built_trees_have_one_top, changed_nodes_are_live,
    first_phases_go_on_from_elements, new_trees_stand_for_none, standing_elements_are_known,
};
pub use laws::{
    builds_leave_fresh_trees, changed_nodes_are_in_the_work_sets, edits_leave_fresh_trees,
    elements_tell_the_last_frame, forests_are_walked_in_turn, frames_keep_outputs,
    keeping_comes_to_the_full_build, lists_are_served_in_order, nodes_are_walked,
    one_forest_plans_both_trees, outputs_read_their_names, plans_of_items_are_merged,
    plans_report_all_changes, plans_report_what_differs, states_stay_fresh, waiting_lists_are_bare,
    walks_build_what_changed, walks_join, walks_keep_what_is_right, what_is_built_is_due,
    widgets_are_entered_in_turn, worked_rebuilds,
};
pub use old_elements::{
    elements_have_pasts, kept_elements_are_known, kept_elements_stay, types_draw_alike,
};
pub use second::{drawn_elements_stay, grown_forests_go_on, items_complete_the_build};
pub use steps::{
    builds_are_counted_in_turn, widgets_are_entered, widgets_are_entered_below, widgets_stop,
};
