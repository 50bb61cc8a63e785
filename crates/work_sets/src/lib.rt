//! How much a frame may build, lay out and paint: the components that are due, and the regions of the render tree that are
//! laid out and painted, by the state before the frame and the tree that its build makes. The definitions stand in specs/;
//! here are their laws.
#![tactic(auto)]

mod laws;

pub use laws::{
    builds_enter_their_trees, first_frames_lay_all_out, layout_regions_are_whole,
    layouts_read_what_counts, more_changes_take_no_less, paint_regions_are_whole,
    quiet_frames_take_no_work, regions_keep_to_the_tree, same_means_equal,
    unchanged_trees_keep_their_layout, work_is_over_the_build, worked_work_sets,
};
