//! What a frame counts whose build goes in two phases, against what it may: no more than twice the layout region of the whole build's tree,
//! once as its lazy lists are laid out, and once as all is.
#![tactic(auto)]

mod laws;
mod outer_frames;
mod paints;

pub use laws::{
    bereft_items_reach_their_list, differing_nodes_are_reached, first_phases_lay_out_their_region,
    left_items_flag_their_region, lists_flag_their_region, marks_stay_where_bounds_do,
    outer_flags_have_their_region, outer_flushes_run_what_is_due,
    outer_flushes_stay_in_their_region, phased_frames_lay_out_twice, redrawn_nodes_are_as_before,
    unreached_nodes_stay, worked_phases,
};
pub use outer_frames::{frames_pass_between_phases, outer_flushes_show_the_frame};
pub use paints::phased_trees_paint_their_region;
