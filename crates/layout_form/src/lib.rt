//! What full layout is: where each node of a screen stands and how large it is, and the extents that boxes would like.
//! The definitions stand in specs/, one rule for each kind; here are their laws.
//!
//! Lengths are whole numbers of u, 1/64 of a logical pixel, or 1/256 in version 3 of a program.
#![tactic(auto)]

mod asks;
mod laws;

pub use asks::Ask;
pub use laws::{
    bounds_fix_sizes, corrected_offsets_stay, frames_meet_bounds, hidden_boxes_are_blind,
    layout_keeps_nodes, nodes_go_by_their_rules, objects_of_a_list, places_stop_once,
    projections_take_offsets, proxies_pass_their_bounds_on, rules_see_frames,
    scroll_extents_see_nothing, sides_are_lengths, sizes_meet_bounds, sizes_see_no_offsets,
    slivers_follow_their_scroll_extents, slivers_keep_to_their_view,
    trees_of_members_can_be_laid_out, two_rounds_suffice, viewports_need_scroll_extents,
    worked_layouts,
};
