//! How a tree of render nodes that keeps its last layout is laid out again: what holds of it at each node and its children, what
//! a walk does to a subtree, and what comes of it. The definitions stand in specs/; here are their laws.
#![tactic(auto)]

mod laws;

pub use laws::{
    a_held_node_keeps_what_is_below, a_rule_lays_out, an_unmarked_node_is_kept, asks_are_compared,
    firm_by_members, flushes_correct_offsets, flushes_run_what_is_due, flushes_show_full_layout,
    full_layout_is_of_render_nodes, laid_children_answer_in_full, no_rule_runs_twice,
    offsets_may_be_corrected_early, outer_flushes_lay_out_lists, quiet_trees_show_full_layout,
    rules_are_lawful, slivers_are_measured, stored_layouts_are_full, trees_answer_as_render_nodes,
    two_rounds_are_one, views_follow_extents, worked_flushes,
};
