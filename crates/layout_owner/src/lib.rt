//! The layout of a frame, over a tree of render nodes in an arena that keeps its last layout: what has to be laid out is, and nothing
//! else (`PipelineOwner.flushLayout`).
//!
//! Lengths are whole numbers of u, 1/64 of a logical pixel, or 1/256 in version 3 of a program.
#![tactic(auto)]

mod laws;
mod outer;
mod owner;
mod ranges;
mod root;

pub use laws::{
    calm_trees_show_full_layout, items_have_no_part_in_live_ranges, listed_views_are_stored,
    lists_tell_views,
};
pub use outer::flush_outer;
pub use owner::flush;
