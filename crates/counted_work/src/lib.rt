//! What a frame counts, against what it may: where the flags of a tree of render nodes are, between frames and in a frame, and that
//! no more nodes are laid out and painted then than the work sets have.
#![tactic(auto)]

mod laws;
mod screens;
mod sessions;

pub use laws::{
    builds_flag_their_region, flushed_trees_have_no_flags, flushes_lay_out_their_region,
    frames_leave_causes, frames_paint_their_region, layouts_leave_frames, lines_cause_their_flags,
    marks_stay_inside, paints_keep_to_their_groups, worked_counts,
};
pub use screens::{screens_keep_causes, screens_keep_to_their_sets};
pub use sessions::{frames_keep_to_their_work, lines_keep_causes, sessions_begin_with_causes};
