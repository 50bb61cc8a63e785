//! What a frame counts that keeps its trees, where its build goes in one step or in two phases, against the work of the frame: from what is
//! known of its render nodes alone.
#![tactic(auto)]

mod causes;
mod laws;
mod paints;
mod sessions;

pub use causes::phased_frames_leave_causes;
pub use laws::phased_layouts_keep_to_their_region;
pub use paints::phased_frames_paint_their_region;
pub use sessions::{
    frames_with_faults_keep_to_their_work, phased_frames_keep_to_their_work, works_are_frame_works,
};
