//! The layers that a frame shows, of which those of the last one are kept: of each repaint boundary the parts of its group and
//! its layer (`PipelineOwner.flushPaint`, `PaintingContext`).
#![tactic(auto)]

mod boundary_shelf;
mod filling;
mod finding;
mod group;
mod kept_parts;
mod laws;
mod owner;
mod parts;
mod redoing;
mod settling;
mod whole;

pub use kept_parts::KeptGroup;
pub use laws::{
    calm_frames_count_nothing, commits_keep_layers, delegates_keep_layers, due_trees_are_kept,
    layouts_keep_layers, listed_changes_keep_layers, marks_keep_layers, repainted_trees_are_kept,
    unmarked_roots_stay, worked_frame, writes_keep_layers,
};
pub use owner::PaintOwner;
pub use parts::{PaintPart, PartLayer, PartList};
pub use whole::paint_one;
