//! What a screen is made of, as owned trees: the nodes that a build makes, what of them is laid out, and what a layout
//! gives. Each has a plain value by which contracts speak of it.
//!
//! Lengths are whole numbers of u, 1/64 of a logical pixel, or 1/256 in version 3 of a program.
#![tactic(auto)]

mod changing;
mod finding;
mod laid;
mod laws;
mod nodes;
mod preorder;
mod projecting;
mod render;
mod role;
mod scrolling;

pub use laid::{Facts, Frame, LaidChild, LaidNode, Notes};
pub use laws::{
    changes_keep_numbers, fields_leave_the_projection, one_root_is_laid_out,
    projection_keeps_numbers_apart, projection_keeps_order,
};
pub use nodes::Node;
pub use projecting::{project, project_root, told_at, told_by};
pub use render::{ParentData, RenderNode};
pub use role::RenderRole;
