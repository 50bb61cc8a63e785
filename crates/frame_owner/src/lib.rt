//! What is kept from one frame to the next: elements, the registry of global keys, render nodes with their layouts, and layers
//! (`BuildOwner`, `PipelineOwner`). A tree that was built is shown, of which only what changed is laid out and painted; and each line
//! between two frames finds its node by the number.
//!
//! Lengths are whole numbers of u, 1/64 of a logical pixel, or 1/256 in version 3 of a program.
#![tactic(auto)]

mod building;
mod framing;
mod in_place;
mod laws;
mod lines;
mod owner;
mod plugging;
mod preorder;
mod readers;
mod redrawing;
mod renewing;
mod scrolling;
mod settling;
mod showing;

pub use laws::{frames_build_what_is_due, marks_need_nodes, what_stands_is_drawn};
pub use owner::FrameOwner;
