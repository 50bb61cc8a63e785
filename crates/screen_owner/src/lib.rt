//! What a screen shows, and what it keeps of it from one frame to the next: render nodes with their layouts, and the layers of repaint
//! boundaries (`PipelineOwner`). Each frame brings the nodes to the tree of a build, lays out what is marked, and paints what is
//! marked; between frames lines mark what they change.
//!
//! Lengths are whole numbers of u, 1/64 of a logical pixel, or 1/256 in version 3 of a program.
#![tactic(auto)]

mod changes;
mod frames;
mod owner;
mod readers;

pub use frames::draw;
pub use owner::ScreenOwner;
