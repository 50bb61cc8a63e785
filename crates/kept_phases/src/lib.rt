//! What is kept of layouts and layers while a build goes on in two phases: of all render nodes, also of those that stand beside the
//! root's tree between the phases, and come back into it in the second. Laws of both phases, and the layout between them, which gives
//! lazy lists their live ranges and leaves Viewports where they are.
//!
//! Lengths are whole numbers of u, 1/64 of a logical pixel, or 1/256 in version 3 of a program.
#![tactic(auto)]

mod laws;
mod lists;

pub use laws::{
    layers_are_kept_whole, outer_layouts_keep_all, parts_are_redrawn, redraws_keep_layers,
    redraws_keep_layouts, scrolls_keep_layers,
};
pub use lists::flush_lists;
