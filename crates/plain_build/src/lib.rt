//! The build of a screen: from a widget, and the tree of the last frame, the tree of the next one.
#![tactic(auto)]

mod basis;
mod building;
mod entering;
mod filling;
mod holders;
mod items;
mod opening;
mod partners;
mod program;
mod providing;
mod ranges;
mod second;
mod steps;
mod walk;

pub use build_form::FrameFault;
pub use building::{Built, build};
pub use program::default_values;
pub use steps::keys_of;
