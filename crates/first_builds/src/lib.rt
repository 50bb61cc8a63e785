//! The first build of a screen, where nothing stands yet: elements and render nodes are made in their places.
#![tactic(auto)]

mod first;
mod inflating;
mod laws;
mod listing;
mod mounting;

pub use first::flush_first;
pub use listing::has_no_lists;
