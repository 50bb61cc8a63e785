//! Text in cells: where the lines of a text are cut, and how wide and high it is.
#![tactic(auto)]

mod clusters;
pub mod laws;
mod line;
mod pending;
mod stretch;
mod wrapping;

pub use line::Line;
pub use pending::cluster_cells;
pub use wrapping::{max_width, measure, wrap};
