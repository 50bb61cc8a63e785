//! Where the children of a Wrap and of a Table stand, and how large they are together. All lengths are in u.
#![tactic(auto)]

mod extents;
pub mod laws;
mod table;
mod wrap;

pub use extents::extent_of;
pub use table::{table_places, table_size};
pub use wrap::{wrap_places, wrap_size};
