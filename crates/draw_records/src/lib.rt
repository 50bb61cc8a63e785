//! Records: what a picture of a layer holds, and how they are printed.
#![tactic(auto)]

mod ending;
pub mod laws;
mod printing;
mod quote;
mod record;

pub use printing::{print, push_extent, push_number, push_place};
pub use quote::push_quoted;
pub use record::Record;
