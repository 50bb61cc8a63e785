//! Values that components inherit from above: which value a name has at a place, and which components read it
//! (`InheritedElement`).
#![tactic(auto)]

mod laws;
mod providers;
mod readers;

pub use laws::{flags_keep_forests, flags_keep_nodes};
pub use providers::Providers;
pub use readers::mark_readers;
