//! Delegates: objects that programs call by name for an own layout and paint.
#![tactic(auto)]

mod delegate;
mod drawing;
mod kinds;
mod table;

pub use delegate::Delegate;
pub use kinds::{Bars, Corner, Grid};
pub use table::{DelegateTable, Named, SetEnd};
