//! JSON read into a tree that takes little memory: its texts are lent by what was read, and its lists have no room to
//! spare.
#![tactic(auto)]

mod lists;
mod numbers;
mod reading;
mod tree;

pub use reading::read;
pub use tree::Json;
