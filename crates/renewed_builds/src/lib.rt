//! Builds in which what is marked is built anew in its place (`ComponentElement.performRebuild`): one component alone, or several of
//! which none moves, and an Inherit that takes another value with the components that read it. There is no walk, and no plan for the whole
//! tree.
#![tactic(auto)]

mod following;
mod gathering;
mod regiving;
mod renewing;
mod several;
mod taking;

pub use regiving::regive;
pub use renewing::renew;
pub use several::renew_all;
pub use taking::Change;
