//! A component's output: the widgets that a checked template gives, with its members evaluated, brought into their ranges,
//! and its handlers closed.
#![tactic(auto)]

mod build;
mod calls;
mod children;
mod faults;
mod laws;
mod looks;
mod members;
mod paints;
mod parts;
mod pointers;
mod roles;
mod scenes;
mod scrolled;
mod sizes;

pub use calls::{LIMIT, build_component, build_root, initial_fields};
pub use faults::BuildFault;
pub use laws::{a_root_is_one_widget, handlers_fit_their_owners, worked_outputs};
