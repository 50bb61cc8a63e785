//! What script lines and layouts leave of what stands between two builds: elements, render nodes and a registry, which stand for the
//! tree of the last frame (`StandsFor` of `build_owner`). The definitions stand in specs/; here are their laws.
#![tactic(auto)]

mod laws;

pub use laws::{elements_are_nodes, lines_leave_standing_trees};
