//! What the build of a screen is: from a widget, and the tree of the last frame, the tree of the next one. The definitions stand
//! in specs/, apart from the programs that build; here are their laws, what stops a build, and what a kind is to it.
#![tactic(auto)]

mod faults;
mod laws;
mod roles;

pub use faults::FrameFault;
pub use laws::{
    builds_are_well_built, built_trees_can_be_laid_out, built_trees_vanish_alone,
    changes_keep_numbering, few_numbers_are_given, handlers_belong_to_nodes_above,
    numbers_are_old_or_new, numbers_differ, owned_handlers_fit, states_survive, survivors,
    trees_keep_to_the_limit, worked_builds,
};
pub use roles::{BuildRole, build_role_of};
