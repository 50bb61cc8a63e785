//! Which kinds stand in a program of a version, in what is built of it, and in the state of a session: none that came later. The
//! definitions stand in specs/, beside those of a session; here are their laws.
#![tactic(auto)]

mod laws;

pub use laws::{
    builds_keep_to_their_version, first_versions_have_no_lists, lists_in_the_tree_wait,
    programs_keep_to_their_version, programs_without_lists_build_none,
    states_keep_to_their_version, waiting_lists_are_in_the_tree, worked_versions,
};
