//! What holds of each state of a run: of the numbers of its nodes, of marks, of the focus and of tweens. The definitions stand in
//! specs/, beside those of a session and of what stands beside it; here are their laws.
#![tactic(auto)]

mod focus;
mod marks;
mod numbers;
mod tweens;
mod worked;

pub use focus::{focus_stays_with_its_node, ways_lead_to_the_focus};
pub use marks::lines_mark_what_they_change;
pub use numbers::{numbers_stay_apart, runs_tell_nodes_apart};
pub use tweens::{tweens_are_cancelled_with_their_nodes, tweens_run_on, tweens_show_their_values};
pub use worked::worked_runs;
