//! What a session is: its state between two commands, what each command comes to, with its refusals, and what is printed. The
//! definitions stand in specs/, apart from the programs that do it; here are their laws, and the causes of refusals.
#![tactic(auto)]

mod laws;
mod line_end;
mod refusal;

pub use laws::{frames_show_their_tree, worked_steps};
pub use line_end::LineEnd;
pub use refusal::Refusal;
