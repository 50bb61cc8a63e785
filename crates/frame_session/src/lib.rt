//! A session: a program, and what its frames and the commands between them have made of it.
#![tactic(auto)]

mod changing;
mod events;
mod field_value;
mod frame_text;
mod framing;
mod gestures;
mod handling;
mod held;
mod kept;
mod node_state;
mod seeing;
mod session;
mod states;
mod stepping;
mod values;

pub use build_form::FrameFault;
pub use script_lines::{Action, Command};
pub use session::Session;
pub use session_form::{LineEnd, Refusal};
