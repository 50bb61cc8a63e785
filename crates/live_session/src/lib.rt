//! A session, and what stands beside it between two script lines: the tweens that run, the focus, and the cells that were
//! printed last.
#![tactic(auto)]

mod celling;
mod focusing;
mod laws;
mod live;
mod refusal;
mod tweening;

pub use laws::{focus_stays, running_tweens_keep_time, tweens_keep_time, tweens_stay_apart};
pub use live::{Ended, Live};
pub use refusal::LineRefusal;
