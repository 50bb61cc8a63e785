//! Gestures: which of the members that a pointer has wins it, under every interleaving of pointers, times and frames,
//! and what the winner does then (`GestureArenaManager`). Points are in u, times in milliseconds.
#![tactic(auto)]

mod answers;
mod arena;
mod call;
mod calls;
mod deciding;
mod gesture;
mod gone;
mod held;
pub mod laws;
mod marks;
mod meeting;
mod moment;
mod place;
mod pointers;
mod tracked;

pub use calls::POINTERS_MAX;
pub use gesture::{ArenaEvent, DownFault, Gesture, Member, PointerIsUp};
pub use pointers::Pointers;
