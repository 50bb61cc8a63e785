//! The plain program that asks a laid tree what a point meets, by what `screen_form` says: the hit path, and the gestures that
//! may begin there.
//!
//! Lengths are whole numbers of u, 1/64 of a logical pixel, or 1/256 in version 3 of a program.
#![tactic(auto)]

mod asking;
mod hit_role;
mod members;

pub use asking::{hit_path, hit_path_from};
pub use members::{handler_of, hit_members, hit_members_from};
pub use screen_form::HitRole;
