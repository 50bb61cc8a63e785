//! Checking programs: their names are found, and their types and sorts tested.
#![tactic(auto)]

mod bodies;
mod calls;
mod checked;
mod given;
mod known;
mod laws;
mod members;
mod naming;
mod parts;
mod places;
mod programs;
mod refusals;
mod slots;

pub use calls::{check, check_widget};
pub use checked::{Body, BodyPart, Checked, CheckedComponent, CheckedParts, KeyExpr, Variables};
pub use laws::{
    checked_names_differ, checked_programs_are_typed, checked_widgets_are_typed,
    typed_members_are_wanted, worked_typed_bodies,
};
pub use places::{Amount, Place, Position};
pub use refusals::CheckFault;
pub use slots::SlotNames;
