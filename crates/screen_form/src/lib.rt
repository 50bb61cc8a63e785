//! What a screen is to who looks at it, points at it, has it read aloud, and goes through it by keys: which layers a frame
//! shows of a laid tree and what its layout remarks, what a point meets, what it means, and in which order its detectors take
//! the focus. The definitions stand in specs/, what each kind is to each of them in a role; here are their laws, and the types
//! of the code that they name.
//!
//! Lengths are whole numbers of u, 1/64 of a logical pixel, or 1/256 in version 3 of a program.
#![tactic(auto)]

mod act_fault;
mod focus_laws;
mod focus_role;
mod hit_laws;
mod hit_role;
mod paint_laws;
mod paint_role;
mod remarks;
mod semantics_laws;
mod spot;

pub use act_fault::ActFault;
pub use focus_laws::{
    hidden_parts_are_unfocused, order_has_each_once, order_rises, steps_undo_each_other,
};
pub use focus_role::FocusRole;
pub use hit_laws::{hit_paths_keep_order, nothing_outside_is_hit, worked_hits};
pub use hit_role::HitRole;
pub use paint_laws::{hidden_parts_are_unread, worked_paints};
pub use paint_role::PaintRole;
pub use remarks::{Note, Remark};
pub use semantics_laws::{
    a_detector_acts, hidden_parts_are_unheard, ids_are_numbers, ids_differ, worked_semantics,
};
pub use spot::Spot;
