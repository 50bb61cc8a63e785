//! The build of a screen over trees in arenas: from a widget and the elements of the last frame, the elements and render nodes of the
//! next one, building only the components that changed (`BuildOwner`).
#![tactic(auto)]

mod arriving;
mod beginning;
mod building;
mod climbing;
mod committing;
mod completing;
mod drawing;
mod entering;
mod giving;
mod items;
mod keeping;
mod laws;
mod lazy;
mod losing;
mod merging;
mod names;
mod opening;
mod owning;
mod planning;
mod program;
mod ranging;
mod rendering;
mod serving;
mod source;
mod staying;
mod walk;

pub use build_form::FrameFault;
pub use building::flush;
pub use climbing::provide_above;
pub use completing::flush_items;
pub use drawing::render_role_of;
pub use giving::keep_apart;
pub use keeping::is_same;
pub use laws::{kept_lists_are_not_marked, new_trees_stand, survivors};
pub use lazy::LazyList;
pub use names::{Outer, provide_below, restore};
pub use program::{body_output, first_fields, given_anew};
pub use rendering::is_drawn;
pub use source::{DEPTH_LIMIT, WalkSource};
