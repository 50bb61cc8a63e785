//! Widgets: what an application asks to be on the screen, as nested immutable descriptions.
//!
//! Lengths are whole numbers of u, 1/64 of a logical pixel, or 1/256 in version 3 of a program.
#![tactic(auto)]

mod decl;
mod laws;
mod looks;
mod sameness;
mod types;
mod widgets;
mod words;

pub use decl::{Decl, FieldList, NameList};
pub use laws::{key_eq_means, updates_means, widgets_are_their_list};
pub use looks::same_look;
pub use sameness::same;
pub use types::{can_update, same_type};
pub use widgets::{Kind, Widget, WidgetList};
pub use words::{Behavior, FlexFit, MainSize};
