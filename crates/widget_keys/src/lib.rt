// Keys of widgets: what ties a widget of a new child list to one of the old list.
#![tactic(auto)]

mod keys;
mod repeats;

pub use keys::Key;
pub use repeats::first_repeat;
