//! The rules of layout, a file for each family of kinds: who is asked in which bounds, and what is made of the answers. A rule
//! knows of a child what it was told by the widgets between them, and its frame: the bounds and the size of a box, or the view
//! and the geometry of a sliver. It knows no tree.
//!
//! Lengths are whole numbers of u, 1/64 of a logical pixel, or 1/256 in version 3 of a program.
#![tactic(auto)]

mod alone;
mod around;
mod asked;
mod asking;
mod asks;
mod cursor;
mod family;
mod few;
mod first;
mod grid;
mod intrinsic;
mod laws;
mod liked;
mod liking;
mod line;
mod lone;
mod made;
mod makes;
mod measuring;
mod pile;
mod reading;
mod rest;
mod single;
mod slivers;
mod spread;
mod sums;
mod text;
mod viewport;

pub use alone::inner_bounds;
pub use asked::{Second, first_asked, made_of, second_asked};
pub use asks::Asks;
pub use cursor::Cursor;
pub use family::Family;
pub use few::Few;
pub use first::first_asks;
pub use intrinsic::greatest;
pub use laws::slivers_are_measured_by_their_boxes;
pub use liked::liked_for;
pub use lone::lone_size;
pub use made::Made;
pub use makes::make;
pub use measuring::{box_below, scroll_of};
pub use rest::{Found, findings, rest_asks};
pub use single::{SingleMade, is_single, single_made};
pub use viewport::{unseen, view_size};
