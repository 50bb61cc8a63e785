//! Lengths, offsets, rectangles and box constraints, in whole units. A unit, written u, is 1/64 of a logical pixel,
//! or 1/256 of one, as the program's [`Scale`] says.
#![tactic(auto)]

pub mod boxes;
pub mod laws;
pub mod lengths;
pub mod scales;
pub mod shapes;
pub mod words;

pub use boxes::Bounds;
pub use lengths::{LEN_MAX, Len, add_lengths};
pub use scales::Scale;
pub use shapes::{Axis, Insets, OFFSET_MAX, Offset, Rect, Size};
pub use words::{CrossAlign, MainAlign, Placed, StackFit};
