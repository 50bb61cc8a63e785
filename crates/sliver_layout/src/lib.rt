//! The arithmetic of slivers, the parts of a viewport that scroll: what of them is painted, which children of a list
//! of equal extents are seen or kept alive, and padding around a sliver. All lengths are in u.
#![tactic(auto)]

pub mod extents;
pub mod lists;
pub mod protocol;
pub mod walk;

pub use extents::{
    box_geometry, box_place, corrected, greatest, padded, padding_geometry, paint_offset,
    whole_geometry,
};
pub use lists::{item_place, list_geometry, live, window};
pub use protocol::{Geometry, SliverBounds, Walk, Window};
