//! Cells of text: what the layers of a frame show in a grid of cells, and which of the cells changed.
//!
//! Lengths are whole numbers of u, 1/64 of a logical pixel, or 1/256 in version 3 of a program.
#![tactic(auto)]

mod area;
mod block;
mod cell;
mod damage;
mod drawing;
mod grid;
mod laws;
mod printing;
mod raster;
mod shown;

pub use cell::{Cell, Glyph};
pub use damage::Damage;
pub use grid::CELLS_MAX;
pub use laws::{cells_stand_in_their_places, damage_is_least, worked_cells};
pub use raster::{Raster, RasterFault};
