//! Layers: what a frame gives to an engine, and how it is printed.
#![tactic(auto)]

mod kind;
mod layers;
mod printing;

pub use kind::LayerKind;
pub use layers::{Item, ItemList, Layer};
pub use printing::print;
