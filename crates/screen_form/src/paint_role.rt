// What a node is to painting.
use layer_tree::LayerKind;

/// What a node is to painting: what it does to what is painted below it.
#[derive(Clone, Copy, PartialEq, Eq)]
pub enum PaintRole {
    /// It hides it.
    Hides,
    /// It leaves it in the layer in which the node stands.
    Passes,
    /// It makes a layer of its own for it.
    Layers(LayerKind),
}
