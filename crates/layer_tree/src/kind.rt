use fx_geom::{Offset, Rect};

/// What a layer does to what stands in it.
#[derive(Clone, Copy, Debug, PartialEq, Eq)]
pub enum LayerKind {
    /// It stands at a place, in u, in the layer above (`OffsetLayer`).
    Offset(Offset),
    /// It stands at a place, in u, and is blended with an alpha from 0 to 255 (`OpacityLayer`).
    Opacity(Offset, u8),
    /// It is clipped to a rectangle, in u (`ClipRectLayer`).
    Clip(Rect),
}
