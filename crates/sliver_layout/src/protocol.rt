use fx_geom::Axis;

/// What a sliver gets (`SliverConstraints`), in u: the axis it scrolls along, how far its start has been scrolled off
/// the view (`scrollOffset`), how much of the view is left for it (`remainingPaintExtent`), and its extent across
/// (`crossAxisExtent`).
#[derive(Clone, Copy, Debug, PartialEq, Eq)]
pub struct SliverBounds {
    pub axis: Axis,
    pub offset: u64,
    pub remaining: u64,
    pub cross: u64,
}

/// What a sliver gives (`SliverGeometry`), in u: how far it can be scrolled through (`scrollExtent`), and how much of
/// it is seen (`paintExtent`).
#[derive(Clone, Copy, Debug, Default, PartialEq, Eq)]
pub struct Geometry {
    pub scroll: u64,
    pub paint: u64,
}

/// Some children of a list that follow one another, by their indices: from `first` to before `end`. No children are 0
/// to 0.
#[derive(Clone, Copy, Debug, Default, PartialEq, Eq)]
pub struct Window {
    pub first: u64,
    pub end: u64,
}

/// How far a viewport's walk over its slivers has come, in u: how much of the scroll offset is left for the slivers ahead,
/// and where on the main axis the next sliver stands (`RenderViewport.layoutChildSequence`).
#[derive(Clone, Copy, Debug, PartialEq, Eq)]
pub struct Walk {
    pub left: u64,
    pub at: u64,
}
