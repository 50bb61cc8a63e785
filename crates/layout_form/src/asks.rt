// What a node is asked for.
use fx_geom::Bounds;
use sliver_layout::SliverBounds;

/// What a parent asks of a child: to be laid out as a box in bounds, or as a sliver in a view, both in u.
#[derive(Clone, Copy, Debug, PartialEq, Eq)]
pub enum Ask {
    AsBox(Bounds),
    AsSliver(SliverBounds),
}
