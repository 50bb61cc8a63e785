// How far slivers can be scrolled through, by the boxes in them.
ghost use Rattle.std.specs.Prelude.{◌≡◌, option_map};
ghost use Rattle.widget_model.specs.View.{look_in};
ghost use Rattle.kind_rules.specs.Below.{holding_of, boxed, box_below, scroll_by};

use crate::alone::insets_of;
use crate::cursor::Cursor;
use crate::slivers::box_bounds;
use crate::viewport::unseen;
use fx_geom::{Axis, Bounds};
use sliver_layout::{Geometry, list_geometry, padded, padding_geometry};
use widget_model::Kind;

/// What a sliver has below it: a box in these bounds, a sliver with this cross extent, or neither of them.
pub(crate) enum Holding {
    Box(Bounds),
    Sliver(u64),
    Neither,
}

fn holding_of(kind: &Kind, axis: Axis, cross: u64) -> Holding
    ensures { result ≡ holding_of (look_in kind.now) axis cross }
{
    match kind {
        Kind::SliverToBox => Holding::Box(box_bounds(unseen(axis, cross))),
        Kind::SliverPadding {
            left,
            top,
            right,
            bottom,
        } => {
            let insets = insets_of(*left, *top, *right, *bottom);
            Holding::Sliver(padded(unseen(axis, cross), insets).cross)
        }
        Kind::SizedBox { .. }
        | Kind::ConstrainedBox { .. }
        | Kind::Padding { .. }
        | Kind::Align { .. }
        | Kind::ColoredBox { .. }
        | Kind::Text { .. }
        | Kind::Row { .. }
        | Kind::Column { .. }
        | Kind::Wrap { .. }
        | Kind::Table { .. }
        | Kind::Stack { .. }
        | Kind::Flexible { .. }
        | Kind::Positioned { .. }
        | Kind::Opacity { .. }
        | Kind::ClipRect
        | Kind::RepaintBoundary
        | Kind::MergeSemantics
        | Kind::IntrinsicWidth
        | Kind::IntrinsicHeight
        | Kind::Offstage { .. }
        | Kind::IgnorePointer { .. }
        | Kind::AbsorbPointer { .. }
        | Kind::Detector { .. }
        | Kind::Semantics { .. }
        | Kind::ExcludeSemantics { .. }
        | Kind::CustomPaint { .. }
        | Kind::CustomLayout { .. }
        | Kind::Viewport { .. }
        | Kind::SliverFixed { .. }
        | Kind::SliverLazy { .. }
        | Kind::Keep { .. }
        | Kind::Inherit { .. }
        | Kind::Use { .. } => Holding::Neither,
    }
}

/// The box at the end of a chain of slivers, and its bounds, whatever is seen of the slivers: the child of a SliverToBox, that
/// may stand below SliverPaddings. Where it is laid out, `scroll_of` tells how far the sliver can be scrolled through.
pub fn box_below<C: Cursor>(cursor: C, axis: Axis, cross: u64) -> Option<(C, Bounds)>
    ensures { option_map (λ p. boxed (C.stands p.0) p.1) result ≡ box_below axis cross (C.stands cursor) }
{
    if cursor.len() == 0 {
        return None;
    }
    match holding_of(cursor.kind(), axis, cross) {
        Holding::Neither => None,
        Holding::Box(bounds) => Some((cursor.child(0), bounds)),
        Holding::Sliver(inner) => box_below(cursor.child(0), axis, inner),
    }
}

// A sliver that can be scrolled through so far, of which nothing is seen.
fn hidden(scroll: u64) -> Geometry
    ensures { result ≡ record { scroll = scroll; paint = 0 } }
{
    Geometry { scroll, paint: 0 }
}

/// How far a sliver can be scrolled through along an axis, in u, where the box at its end has that extent along it
/// (`SliverGeometry.scrollExtent`). A box can't be scrolled through.
pub fn scroll_of<C: Cursor>(cursor: C, axis: Axis, extent: u64) -> u64
    ensures { result ≡ scroll_by axis extent (C.stands cursor) }
{
    match cursor.kind() {
        Kind::SliverToBox => if cursor.len() == 0 { 0 } else { extent },
        Kind::SliverPadding {
            left,
            top,
            right,
            bottom,
        } => {
            let insets = insets_of(*left, *top, *right, *bottom);
            let child = if cursor.len() == 0 {
                None
            } else {
                Some(hidden(scroll_of(cursor.child(0), axis, extent)))
            };
            padding_geometry(unseen(axis, 0), insets, child).scroll
        }
        Kind::SliverFixed { extent: size } => list_geometry(
            unseen(axis, 0),
            *size,
            cursor.len() as u64,
        ).scroll,
        Kind::SliverLazy { extent: size } => list_geometry(
            unseen(axis, 0),
            *size,
            cursor.count(),
        ).scroll,
        Kind::SizedBox { .. }
        | Kind::ConstrainedBox { .. }
        | Kind::Padding { .. }
        | Kind::Align { .. }
        | Kind::ColoredBox { .. }
        | Kind::Text { .. }
        | Kind::Row { .. }
        | Kind::Column { .. }
        | Kind::Wrap { .. }
        | Kind::Table { .. }
        | Kind::Stack { .. }
        | Kind::Flexible { .. }
        | Kind::Positioned { .. }
        | Kind::Opacity { .. }
        | Kind::ClipRect
        | Kind::RepaintBoundary
        | Kind::MergeSemantics
        | Kind::IntrinsicWidth
        | Kind::IntrinsicHeight
        | Kind::Offstage { .. }
        | Kind::IgnorePointer { .. }
        | Kind::AbsorbPointer { .. }
        | Kind::Detector { .. }
        | Kind::Semantics { .. }
        | Kind::ExcludeSemantics { .. }
        | Kind::CustomPaint { .. }
        | Kind::CustomLayout { .. }
        | Kind::Viewport { .. }
        | Kind::Keep { .. }
        | Kind::Inherit { .. }
        | Kind::Use { .. } => 0,
    }
}
