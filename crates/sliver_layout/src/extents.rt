ghost use Rattle.std.specs.Prelude.{◌≡◌, ℕ, ◌+◌, ◌^◌, ◌≤◌};
ghost use Rattle.sliver_layout.specs.Slivers.{seen, paint_offset_of, geometry_of, box_geometry_of, box_place_of, padded_of, padding_of, greatest_offset, corrected_of};
ghost use Rattle.fx_geom.specs.Offset.{IsPlacement};

use crate::protocol::{Geometry, SliverBounds};
use fx_geom::{Insets, add_lengths};

/// How much of the stretch of a sliver from one place to another is painted, in u
/// (`RenderSliver.calculatePaintOffset`).
pub fn paint_offset(b: SliverBounds, from: u64, to: u64) -> u64
    ensures value { result ≡ paint_offset_of b from to }
    ensures within { result ≤ b.remaining }

    // Stretches that adjoin are painted as one.
    ensures adjoining { (end : ℕ) → from ≤ to → to ≤ end
        → result + paint_offset_of b to end ≡ paint_offset_of b from end }
{
    seen(b, to).saturating_sub(seen(b, from)).min(b.remaining)
}

/// The place in a sliver that is nearest to this one and is seen.
fn seen(b: SliverBounds, place: u64) -> u64
    ensures { result ≡ seen b place }
{
    place
        .min(b.offset.saturating_add(b.remaining))
        .max(b.offset)
}

/// What a SliverToBox gives around a child of this extent, in u, or without a child
/// (`RenderSliverToBoxAdapter.performLayout`).
pub fn box_geometry(b: SliverBounds, extent: Option<u64>) -> Geometry
    ensures value { result ≡ box_geometry_of b extent }
    ensures paint { result.paint ≤ b.remaining }
{
    match extent {
        Some(extent) => whole_geometry(b, extent),
        None => Geometry::default(),
    }
}

/// Where the child of a SliverToBox stands on the main axis, in u: as far before the view as the sliver is scrolled off.
pub fn box_place(b: SliverBounds) -> i64
    requires { b.offset ≤ 2 ^ 40 }
    ensures value { result ≡ box_place_of b }
    ensures within { IsPlacement result }
{
    -(b.offset as i64)
}

/// What a sliver gives whose whole stretch has this extent, in u: all of it can be scrolled through, and what is seen of it
/// is painted.
pub fn whole_geometry(b: SliverBounds, extent: u64) -> Geometry
    ensures value { result ≡ geometry_of b extent }
    ensures paint { result.paint ≤ b.remaining }
{
    Geometry {
        scroll: extent,
        paint: paint_offset(b, 0, extent),
    }
}

/// What the child of a SliverPadding gets (`RenderSliverEdgeInsetsPadding.performLayout`): the inset at the start is
/// scrolled through first and takes its part of the view, and the cross insets are taken from the cross extent, not
/// below 0.
pub fn padded(b: SliverBounds, insets: Insets) -> SliverBounds
    ensures value { result ≡ padded_of b insets }
    ensures offset { result.offset ≤ b.offset }
    ensures remaining { result.remaining ≤ b.remaining }
    ensures cross { result.cross ≤ b.cross }
{
    let before = insets.before(b.axis);
    SliverBounds {
        axis: b.axis,
        offset: b.offset.saturating_sub(before),
        remaining: b.remaining.saturating_sub(paint_offset(b, 0, before)),
        cross: b.cross.saturating_sub(insets.along(b.axis.other())),
    }
}

/// What a SliverPadding gives around a child with this geometry, or without a child, in u
/// (`RenderSliverEdgeInsetsPadding.performLayout`). The scroll extent stops at `LEN_MAX`.
pub fn padding_geometry(b: SliverBounds, insets: Insets, child: Option<Geometry>) -> Geometry
    ensures value { result ≡ padding_of b insets child }
    ensures scroll { result.scroll ≤ 2 ^ 40 }
    ensures paint { result.paint ≤ b.remaining }
{
    let before = insets.before(b.axis);
    let both = insets.along(b.axis);
    match child {
        None => Geometry {
            scroll: both,
            paint: paint_offset(b, 0, both),
        },
        Some(child) => {
            let scroll = add_lengths(both, child.scroll);
            let at_start = paint_offset(b, 0, before);
            let at_end = paint_offset(b, add_lengths(before, child.scroll), scroll);
            Geometry {
                scroll,
                paint: at_start
                    .saturating_add(child.paint)
                    .saturating_add(at_end)
                    .min(b.remaining),
            }
        }
    }
}

/// The greatest offset, in u, to which a viewport of this main extent can be scrolled where its slivers have this
/// total scroll extent: the least that shows their end (`ViewportOffset.applyContentDimensions`).
pub fn greatest(total: u64, main: u64) -> u64
    ensures value { result ≡ greatest_offset total main }
    ensures shows_end { total ≤ result + main }
    ensures least { (offset : ℕ) → total ≤ offset + main → result ≤ offset }
{
    total.saturating_sub(main)
}

/// The offset of a viewport, in u, corrected to the greatest one (`ViewportOffset.applyContentDimensions`).
pub fn corrected(offset: u64, total: u64, main: u64) -> u64
    ensures value { result ≡ corrected_of offset total main }
    ensures no_farther { result ≤ offset }
    ensures kept { (main + offset ≤ total) → result ≡ offset }

    // A corrected offset is corrected to itself.
    ensures settled { corrected_of result total main ≡ result }
{
    offset.min(greatest(total, main))
}
