ghost use Rattle.std.specs.Prelude.{◌≡◌, ℕ, ◌+◌, ◌-◌, ◌*◌, ◌^◌, ◌<◌, ◌≤◌, ◌↔◌};
ghost use Rattle.sliver_layout.specs.Lists.{IsAmong, Meets, nothing, children_between, window_of, live_of, list_geometry_of, item_place_of};
ghost use Rattle.fx_geom.specs.Len.{stopped};
ghost use Rattle.fx_geom.specs.Offset.{IsPlacement};

use crate::extents::whole_geometry;
use crate::protocol::{Geometry, SliverBounds, Window};
use fx_geom::LEN_MAX;

/// The children of a list that are seen (`RenderSliverFixedExtentBoxAdaptor.performLayout`): each of the `count`
/// children has this extent, in u.
pub fn window(b: SliverBounds, extent: u64, count: u64) -> Window
    requires { 0 < extent }
    ensures value { result ≡ window_of b extent count }

    // A child is seen exactly where its stretch meets the view.
    ensures members { (i : ℕ) → i < count
        → (IsAmong result i ↔ Meets i extent b.offset (b.offset + b.remaining)) }
    ensures in_order { result.first ≤ result.end }
    ensures counted { result.end ≤ count }
{
    if b.remaining == 0 {
        return Window::default();
    }
    let low = b.offset as u128;
    children_between(low, low + b.remaining as u128, extent, count)
}

/// The children of a lazy list that are kept alive: those that are seen, or would be in a view that reaches further by
/// `widen`, in u, on both sides (`RenderAbstractViewport.defaultCacheExtent`). No child is where the view has no room.
pub fn live(b: SliverBounds, extent: u64, count: u64, widen: u64) -> Window
    requires { 0 < extent }
    ensures value { result ≡ live_of b extent count widen }

    // A child is alive exactly where there is a view, and its stretch meets the widened one.
    ensures members { (i : ℕ) → i < count → 0 < b.remaining
        → (IsAmong result i ↔ Meets i extent (b.offset - widen) (b.offset + b.remaining + widen)) }
    ensures holds_window { (i : ℕ) → IsAmong (window_of b extent count) i → IsAmong result i }
    ensures in_order { result.first ≤ result.end }
    ensures counted { result.end ≤ count }
{
    if b.remaining == 0 {
        return Window::default();
    }
    let high = b.offset as u128 + b.remaining as u128 + widen as u128;
    children_between(b.offset.saturating_sub(widen) as u128, high, extent, count)
}

/// What a SliverFixed or a SliverLazy of `count` children of this extent, in u, gives
/// (`RenderSliverFixedExtentBoxAdaptor.performLayout`). The scroll extent stops at `LEN_MAX`.
pub fn list_geometry(b: SliverBounds, extent: u64, count: u64) -> Geometry
    ensures value { result ≡ list_geometry_of b extent count }
    ensures scroll { result.scroll ≤ 2 ^ 40 }
    ensures paint { result.paint ≤ b.remaining }
{
    whole_geometry(b, item_start(extent, count))
}

/// Where child `i` of a list of children of this extent stands on the main axis, in u. Its place in the list stops at
/// `LEN_MAX`.
pub fn item_place(b: SliverBounds, extent: u64, i: u64) -> i64
    requires { b.offset ≤ 2 ^ 40 }
    ensures value { result ≡ item_place_of b extent i }
    ensures within { IsPlacement result }
{
    item_start(extent, i) as i64 - b.offset as i64
}

/// Where child `i` of a list begins in it, in u.
fn item_start(extent: u64, i: u64) -> u64
    ensures { result ≡ stopped (i * extent) }
{
    i.saturating_mul(extent).min(LEN_MAX)
}

/// Of the children of a list, those from the one at the place `low` to the last that begins before `high`.
fn children_between(low: u128, high: u128, extent: u64, count: u64) -> Window
    requires { 0 < extent }
    ensures value { result ≡ children_between low high extent count }
    ensures in_order { result.first ≤ result.end }
{
    let first = low / extent as u128;
    let end = high.div_ceil(extent as u128).min(count as u128);
    if first < end {
        Window {
            first: first as u64,
            end: end as u64,
        }
    } else {
        Window::default()
    }
}
