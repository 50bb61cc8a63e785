// Lists whose children are all there: of what they were told the rule reads no more than how many they are, and of their frames no
// more than which of them are there.
ghost use Rattle.std.specs.Prelude.{◌≡◌, ℕ, pos, ◌^◌, ◌≤◌, List, length, IfOk};
ghost use Rattle.fx_geom.specs.Along.{offset_along};
ghost use Rattle.node_tree.specs.Tree.{IsNode, children_at};
ghost use Rattle.sliver_layout.specs.Lists.{item_place_of};
ghost use Rattle.widget_model.specs.Look.{sliver_fixed};
ghost use Rattle.widget_model.specs.View.{look_in};
ghost use Rattle.plain_tree.specs.declared.render.ParentData.{ParentData as ParentDataOf};
ghost use Rattle.layout_form.specs.Framed.{last_asks};
ghost use Rattle.layout_form.specs.Frames.{sliver_asks, item_places, list_makes};
ghost use Rattle.layout_form.specs.Object.{Setting};
ghost use Rattle.layout_form.specs.Protocol.{ask_if};
ghost use Rattle.layout_form.specs.SliverRule.{counted, is_among};
ghost use Rattle.kind_rules.specs.Asked.{first_for};
ghost use Rattle.kind_rules.specs.Cursor.{look_of};
ghost use Rattle.kind_rules.specs.Few.{items_of};
ghost use Rattle.kind_rules.specs.Ruling.{ruling_of, sliver_ruling};
ghost use Rattle.layout_rules.specs.Heard.{list_extent, look_at, heard_at};
ghost use Rattle.layout_rules.specs.Places.{render_at};
ghost use Rattle.layout_rules.specs.Reads.{frames_at};

use crate::cursor::RenderCursor;
use crate::ending::NO_NOTES;
use crate::reading::{asked_at, told_to};
use fx_geom::{Bounds, Offset, Size};
use fx_handles::Handle;
use kind_rules::{Cursor, Few, Made};
use layout_form::Ask;
use plain_tree::{Frame, ParentData};
use render_tree::RenderTree;
use sliver_layout::{SliverBounds, Window, item_place, list_geometry, window};
use std::alloc::{AllocError, Global};
use widget_model::Kind;

// The extent of the children of such a list.
fn list_extent(kind: &Kind) -> Option<u64>
    ensures { result ≡ list_extent (look_in kind.now) }
{
    match kind {
        Kind::SliverFixed { extent } => Some(*extent),
        _ => None,
    }
}

// The same, where a live node is such a list.
pub(crate) fn list_at(r: &RenderTree, h: Handle) -> Option<u64>
    requires { IsNode r.now.tree h }
    ensures stored { result ≡ list_extent (look_at r.now.tree h) }
    ensures look { result ≡ list_extent (look_of (render_at r.now.tree h)) }
{
    r.tree().count_laws();
    let cursor = RenderCursor::new(r, h);
    list_extent(cursor.kind())
}

// What is listed of what the children of a live node were told.
pub(crate) fn heard_at(
    alloc: Global,
    r: &RenderTree,
    h: Handle,
) -> Result<Few<ParentData>, AllocError>
    requires { IsNode r.now.tree h }
    ensures { IfOk result (λ v. items_of v ≡ heard_at r.now.tree h) }
{
    match list_at(r, h) {
        None => told_to(alloc, r, h),
        Some(_) => Ok(Few::Empty),
    }
}

fn is_seen(seen: Window, i: u64) -> bool
    ensures { result ≡ is_among seen i }
{
    seen.first <= i && i < seen.end
}

fn ask_if(seen: bool, ask: Ask) -> Option<Ask>
    ensures { result ≡ ask_if seen ask }
{
    if seen { Some(ask) } else { None }
}

// Whom a list of so many children asks: those that are seen, each tight on both axes.
fn items_asked(
    alloc: Global,
    b: SliverBounds,
    extent: u64,
    count: usize,
) -> Result<Few<Option<Ask>>, AllocError>
    requires { 1 ≤ extent }
    ensures { IfOk result (λ v. (ds : List ParentDataOf) (n : ℕ) → length ds ≡ count → items_of v ≡ sliver_asks (sliver_fixed extent) n b ds) }
{
    let seen = window(b, extent, count as u64);
    let ask = Ask::AsBox(Bounds::tight(Size::along(b.axis, extent, b.cross)));
    let mut asks = Vec::with_capacity(alloc, count)?;
    for i in 0..count {
        asks.push_reserved(ask_if(is_seen(seen, i as u64), ask));
    }
    Ok(Few::Each(asks))
}

// The same, however the list is asked.
pub(crate) fn list_first(
    alloc: Global,
    extent: u64,
    count: usize,
    ask: Ask,
) -> Result<Few<Option<Ask>>, AllocError>
    requires { 1 ≤ extent }
    ensures { IfOk result (λ v. (s : Setting) (ds : List ParentDataOf) (n liked : ℕ) → length ds ≡ count → items_of v ≡ first_for s (sliver_fixed extent) n ask liked ds) }
{
    match ask {
        Ask::AsBox(_) => Ok(Few::Empty),
        Ask::AsSliver(b) => items_asked(alloc, b, extent, count),
    }
}

// Where child i of a list stands.
fn place_at(b: SliverBounds, extent: u64, i: u64) -> Offset
    requires { b.offset ≤ 2 ^ 40 }
    ensures { result ≡ offset_along b.axis (item_place_of b extent i) (pos 0) }
{
    Offset::along(b.axis, item_place(b, extent, i), 0)
}

// Where the children stand that are asked.
fn places_asked(
    alloc: Global,
    r: &RenderTree,
    h: Handle,
    b: SliverBounds,
    extent: u64,
    first: &Few<Option<Ask>>,
    rest: &Few<Option<Ask>>,
) -> Result<Vec<Offset>, AllocError>
    requires { b.offset ≤ 2 ^ 40 }
    ensures { IfOk result (λ v. v.items ≡ item_places b extent (counted 0 (children_at r.now.tree h))
        (frames_at r.now.tree (last_asks (items_of first.now) (items_of rest.now)) (children_at r.now.tree h))) }
{
    let mut places = Vec::new(alloc);
    for i in 0..r.children(h).len() {
        match asked_at(first, rest, i) {
            None => continue,
            Some(_) => places.push(place_at(b, extent, i as u64))?,
        }
    }
    Ok(places)
}

// What the rule of a list makes where these of its children are asked.
pub(crate) fn list_made(
    alloc: Global,
    r: &RenderTree,
    h: Handle,
    b: SliverBounds,
    extent: u64,
    first: &Few<Option<Ask>>,
    rest: &Few<Option<Ask>>,
) -> Result<Made, AllocError>
    requires { b.offset ≤ 2 ^ 40 }
    ensures { IfOk result (λ m. ruling_of m ≡ sliver_ruling b (list_makes extent (length (children_at r.now.tree h)) b (counted 0 (children_at r.now.tree h))
        (frames_at r.now.tree (last_asks (items_of first.now) (items_of rest.now)) (children_at r.now.tree h)))) }
{
    let places = places_asked(alloc, r, h, b, extent, first, rest)?;
    let count = r.children(h).len() as u64;
    Ok(Made {
        frame: Frame::Sliver {
            bounds: b,
            geometry: list_geometry(b, extent, count),
        },
        notes: NO_NOTES,
        scrolled: 0,
        places: Few::Each(places),
    })
}
