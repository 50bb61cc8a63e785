// The slivers of a Viewport: how they are measured, and how the box at the end of one is reached.
ghost use Rattle.std.specs.Prelude.{◌≡◌, map, option_map, IfOk};
ghost use Rattle.widget_model.specs.View.{look_in};
ghost use Rattle.layout_form.specs.Fits.{CanBeLaidOut, data_of};
ghost use Rattle.kind_rules.specs.Asks.{asks_of};
ghost use Rattle.kind_rules.specs.Asked.{found_of, found_for, rest_for};
ghost use Rattle.kind_rules.specs.Below.{extent_below, scroll_by};
ghost use Rattle.kind_rules.specs.Cursor.{look_of, children_of};
ghost use Rattle.kind_rules.specs.Few.{items_of};
ghost use Rattle.plain_layout.specs.Computed.{scroll_of};
ghost use Rattle.plain_layout.specs.Slivers.{viewed, across, is_answered, keeps_box, kept_slots, target_of, first_frames, measured_by, measured_with};

use crate::answers::{blank, put_slot, told_to};
use crate::family::Siblings;
use crate::opened::{children_of, found_for, kind_of};
use crate::place::RenderPlace;
use fx_geom::{Axis, Bounds};
use kind_rules::{
    Asks, Few, Second, box_below, rest_asks, scroll_of, second_asked, unseen, view_size,
};
use layout_form::Ask;
use plain_tree::{Frame, LaidNode, RenderNode};
use sliver_layout::Geometry;
use std::alloc::{AllocError, Global};
use widget_model::Kind;

// The axis and the bounds of a Viewport that is asked as a box.
pub(crate) fn viewed(kind: &Kind, ask: Ask) -> Option<(Axis, Bounds)>
    ensures { result ≡ viewed (look_in kind.now) ask }
{
    match (kind, ask) {
        (Kind::Viewport { axis }, Ask::AsBox(b)) => Some((*axis, b)),
        (Kind::Viewport { .. }, Ask::AsSliver(_)) => None,
        (
            Kind::SizedBox { .. }
            | Kind::ConstrainedBox { .. }
            | Kind::Padding { .. }
            | Kind::Align { .. }
            | Kind::ColoredBox { .. }
            | Kind::Text { .. }
            | Kind::Row { .. }
            | Kind::Column { .. }
            | Kind::Wrap { .. }
            | Kind::Table { .. }
            | Kind::Stack { .. }
            | Kind::Flexible { .. }
            | Kind::Positioned { .. }
            | Kind::Opacity { .. }
            | Kind::ClipRect
            | Kind::RepaintBoundary
            | Kind::MergeSemantics
            | Kind::IntrinsicWidth
            | Kind::IntrinsicHeight
            | Kind::Offstage { .. }
            | Kind::IgnorePointer { .. }
            | Kind::AbsorbPointer { .. }
            | Kind::Detector { .. }
            | Kind::Semantics { .. }
            | Kind::ExcludeSemantics { .. }
            | Kind::CustomPaint { .. }
            | Kind::CustomLayout { .. }
            | Kind::SliverToBox
            | Kind::SliverPadding { .. }
            | Kind::SliverFixed { .. }
            | Kind::SliverLazy { .. }
            | Kind::Keep { .. }
            | Kind::Inherit { .. }
            | Kind::Use { .. },
            _,
        ) => None,
    }
}

// The axis and the cross extent of its slivers.
pub(crate) fn across(view: Option<(Axis, Bounds)>) -> Option<(Axis, u64)>
    ensures { result ≡ across view }
{
    match view {
        None => None,
        Some((axis, b)) => Some((axis, view_size(b).extent(axis.other()))),
    }
}

// Whether a node is a box that was laid out before.
pub(crate) fn is_answered(ask: &Ask, slot: &Option<LaidNode>) -> bool
    ensures { result ≡ is_answered ask.now slot.now }
{
    match ask {
        Ask::AsBox(_) => slot.is_some(),
        Ask::AsSliver(_) => false,
    }
}

fn keeps_box(kind: &Kind, ask: Ask) -> bool
    ensures { result ≡ keeps_box (look_in kind.now) ask }
{
    match ask {
        Ask::AsBox(_) => false,
        Ask::AsSliver(_) => match kind {
            Kind::SliverToBox | Kind::SliverPadding { .. } => true,
            Kind::SizedBox { .. }
            | Kind::ConstrainedBox { .. }
            | Kind::Padding { .. }
            | Kind::Align { .. }
            | Kind::ColoredBox { .. }
            | Kind::Text { .. }
            | Kind::Row { .. }
            | Kind::Column { .. }
            | Kind::Wrap { .. }
            | Kind::Table { .. }
            | Kind::Stack { .. }
            | Kind::Flexible { .. }
            | Kind::Positioned { .. }
            | Kind::Opacity { .. }
            | Kind::ClipRect
            | Kind::RepaintBoundary
            | Kind::MergeSemantics
            | Kind::IntrinsicWidth
            | Kind::IntrinsicHeight
            | Kind::Offstage { .. }
            | Kind::IgnorePointer { .. }
            | Kind::AbsorbPointer { .. }
            | Kind::Detector { .. }
            | Kind::Semantics { .. }
            | Kind::ExcludeSemantics { .. }
            | Kind::CustomPaint { .. }
            | Kind::CustomLayout { .. }
            | Kind::Viewport { .. }
            | Kind::SliverFixed { .. }
            | Kind::SliverLazy { .. }
            | Kind::Keep { .. }
            | Kind::Inherit { .. }
            | Kind::Use { .. } => false,
        },
    }
}

// What is kept of the children, where this is kept of a node: it is taken out of there.
pub(crate) fn kept_slots(
    alloc: Global,
    kind: &Kind,
    ask: Ask,
    kept: &mut Option<LaidNode>,
    children: &[RenderNode],
) -> Result<Few<Option<LaidNode>>, AllocError>
    ensures { IfOk result (λ v. items_of v ≡ kept_slots (look_in kind.now) ask kept.old children.now) }
{
    let mut slots = blank(alloc, children)?;
    if keeps_box(kind, ask) && children.len() > 0 {
        put_slot(&mut slots, 0, kept.take());
    }
    Ok(slots)
}

// Who is laid out for a child that is asked so.
pub(crate) fn target<'t>(
    view: Option<(Axis, u64)>,
    ask: Option<&Ask>,
    child: &'t RenderNode,
) -> Option<(RenderPlace<'t>, Ask)>
    ensures { option_map (λ p. (p.0.node.now, p.1)) result ≡ target_of view (option_map (λ a. a.now) ask.entry) child.now }
{
    match view {
        None => match ask {
            None => None,
            Some(ask) => Some((RenderPlace { node: child }, *ask)),
        },
        Some((axis, cross)) => match box_below(RenderPlace { node: child }, axis, cross) {
            None => None,
            Some((place, bounds)) => Some((place, Ask::AsBox(bounds))),
        },
    }
}

// What the first answers tell, and who is asked then. Below a Viewport the slivers are measured by the boxes in them.
pub(crate) fn second(
    alloc: Global,
    node: &RenderNode,
    ask: Ask,
    view: Option<(Axis, u64)>,
    slots: &Few<Option<LaidNode>>,
) -> Result<Second, AllocError>
    requires { CanBeLaidOut node.now }
    ensures found { IfOk result (λ v. found_of v.found ≡ found_for (look_of node.now) (scroll_of node.now) ask (first_frames view (children_of node.now) (items_of slots.now))) }
    ensures asks { IfOk result (λ v. asks_of v.asks ≡ rest_for (look_of node.now) ask (found_of v.found) (map data_of (children_of node.now)) (first_frames view (children_of node.now) (items_of slots.now))) }
{
    let kind = kind_of(node);
    let children = children_of(node);
    match view {
        None => {
            let family = Siblings {
                children,
                slots: slots.as_slice(),
            };
            second_asked(alloc, kind, node.scroll, ask, family)
        }
        Some((axis, cross)) => {
            let told = told_to(alloc, children)?;
            let frames = measured_frames(alloc, children, axis, cross, slots.as_slice())?;
            let found = found_for(node, ask, frames.as_slice());
            let asks = rest_asks(alloc, kind, ask, found, told.as_slice(), frames.as_slice())?;
            Ok(Second {
                found,
                asks: Asks::Each(asks),
            })
        }
    }
}

// The extent of a laid box along an axis, and 0 where there is none.
fn extent_below(axis: Axis, laid: &Option<LaidNode>) -> u64
    ensures { result ≡ extent_below axis laid.now }
{
    match laid {
        None => 0,
        Some(laid) => laid.facts.frame.box_size().extent(axis),
    }
}

// A sliver as it is measured, by the box in it.
fn measured_frame(node: &RenderNode, axis: Axis, cross: u64, laid: &Option<LaidNode>) -> Frame
    ensures { result ≡ measured_by axis cross (scroll_by axis (extent_below axis laid.now) node.now) }
{
    let scroll = scroll_of(RenderPlace { node }, axis, extent_below(axis, laid));
    Frame::Sliver {
        bounds: unseen(axis, cross),
        geometry: Geometry { scroll, paint: 0 },
    }
}

// The slivers as they are measured, by the boxes in them.
fn measured_frames(
    alloc: Global,
    children: &[RenderNode],
    axis: Axis,
    cross: u64,
    boxes: &[Option<LaidNode>],
) -> Result<Vec<Option<Frame>>, AllocError>
    ensures { IfOk result (λ v. v.items ≡ measured_with axis cross children.now boxes.now) }
{
    let mut frames = Vec::with_capacity(alloc, children.len())?;
    for (i, child) in children.iter().enumerate() {
        match boxes.get(i) {
            None => continue,
            Some(laid) => frames.push(Some(measured_frame(child, axis, cross, laid)))?,
        }
    }
    Ok(frames)
}
