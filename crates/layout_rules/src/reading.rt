// What is read of the children of a node.
ghost use Rattle.std.specs.Prelude.{◌≡◌, [], ◌<◌, ◌||◌, length, map, slice_index_or, IfOk, Option, Some, option_map};
ghost use Rattle.node_tree.specs.Forest.{size};
ghost use Rattle.node_tree.specs.Tree.{IsTree, children_at, subtree_at};
ghost use Rattle.layout_form.specs.Framed.{last_asks};
ghost use Rattle.layout_walk.specs.Node.{ask_in, frame_or};
ghost use Rattle.kind_rules.specs.Few.{items_of};
ghost use Rattle.layout_rules.specs.Reads.{state_at, told_at, frames_at, kept_in, kept_at, marks_at};

use fx_geom::{Bounds, Size};
use fx_handles::Handle;
use kind_rules::Few;
use layout_form::Ask;
use plain_tree::{Frame, Notes, ParentData};
use render_tree::{LayoutState, RenderTree};
use std::alloc::{AllocError, Global};

// Child i of a node.
pub(crate) fn child_at(r: &RenderTree, h: Handle, i: usize) -> Handle
    ensures value { result ≡ slice_index_or (children_at r.now.tree h) i h }
    ensures tree { IsTree r.now.tree }
    ensures smaller { i < length (children_at r.now.tree h) → size (subtree_at r.now.tree result) < size (subtree_at r.now.tree h) }
{
    r.tree().count_laws();
    let children = r.children(h);
    if i < children.len() { children[i] } else { h }
}

// What the last layout left at a node.
pub(crate) fn state_at(r: &RenderTree, h: Handle) -> LayoutState
    ensures { result ≡ state_at r.now.tree h }
{
    match r.layout_state(h) {
        None => LayoutState {
            scroll: 0,
            frame: None,
            notes: Notes {
                overflow: 0,
                unbounded: false,
            },
            plugged: false,
            scrolled: 0,
            offset: None,
            shown: false,
            needs_layout: false,
            layout_below: false,
        },
        Some(state) => state,
    }
}

fn told_at(r: &RenderTree, h: Handle) -> ParentData
    ensures { result ≡ told_at r.now.tree h }
{
    match r.parent_data(h) {
        None => ParentData {
            flex: 0,
            tight: false,
            placed: None,
            index: 0,
        },
        Some(told) => told,
    }
}

// What the children were told.
pub(crate) fn told_to(
    alloc: Global,
    r: &RenderTree,
    h: Handle,
) -> Result<Few<ParentData>, AllocError>
    ensures { IfOk result (λ v. items_of v ≡ map (told_at r.now.tree) (children_at r.now.tree h)) }
{
    match r.children(h) {
        [] => Ok(Few::Empty),
        [child] => Ok(Few::Alone(told_at(r, *child))),
        children => Ok(Few::Each(told_each(alloc, r, children)?)),
    }
}

fn told_each(
    alloc: Global,
    r: &RenderTree,
    children: &[Handle],
) -> Result<Vec<ParentData>, AllocError>
    ensures { IfOk result (λ v. v.items ≡ map (told_at r.now.tree) children.now) }
{
    let mut told = Vec::with_capacity(alloc, children.len())?;
    for child in children {
        told.push_reserved(told_at(r, *child));
    }
    Ok(told)
}

// How child i is asked in the end, by the first asks and by the others.
pub(crate) fn asked_at(first: &Few<Option<Ask>>, rest: &Few<Option<Ask>>, i: usize) -> Option<Ask>
    ensures { result ≡ slice_index_or (last_asks (items_of first.now) (items_of rest.now)) i None }
{
    match rest.at(i, None) {
        None => first.at(i, None),
        Some(ask) => Some(ask),
    }
}

// The frame of a node; one that was never laid out counts as a box without extent.
pub(crate) fn frame_or(frame: Option<Frame>) -> Frame
    ensures { result ≡ frame_or frame }
{
    match frame {
        None => Frame::Boxed {
            bounds: Bounds::tight(Size::ZERO),
            size: Size::ZERO,
        },
        Some(frame) => frame,
    }
}

// The frame that is stored at a node.
pub(crate) fn stored_frame(r: &RenderTree, h: Handle) -> Frame
    ensures { result ≡ frame_or (state_at r.now.tree h).frame }
{
    frame_or(r.frame(h))
}

// The frame of a node, if it is asked.
fn frame_if(r: &RenderTree, h: Handle, ask: Option<Ask>) -> Option<Frame>
    ensures { result ≡ option_map (λ ask. frame_or (state_at r.now.tree h).frame) ask }
{
    match ask {
        None => None,
        Some(_) => Some(stored_frame(r, h)),
    }
}

// The frames of the children that are asked.
pub(crate) fn frames_of(
    alloc: Global,
    r: &RenderTree,
    h: Handle,
    first: &Few<Option<Ask>>,
    rest: &Few<Option<Ask>>,
) -> Result<Few<Option<Frame>>, AllocError>
    ensures { IfOk result (λ v. items_of v ≡ frames_at r.now.tree (last_asks (items_of first.now) (items_of rest.now)) (children_at r.now.tree h)) }
{
    match r.children(h) {
        [] => Ok(Few::Empty),
        [child] => Ok(Few::Alone(frame_if(r, *child, asked_at(first, rest, 0)))),
        children => Ok(Few::Each(frames_each(alloc, r, children, first, rest)?)),
    }
}

fn frames_each(
    alloc: Global,
    r: &RenderTree,
    children: &[Handle],
    first: &Few<Option<Ask>>,
    rest: &Few<Option<Ask>>,
) -> Result<Vec<Option<Frame>>, AllocError>
    ensures { IfOk result (λ v. v.items ≡ frames_at r.now.tree (last_asks (items_of first.now) (items_of rest.now)) children.now) }
{
    let mut frames = Vec::with_capacity(alloc, children.len())?;
    for (i, child) in children.iter().enumerate() {
        frames.push_reserved(frame_if(r, *child, asked_at(first, rest, i)));
    }
    Ok(frames)
}

// Whether a node has a mark.
pub(crate) fn is_marked(r: &RenderTree, h: Handle) -> bool
    ensures { result ≡ ((state_at r.now.tree h).needs_layout || (state_at r.now.tree h).layout_below) }
{
    r.needs_layout(h) || r.layout_below(h)
}

// What a node was asked in its last layout.
fn stored_ask(frame: Option<Frame>) -> Option<Ask>
    ensures { result ≡ option_map ask_in frame }
{
    match frame? {
        Frame::Boxed { bounds, .. } => Some(Ask::AsBox(bounds)),
        Frame::Sliver { bounds, .. } => Some(Ask::AsSliver(bounds)),
    }
}

// The same, where it is in the window and has a mark.
fn kept_ask(r: &RenderTree, h: Handle) -> Option<Ask>
    ensures { result ≡ kept_in (state_at r.now.tree h) }
{
    if r.shown(h) && is_marked(r, h) {
        stored_ask(r.frame(h))
    } else {
        None
    }
}

// How the children are asked that are visited.
pub(crate) fn kept_asks(
    alloc: Global,
    r: &RenderTree,
    h: Handle,
) -> Result<Few<Option<Ask>>, AllocError>
    ensures { IfOk result (λ v. items_of v ≡ kept_at r.now.tree (children_at r.now.tree h)) }
{
    match r.children(h) {
        [] => Ok(Few::Empty),
        [child] => Ok(Few::Alone(kept_ask(r, *child))),
        children => Ok(Few::Each(kept_each(alloc, r, children)?)),
    }
}

fn kept_each(
    alloc: Global,
    r: &RenderTree,
    children: &[Handle],
) -> Result<Vec<Option<Ask>>, AllocError>
    ensures { IfOk result (λ v. v.items ≡ kept_at r.now.tree children.now) }
{
    let mut asks = Vec::with_capacity(alloc, children.len())?;
    for child in children {
        asks.push_reserved(kept_ask(r, *child));
    }
    Ok(asks)
}

// Whether some child has a mark.
pub(crate) fn any_mark(r: &RenderTree, h: Handle) -> bool
    ensures { result ≡ marks_at r.now.tree (children_at r.now.tree h) }
{
    let children = r.children(h);
    for child in children {
        if is_marked(r, *child) {
            return true;
        }
    }
    false
}
