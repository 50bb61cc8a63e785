// How far the slivers of a Viewport can be scrolled through, once they were measured.
ghost use Rattle.std.specs.Prelude.{◌≡◌, ◌+◌, ◌*◌, IfOk};
ghost use Rattle.fx_geom.specs.Insets.{before, after};
ghost use Rattle.fx_geom.specs.Len.{stopped};
ghost use Rattle.node_tree.specs.Forest.{Forest};
ghost use Rattle.node_tree.specs.Forest.Forest.{none, tree};
ghost use Rattle.node_tree.specs.Tree.{IsNode};
ghost use Rattle.layout_form.specs.Object.{frame_geometry};
ghost use Rattle.layout_walk.specs.Node.{LayoutNode, frame_or};
ghost use Rattle.layout_walk.specs.Measure.{extent_in, first_extent, extents_in, stored_extent};
ghost use Rattle.layout_rules.specs.Nodes.{SeenAt};
ghost use Rattle.widget_model.specs.View.{look_in};
ghost use Rattle.layout_rules.specs.Ending.{measured_frames};
ghost use Rattle.layout_rules.specs.Scrolls.{padding_in, alone_extent};

use crate::cursor::RenderCursor;
use crate::reading::{frame_or, state_at};
use crate::stepping::{inner_cross, is_open};
use fx_geom::{Axis, Insets};
use fx_handles::Handle;
use kind_rules::{Cursor, unseen};
use plain_tree::Frame;
use render_tree::RenderTree;
use sliver_layout::{Geometry, list_geometry, padding_geometry};
use std::alloc::{AllocError, Global};
use widget_model::Kind;

// How far a sliver of which a frame is stored can be scrolled through; a box can't be.
fn scroll_in(frame: Option<Frame>) -> u64
    ensures { result ≡ (frame_geometry (frame_or frame)).scroll }
{
    match frame {
        Some(Frame::Sliver { geometry, .. }) => geometry.scroll,
        _ => 0,
    }
}

// The extent of the first child, if there is one, as it is stored.
fn box_extent(r: &RenderTree, h: Handle, axis: Axis) -> u64
    ensures { (v : LayoutNode) (kids : Forest LayoutNode) → SeenAt r.now.tree h (tree h v kids none) → result ≡ stored_extent axis kids }
{
    match r.children(h).get(0) {
        None => 0,
        Some(child) => frame_or(state_at(r, *child).frame).box_size().extent(axis),
    }
}

// How far a SliverPadding around a sliver can be scrolled through.
fn padded_extent(axis: Axis, insets: Insets, inner: u64) -> u64
    ensures { result ≡ stopped (before insets axis + after insets axis + inner) }
{
    let child = Geometry {
        scroll: inner,
        paint: 0,
    };
    padding_geometry(unseen(axis, 0), insets, Some(child)).scroll
}

// How far a list of so many items of this extent can be scrolled through.
fn list_extent(axis: Axis, extent: u64, count: u64) -> u64
    ensures { result ≡ stopped (count * extent) }
{
    list_geometry(unseen(axis, 0), extent, count).scroll
}

// The insets of a SliverPadding.
fn padding_in(kind: &Kind) -> Option<Insets>
    ensures { result ≡ padding_in (look_in kind.now) }
{
    match kind {
        Kind::SliverPadding {
            left,
            top,
            right,
            bottom,
        } => Some(Insets {
            left: *left,
            top: *top,
            right: *right,
            bottom: *bottom,
        }),
        _ => None,
    }
}

// How far a sliver that is no SliverPadding can be scrolled through, by the extent of its first child, by the number of its children, and
// by that of its child widgets.
fn alone_extent(kind: &Kind, axis: Axis, first: u64, items: u64, count: u64) -> u64
    ensures { result ≡ alone_extent (look_in kind.now) first items count }
{
    match kind {
        Kind::SliverToBox => first,
        Kind::SliverFixed { extent } => list_extent(axis, *extent, items),
        Kind::SliverLazy { extent } => list_extent(axis, *extent, count),
        _ => 0,
    }
}

// How far a sliver can be scrolled through.
fn extent_of(r: &RenderTree, h: Handle, axis: Axis, cross: u64) -> u64
    requires { IsNode r.now.tree h }
    ensures { (v : LayoutNode) (kids : Forest LayoutNode) → SeenAt r.now.tree h (tree h v kids none)
        → result ≡ extent_in axis cross v kids (λ c. first_extent axis c kids) }
{
    r.tree().count_laws();
    let cursor = RenderCursor::new(r, h);
    let state = state_at(r, h);
    if !is_open(state, axis, cross) {
        return scroll_in(state.frame);
    }
    let children = r.children(h);
    match padding_in(cursor.kind()) {
        None => {
            let first = box_extent(r, h, axis);
            alone_extent(
                cursor.kind(),
                axis,
                first,
                children.len() as u64,
                cursor.count(),
            )
        }
        Some(insets) => {
            let inner = inner_cross(axis, cross, insets);
            match children.get(0) {
                None => padded_extent(axis, insets, 0),
                Some(child) => {
                    let scroll = extent_of(r, *child, axis, inner);
                    padded_extent(axis, insets, scroll)
                }
            }
        }
    }
}

// The slivers as they were measured.
pub(crate) fn measured_frames(
    alloc: Global,
    r: &RenderTree,
    h: Handle,
    axis: Axis,
    cross: u64,
) -> Result<Vec<Option<Frame>>, AllocError>
    requires { IsNode r.now.tree h }
    ensures { IfOk result (λ frames. (v : LayoutNode) (kids : Forest LayoutNode) → SeenAt r.now.tree h (tree h v kids none)
        → frames.items ≡ measured_frames axis cross (extents_in axis cross kids)) }
{
    let children = r.children(h);
    let mut frames = Vec::with_capacity(alloc, children.len())?;
    for child in children {
        let scroll = extent_of(r, *child, axis, cross);
        frames.push(Some(Frame::Sliver {
            bounds: unseen(axis, cross),
            geometry: Geometry { scroll, paint: 0 },
        }))?;
    }
    Ok(frames)
}
