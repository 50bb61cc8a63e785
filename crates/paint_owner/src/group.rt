// The walk that paints the group of a repaint boundary.
ghost use Rattle.std.specs.Prelude.{◌≡◌, ◌++◌, ◌+◌, Some, map, IfOk, OnOk, if◌then◌else◌};
ghost use Rattle.fx_geom.specs.Offset.{offset_sum};
ghost use Rattle.delegates.specs.Table.{entries_of, meant_in};
ghost use Rattle.draw_records.specs.declared.record.Record.{Record};
ghost use Rattle.node_tree.specs.Forest.{below};
ghost use Rattle.node_tree.specs.Tree.{Holds, subtree_at};
ghost use Rattle.widget_model.specs.View.{look_in};
ghost use Rattle.work_roles.specs.WorkRole.{is_repaint_boundary};
ghost use Rattle.screen_form.specs.Painted.{has_child};
ghost use Rattle.render_tree.specs.Object.{object_look};
ghost use Rattle.render_tree.specs.Plain.{frame_or, offset_or, laids_of};
ghost use Rattle.render_tree.specs.Tree.{object_at};
ghost use Rattle.kept_layers.specs.GroupPart.{record_part};
ghost use Rattle.kept_layers.specs.Group.{is_boundary, group_parts, group_count};
ghost use Rattle.kind_paint.specs.PointBelow.{point_below};
ghost use Rattle.paint_owner.specs.View.{part_of};
ghost use Rattle.paint_owner.specs.Grouping.{entered, added, own_count, set_aside, begun, ended};

use crate::parts::{PaintPart, PartLayer, PartList};
use delegates::{Delegate, DelegateTable};
use draw_records::Record;
use fx_geom::{Bounds, Offset, Size};
use fx_handles::Handle;
use fx_outside::Steps;
use kind_paint::{paint_role, point_below, push_own};
use node_tree::Tree;
use plain_tree::Frame;
use render_tree::{RenderObject, RenderTree};
use screen_form::PaintRole;
use std::alloc::{AllocError, Global};
use std::mem;
use std::sync::ledger::Ledger;
use widget_model::Kind;

// Whether a kind is a boundary of painting.
fn is_boundary_kind(kind: &Kind) -> bool
    ensures { result ≡ is_repaint_boundary (look_in kind.now) }
{
    match kind {
        Kind::RepaintBoundary => true,
        _ => false,
    }
}

// What is stored at a node.
pub(crate) fn object_of(tree: &RenderTree, h: Handle) -> &RenderObject
    requires { Holds tree.now.tree h }
    ensures { object_at tree.now.tree h ≡ Some result.now }
{
    let Some(object) = tree.object(h) else {
        unreachable!()
    };
    object
}

// Whether a node is a RepaintBoundary.
pub(crate) fn is_boundary(object: &RenderObject) -> bool
    ensures { result ≡ is_boundary object.now }
{
    is_boundary_kind(&object.widget().kind)
}

// The frame of a node.
pub(crate) fn frame_of(object: &RenderObject) -> Frame
    ensures { result ≡ frame_or object.now.frame }
{
    match object.frame() {
        Some(frame) => frame,
        None => Frame::Boxed {
            bounds: Bounds::tight(Size::ZERO),
            size: Size::ZERO,
        },
    }
}

// Where a node stands whose parent stands at a point.
pub(crate) fn place_of(object: &RenderObject, from: Offset) -> Offset
    ensures { result ≡ offset_sum from (offset_or object.now.offset) }
{
    match object.offset() {
        Some(offset) => from.plus(offset),
        None => from.plus(Offset::ZERO),
    }
}

// Whether a node has a child in the window.
pub(crate) fn has_shown(tree: &RenderTree, h: Handle) -> bool
    requires { Holds tree.now.tree h }
    ensures { result ≡ has_child (laids_of (below (subtree_at tree.now.tree h))) }
{
    Tree::<RenderObject>::child_laws();
    let children = tree.children(h);
    for child in children {
        if tree.shown(*child) {
            return true;
        }
    }
    false
}

// How a group goes on below a node at a point, of which this is stored.
pub(crate) fn entered(tree: &RenderTree, h: Handle, object: &RenderObject, at: Offset) -> PaintRole
    requires { Holds tree.now.tree h }
    ensures { result ≡ entered object.now (has_child (laids_of (below (subtree_at tree.now.tree h)))) at }
{
    if !object.shown() || is_boundary(object) {
        return PaintRole::Hides;
    }
    paint_role(
        &object.widget().kind,
        frame_of(object),
        has_shown(tree, h),
        at,
    )
}

// Adds records that are drawn.
fn push_records(records: Vec<Record>, parts: &mut Vec<PaintPart>) -> Result<(), AllocError>
    ensures { OnOk result (map part_of parts.new.items ≡ map part_of parts.old.items ++ map record_part records.items) }
{
    for record in records {
        parts.push(PaintPart::Record(record))?;
    }
    Ok(())
}

// Adds what a node at a point adds itself, of which this is stored: a boundary its place, any other in the window what it draws.
pub(crate) fn push_part(
    alloc: Global,
    tree: &RenderTree,
    h: Handle,
    object: &RenderObject,
    at: Offset,
    table: &DelegateTable,
    parts: &mut Vec<PaintPart>,
) -> Result<(), AllocError>
    ensures { OnOk result (map part_of parts.new.items
        ≡ map part_of parts.old.items ++ added tree.now.scale.cell (meant_in table.now ⟦<dyn Delegate as Delegate>⟧) h object.now at) }
{
    if !object.shown() {
        return Ok(());
    }
    if is_boundary(object) {
        parts.push(PaintPart::Place(h, at))?;
        return Ok(());
    }
    let mut records = Vec::new(alloc);
    push_own(
        alloc,
        &object.widget().kind,
        frame_of(object),
        at,
        tree.scale(),
        table,
        &mut records,
    )?;
    push_records(records, parts)
}

// Counts a node that is painted in its group.
pub(crate) fn tick_own<L: Ledger>(object: &RenderObject, paints: &mut Steps<L>)
    ensures { paints.new ≡ paints.old + own_count object.now }
{
    if object.shown() && !is_boundary(object) {
        paints.tick();
    }
}

// Begins a layer where there is one of its own: what stands before it is set aside.
pub(crate) fn begin(alloc: Global, role: PaintRole, parts: &mut Vec<PaintPart>) -> Vec<PaintPart>
    ensures aside { map part_of result.items ≡ set_aside role (map part_of parts.old.items) }
    ensures begun { map part_of parts.new.items ≡ begun role (map part_of parts.old.items) }
{
    match role {
        PaintRole::Layers(_) => mem::replace(parts, Vec::new(alloc)),
        PaintRole::Passes | PaintRole::Hides => Vec::new(alloc),
    }
}

// Ends a layer where there is one of its own: it stands after what was set aside.
pub(crate) fn end(
    role: PaintRole,
    aside: Vec<PaintPart>,
    parts: &mut Vec<PaintPart>,
) -> Result<(), AllocError>
    ensures { OnOk result (map part_of parts.new.items ≡ ended role (map part_of aside.items) (map part_of parts.old.items)) }
{
    match role {
        PaintRole::Layers(kind) => {
            let inside = PartList::of(mem::replace(parts, aside));
            let layer = PartLayer {
                kind,
                parts: inside,
            };
            parts.push(PaintPart::Layer(layer))?;
            Ok(())
        }
        PaintRole::Passes | PaintRole::Hides => Ok(()),
    }
}

// Adds the parts of the group's nodes below a node, which are painted from a point on, and counts each node.
pub(crate) fn paint_below<L: Ledger>(
    alloc: Global,
    tree: &RenderTree,
    h: Handle,
    from: Offset,
    table: &DelegateTable,
    parts: &mut Vec<PaintPart>,
    paints: &mut Steps<L>,
) -> Result<(), AllocError>
    requires { Holds tree.now.tree h }
    ensures parts { OnOk result (map part_of parts.new.items ≡ map part_of parts.old.items ++ group_parts tree.now.scale.cell
        (meant_in table.now ⟦<dyn Delegate as Delegate>⟧) (below (subtree_at tree.now.tree h)) from) }
    ensures paints { OnOk result (paints.new ≡ paints.old + group_count (below (subtree_at tree.now.tree h))) }
{
    Tree::<RenderObject>::child_laws();
    let children = tree.children(h);
    for child in children {
        let child = *child;
        let object = object_of(tree, child);
        if !object.shown() {
            continue;
        }
        let at = place_of(object, from);
        push_part(alloc, tree, child, object, at, table, parts)?;
        tick_own(object, paints);
        let role = entered(tree, child, object, at);
        if role == PaintRole::Hides {
            continue;
        }
        let aside = begin(alloc, role, parts);
        paint_below(
            alloc,
            tree,
            child,
            point_below(role, at),
            table,
            parts,
            paints,
        )?;
        end(role, aside, parts)?;
    }
    Ok(())
}
