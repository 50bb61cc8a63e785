// What the children of a node were told, and what they answer.
ghost use Rattle.std.specs.Prelude.{◌≡◌, ◌∷◌, [], ◌<◌, true, map, length, IfOk, None, slice_index_or, slice_set};
ghost use Rattle.plain_tree.specs.LaidView.{stood};
ghost use Rattle.layout_form.specs.Fits.{data_of};
ghost use Rattle.layout_form.specs.Object.{placed_at};
ghost use Rattle.layout_form.specs.Protocol.{present};
ghost use Rattle.layout_form.specs.Frames.{frames_in};
ghost use Rattle.kind_rules.specs.Few.{items_of};
ghost use Rattle.plain_layout.specs.Computed.{blank};

use fx_geom::Offset;
use kind_rules::Few;
use plain_tree::{Frame, LaidChild, LaidNode, ParentData, RenderNode};
use std::alloc::{AllocError, Global};

// What the children of a node were told.
pub(crate) fn told_to(alloc: Global, children: &[RenderNode]) -> Result<Few<ParentData>, AllocError>
    ensures { IfOk result (λ v. items_of v ≡ map data_of children.now) }
{
    match children {
        [] => Ok(Few::Empty),
        [child] => Ok(Few::Alone(child.parent_data)),
        _ => Ok(Few::Each(told_each(alloc, children)?)),
    }
}

fn told_each(alloc: Global, children: &[RenderNode]) -> Result<Vec<ParentData>, AllocError>
    ensures { IfOk result (λ v. v.items ≡ map data_of children.now) }
{
    let mut told = Vec::with_capacity(alloc, children.len())?;
    for child in children {
        told.push_reserved(child.parent_data);
    }
    Ok(told)
}

// Nobody has answered yet.
pub(crate) fn blank(
    alloc: Global,
    children: &[RenderNode],
) -> Result<Few<Option<LaidNode>>, AllocError>
    ensures { IfOk result (λ v. items_of v ≡ blank children.now) }
{
    match children {
        [] => Ok(Few::Empty),
        [_] => Ok(Few::Alone(None)),
        _ => Ok(Few::Each(blank_each(alloc, children)?)),
    }
}

fn blank_each(alloc: Global, children: &[RenderNode]) -> Result<Vec<Option<LaidNode>>, AllocError>
    ensures { IfOk result (λ v. v.items ≡ blank children.now) }
{
    let mut slots = Vec::with_capacity(alloc, children.len())?;
    for _child in children {
        slots.push_reserved(None);
    }
    Ok(slots)
}

// What is there of child i, which is taken out.
pub(crate) fn take_slot(slots: &mut Few<Option<LaidNode>>, i: usize) -> Option<LaidNode>
    requires { i < length (items_of slots.old) }
    ensures value { result ≡ slice_index_or (items_of slots.old) i None }
    ensures slots { items_of slots.new ≡ slice_set (items_of slots.old) i None }
{
    match slots {
        Few::Empty => None,
        Few::Alone(slot) => slot.take(),
        Few::Each(entries) => entries[i].take(),
    }
}

// What is there of child i from now on.
pub(crate) fn put_slot(slots: &mut Few<Option<LaidNode>>, i: usize, slot: Option<LaidNode>)
    requires { i < length (items_of slots.old) }
    ensures { items_of slots.new ≡ slice_set (items_of slots.old) i slot }
{
    match slots {
        Few::Empty => {}
        Few::Alone(alone) => *alone = slot,
        Few::Each(entries) => entries[i] = slot,
    }
}

// The children that have answered, each at its place, one after another.
pub(crate) fn placed(
    alloc: Global,
    places: &[Offset],
    slots: Few<Option<LaidNode>>,
) -> Result<Vec<LaidChild>, AllocError>
    ensures { IfOk result (λ v. map stood v.items ≡ placed_at places.now (present (items_of slots))) }
{
    match slots {
        Few::Empty => Ok(Vec::new(alloc)),
        Few::Alone(slot) => placed_alone(alloc, places, slot),
        Few::Each(slots) => placed_each(alloc, places, slots),
    }
}

fn placed_alone(
    alloc: Global,
    places: &[Offset],
    slot: Option<LaidNode>,
) -> Result<Vec<LaidChild>, AllocError>
    ensures { IfOk result (λ v. map stood v.items ≡ placed_at places.now (present (slot ∷ []))) }
{
    let mut children = Vec::new(alloc);
    match slot {
        None => Ok(children),
        Some(node) => match places.get(0) {
            None => Ok(children),
            Some(at) => {
                children.push(LaidChild { at: *at, node })?;
                Ok(children)
            }
        },
    }
}

fn placed_each(
    alloc: Global,
    places: &[Offset],
    slots: Vec<Option<LaidNode>>,
) -> Result<Vec<LaidChild>, AllocError>
    ensures { IfOk result (λ v. map stood v.items ≡ placed_at places.now (present slots.items)) }
{
    let mut children = Vec::with_capacity(alloc, places.len())?;
    let mut i = 0;
    for slot in slots {
        match slot {
            None => continue,
            Some(node) => match places.get(i) {
                None => continue,
                Some(at) => {
                    children.push_reserved(LaidChild { at: *at, node });
                    i += 1;
                }
            },
        }
    }
    Ok(children)
}
