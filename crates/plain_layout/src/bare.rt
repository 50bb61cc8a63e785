// Nodes with nobody below them: nobody is asked, and no list is made.
ghost use Rattle.std.specs.Prelude.{◌≡◌, ◌<◌, [], Some, None, length, OnOk, slice_index_or, slice_set};
ghost use Rattle.fx_geom.specs.Size.{HasLengths};
ghost use Rattle.delegates.specs.Meaning.{Meaning};
ghost use Rattle.delegates.specs.Table.{meant_in};
ghost use Rattle.layout_form.specs.Fits.{CanBeLaidOut};
ghost use Rattle.layout_form.specs.Layout.{object};
ghost use Rattle.layout_form.specs.Object.{setting_of};
ghost use Rattle.layout_form.specs.Protocol.{answer};
ghost use Rattle.layout_form.specs.Frames.{frames_given};
ghost use Rattle.kind_rules.specs.Few.{items_of};
ghost use Rattle.kind_rules.specs.Asked.{found_of, ruling_for, AreLong, IsOffset, IsWalk};
ghost use Rattle.kind_rules.specs.Cursor.{look_of, count_in, children_of};
ghost use Rattle.plain_layout.specs.Computed.{number_of, laid_by};
ghost use Rattle.plain_layout.specs.Slivers.{IsReady};

use crate::opened::{found_for, kind_of};
use crate::place::lazy_count;
use crate::rules::is_plugged;
use crate::slivers::is_answered;
use delegates::{Delegate, DelegateTable};
use fx_geom::Scale;
use kind_rules::{Few, Found, lone_size, make, slivers_are_measured_by_their_boxes};
use layout_form::{
    Ask, rules_see_frames, slivers_follow_their_scroll_extents, viewports_need_scroll_extents,
};
use plain_tree::{Facts, Frame, LaidNode, Notes, RenderNode};
use std::alloc::{AllocError, Global};
use std::rc::Rc;

// Such a node laid out as it is asked, in its place in a list.
pub(crate) fn bare_at(
    alloc: Global,
    node: &RenderNode,
    ask: &Ask,
    slots: &mut Few<Option<LaidNode>>,
    i: usize,
    scale: Scale,
    table: &DelegateTable,
) -> Result<(), AllocError>
    requires there { i < length (items_of slots.old) }
    requires nobody { children_of node.now ≡ [] }
    requires fits { CanBeLaidOut node.now }
    requires ready { IsReady (setting_of scale (meant_in table.now ⟦<dyn Delegate as Delegate>⟧)) ask.now (slice_index_or (items_of slots.old) i None) node.now }
    ensures { OnOk result (items_of slots.new ≡ slice_set (items_of slots.old) i (Some (answer (object (setting_of scale (meant_in table.now ⟦<dyn Delegate as Delegate>⟧)) node.now) ask.now))) }
{
    match slots {
        Few::Empty => Ok(()),
        Few::Alone(slot) => bare(alloc, node, ask, slot, scale, table),
        Few::Each(entries) => bare(alloc, node, ask, &mut entries[i], scale, table),
    }
}

// The same in the place of what is kept of it.
fn bare(
    alloc: Global,
    node: &RenderNode,
    ask: &Ask,
    slot: &mut Option<LaidNode>,
    scale: Scale,
    table: &DelegateTable,
) -> Result<(), AllocError>
    requires nobody { children_of node.now ≡ [] }
    requires fits { CanBeLaidOut node.now }
    requires ready { IsReady (setting_of scale (meant_in table.now ⟦<dyn Delegate as Delegate>⟧)) ask.now slot.old node.now }
    ensures { OnOk result (slot.new ≡ Some (answer (object (setting_of scale (meant_in table.now ⟦<dyn Delegate as Delegate>⟧)) node.now) ask.now)) }
{
    if is_answered(ask, slot) {
        return Ok(());
    }
    rules_see_frames();
    viewports_need_scroll_extents();
    slivers_follow_their_scroll_extents();
    slivers_are_measured_by_their_boxes();
    match ask {
        Ask::AsBox(bounds) => match lone_size(kind_of(node), *bounds, scale, table) {
            None => {}
            Some(size) => {
                let frame = Frame::Boxed {
                    bounds: *bounds,
                    size,
                };
                let notes = Notes {
                    overflow: 0,
                    unbounded: false,
                };
                stand(alloc, node, frame, notes, 0, slot, scale, table)?;
                return Ok(());
            }
        },
        Ask::AsSliver(_) => {}
    }
    let found = found_for(node, *ask, &[]);
    bare_made(alloc, node, *ask, found, slot, scale, table)?;
    Ok(())
}

// What its rule makes of no answers.
#[inline(never)]
fn bare_made(
    alloc: Global,
    node: &RenderNode,
    ask: Ask,
    found: Found,
    slot: &mut Option<LaidNode>,
    scale: Scale,
    table: &DelegateTable,
) -> Result<(), AllocError>
    requires nobody { children_of node.now ≡ [] }
    requires fits { CanBeLaidOut node.now }
    requires sizes { AreLong ask (frames_given []) }
    requires stack { HasLengths found.size }
    requires offset { IsOffset ask }
    requires walk { IsWalk (look_of node.now) ask found.start (frames_given []) }
    ensures { OnOk result (slot.new ≡ Some (laid_by (setting_of scale (meant_in table.now ⟦<dyn Delegate as Delegate>⟧)) (number_of node.now) (look_of node.now)
        (ruling_for (setting_of scale (meant_in table.now ⟦<dyn Delegate as Delegate>⟧)) (look_of node.now) (count_in node.now) ask (found_of found) [] []) [])) }
{
    let made = make(
        alloc,
        &node.widget.kind,
        lazy_count(&node.widget),
        ask,
        found,
        &[],
        &[],
        scale,
        table,
    )?;
    stand(
        alloc,
        node,
        made.frame,
        made.notes,
        made.scrolled,
        slot,
        scale,
        table,
    )?;
    Ok(())
}

// The node with this frame, these notes and nobody below it.
fn stand(
    alloc: Global,
    node: &RenderNode,
    frame: Frame,
    notes: Notes,
    scrolled: u64,
    slot: &mut Option<LaidNode>,
    scale: Scale,
    table: &DelegateTable,
) -> Result<(), AllocError>
    ensures { OnOk result (slot.new ≡ Some (laid_by (setting_of scale (meant_in table.now ⟦<dyn Delegate as Delegate>⟧)) (number_of node.now) (look_of node.now)
        (record { frame = frame; notes = notes; scrolled = scrolled; places = [] }) [])) }
{
    let kind = &node.widget.kind;
    *slot = Some(LaidNode {
        number: node.number,
        widget: Rc::clone(&node.widget)?,
        facts: Facts {
            frame,
            notes,
            plugged: is_plugged(kind, scale, table),
            scrolled,
        },
        children: Vec::new(alloc),
    });
    Ok(())
}
