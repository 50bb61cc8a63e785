// What a walk plans at a widget: its element, its render node, and that it waits.
ghost use Rattle.std.specs.Prelude.{◌≡◌, ◌++◌, ◌∷◌, [], OnOk, IfOk, option_map};
ghost use Rattle.widget_model.specs.View.{shared};
ghost use Rattle.build_owner.specs.Entry.{IsPutOff};

use crate::arriving::Arrival;
use crate::names::{NameValues, copy_values};
use crate::opening::Opening;
use crate::walk::{BuildWalk, WaitingSpot};
use element_tree::{ElementTree, Renewal};
use fx_handles::Handle;
use node_tree::PlanEntry;
use plain_tree::ParentData;
use render_tree::Redraw;
use std::alloc::{AllocError, Global};
use std::mem::replace;
use std::rc::Rc;
use widget_model::Widget;

/// Plans the element at a handle, for a widget that arrived: with this parent and these children, this output and this render node.
pub(crate) fn plan_element(
    walk: &mut BuildWalk,
    at: Handle,
    parent: Option<Handle>,
    children: Vec<Handle>,
    arrival: &Arrival,
    output: Option<Rc<Widget>>,
    render: Option<Handle>,
) -> Result<(), AllocError>
    ensures planned { OnOk result (walk.new.elements.items ≡ walk.old.elements.items ++ (record {
      at = at;
      parent = parent;
      children = children.items;
      update = record { widget = shared arrival.now.widget; index = arrival.now.place; output = option_map shared output; render = render };
    }) ∷ []) }
    ensures others { OnOk result (walk.new ≡ record walk.old { elements = walk.new.elements }) }
{
    let update = Renewal {
        widget: Rc::clone(&arrival.widget)?,
        index: arrival.place,
        output,
        render,
    };
    walk.elements.reserve(1)?;
    walk.elements
        .push_reserved(PlanEntry::new(at, parent, children, update));
    Ok(())
}

/// Plans the render node at a handle, for a widget to which something was told: with this one above, and those below that were planned
/// since; what was planned before stands beside it.
pub(crate) fn plan_render(
    walk: &mut BuildWalk,
    at: Handle,
    above: Option<Handle>,
    before: Vec<Handle>,
    widget: &Rc<Widget>,
    told: ParentData,
) -> Result<(), AllocError>
    ensures planned { OnOk result (walk.new.renders.items ≡ walk.old.renders.items ++ (record {
      at = at;
      parent = above;
      children = walk.old.tops.items;
      update = record { widget = shared widget.now; parent_data = told };
    }) ∷ []) }
    ensures tops { OnOk result (walk.new.tops.items ≡ before.items ++ at ∷ []) }
    ensures others { OnOk result (walk.new ≡ record walk.old { renders = walk.new.renders; tops = walk.new.tops }) }
{
    let update = Redraw {
        widget: Rc::clone(widget)?,
        parent_data: told,
    };
    let below = replace(&mut walk.tops, before);
    walk.renders.reserve(1)?;
    walk.renders
        .push_reserved(PlanEntry::new(at, above, below, update));
    walk.tops.push(at)?;
    Ok(())
}

/// A lazy list waits for its items. Nothing is below it until then.
pub(crate) fn wait(
    alloc: Global,
    walk: &mut BuildWalk,
    opening: &Opening,
    left: u32,
    names: &NameValues,
    t: &ElementTree,
    widget: &Rc<Widget>,
) -> Result<Vec<Handle>, AllocError>
    ensures nothing { IfOk result (λ hs. hs.items ≡ []) }
    ensures waits { OnOk result (IsPutOff opening.now left names.entry.now.now.items names.entry.now.was.items t.now.tree (shared widget.now) walk.old.spots.items walk.new.spots.items) }
    ensures others { OnOk result (walk.new ≡ record walk.old { spots = walk.new.spots }) }
{
    walk.spots.push_back(WaitingSpot {
        at: opening.at,
        kept: opening.partner,
        left,
        now: copy_values(alloc, names.now.as_slice())?,
        was: copy_values(alloc, names.was.as_slice())?,
        number: t.number(opening.at).unwrap_or(0),
        list: Rc::clone(widget)?,
    })?;
    Ok(Vec::new(alloc))
}
