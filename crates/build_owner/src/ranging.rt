// The live ranges of lazy lists, as their render nodes store them.
ghost use Rattle.std.specs.Prelude.{◌≡◌, ◌∷◌, ◌++◌, [], map, IfOk, OnOk};
ghost use Rattle.build_walk.specs.Merging.{lists_redraw};
ghost use Rattle.build_owner.specs.Ranging.{listed_in, range_at};

use crate::merging::Listing;
use fx_handles::Handle;
use node_tree::PlanEntry;
use render_tree::{Redraw, RenderTree};
use sliver_layout::Window;
use std::alloc::{AllocError, Global};

// Adds the node of an entry, if it is a lazy list.
fn add_list(lists: &mut Vec<Handle>, entry: &PlanEntry<Redraw>) -> Result<(), AllocError>
    ensures { OnOk result (lists.new.items ≡ lists.old.items ++ listed_in lists_redraw (entry.now ∷ [])) }
{
    if !entry.update().lists() {
        return Ok(());
    }
    lists.push(entry.at())?;
    Ok(())
}

/// The render nodes of the lazy lists in a plan, from first to last.
pub(crate) fn lists_drawn(
    alloc: Global,
    plan: &[PlanEntry<Redraw>],
) -> Result<Vec<Handle>, AllocError>
    ensures { IfOk result (λ hs. hs.items ≡ listed_in lists_redraw plan.now) }
{
    let mut lists = Vec::new(alloc);
    for i in 0..plan.len() {
        add_list(&mut lists, &plan[i])?;
    }
    Ok(lists)
}

// The range that a render node stores: none where nothing is stored.
fn range_of(r: &RenderTree, h: Handle) -> Window
    ensures { result ≡ range_at r.now.tree h }
{
    match r.live(h) {
        Some(range) => range,
        None => Window { first: 0, end: 0 },
    }
}

/// The ranges that render nodes store.
pub(crate) fn ranges_of(
    alloc: Global,
    r: &RenderTree,
    lists: &[Handle],
) -> Result<Vec<Window>, AllocError>
    ensures { IfOk result (λ ws. ws.items ≡ map (range_at r.now.tree) lists.now) }
{
    let mut ranges = Vec::with_capacity(alloc, lists.len())?;
    for list in lists {
        ranges.push(range_of(r, *list))?;
    }
    Ok(ranges)
}
