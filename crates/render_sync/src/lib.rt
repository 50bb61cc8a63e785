//! Brings the render nodes that a screen keeps to the tree of a build: a node whose number is there already goes on, with what its
//! last layout stored, each other one is made, what isn't in the build any more is taken away, and what changed is marked
//! (`RenderObjectElement.update`, `insertRenderObjectChild`, `moveRenderObjectChild`, `removeRenderObjectChild`).
#![tactic(auto)]

ghost use Rattle.std.specs.Prelude.{◌≡◌, ◌+◌, ◌≤◌, true, OnOk, OnErr};
ghost use Rattle.std.specs.Result.{is_err};
ghost use Rattle.fx_handles.specs.Arena.{used_count, retired_count, inserted_count};
ghost use Rattle.plain_tree.specs.Laws.{render_numbers_of, AllDiffer};
ghost use Rattle.plain_tree.specs.Render.{count_of};
ghost use Rattle.render_sync.specs.Numbering.{IsNumbering};
ghost use Rattle.render_sync.specs.Renders.{AreScrolledSo};
ghost use Rattle.render_sync.specs.Synced.{Synced};

mod numbering;
mod placing;
mod planning;

use fx_handles::{Handle, SLOTS_MAX};
use node_tree::Tree;
use numbering::forget_dead;
use placing::place_node;
use plain_tree::RenderNode;
use planning::plan_node;
use render_tree::{Redraw, RenderObject, RenderTree};
use std::alloc::{AllocError, Global};
use std::collections::BTreeMap;

// Does so, and leaves the tree anyhow where memory is short.
fn bring(
    alloc: Global,
    tree: &mut RenderTree,
    numbers: &mut BTreeMap<u64, Handle>,
    top: &RenderNode,
) -> Result<(), AllocError>
    requires index { IsNumbering numbers.old tree.old.tree }
    requires differ { AllDiffer (render_numbers_of top.now) }
    requires scrolled { AreScrolledSo tree.old.tree top.now }
    requires room { used_count tree.old.tree.nodes + retired_count tree.old.tree.nodes + count_of top.now ≤ SLOTS_MAX }
    ensures synced { OnOk result (Synced tree.old.tree tree.new.tree top.now) }
    ensures index { OnOk result (IsNumbering numbers.new tree.new.tree) }
    ensures used { OnOk result (used_count tree.new.tree.nodes ≡ count_of top.now) }
    ensures made { OnOk result (inserted_count tree.new.tree.nodes ≤ inserted_count tree.old.tree.nodes + count_of top.now) }
    ensures refused { tree.old.spent ≡ true → is_err result ≡ true }
    ensures spent { tree.new.spent ≡ tree.old.spent }
    ensures scale { tree.new.scale ≡ tree.old.scale }
{
    Tree::<RenderObject>::plan_laws::<Redraw>();
    Tree::<RenderObject>::keep_laws();
    place_node(tree, numbers, top)?;
    let mut plan = Vec::new(alloc);
    let root = plan_node(alloc, numbers, None, top, &mut plan)?;
    let laid = tree.laid_anew(Some(root), plan.as_slice())?;
    let painted = tree.painted_anew(Some(root), plan.as_slice())?;
    tree.commit(Some(root), &mut plan)?;
    tree.mark_layouts(laid.as_slice());
    tree.mark_paints(painted.as_slice());
    forget_dead(numbers, tree);
    Ok(())
}

/// Brings the tree to the render nodes of a build, and the index with it. A node whose number is in the tree keeps its handle and all
/// that is stored there but its widget and its parent data; each other one is made, with all to be done; every other node of the tree
/// is taken away. The nodes that are changed for layout and for painting are marked.
///
/// Only want of memory is answered, and then the tree is spent. It takes time in the nodes of both trees and log n for each.
pub fn sync(
    alloc: Global,
    tree: &mut RenderTree,
    numbers: &mut BTreeMap<u64, Handle>,
    top: &RenderNode,
) -> Result<(), AllocError>
    requires index { IsNumbering numbers.old tree.old.tree }
    requires differ { AllDiffer (render_numbers_of top.now) }
    requires scrolled { AreScrolledSo tree.old.tree top.now }
    requires room { used_count tree.old.tree.nodes + retired_count tree.old.tree.nodes + count_of top.now ≤ SLOTS_MAX }
    ensures synced { OnOk result (Synced tree.old.tree tree.new.tree top.now) }
    ensures index { OnOk result (IsNumbering numbers.new tree.new.tree) }
    ensures used { OnOk result (used_count tree.new.tree.nodes ≡ count_of top.now) }
    ensures made { OnOk result (inserted_count tree.new.tree.nodes ≤ inserted_count tree.old.tree.nodes + count_of top.now) }
    ensures refused { tree.old.spent ≡ true → is_err result ≡ true }
    ensures spent { OnOk result (tree.new.spent ≡ tree.old.spent) }
    ensures err { OnErr result (tree.new.spent ≡ true) }
    ensures scale { tree.new.scale ≡ tree.old.scale }
{
    let end = bring(alloc, tree, numbers, top);
    if end.is_err() {
        tree.spend();
    }
    end
}
