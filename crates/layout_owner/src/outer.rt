// The first of two layouts of a frame: all but the items of lazy lists.
ghost use Rattle.std.specs.Prelude.{◌≡◌, ◌≤◌, ◌+◌, option_map, IsSome, true, false, OnOk, OnErr};
ghost use Rattle.std.specs.Result.{is_err};
ghost use Rattle.delegates.specs.Meaning.{Meaning};
ghost use Rattle.delegates.specs.Table.{meant_in};
ghost use Rattle.fx_handles.specs.declared.Handle.{Handle};
ghost use Rattle.node_tree.specs.Forest.{In};
ghost use Rattle.tree_marks.specs.Closed.{IsLinked};
ghost use Rattle.layout_form.specs.Layout.{lay_view};
ghost use Rattle.layout_form.specs.Object.{setting_of};
ghost use Rattle.render_tree.specs.Marks.{layout_marks};
ghost use Rattle.render_tree.specs.Plain.{laids_of, renders_of, root_tree};
ghost use Rattle.layout_walk.specs.Flush.{ticks};
ghost use Rattle.layout_walk.specs.Here.{AreQuiet, outer_back};
ghost use Rattle.layout_walk.specs.Items.{lists_in};
ghost use Rattle.layout_walk.specs.Rules.{parts_of, is_list};
ghost use Rattle.layout_walk.specs.Walk.{AreCorrected};
ghost use Rattle.layout_walk.specs.Work.{due_count};
ghost use Rattle.layout_rules.specs.Nodes.{layout_nodes, seen_at};
ghost use Rattle.layout_rules.specs.Plugs.{KeepsPlugs};
ghost use Rattle.layout_owner.specs.Asked.{KeepBounds};
ghost use Rattle.layout_owner.specs.Outer.{AreRanged, PaintsFewThenRanges, PaintsThenRanges, lists_laid};
ghost use Rattle.layout_owner.specs.Roots.{Good, top_render, rooted, view_asks, IsAskedAs, IsPlaced};
ghost use Rattle.layout_owner.specs.Undue.{RootUndue, RootAsked};

use crate::ranges::store_ranges;
use crate::root::{admit, place};
use delegates::{Delegate, DelegateTable};
use fx_geom::{Bounds, Size};
use fx_outside::Steps;
use layout_rules::{lay_outer, layouts_see_render_nodes};
use layout_walk::{full_layout_is_of_render_nodes, outer_flushes_lay_out_lists, rules_are_lawful};
use node_tree::Tree;
use render_tree::{RenderObject, RenderTree};
use std::alloc::{AllocError, Global};
use std::sync::ledger::Ledger;

/// Lays out the root in the bounds of the view, in u, as `flush` does, but for the items of lazy lists and what is below them: they stay
/// as they are. Each list in the window gets its live range by the view that it is laid out in, and every other node loses its own. A
/// list that has to be laid out still has to be, so that `flush` lays out its items.
///
/// There is a root, and unless the tree is spent each node of its tree agrees with its children and can be laid out. The error is want
/// of memory, which a spent tree always answers; after it the tree is spent.
pub fn flush_outer<L: Ledger>(
    alloc: Global,
    r: &mut RenderTree,
    view: Size,
    table: &DelegateTable,
    layouts: &mut Steps<L>,
) -> Result<(), AllocError>
    requires root { IsSome r.old.tree.root }
    requires good { r.old.spent ≡ false → Good (setting_of r.old.scale (meant_in table.now ⟦<dyn Delegate as Delegate>⟧)) (root_tree r.old.tree) }
    // The lazy lists that are laid out are those of full layout of the tree as it was, each with its frame, and have their live ranges.
    ensures lists { OnOk result (lists_in is_list (laids_of (root_tree r.new.tree)) ≡ lists_laid (option_map
        (λ x. lay_view (setting_of r.old.scale (meant_in table.now ⟦<dyn Delegate as Delegate>⟧)) x view) (top_render (renders_of (root_tree r.old.tree))))) }
    ensures ranges { OnOk result (AreRanged r.old.scale.widen r.new.tree) }
    ensures placed { OnOk result (IsPlaced (root_tree r.new.tree)) }
    // The root is asked as the view is large, and below a node that isn't laid out each child keeps the bounds of its last layout.
    ensures asked { OnOk result (IsAskedAs view (root_tree r.new.tree)) }
    ensures root_asked { OnOk result (RootAsked view (layout_nodes (root_tree r.new.tree))) }
    ensures bounds { OnOk result (KeepBounds (layout_nodes (root_tree r.old.tree)) (layout_nodes (root_tree r.new.tree))) }
    // Where the root needn't be laid out, and was asked so, it isn't; nor is any node in the window below it that needn't be, and what is out
    // of the window there stays as it is.
    ensures undue { OnOk result (RootUndue view (layout_nodes (root_tree r.old.tree)) (layout_nodes (root_tree r.new.tree))) }
    // Each node remembers what it did, or whether its delegate is plugged now.
    ensures plugs { OnOk result (KeepsPlugs (meant_in table.now ⟦<dyn Delegate as Delegate>⟧) r.old.tree r.new.tree) }
    // The tree is good again, and in the window only such lists, and what is below them, may have to be laid out.
    ensures good { OnOk result (Good (setting_of r.old.scale (meant_in table.now ⟦<dyn Delegate as Delegate>⟧)) (root_tree r.new.tree)) }
    ensures linked { OnOk result (IsLinked layout_marks (root_tree r.new.tree)) }
    ensures held { OnOk result (AreQuiet (parts_of (setting_of r.old.scale (meant_in table.now ⟦<dyn Delegate as Delegate>⟧)))
        (outer_back (parts_of (setting_of r.old.scale (meant_in table.now ⟦<dyn Delegate as Delegate>⟧)))) (layout_nodes (root_tree r.new.tree))) }
    // Full layout sees nothing else but offsets that it corrects; the items of these lists stay as they are, and so does what isn't asked.
    ensures corrected { OnOk result (AreCorrected (parts_of (setting_of r.old.scale (meant_in table.now ⟦<dyn Delegate as Delegate>⟧)))
        (outer_back (parts_of (setting_of r.old.scale (meant_in table.now ⟦<dyn Delegate as Delegate>⟧)))) (view_asks view)
        (layout_nodes (root_tree r.old.tree)) (layout_nodes (root_tree r.new.tree))) }
    // Nothing but what a layout leaves of nodes is written, the marks for painting of those that don't look as before, and live ranges;
    // out of the root's tree all is, to a layout, as before.
    ensures paints { OnOk result (PaintsThenRanges r.old.tree r.new.tree) }
    // No more nodes get such marks than rules are run.
    ensures few { OnOk result (PaintsFewThenRanges r.old.tree r.new.tree layouts.old layouts.new) }
    ensures others { OnOk result ((k : Handle) → (In k (root_tree r.old.tree) → ⊥) → seen_at r.new.tree k ≡ seen_at r.old.tree k) }
    // The steps are at most the rules that such a layout runs where a node is flagged or asked in other bounds, and so at most the nodes
    // that are due.
    ensures ticks { OnOk result (layouts.new ≤ layouts.old
        + ticks (parts_of (setting_of r.old.scale (meant_in table.now ⟦<dyn Delegate as Delegate>⟧))) true (view_asks view) (rooted (root_tree r.old.tree))) }
    ensures due { OnOk result (IsAskedAs view (root_tree r.old.tree) → layouts.new ≤ layouts.old + due_count (rooted (root_tree r.old.tree))) }
    ensures scale { r.new.scale ≡ r.old.scale }
    ensures spent { OnErr result (r.new.spent ≡ true) }
    ensures ready { OnOk result (r.new.spent ≡ false) }
    ensures refused { r.old.spent ≡ true → is_err result ≡ true }
{
    Tree::<RenderObject>::walk_laws();
    rules_are_lawful();
    full_layout_is_of_render_nodes();
    outer_flushes_lay_out_lists();
    layouts_see_render_nodes();
    let Some(root) = r.root() else { unreachable!() };
    admit(r, root)?;
    place(r, root);
    lay_outer(alloc, r, root, Bounds::tight(view), table, layouts)?;
    // Each of these tells the proof that this is a tree.
    let _ = r.root();
    r.clear_live();
    let _ = r.root();
    store_ranges(alloc, r)?;
    let _ = r.root();
    Ok(())
}
