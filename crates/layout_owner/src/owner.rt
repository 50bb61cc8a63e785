// The layout of a frame.
ghost use Rattle.std.specs.Prelude.{◌≡◌, ◌≤◌, ◌+◌, option_map, IsSome, true, false, OnOk, OnErr};
ghost use Rattle.std.specs.Result.{is_err};
ghost use Rattle.delegates.specs.Meaning.{Meaning};
ghost use Rattle.delegates.specs.Table.{meant_in};
ghost use Rattle.fx_handles.specs.declared.Handle.{Handle};
ghost use Rattle.node_tree.specs.Forest.{In};
ghost use Rattle.tree_marks.specs.Closed.{IsLinked};
ghost use Rattle.layout_form.specs.Layout.{lay_view};
ghost use Rattle.layout_form.specs.Object.{setting_of};
ghost use Rattle.render_tree.specs.Marks.{layout_marks};
ghost use Rattle.render_tree.specs.Plain.{laid_of, renders_of, root_tree};
ghost use Rattle.layout_walk.specs.Flush.{ticks};
ghost use Rattle.layout_walk.specs.Offsets.{AreScrolled};
ghost use Rattle.layout_walk.specs.Rules.{parts_of};
ghost use Rattle.layout_walk.specs.Work.{due_count};
ghost use Rattle.layout_rules.specs.Nodes.{layout_nodes, seen_at};
ghost use Rattle.layout_rules.specs.Painting.{PaintsAnew, PaintsFew};
ghost use Rattle.layout_owner.specs.Asked.{KeepBounds};
ghost use Rattle.layout_owner.specs.Calm.{IsLaidCalm};
ghost use Rattle.layout_owner.specs.Left.{AreLeft};
ghost use Rattle.layout_owner.specs.Roots.{Good, top_render, rooted, view_asks, IsAskedAs, IsPlaced};

use crate::root::{admit, place};
use delegates::{Delegate, DelegateTable};
use fx_geom::{Bounds, Size};
use fx_outside::Steps;
use layout_rules::{lay_one, layouts_see_render_nodes};
use layout_walk::{flushes_show_full_layout, rules_are_lawful};
use node_tree::Tree;
use render_tree::{RenderObject, RenderTree};
use std::alloc::{AllocError, Global};
use std::sync::ledger::Ledger;

/// Lays out the root in the bounds of the view, in u, and below it every node that has to be laid out, or that is asked in other
/// bounds than in its last layout. Of the others none runs its rule, and each rule that is run is counted as one step. What the rules
/// give is stored, also where a Viewport stands scrolled; nodes out of the window stay as they are, with their flags.
///
/// There is a root, and unless the tree is spent each node of its tree agrees with its children and can be laid out. The error is want
/// of memory, which a spent tree always answers; after it the tree is spent.
pub fn flush<L: Ledger>(
    alloc: Global,
    r: &mut RenderTree,
    view: Size,
    table: &DelegateTable,
    layouts: &mut Steps<L>,
) -> Result<(), AllocError>
    requires root { IsSome r.old.tree.root }
    requires good { r.old.spent ≡ false → Good (setting_of r.old.scale (meant_in table.now ⟦<dyn Delegate as Delegate>⟧)) (root_tree r.old.tree) }
    // What is shown is full layout of the tree as it was.
    ensures laid { OnOk result (laid_of (root_tree r.new.tree) ≡ option_map
        (λ x. lay_view (setting_of r.old.scale (meant_in table.now ⟦<dyn Delegate as Delegate>⟧)) x view) (top_render (renders_of (root_tree r.old.tree)))) }
    ensures placed { OnOk result (IsPlaced (root_tree r.new.tree)) }
    // The root is asked as the view is large, and below a node that isn't laid out each child keeps the bounds of its last layout.
    ensures asked { OnOk result (IsAskedAs view (root_tree r.new.tree)) }
    ensures bounds { OnOk result (KeepBounds (layout_nodes (root_tree r.old.tree)) (layout_nodes (root_tree r.new.tree))) }
    // The tree is good again, and nothing in the window has to be laid out any more.
    ensures good { OnOk result (Good (setting_of r.old.scale (meant_in table.now ⟦<dyn Delegate as Delegate>⟧)) (root_tree r.new.tree)) }
    ensures linked { OnOk result (IsLinked layout_marks (root_tree r.new.tree)) }
    ensures calm { OnOk result (IsLaidCalm (root_tree r.new.tree)) }
    ensures none_due { OnOk result (due_count (layout_nodes (root_tree r.new.tree)) ≡ 0) }
    // Each node in the window has a frame and a place, and the others stay as they were, with all that is below them.
    ensures left { OnOk result (AreLeft (layout_nodes (root_tree r.old.tree)) (layout_nodes (root_tree r.new.tree))) }
    // Each Viewport in the window stands scrolled where its layout left it, and every other node as before.
    ensures scrolled { OnOk result (AreScrolled (layout_nodes (root_tree r.old.tree)) (layout_nodes (root_tree r.new.tree))) }
    // Nothing but what a layout leaves of nodes is written, and the marks for painting of those that don't look as before; out of the
    // root's tree all is, to a layout, as before.
    ensures paints { OnOk result (PaintsAnew r.old.tree r.new.tree) }
    // No more nodes get such marks than rules are run.
    ensures few { OnOk result (PaintsFew r.old.tree r.new.tree layouts.old layouts.new) }
    ensures others { OnOk result ((k : Handle) → (In k (root_tree r.old.tree) → ⊥) → seen_at r.new.tree k ≡ seen_at r.old.tree k) }
    // The steps are at most the rules that full layout runs where a node is flagged or asked in other bounds, and so at most the nodes
    // that are due.
    ensures ticks { OnOk result (layouts.new ≤ layouts.old
        + ticks (parts_of (setting_of r.old.scale (meant_in table.now ⟦<dyn Delegate as Delegate>⟧))) false (view_asks view) (rooted (root_tree r.old.tree))) }
    ensures due { OnOk result (IsAskedAs view (root_tree r.old.tree) → layouts.new ≤ layouts.old + due_count (rooted (root_tree r.old.tree))) }
    ensures scale { r.new.scale ≡ r.old.scale }
    ensures spent { OnErr result (r.new.spent ≡ true) }
    ensures ready { OnOk result (r.new.spent ≡ false) }
    ensures refused { r.old.spent ≡ true → is_err result ≡ true }
{
    Tree::<RenderObject>::walk_laws();
    rules_are_lawful();
    flushes_show_full_layout();
    layouts_see_render_nodes();
    let Some(root) = r.root() else { unreachable!() };
    admit(r, root)?;
    place(r, root);
    lay_one(alloc, r, root, Bounds::tight(view), table, layouts)?;
    // Tells the proof that this is a tree.
    let _ = r.root();
    Ok(())
}
