// Boxes that are laid out, with what is below them.
ghost use Rattle.std.specs.Prelude.{◌≡◌, None, Some, OnOk, OnErr, IfOk, true, false};
ghost use Rattle.delegates.specs.Table.{meant_in};
ghost use Rattle.plain_tree.specs.declared.laid.Frame.TheVariants as frame;
ghost use Rattle.plain_tree.specs.Shown.{box_size};
ghost use Rattle.fx_handles.specs.declared.Handle.{Handle as HandleOf};
ghost use Rattle.node_tree.specs.Forest.{In};
ghost use Rattle.node_tree.specs.Tree.{node_at, parent_at, subtree_at};
ghost use Rattle.layout_form.specs.declared.asks.Ask.TheVariants as ask;
ghost use Rattle.layout_form.specs.Object.{setting_of};
ghost use Rattle.layout_walk.specs.Rules.{parts_of};
ghost use Rattle.render_tree.specs.Tree.{frame_at};
ghost use Rattle.layout_rules.specs.declared.duties.Duty.TheVariants as duty;
ghost use Rattle.layout_walk.specs.Node.{frame_or};
ghost use Rattle.layout_rules.specs.Flags.{FlagsRun};
ghost use Rattle.layout_rules.specs.Painting.{PaintsAnew, PaintsFew};
ghost use Rattle.layout_rules.specs.Plugs.{ArePlugged};
ghost use Rattle.layout_rules.specs.Reads.{state_at};
ghost use Rattle.layout_rules.specs.Serving.{IsReadyFor, Serves};

use crate::duties::Duty;
use crate::reading::{frame_or, state_at};
use crate::walk::serve;
use delegates::{Delegate, DelegateTable};
use fx_geom::{Bounds, Size};
use fx_handles::Handle;
use fx_outside::Steps;
use layout_form::Ask;
use render_tree::RenderTree;
use std::alloc::{AllocError, Global};
use std::sync::ledger::Ledger;

// Lays out a box, and gives the nodes that don't look as before their marks for painting.
fn lay<L: Ledger>(
    alloc: Global,
    r: &mut RenderTree,
    h: Handle,
    bounds: Bounds,
    table: &DelegateTable,
    outer: bool,
    steps: &mut Steps<L>,
) -> Result<(), AllocError>
    requires { IsReadyFor (parts_of (setting_of r.old.scale (meant_in table.now ⟦<dyn Delegate as Delegate>⟧))) r.old.tree h (duty.Lay (ask.AsBox bounds)) }
    ensures served { OnOk result (Serves (parts_of (setting_of r.old.scale (meant_in table.now ⟦<dyn Delegate as Delegate>⟧))) outer (duty.Lay (ask.AsBox bounds)) r.old.tree r.new.tree h steps.old steps.new) }
    ensures paints { OnOk result (PaintsAnew r.old.tree r.new.tree) }
    ensures few { OnOk result (PaintsFew r.old.tree r.new.tree steps.old steps.new) }
    ensures flags { OnOk result (FlagsRun (parts_of (setting_of r.old.scale (meant_in table.now ⟦<dyn Delegate as Delegate>⟧))) outer (duty.Lay (ask.AsBox bounds)) r.old.tree r.new.tree h) }
    ensures plugs { OnOk result (ArePlugged (meant_in table.now ⟦<dyn Delegate as Delegate>⟧) r.old.tree r.new.tree) }
    ensures apart { OnOk result (parent_at r.old.tree h ≡ None → (k : HandleOf) → (In k (subtree_at r.old.tree h) → ⊥) → node_at r.new.tree k ≡ node_at r.old.tree k) }
    ensures scale { r.new.scale ≡ r.old.scale }
    ensures spent { r.new.spent ≡ r.old.spent }
{
    r.tree().count_laws();
    let mut changed = Vec::new(alloc);
    serve(
        alloc,
        r,
        h,
        Duty::Lay(Ask::AsBox(bounds)),
        table,
        outer,
        &mut changed,
        steps,
    )?;
    r.tree().count_laws();
    r.mark_paints(changed.as_slice());
    Ok(())
}

// The size of a box, as it is stored.
fn size_of(r: &RenderTree, h: Handle) -> Size
    ensures { result ≡ box_size (frame_or (state_at r.now.tree h).frame) }
{
    frame_or(state_at(r, h).frame).box_size()
}

/// Lays out a box in these bounds, and below it every node that has to be laid out, or that is asked in other bounds than in its last
/// layout (`RenderObject.layout`); the answer is its size. Of the others none runs its rule, and each rule that is run is counted as one
/// step. What the rules give is stored, also where it stands scrolled in a Viewport; children that aren't in the window keep their marks.
///
/// Each node at and below the box agrees with its children, and can be laid out. The error is want of memory: the tree is spent then.
pub fn lay_one<L: Ledger>(
    alloc: Global,
    r: &mut RenderTree,
    h: Handle,
    bounds: Bounds,
    table: &DelegateTable,
    steps: &mut Steps<L>,
) -> Result<Size, AllocError>
    requires { IsReadyFor (parts_of (setting_of r.old.scale (meant_in table.now ⟦<dyn Delegate as Delegate>⟧))) r.old.tree h (duty.Lay (ask.AsBox bounds)) }
    ensures served { OnOk result (Serves (parts_of (setting_of r.old.scale (meant_in table.now ⟦<dyn Delegate as Delegate>⟧))) false (duty.Lay (ask.AsBox bounds)) r.old.tree r.new.tree h steps.old steps.new) }
    ensures paints { OnOk result (PaintsAnew r.old.tree r.new.tree) }
    ensures few { OnOk result (PaintsFew r.old.tree r.new.tree steps.old steps.new) }
    ensures apart { OnOk result (parent_at r.old.tree h ≡ None → (k : HandleOf) → (In k (subtree_at r.old.tree h) → ⊥) → node_at r.new.tree k ≡ node_at r.old.tree k) }
    ensures size { IfOk result (λ size. frame_at r.new.tree h ≡ Some (frame.Boxed bounds size)) }
    ensures scale { r.new.scale ≡ r.old.scale }
    ensures spent { OnOk result (r.new.spent ≡ r.old.spent) }
    ensures err { OnErr result (r.new.spent ≡ true) }
{
    match lay(alloc, r, h, bounds, table, false, steps) {
        Ok(()) => Ok(size_of(r, h)),
        Err(e) => {
            r.spend();
            Err(e)
        }
    }
}

/// Lays out a box as `lay_one` does, but for what is below lazy lists: each list that has to be laid out gets its frame, keeps its items
/// as they are, and has to be laid out again. A list whose rule isn't run has to be laid out only where it had to before. Each node
/// remembers what it did, or whether its delegate is plugged now.
pub fn lay_outer<L: Ledger>(
    alloc: Global,
    r: &mut RenderTree,
    h: Handle,
    bounds: Bounds,
    table: &DelegateTable,
    steps: &mut Steps<L>,
) -> Result<Size, AllocError>
    requires { IsReadyFor (parts_of (setting_of r.old.scale (meant_in table.now ⟦<dyn Delegate as Delegate>⟧))) r.old.tree h (duty.Lay (ask.AsBox bounds)) }
    ensures served { OnOk result (Serves (parts_of (setting_of r.old.scale (meant_in table.now ⟦<dyn Delegate as Delegate>⟧))) true (duty.Lay (ask.AsBox bounds)) r.old.tree r.new.tree h steps.old steps.new) }
    ensures paints { OnOk result (PaintsAnew r.old.tree r.new.tree) }
    ensures few { OnOk result (PaintsFew r.old.tree r.new.tree steps.old steps.new) }
    ensures flags { OnOk result (FlagsRun (parts_of (setting_of r.old.scale (meant_in table.now ⟦<dyn Delegate as Delegate>⟧))) true (duty.Lay (ask.AsBox bounds)) r.old.tree r.new.tree h) }
    ensures plugs { OnOk result (ArePlugged (meant_in table.now ⟦<dyn Delegate as Delegate>⟧) r.old.tree r.new.tree) }
    ensures apart { OnOk result (parent_at r.old.tree h ≡ None → (k : HandleOf) → (In k (subtree_at r.old.tree h) → ⊥) → node_at r.new.tree k ≡ node_at r.old.tree k) }
    ensures size { IfOk result (λ size. frame_at r.new.tree h ≡ Some (frame.Boxed bounds size)) }
    ensures scale { r.new.scale ≡ r.old.scale }
    ensures spent { OnOk result (r.new.spent ≡ r.old.spent) }
    ensures err { OnErr result (r.new.spent ≡ true) }
{
    match lay(alloc, r, h, bounds, table, true, steps) {
        Ok(()) => Ok(size_of(r, h)),
        Err(e) => {
            r.spend();
            Err(e)
        }
    }
}
