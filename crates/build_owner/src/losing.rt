// Which nodes lose a child to a plan for a part of a tree.
ghost use Rattle.std.specs.Prelude.{◌≡◌, IfOk, OnOk};
ghost use Rattle.std.specs.List.{All};
ghost use Rattle.node_tree.specs.Tree.{IsNode, parent_at};
ghost use Rattle.render_tree.specs.Changes.{NotesSome};
ghost use Rattle.build_owner.specs.Losing.{ParentsLeft};

use fx_handles::Handle;
use node_tree::PlanEntry;
use render_tree::{Redraw, RenderTree};
use std::alloc::{AllocError, Global};

// Notes the parent of a planned node, where the plan puts it elsewhere.
fn note_left(
    r: &RenderTree,
    entry: &PlanEntry<Redraw>,
    out: &mut Vec<Handle>,
) -> Result<(), AllocError>
    ensures notes { OnOk result (NotesSome (parent_at r.now.tree entry.now.at ≡ entry.now.parent) (parent_at r.now.tree entry.now.at) out.old.items out.new.items) }
    ensures live { OnOk result (All (IsNode r.now.tree) out.old.items → All (IsNode r.now.tree) out.new.items) }
{
    let parent = r.parent(entry.at());
    let Some(p) = parent else { return Ok(()) };
    if parent == entry.parent() {
        return Ok(());
    }
    out.push(p)?;
    Ok(())
}

/// The parents of planned nodes that the plan puts elsewhere.
pub(crate) fn parents_left(
    alloc: Global,
    r: &RenderTree,
    plan: &[PlanEntry<Redraw>],
) -> Result<Vec<Handle>, AllocError>
    ensures left { IfOk result (λ hs. ParentsLeft r.now.tree plan.now hs.items) }
    ensures live { IfOk result (λ hs. All (IsNode r.now.tree) hs.items) }
{
    let mut out = Vec::new(alloc);
    for entry in plan {
        note_left(r, entry, &mut out)?;
    }
    Ok(out)
}
