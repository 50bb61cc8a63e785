// The plans of a build become the trees.
ghost use Rattle.std.specs.Prelude.{◌≡◌, ◌++◌, Some, [], IfOk, OnOk};
ghost use Rattle.fx_handles.specs.Arena.{used_count, inserted_count};
ghost use Rattle.fx_handles.specs.declared.Handle.{Handle};
ghost use Rattle.node_tree.specs.Forest.{Forest, size};
ghost use Rattle.node_tree.specs.Plan.{planned, IsPlan, IsUpdated};
ghost use Rattle.node_tree.specs.Tree.{Is};
ghost use Rattle.element_tree.specs.Element.{Element as ElementOf, element_at, made_count};
ghost use Rattle.element_tree.specs.Renewal.{Renewal as RenewalOf, renewed, FollowsIn};
ghost use Rattle.global_keys.specs.Named.{NamesAmong, NamesExactly};
ghost use Rattle.render_tree.specs.Redraw.{Redraw as RedrawOf};
ghost use Rattle.build_owner.specs.Committing.{CanCommit, CanDraw, whole_tree, whole_drawn};
ghost use Rattle.build_owner.specs.Redrawn.{IsPlanOf, IsRedrawn, IsPartRedrawn};
ghost use Rattle.build_owner.specs.Staying.{with_items};

use crate::losing::parents_left;
use crate::staying::completed;
use crate::walk::BuildWalk;
use build_walk::{changed_nodes_are_live, one_forest_plans_both_trees};
use element_tree::{ElementTree, Renewal};
use fx_handles::Handle;
use global_keys::{Registry, removals_leave_covered};
use node_tree::{PlanEntry, Tree};
use render_tree::{Redraw, RenderObject, RenderTree};
use std::alloc::{AllocError, Global};
use std::rc::Rc;

/// Makes a plan with one top the tree of render nodes, and marks those that it changes.
pub(crate) fn redraw(
    r: &mut RenderTree,
    top: Handle,
    plan: &mut Vec<PlanEntry<Redraw>>,
) -> Result<(), AllocError>
    requires { (d : Forest RedrawOf) × IsPlanOf r.old.tree top plan.old.items d }
    ensures redrawn { OnOk result ((d : Forest RedrawOf) → IsPlanOf r.old.tree top plan.old.items d → IsRedrawn r.old.tree r.new.tree d) }
    ensures inserted { OnOk result (inserted_count r.new.tree.nodes ≡ inserted_count r.old.tree.nodes) }
    ensures used { OnOk result ((d : Forest RedrawOf) → IsPlanOf r.old.tree top plan.old.items d → used_count r.new.tree.nodes ≡ size d) }
    ensures spent { r.new.spent ≡ r.old.spent }
    ensures scale { r.new.scale ≡ r.old.scale }
{
    Tree::<RenderObject>::keep_laws();
    changed_nodes_are_live();
    let laid = r.laid_anew(Some(top), plan.as_slice())?;
    let painted = r.painted_anew(Some(top), plan.as_slice())?;
    r.commit(Some(top), plan)?;
    r.mark_layouts(laid.as_slice());
    r.mark_paints(painted.as_slice());
    Ok(())
}

/// Makes a plan with this root the tree of elements, and forgets the global keys of elements that are gone.
pub(crate) fn renew(
    t: &mut ElementTree,
    g: &mut Registry,
    root: Handle,
    plan: &mut Vec<PlanEntry<Renewal>>,
) -> Result<(), AllocError>
    requires plan { (f : Forest RenewalOf) × IsPlan t.old.tree plan.old.items (Some root) [] f }
    requires follows { FollowsIn t.old.tree plan.old.items }
    ensures plain { OnOk result ((f : Forest RenewalOf) (e : Forest ElementOf) → IsPlan t.old.tree plan.old.items (Some root) [] f
        → IsUpdated renewed (element_at t.old.tree) f e → Is t.new.tree e) }
    ensures root { OnOk result (t.new.tree.root ≡ Some root) }
    ensures made { OnOk result (made_count t.new.tree ≡ made_count t.old.tree) }
    ensures used { OnOk result ((f : Forest RenewalOf) → IsPlan t.old.tree plan.old.items (Some root) [] f → used_count t.new.tree.nodes ≡ size f) }
    ensures names { OnOk result (NamesAmong g.old t.old.tree (planned plan.old.items) → NamesExactly g.new t.new.tree) }
    ensures spent { t.new.spent ≡ t.old.spent }
{
    removals_leave_covered();
    t.commit(Some(root), plan)?;
    g.drop_dead(t);
    Ok(())
}

// Handles once more.
fn copy_handles(alloc: Global, handles: &[Handle]) -> Result<Vec<Handle>, AllocError>
    ensures { IfOk result (λ hs. hs.items ≡ handles.now) }
{
    let mut copies = Vec::with_capacity(alloc, handles.len())?;
    for handle in handles {
        copies.push(*handle)?;
    }
    Ok(copies)
}

// Handles, and then others.
fn joined(alloc: Global, first: &[Handle], then: &[Handle]) -> Result<Vec<Handle>, AllocError>
    ensures { IfOk result (λ hs. hs.items ≡ first.now ++ then.now) }
{
    let mut all = copy_handles(alloc, first)?;
    let mut others = copy_handles(alloc, then)?;
    all.append(&mut others)?;
    Ok(all)
}

// The entry of a plan once more.
fn copy_entry(alloc: Global, entry: &PlanEntry<Redraw>) -> Result<PlanEntry<Redraw>, AllocError>
    ensures { IfOk result (λ e. e ≡ entry.now) }
{
    let children = copy_handles(alloc, entry.children())?;
    let update = entry.update();
    let update = Redraw {
        widget: Rc::clone(&update.widget)?,
        parent_data: update.parent_data,
    };
    Ok(PlanEntry::new(entry.at(), entry.parent(), children, update))
}

// A plan once more.
fn copy_plan(
    alloc: Global,
    plan: &[PlanEntry<Redraw>],
) -> Result<Vec<PlanEntry<Redraw>>, AllocError>
    ensures { IfOk result (λ es. es.items ≡ plan.now) }
{
    let mut copies = Vec::with_capacity(alloc, plan.len())?;
    for entry in plan {
        copies.push(copy_entry(alloc, entry)?)?;
    }
    Ok(copies)
}

// Makes a plan with one top a part of the tree of render nodes, which keeps what isn't planned beside it, and marks those that the plan
// changes, and those that lose a child to it: these may come back with what they have left.
fn redraw_beside(
    alloc: Global,
    r: &mut RenderTree,
    top: Handle,
    mut plan: Vec<PlanEntry<Redraw>>,
) -> Result<(), AllocError>
    requires { (d : Forest RedrawOf) × IsPlanOf r.old.tree top plan.items d }
    ensures redrawn { OnOk result ((d : Forest RedrawOf) → IsPlanOf r.old.tree top plan.items d → IsPartRedrawn r.old.tree r.new.tree d) }
    ensures inserted { OnOk result (inserted_count r.new.tree.nodes ≡ inserted_count r.old.tree.nodes) }
    ensures scale { r.new.scale ≡ r.old.scale }
{
    Tree::<RenderObject>::plan_laws::<Redraw>();
    Tree::<RenderObject>::keep_laws();
    changed_nodes_are_live();
    // Tells the proof that this is a tree.
    let _ = r.root();
    let mut inactive = Vec::new(alloc);
    let laid = r.laid_anew(Some(top), plan.as_slice())?;
    let painted = r.painted_anew(Some(top), plan.as_slice())?;
    let lost = parents_left(alloc, r, plan.as_slice())?;
    let to_lay = joined(alloc, laid.as_slice(), lost.as_slice())?;
    let to_paint = joined(alloc, painted.as_slice(), lost.as_slice())?;
    r.commit_part(Some(top), &mut inactive, &mut plan)?;
    r.mark_layouts(to_lay.as_slice());
    r.mark_paints(to_paint.as_slice());
    Ok(())
}

/// Makes the plan of a walk for render nodes a part of their tree, which keeps what isn't planned: below each lazy list its old items,
/// and else beside the part. Those are marked that the plan changes, or that lose a child to it. The walk keeps its plan.
pub(crate) fn redraw_part(
    alloc: Global,
    r: &mut RenderTree,
    walk: &BuildWalk,
) -> Result<(), AllocError>
    requires { (d : Forest RedrawOf) × CanDraw r.old.tree walk.now d }
    ensures redrawn { OnOk result ((d : Forest RedrawOf) → CanDraw r.old.tree walk.now d → IsPartRedrawn r.old.tree r.new.tree (with_items r.old.tree d)) }
    ensures inserted { OnOk result (inserted_count r.new.tree.nodes ≡ inserted_count r.old.tree.nodes) }
    ensures scale { r.new.scale ≡ r.old.scale }
{
    Tree::<RenderObject>::plan_laws::<Redraw>();
    Tree::<RenderObject>::walk_laws();
    // Tells the proof that this is a tree.
    let _ = r.root();
    let top = walk.tops[0];
    let plan = copy_plan(alloc, walk.renders.as_slice())?;
    let whole = completed(alloc, r, plan)?;
    redraw_beside(alloc, r, top, whole)?;
    Ok(())
}

/// Makes the plans of a walk the trees: elements, render nodes, and the registry of global keys.
pub(crate) fn commit_whole(
    t: &mut ElementTree,
    r: &mut RenderTree,
    g: &mut Registry,
    root: Handle,
    walk: &mut BuildWalk,
) -> Result<(), AllocError>
    requires { CanCommit t.old.tree r.old.tree g.old walk.old root }
    ensures elements { OnOk result ((p : CanCommit t.old.tree r.old.tree g.old walk.old root) → Is t.new.tree (whole_tree p)) }
    ensures root { OnOk result (t.new.tree.root ≡ Some root) }
    ensures made { OnOk result (made_count t.new.tree ≡ made_count t.old.tree) }
    ensures names { OnOk result (NamesExactly g.new t.new.tree) }
    ensures redrawn { OnOk result ((p : CanCommit t.old.tree r.old.tree g.old walk.old root) → IsRedrawn r.old.tree r.new.tree (whole_drawn p)) }
    ensures used { OnOk result ((p : CanCommit t.old.tree r.old.tree g.old walk.old root) → used_count t.new.tree.nodes ≡ size (whole_tree p)) }
    ensures inserted { OnOk result (inserted_count r.new.tree.nodes ≡ inserted_count r.old.tree.nodes) }
    ensures used_drawn { OnOk result ((p : CanCommit t.old.tree r.old.tree g.old walk.old root) → used_count r.new.tree.nodes ≡ size (whole_drawn p)) }
    ensures spots { walk.new.spots ≡ walk.old.spots }
    ensures scale { r.new.scale ≡ r.old.scale }
{
    one_forest_plans_both_trees();
    let top = walk.tops[0];
    redraw(r, top, &mut walk.renders)?;
    renew(t, g, root, &mut walk.elements)
}
