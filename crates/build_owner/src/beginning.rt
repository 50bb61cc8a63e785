// Where the walk of a build begins, and what its first phase comes to.
ghost use Rattle.std.specs.Prelude.{◌≡◌, ◌<◌, ◌+◌, [], map, IfOk, OnOk, IfErr, IfSome};
ghost use Rattle.fx_expr.specs.Value.{type_of};
ghost use Rattle.widget_model.specs.Typed.{IsTypedWidget};
ghost use Rattle.widget_model.specs.View.{plain_of, shared};
ghost use Rattle.program_check.specs.CheckedView.{plain_checked};
ghost use Rattle.program_check.specs.TypedChecked.{IsTypedChecked};
ghost use Rattle.build_form.specs.FaultView.{fault_of};
ghost use Rattle.build_form.specs.FullBuild.{first_tree};
ghost use Rattle.build_form.specs.Program.{default_values};
ghost use Rattle.build_form.specs.Step.{stops};
ghost use Rattle.build_walk.specs.Standing.{first_builds};
ghost use Rattle.build_owner.specs.Phases.{no_plans, above_all, beside_top, IsWalkedFirst};
ghost use Rattle.build_owner.specs.Ready.{HasRoom};
ghost use Rattle.build_owner.specs.Standing.{Beginning, next_at};
ghost use Rattle.build_owner.specs.WalkView.{declared_by, program_of, plans_of, place_of};

use crate::arriving::Arrival;
use crate::entering::enter;
use crate::names::{NameValues, copy_values};
use crate::source::{DEPTH_LIMIT, Phase, WalkSource};
use crate::walk::{BuildWalk, EnteredPlace};
use build_form::FrameFault;
use build_walk::{
    first_phases_go_on_from_elements, kept_elements_are_known, standing_elements_are_known,
};
use element_tree::{Element, ElementTree};
use fx_handles::Handle;
use fx_outside::Steps;
use global_keys::Registry;
use node_tree::Tree;
use plain_build::default_values;
use plain_tree::RenderRole;
use render_tree::RenderTree;
use std::alloc::{AllocError, Global};
use std::collections::VecDeque;
use std::rc::Rc;
use std::sync::ledger::Ledger;
use widget_model::{Widget, can_update};

// For how many entries a plan has room: as many as its tree has nodes, and in a first frame as many as there are widgets.
fn room_for(nodes: usize, root: &Widget) -> usize
    ensures next { 0 < nodes → result ≡ nodes }
    ensures first { nodes ≡ 0 → result ≡ root.now.size }
{
    if nodes > 0 {
        return nodes;
    }
    root.size as usize
}

/// A walk in which nothing was entered yet, with room for as many entries as both trees have nodes, or the root widget has widgets.
pub(crate) fn nothing_walked(
    alloc: Global,
    root: &Rc<Widget>,
    t: &ElementTree,
    r: &RenderTree,
) -> Result<BuildWalk, AllocError>
    ensures plans { IfOk result (λ w. plans_of w ≡ no_plans) }
    ensures spots { IfOk result (λ w. w.spots.items ≡ []) }
    ensures elements { IfOk result (λ w. w.elements.items ≡ []) }
    ensures entered { IfOk result (λ w. w.entered ≡ 0) }
{
    Ok(BuildWalk {
        entered: 0,
        elements: Vec::with_capacity(alloc, room_for(t.tree().len(), root))?,
        renders: Vec::with_capacity(alloc, room_for(r.tree().len(), root))?,
        tops: Vec::new(alloc),
        spots: VecDeque::new(alloc),
    })
}

// The root of the old tree, where a widget can take its place.
fn beside_root(t: &ElementTree, root: &Widget) -> Option<Handle>
    ensures { result ≡ beside_top t.now.tree (plain_of root.now) }
{
    let h = t.root()?;
    let widget = t.widget(h)?;
    if can_update(widget, root) {
        return Some(h);
    }
    None
}

// The root of a tree arrives, which is matched as a list of one against the old root.
fn root_arrives(root: &Rc<Widget>, t: &ElementTree) -> Result<Arrival, AllocError>
    ensures widget { IfOk result (λ a. shared a.widget ≡ shared root.now) }
    ensures place { IfOk result (λ a. a.place ≡ 0) }
    ensures beside { IfOk result (λ a. a.beside ≡ beside_top t.now.tree (shared root.now)) }
{
    Ok(Arrival {
        widget: Rc::clone(root)?,
        place: 0,
        beside: beside_root(t, root),
    })
}

// The values of inherited names above the root: there they have their defaults, as they had.
fn names_above(from: &WalkSource<'_>) -> Result<NameValues, AllocError>
    ensures now { IfOk result (λ n. n.now.items ≡ default_values (plain_checked from.now.checked.now)) }
    ensures was { IfOk result (λ n. n.was.items ≡ default_values (plain_checked from.now.checked.now)) }
    ensures now_typed { IfOk result (λ n. map type_of n.now.items ≡ (declared_by from.now).inherited) }
    ensures was_typed { IfOk result (λ n. map type_of n.was.items ≡ (declared_by from.now).inherited) }
    ensures checked { OnOk result (IsTypedChecked (plain_checked from.now.checked.now)) }
{
    let now = default_values(from.alloc, from.checked)?;
    let was = copy_values(from.alloc, now.as_slice())?;
    Ok(NameValues { now, was })
}

// Nothing is above the root, which has this role there.
fn above_all(role: &RenderRole) -> EnteredPlace<'_, '_>
    requires { role.now ≡ RenderRole.Plain }
    ensures { place_of result ≡ above_all }
{
    EnteredPlace {
        parent: None,
        above: None,
        role,
        told: None,
    }
}

/// The walk of the first phase, from the root on.
pub(crate) fn walk_first<L: Ledger>(
    from: &WalkSource<'_>,
    root: &Rc<Widget>,
    t: &mut ElementTree,
    r: &mut RenderTree,
    g: &mut Registry,
    walk: &mut BuildWalk,
    builds: &mut Steps<L>,
) -> Result<Handle, FrameFault>
    requires stands { Beginning (plain_checked from.now.checked.now) t.old.tree r.old.tree g.old }
    requires root { IsTypedWidget (declared_by from.now) (shared root.now) }
    requires room { HasRoom (program_of from.now).nodes 0 t.old.tree r.old.tree }
    requires plans { plans_of walk.old ≡ no_plans }
    requires spots { walk.old.spots.items ≡ [] }
    requires elements { walk.old.elements.items ≡ [] }
    requires entered { walk.old.entered ≡ 0 }
    ensures walked { IfOk result (λ h. (b : Beginning (plain_checked from.now.checked.now) t.old.tree r.old.tree g.old)
        → IsWalkedFirst (plain_checked from.now.checked.now) t.old.tree r.old.tree g.old b (shared root.now) t.new.tree r.new.tree g.new walk.new h) }
    ensures fault { IfErr result (λ e. IfSome (fault_of e) (λ x. (b : Beginning (plain_checked from.now.checked.now) t.old.tree r.old.tree g.old)
        → first_tree (program_of from.now) b.old (next_at t.old.tree) (shared root.now) ≡ stops x)) }
    ensures builds { OnOk result ((b : Beginning (plain_checked from.now.checked.now) t.old.tree r.old.tree g.old)
        → builds.new ≡ builds.old + first_builds (program_of from.now) b.old b.marks (next_at t.old.tree) (shared root.now)) }
    ensures builds_at_fault { IfErr result (λ e. IfSome (fault_of e) (λ x. (b : Beginning (plain_checked from.now.checked.now) t.old.tree r.old.tree g.old)
        → builds.new ≡ builds.old + first_builds (program_of from.now) b.old b.marks (next_at t.old.tree) (shared root.now))) }
    ensures checked { OnOk result (IsTypedChecked (plain_checked from.now.checked.now)) }
    ensures scale { r.new.scale ≡ r.old.scale }
{
    standing_elements_are_known();
    first_phases_go_on_from_elements();
    kept_elements_are_known();
    Tree::<Element>::walk_laws();
    let mut names = names_above(from)?;
    let arrival = root_arrives(root, t)?;
    let role = RenderRole::Plain;
    g.begin();
    enter(
        from,
        Phase::First,
        DEPTH_LIMIT,
        &mut names,
        &above_all(&role),
        &arrival,
        t,
        r,
        g,
        walk,
        builds,
    )
}
