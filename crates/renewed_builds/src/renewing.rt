// A component that is built anew in its place, with what is below it (`Element.updateChild`, `ComponentElement.performRebuild`).
ghost use Rattle.std.specs.Prelude.{◌≡◌, ◌+◌, true, Some, None, length, map, IfOk, OnOk, IfErr, OnErr, IfSome};
ghost use Rattle.fx_expr.specs.Value.{type_of};
ghost use Rattle.node_tree.specs.Edits.{KeepsHandles};
ghost use Rattle.node_tree.specs.Forest.{Forest};
ghost use Rattle.node_tree.specs.Tree.{IsNode, Is, subtree_at};
ghost use Rattle.widget_model.specs.View.{shared};
ghost use Rattle.program_check.specs.CheckedView.{plain_checked};
ghost use Rattle.program_check.specs.TypedChecked.{IsTypedChecked};
ghost use Rattle.template_build.specs.Program.{declarations_of};
ghost use Rattle.build_form.specs.FaultView.{fault_of};
ghost use Rattle.build_form.specs.FullBuild.{Screen, failed, full_build};
ghost use Rattle.build_form.specs.Program.{blueprint_of};
ghost use Rattle.build_form.specs.Step.{Progress, stops};
ghost use Rattle.element_tree.specs.Element.{Element as ElementOf, number_at};
ghost use Rattle.global_keys.specs.Holders.{Registry as RegistryOf};
ghost use Rattle.global_keys.specs.Named.{NamesExactly};
ghost use Rattle.build_walk.specs.Past.{Pasts};
ghost use Rattle.build_walk.specs.Standing.{all_builds};
ghost use Rattle.build_walk.specs.Telling.{TellPasts};
ghost use Rattle.build_owner.specs.Climbing.{AreAllFitting};
ghost use Rattle.build_owner.specs.Standing.{next_at};
ghost use Rattle.renewed_builds.specs.Renewing.{stored_at};
ghost use Rattle.settled_builds.specs.Steps.{IsGivenAt};
ghost use Rattle.renewed_builds.specs.Going.{KeepsNodes};
ghost use Rattle.renewed_builds.specs.Stale.{IsComponentAt, IsStaleElement, given_at, IsRenewed, IsLeftToBuild};

use crate::taking::{Change, take_below};
use build_form::FrameFault;
use build_owner::{given_anew, provide_above};
use build_walk::{kept_elements_are_known, standing_elements_are_known};
use element_tree::{Element, ElementTree, edits_keep_numbers};
use fx_expr::Value;
use fx_handles::Handle;
use fx_outside::Steps;
use global_keys::edits_keep_names;
use node_tree::Tree;
use plain_build::default_values;
use program_check::Checked;
use settled_builds::{
    first_components_stand, first_components_stop_builds, ready_trees_settle,
    retaken_trees_are_ready, settled_trees_stay, steps_lead,
};
use std::alloc::{AllocError, Global};
use std::rc::Rc;
use std::sync::ledger::Ledger;
use widget_model::Widget;

// The values of the inherited names where an element stands.
fn values_at(
    alloc: Global,
    checked: &Checked,
    h: Handle,
    t: &ElementTree,
) -> Result<Vec<Value>, AllocError>
    requires live { IsNode t.now.tree h }
    requires fits { IsTypedChecked (plain_checked checked.now) → AreAllFitting (declarations_of (plain_checked checked.now)).inherited t.now.tree }
    ensures typed { IfOk result (λ vs. map type_of vs.items ≡ (declarations_of (plain_checked checked.now)).inherited) }
    ensures told { IfOk result (λ vs. (pasts : Pasts) (f : Forest ElementOf) → Is t.now.tree f → TellPasts pasts (blueprint_of (plain_checked checked.now)).defaults f
        → TellPasts pasts vs.items (subtree_at t.now.tree h)) }
    ensures checked { OnOk result (IsTypedChecked (plain_checked checked.now)) }
{
    let mut values = default_values(alloc, checked)?;
    provide_above(t, h, values.as_mut_slice())?;
    Ok(values)
}

/// What the body of a component gives, built anew: it counts as one build.
pub(crate) fn give<L: Ledger>(
    alloc: Global,
    checked: &Checked,
    h: Handle,
    t: &ElementTree,
    builds: &mut Steps<L>,
) -> Result<Vec<Rc<Widget>>, FrameFault>
    requires { IsComponentAt (plain_checked checked.now) t.now.tree h }
    ensures given { IfOk result (λ ws. (x : IsComponentAt (plain_checked checked.now) t.now.tree h) → IsGivenAt (blueprint_of (plain_checked checked.now)) (map shared ws.items) x.place) }
    ensures fault { IfErr result (λ e. IfSome (fault_of e) (λ f. (x : IsComponentAt (plain_checked checked.now) t.now.tree h) (s : Progress)
        → given_at (blueprint_of (plain_checked checked.now)) x.place s ≡ stops f)) }
    ensures one { IfOk result (λ ws. length ws.items ≡ 1) }
    ensures builds { OnOk result (builds.new ≡ builds.old + 1) }
    ensures builds_at_fault { IfErr result (λ e. IfSome (fault_of e) (λ f. builds.new ≡ builds.old + 1)) }
    ensures checked { OnOk result (IsTypedChecked (plain_checked checked.now)) }
{
    Tree::<Element>::walk_laws();
    Tree::<Element>::child_laws();
    kept_elements_are_known();
    standing_elements_are_known();
    t.number_laws();
    let values = values_at(alloc, checked, h, t)?;
    let Some(widget) = t.widget(h) else {
        unreachable!()
    };
    let Some(number) = t.number(h) else {
        unreachable!()
    };
    given_anew(
        alloc,
        checked,
        widget,
        values.as_slice(),
        t.fields(h),
        number,
        builds,
    )
}

/// Stores what the body of a component gave, which isn't to be built anew then.
pub(crate) fn store(t: &mut ElementTree, h: Handle, given: &[Rc<Widget>]) -> Result<(), AllocError>
    requires live { IsNode t.old.tree h }
    requires one { length given.now ≡ 1 }
    ensures stored { OnOk result ((f : Forest ElementOf) → Is t.old.tree f → Is t.new.tree (stored_at h (map shared given.now) f)) }
    ensures keeps { OnOk result (KeepsNodes t.old.tree t.new.tree) }
    ensures names { OnOk result ((g : RegistryOf) → NamesExactly g t.old.tree → NamesExactly g t.new.tree) }
    ensures numbers { OnOk result ((k : Handle) → number_at t.new.tree k ≡ number_at t.old.tree k) }
    ensures handles { OnOk result (KeepsHandles t.old.tree.nodes t.new.tree.nodes) }
    ensures root { OnOk result (t.new.tree.root ≡ t.old.tree.root) }
{
    edits_keep_numbers();
    edits_keep_names();
    t.set_output(h, Rc::clone(&given[0])?);
    t.clear_dirty(h);
    Ok(())
}

/// Builds a component anew in its place, which alone is to be built of a tree that is ready for a root. Where what is below it can take
/// what its body gives, it does, in any order: then that is the build, and the render nodes of these changes are to take the widgets and
/// the orders too. Where it can't, none is answered: the component stores what its body gave, nothing is flagged any more, and the rest
/// of the build is left to do.
///
/// The fault of its body is that of the build. After it, and after want of memory, the elements are spent: they serve nothing any more.
pub fn renew<L: Ledger>(
    alloc: Global,
    checked: &Checked,
    h: Handle,
    t: &mut ElementTree,
    builds: &mut Steps<L>,
) -> Result<Option<Vec<Change>>, FrameFault>
    requires { IsStaleElement (plain_checked checked.now) t.old.tree h }
    ensures renewed { IfOk result (λ o. IfSome o (λ changes. (x : IsStaleElement (plain_checked checked.now) t.old.tree h)
        → IsRenewed (plain_checked checked.now) t.old.tree t.new.tree h x changes.items)) }
    ensures left { IfOk result (λ o. o ≡ None → (x : IsStaleElement (plain_checked checked.now) t.old.tree h)
        → IsLeftToBuild (plain_checked checked.now) t.old.tree t.new.tree h x) }
    ensures fault { IfErr result (λ e. IfSome (fault_of e) (λ f. (x : IsStaleElement (plain_checked checked.now) t.old.tree h) (screen : Screen)
        → full_build (blueprint_of (plain_checked checked.now)) screen (Some x.tree) (next_at t.old.tree) x.root ≡ failed f)) }
    ensures builds { OnOk result (builds.new ≡ builds.old + 1) }
    ensures builds_at_fault { IfErr result (λ e. IfSome (fault_of e) (λ f. builds.new ≡ builds.old + 1)) }
    ensures all_builds_at_fault { IfErr result (λ e. IfSome (fault_of e) (λ f. (x : IsStaleElement (plain_checked checked.now) t.old.tree h) (screen : Screen)
        → all_builds (blueprint_of (plain_checked checked.now)) screen (Some x.tree) x.marks (next_at t.old.tree) x.root ≡ 1)) }
    ensures names { OnOk result ((g : RegistryOf) → NamesExactly g t.old.tree → NamesExactly g t.new.tree) }
    ensures numbers { OnOk result ((k : Handle) → number_at t.new.tree k ≡ number_at t.old.tree k) }
    ensures handles { OnOk result (KeepsHandles t.old.tree.nodes t.new.tree.nodes) }
    ensures root { OnOk result (t.new.tree.root ≡ t.old.tree.root) }
    ensures spent { OnErr result (t.new.spent ≡ true) }
{
    Tree::<Element>::walk_laws();
    kept_elements_are_known();
    standing_elements_are_known();
    first_components_stand();
    first_components_stop_builds();
    retaken_trees_are_ready();
    ready_trees_settle();
    settled_trees_stay();
    steps_lead();
    t.number_laws();
    let given = match give(alloc, checked, h, t, builds) {
        Ok(given) => given,
        Err(e) => {
            t.spend();
            return Err(e);
        }
    };
    let Ok(()) = store(t, h, given.as_slice()) else {
        t.spend();
        return Err(FrameFault::OutOfMemory);
    };
    let Ok(changes) = take_below(alloc, t, h, &given[0]) else {
        t.spend();
        return Err(FrameFault::OutOfMemory);
    };
    Ok(changes)
}
