// The component that is marked is built in its place, and where that gives an Inherit another value, those that read it are built in theirs.
ghost use Rattle.std.specs.Prelude.{◌≡◌, ◌+◌, None, IfOk, OnOk, IfErr, IfSome};
ghost use Rattle.node_tree.specs.Edits.{KeepsHandles};
ghost use Rattle.program_check.specs.CheckedView.{plain_checked};
ghost use Rattle.build_form.specs.FaultView.{fault_of};
ghost use Rattle.build_form.specs.FullBuild.{Screen, failed, full_build};
ghost use Rattle.build_form.specs.Program.{blueprint_of};
ghost use Rattle.global_keys.specs.Holders.{Registry as RegistryOf};
ghost use Rattle.global_keys.specs.Named.{NamesExactly};
ghost use Rattle.build_walk.specs.Standing.{all_builds};
ghost use Rattle.build_owner.specs.Standing.{next_at};
ghost use Rattle.renewed_builds.specs.Stale.{IsStaleElement};
ghost use Rattle.frame_owner.specs.InPlace.{BuildsInPlace, LeavesInPlace, CannotBuildInPlace};

use build_form::{FrameFault, built_trees_vanish_alone};
use element_tree::ElementTree;
use fx_handles::Handle;
use fx_outside::Steps;
use program_check::Checked;
use renewed_builds::{Change, regive, renew, renew_all};
use settled_builds::{
    first_components_stand, first_phases_go_on_alike, left_steps_lead, projections_are_rearranged,
    retaken_trees_are_ready, steps_follow_on, steps_lead,
};
use std::alloc::Global;
use std::sync::ledger::Ledger;

/// Builds a component anew in its place, which alone is to be built of a tree that is ready for a root. Where its body gives the Inherit
/// below it another value, that one takes it, and each component that reads it is built in its place, too. Then that is the build, and the
/// render nodes of these changes are to take the widgets and the orders.
///
/// Where not all could be taken, none is answered: each component that was built stores what its body gave, and the rest of the build is
/// left to do. The first fault of a body is that of the build. After it, and after want of memory, the elements serve nothing any more.
pub(crate) fn build_in_place<L: Ledger>(
    alloc: Global,
    checked: &Checked,
    h: Handle,
    t: &mut ElementTree,
    builds: &mut Steps<L>,
) -> Result<Option<Vec<Change>>, FrameFault>
    requires { IsStaleElement (plain_checked checked.now) t.old.tree h }
    ensures built { IfOk result (λ o. IfSome o (λ changes. (x : IsStaleElement (plain_checked checked.now) t.old.tree h)
        → BuildsInPlace (plain_checked checked.now) t.old.tree t.new.tree h x changes.items builds.old builds.new)) }
    ensures left { IfOk result (λ o. o ≡ None → (x : IsStaleElement (plain_checked checked.now) t.old.tree h)
        → LeavesInPlace (plain_checked checked.now) t.old.tree t.new.tree h x builds.old builds.new) }
    // It is left only where what is below the component can't take what its body gave, nor is that another value of the Inherit there whose
    // readers can all be built so.
    ensures cannot { IfOk result (λ o. o ≡ None → (x : IsStaleElement (plain_checked checked.now) t.old.tree h)
        → CannotBuildInPlace (plain_checked checked.now) t.old.tree t.new.tree h x) }
    ensures fault { IfErr result (λ e. IfSome (fault_of e) (λ f. (x : IsStaleElement (plain_checked checked.now) t.old.tree h) (screen : Screen)
        → full_build (blueprint_of (plain_checked checked.now)) screen (Some x.tree) (next_at t.old.tree) x.root ≡ failed f)) }
    ensures builds_at_fault { IfErr result (λ e. IfSome (fault_of e) (λ f. (x : IsStaleElement (plain_checked checked.now) t.old.tree h) (screen : Screen)
        → builds.new ≡ builds.old + all_builds (blueprint_of (plain_checked checked.now)) screen (Some x.tree) x.marks (next_at t.old.tree) x.root)) }
    ensures names { OnOk result ((g : RegistryOf) → NamesExactly g t.old.tree → NamesExactly g t.new.tree) }
    ensures handles { OnOk result (KeepsHandles t.old.tree.nodes t.new.tree.nodes) }
{
    built_trees_vanish_alone();
    first_components_stand();
    first_phases_go_on_alike();
    left_steps_lead();
    projections_are_rearranged();
    retaken_trees_are_ready();
    steps_follow_on();
    steps_lead();
    t.number_laws();
    let renewed = renew(alloc, checked, h, t, builds)?;
    if let Some(changes) = renewed {
        return Ok(Some(changes));
    }
    let regiven = regive(alloc, checked, h, t)?;
    let Some(readers) = regiven else {
        return Ok(None);
    };
    renew_all(alloc, checked, readers.as_slice(), t, builds)
}
