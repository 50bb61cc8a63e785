// Several components that are built anew, one after another in their places, and what is below them takes what they gave.
ghost use Rattle.std.specs.Prelude.{◌≡◌, ◌+◌, ℕ, ◌∷◌, ◌++◌, [], true, Some, None, length, drop, Ok, IfOk, OnOk, IfErr, OnErr, IfSome};
ghost use Rattle.std.specs.List.{list_all};
ghost use Rattle.node_tree.specs.Edits.{KeepsHandles};
ghost use Rattle.node_tree.specs.Forest.{below};
ghost use Rattle.node_tree.specs.Tree.{Holds, IsNode, subtree_at};
ghost use Rattle.widget_model.specs.View.{shared};
ghost use Rattle.program_check.specs.CheckedView.{plain_checked};
ghost use Rattle.program_check.specs.TypedChecked.{IsTypedChecked};
ghost use Rattle.build_form.specs.FaultView.{fault_of};
ghost use Rattle.build_form.specs.FullBuild.{Screen, failed, full_build};
ghost use Rattle.build_form.specs.Program.{blueprint_of};
ghost use Rattle.build_form.specs.Step.{Progress, stops};
ghost use Rattle.element_tree.specs.Element.{Element as ElementOf, number_at};
ghost use Rattle.global_keys.specs.Holders.{Registry as RegistryOf};
ghost use Rattle.global_keys.specs.Named.{NamesExactly};
ghost use Rattle.build_walk.specs.Standing.{all_builds};
ghost use Rattle.settled_builds.specs.Settled.{IsSettled};
ghost use Rattle.build_owner.specs.Standing.{next_at};
ghost use Rattle.renewed_builds.specs.Renewing.{changes_of};
ghost use Rattle.renewed_builds.specs.Taking.{HaveTheirOwn};
ghost use Rattle.renewed_builds.specs.Stale.{IsComponentAt, given_at};
ghost use Rattle.renewed_builds.specs.Several.{can_take_still, keeps_order, IsStaleTree, AreRenewed, AreLeft};
ghost use Rattle.renewed_builds.specs.Going.{KeepsNodes, IsStepped};

use crate::gathering::gather;
use crate::renewing::{give, store};
use crate::taking::{Change, write_changes};
use build_form::{FrameFault, built_trees_vanish_alone};
use build_walk::{kept_elements_are_known, standing_elements_are_known};
use element_tree::{Element, ElementTree};
use fx_handles::Handle;
use fx_outside::Steps;
use node_tree::Tree;
use program_check::Checked;
use settled_builds::{
    builds_go_on_alike, first_components_stand, first_components_stop_builds, left_steps_lead,
    marked_spots_stay, ready_trees_settle, rearrangements_go_on, retaken_trees_are_ready,
    settled_trees_stay, steps_follow_on, steps_lead,
};
use std::alloc::{AllocError, Global};
use std::rc::Rc;
use std::sync::ledger::Ledger;
use widget_model::Widget;
use work_sets::same_means_equal;

// Whether all changes from one on leave children where they are.
fn keep_order(changes: &[Change], first: usize) -> bool
    ensures { result ≡ list_all keeps_order (drop first changes.now) }
{
    for i in first..changes.len() {
        let change = &changes[i];
        if change.order.is_some() {
            return false;
        }
    }
    true
}

// Adds what changes below an element, where those there can take this widget, and stand then where they stood.
fn gather_still(
    alloc: Global,
    t: &ElementTree,
    h: Handle,
    given: &Rc<Widget>,
    changes: &mut Vec<Change>,
) -> Result<bool, AllocError>
    requires live { IsNode t.now.tree h }
    requires own { HaveTheirOwn (below (subtree_at t.now.tree h)) }
    ensures can { IfOk result (λ can. can ≡ can_take_still (below (subtree_at t.now.tree h)) (shared given.now ∷ [])) }
    ensures changes { result ≡ Ok true → changes.new.items ≡ changes.old.items ++ changes_of (below (subtree_at t.now.tree h)) (shared given.now ∷ []) }
{
    Tree::<Element>::walk_laws();
    Tree::<Element>::child_laws();
    // Tells the proof that this is a tree.
    let _ = t.root();
    let children = t.children(h);
    if children.len() != 1 {
        return Ok(false);
    }
    let child = children[0];
    let first = changes.as_slice().len();
    let mut moves = Vec::new(alloc);
    if !gather(alloc, t, child, given, changes, &mut moves)? {
        return Ok(false);
    }
    if !keep_order(changes.as_slice(), first) {
        return Ok(false);
    }
    Ok(moves.as_slice().is_empty())
}

// Builds a component anew, stores what its body gave, and adds what changes below it, where those there can take it and stand where they stood.
fn step<L: Ledger>(
    alloc: Global,
    checked: &Checked,
    h: Handle,
    t: &mut ElementTree,
    changes: &mut Vec<Change>,
    builds: &mut Steps<L>,
) -> Result<bool, FrameFault>
    requires { (x : IsComponentAt (plain_checked checked.now) t.old.tree h) × IsSettled x.tree }
    ensures stepped { IfOk result (λ can. (x : IsComponentAt (plain_checked checked.now) t.old.tree h)
        → IsStepped (plain_checked checked.now) t.old.tree t.new.tree h x changes.old.items changes.new.items can) }
    ensures fault { IfErr result (λ e. IfSome (fault_of e) (λ f. (x : IsComponentAt (plain_checked checked.now) t.old.tree h) (s : Progress)
        → given_at (blueprint_of (plain_checked checked.now)) x.place s ≡ stops f)) }
    ensures builds { OnOk result (builds.new ≡ builds.old + 1) }
    ensures builds_at_fault { IfErr result (λ e. IfSome (fault_of e) (λ f. builds.new ≡ builds.old + 1)) }
    ensures checked { OnOk result (IsTypedChecked (plain_checked checked.now)) }
    ensures keeps { OnOk result (KeepsNodes t.old.tree t.new.tree) }
    ensures holds { OnOk result (Holds t.new.tree h) }
    ensures names { OnOk result ((g : RegistryOf) → NamesExactly g t.old.tree → NamesExactly g t.new.tree) }
    ensures numbers { OnOk result ((k : Handle) → number_at t.new.tree k ≡ number_at t.old.tree k) }
    ensures handles { OnOk result (KeepsHandles t.old.tree.nodes t.new.tree.nodes) }
    ensures root { OnOk result (t.new.tree.root ≡ t.old.tree.root) }
{
    Tree::<Element>::walk_laws();
    t.number_laws();
    let given = give(alloc, checked, h, t, builds)?;
    store(t, h, given.as_slice())?;
    t.number_laws();
    Ok(gather_still(alloc, t, h, &given[0], changes)?)
}

/// Builds the components that are flagged anew in their places, one after another, of a tree that is ready for a root. Where what is below each
/// of them can take what its body gives, and no child moves by that, they do: then that is the build, and the render nodes of these changes are
/// to take the widgets too. Where one of them can't, none is answered: those that were built so far store what their bodies gave and aren't
/// flagged any more, nothing else has changed, and the rest of the build is left to do.
///
/// The fault of a body is that of the build. After it, and after want of memory, the elements are spent: they serve nothing any more.
pub fn renew_all<L: Ledger>(
    alloc: Global,
    checked: &Checked,
    hs: &[Handle],
    t: &mut ElementTree,
    builds: &mut Steps<L>,
) -> Result<Option<Vec<Change>>, FrameFault>
    requires { IsStaleTree (plain_checked checked.now) t.old.tree hs.now }
    ensures renewed { IfOk result (λ o. IfSome o (λ changes. (x : IsStaleTree (plain_checked checked.now) t.old.tree hs.now)
        → AreRenewed (plain_checked checked.now) t.old.tree t.new.tree hs.now x changes.items)) }
    ensures builds { IfOk result (λ o. IfSome o (λ changes. builds.new ≡ builds.old + length hs.now)) }
    ensures left { IfOk result (λ o. o ≡ None → (x : IsStaleTree (plain_checked checked.now) t.old.tree hs.now)
        → (built : ℕ) × (builds.new ≡ builds.old + built) × AreLeft (plain_checked checked.now) t.old.tree t.new.tree hs.now x built) }
    ensures fault { IfErr result (λ e. IfSome (fault_of e) (λ f. (x : IsStaleTree (plain_checked checked.now) t.old.tree hs.now) (screen : Screen)
        → full_build (blueprint_of (plain_checked checked.now)) screen (Some x.tree) (next_at t.old.tree) x.root ≡ failed f)) }
    ensures builds_at_fault { IfErr result (λ e. IfSome (fault_of e) (λ f. (x : IsStaleTree (plain_checked checked.now) t.old.tree hs.now) (screen : Screen)
        → builds.new ≡ builds.old + all_builds (blueprint_of (plain_checked checked.now)) screen (Some x.tree) x.marks (next_at t.old.tree) x.root)) }
    ensures names { OnOk result ((g : RegistryOf) → NamesExactly g t.old.tree → NamesExactly g t.new.tree) }
    ensures numbers { OnOk result ((k : Handle) → number_at t.new.tree k ≡ number_at t.old.tree k) }
    ensures handles { OnOk result (KeepsHandles t.old.tree.nodes t.new.tree.nodes) }
    ensures root { OnOk result (t.new.tree.root ≡ t.old.tree.root) }
    ensures spent { OnErr result (t.new.spent ≡ true) }
{
    Tree::<Element>::walk_laws();
    Tree::<Element>::keep_laws();
    kept_elements_are_known();
    standing_elements_are_known();
    first_components_stand();
    first_components_stop_builds();
    left_steps_lead();
    builds_go_on_alike();
    retaken_trees_are_ready();
    steps_lead();
    steps_follow_on();
    marked_spots_stay();
    rearrangements_go_on();
    built_trees_vanish_alone();
    ready_trees_settle();
    settled_trees_stay();
    same_means_equal();
    let mut changes = Vec::new(alloc);
    for h in hs {
        t.number_laws();
        let can = match step(alloc, checked, *h, t, &mut changes, builds) {
            Ok(can) => can,
            Err(e) => {
                t.spend();
                return Err(e);
            }
        };
        if !can {
            return Ok(None);
        }
    }
    let Ok(()) = write_changes(t, changes.as_slice()) else {
        t.spend();
        return Err(FrameFault::OutOfMemory);
    };
    Ok(Some(changes))
}
