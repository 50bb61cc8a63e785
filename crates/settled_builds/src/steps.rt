// Laws of the steps of a frame, each of which builds one component. None of these calls does anything.
ghost use Rattle.std.specs.Prelude.{◌≡◌, ℕ, ◌+◌, true, is_some, Option, Some, None, List, [], ◌∷◌, ◌++◌};
ghost use Rattle.std.specs.List.{find};
ghost use Rattle.fx_expr.specs.declared.values.Value.{Value};
ghost use Rattle.widget_model.specs.Plain.{PlainWidget, look_of};
ghost use Rattle.plain_tree.specs.At.{numbers_of, node_at, changed_at, having_fields, having_scroll};
ghost use Rattle.plain_tree.specs.Laws.{AllDiffer};
ghost use Rattle.plain_tree.specs.Offsets.{scrolled_by};
ghost use Rattle.plain_tree.specs.PlainNode.{PlainNode, number_of, widget_of, fields_of};
ghost use Rattle.plain_tree.specs.Projection.{render_of};
ghost use Rattle.build_form.specs.BuildRole.{build_role_of};
ghost use Rattle.build_form.specs.Entering.{Blueprint, given_by};
ghost use Rattle.build_form.specs.FullBuild.{Screen, failed, built, first_tree, full_build};
ghost use Rattle.build_form.specs.Numbered.{IsNumbered};
ghost use Rattle.build_form.specs.Step.{Fault, Progress, stops};
ghost use Rattle.work_sets.specs.Due.{names_read};
ghost use Rattle.work_sets.specs.Entered.{entered_widgets};
ghost use Rattle.work_sets.specs.Work.{made_first};
ghost use Rattle.build_walk.specs.Past.{is_marked};
ghost use Rattle.build_walk.specs.Standing.{all_builds};
ghost use Rattle.settled_builds.specs.Places.{NodePlace, HasNoGlobals};
ghost use Rattle.settled_builds.specs.Regiven.{regiven, readers_in, ReadTheirNames, CanRegive};
ghost use Rattle.settled_builds.specs.Retaken.{retaken};
ghost use Rattle.settled_builds.specs.Settled.{IsReadyTree, IsSettledFor};
ghost use Rattle.settled_builds.specs.Steps.{Leads, IsFirstMarked, CanTakeAnew, without};
ghost use Rattle.settled_builds.specs.Taken.{nodes_below};
ghost use Rattle.settled_builds.specs.WorkedSteps.{WorksOfSteps};

use build_walk::{edits_leave_fresh_trees, what_is_built_is_due};
use work_sets::{builds_enter_their_trees, quiet_frames_take_no_work, same_means_equal};

/// A settled tree without global keys, of which no number is marked, is ready for its root; and where no number of a ready tree is marked, it is
/// settled: so no step is left.
pub fn ready_trees_settle()
    ensures ready { (b : Blueprint) (marks : List ℕ) (next : ℕ) (root : PlainWidget) (tree : PlainNode)
        → IsSettledFor b marks root tree → HasNoGlobals tree → IsNumbered next tree → IsReadyTree b marks next root tree }
    ensures settled { (b : Blueprint) (marks : List ℕ) (next : ℕ) (root : PlainWidget) (tree : PlainNode)
        → IsReadyTree b marks next root tree → find (is_marked marks) (numbers_of tree) ≡ None → IsSettledFor b marks root tree }
{}

/// A tree stays ready for its root where fields of a component are set and its number is marked, where a node is scrolled, or all nodes, and
/// where a number is marked that it doesn't have.
pub fn lines_leave_ready_trees()
    ensures set { (b : Blueprint) (marks : List ℕ) (next : ℕ) (root : PlainWidget) (tree n : PlainNode) (f : PlainNode → List Value) (wanted : ℕ) (names : List ℕ)
        → IsReadyTree b marks next root tree → node_at wanted tree ≡ Some n → names_read (look_of (widget_of n)) ≡ Some names
        → IsReadyTree b (marks ++ wanted ∷ []) next root (changed_at (λ m. having_fields (f m) m) wanted tree) }
    ensures scroll { (b : Blueprint) (marks : List ℕ) (next : ℕ) (root : PlainWidget) (tree : PlainNode) (scroll place : ℕ)
        → IsReadyTree b marks next root tree → IsReadyTree b marks next root (changed_at (having_scroll scroll) place tree) }
    ensures offsets { (b : Blueprint) (marks : List ℕ) (next : ℕ) (root : PlainWidget) (tree : PlainNode) (offset : ℕ → Option ℕ)
        → IsReadyTree b marks next root tree → IsReadyTree b marks next root (scrolled_by offset tree) }
    ensures marked { (b : Blueprint) (marks : List ℕ) (next : ℕ) (root : PlainWidget) (tree : PlainNode) (number : ℕ)
        → node_at number tree ≡ None → IsReadyTree b marks next root tree → IsReadyTree b (marks ++ number ∷ []) next root tree }
{
    edits_leave_fresh_trees();
}

/// Where those below the first marked component took what its body gives, a build comes to what it would have come to, and enters the same
/// widgets, also where a fault ends it.
pub fn builds_go_on_alike()
    ensures full { (b : Blueprint) (screen : Screen) (marks : List ℕ) (wanted next : ℕ) (root : PlainWidget) (tree : PlainNode) (p : NodePlace) (ws : List PlainWidget)
        → IsReadyTree b marks next root tree → IsFirstMarked b marks wanted tree p → CanTakeAnew b ws p
        → full_build b screen (Some tree) next root ≡ full_build b screen (Some (retaken ws wanted tree)) next root }
    ensures entered { (b : Blueprint) (screen : Screen) (marks : List ℕ) (wanted next : ℕ) (root : PlainWidget) (tree : PlainNode) (p : NodePlace) (ws : List PlainWidget)
        → IsReadyTree b marks next root tree → IsFirstMarked b marks wanted tree p → CanTakeAnew b ws p
        → entered_widgets b screen (Some tree) next root ≡ entered_widgets b screen (Some (retaken ws wanted tree)) next root }
{
    same_means_equal();
}

/// In a tree of a root of which some components are marked, the first one of these stands at a spot: it is the node with its number.
pub fn first_components_stand()
    ensures spot { (b : Blueprint) (marks : List ℕ) (wanted next : ℕ) (root : PlainWidget) (tree : PlainNode)
        → IsReadyTree b marks next root tree → find (is_marked marks) (numbers_of tree) ≡ Some wanted → (p : NodePlace) × IsFirstMarked b marks wanted tree p }
    ensures node { (b : Blueprint) (marks : List ℕ) (wanted : ℕ) (tree : PlainNode) (p : NodePlace) → IsFirstMarked b marks wanted tree p → node_at wanted tree ≡ Some p.node }
    ensures component { (b : Blueprint) (marks : List ℕ) (wanted next : ℕ) (root : PlainWidget) (tree : PlainNode) (p : NodePlace)
        → IsReadyTree b marks next root tree → IsFirstMarked b marks wanted tree p → is_some (names_read (look_of (widget_of p.node))) ≡ true }
{}

/// Where those below the first marked component took what its body gives, the tree is as ready as it was, without that mark.
pub fn retaken_trees_are_ready()
    ensures { (b : Blueprint) (marks : List ℕ) (wanted next : ℕ) (root : PlainWidget) (tree : PlainNode) (p : NodePlace) (ws : List PlainWidget)
        → IsReadyTree b marks next root tree → IsFirstMarked b marks wanted tree p → CanTakeAnew b ws p → IsReadyTree b (without wanted marks) next root (retaken ws wanted tree) }
{
    same_means_equal();
}

/// The tree in which those below the first marked component took what its body gives leads to what the old one does, with one component less
/// to build.
pub fn steps_lead()
    ensures { (b : Blueprint) (marks : List ℕ) (wanted next : ℕ) (root : PlainWidget) (tree : PlainNode) (p : NodePlace) (ws : List PlainWidget)
        → IsReadyTree b marks next root tree → IsFirstMarked b marks wanted tree p → CanTakeAnew b ws p → Leads b next root tree marks (retaken ws wanted tree) (without wanted marks) 1 }
{
    same_means_equal();
}

/// A build enters the first marked component once, whatever it comes to, also a fault: once that was built, and isn't marked any more, a build
/// of the same tree builds one component less.
pub fn left_steps_lead()
    ensures { (b : Blueprint) (marks : List ℕ) (wanted next : ℕ) (root : PlainWidget) (tree : PlainNode) (p : NodePlace)
        → IsReadyTree b marks next root tree → IsFirstMarked b marks wanted tree p → Leads b next root tree marks tree (without wanted marks) 1 }
{
    same_means_equal();
}

/// Where the body of the first marked component stops a build, as one does that gives too much, the build ends with that fault, and has built
/// that component alone.
pub fn first_components_stop_builds()
    ensures whole { (b : Blueprint) (screen : Screen) (marks : List ℕ) (wanted next : ℕ) (root : PlainWidget) (tree : PlainNode) (p : NodePlace) (fault : Fault)
        → IsReadyTree b marks next root tree → IsFirstMarked b marks wanted tree p
        → ((s : Progress) → given_by b (build_role_of (look_of (widget_of p.node))) p.values (number_of p.node) (fields_of p.node) (widget_of p.node) s ≡ stops fault)
        → full_build b screen (Some tree) next root ≡ failed fault }
    ensures builds { (b : Blueprint) (screen : Screen) (marks : List ℕ) (wanted next : ℕ) (root : PlainWidget) (tree : PlainNode) (p : NodePlace) (fault : Fault)
        → IsReadyTree b marks next root tree → IsFirstMarked b marks wanted tree p
        → ((s : Progress) → given_by b (build_role_of (look_of (widget_of p.node))) p.values (number_of p.node) (fields_of p.node) (widget_of p.node) s ≡ stops fault)
        → all_builds b screen (Some tree) marks next root ≡ 1 }
{
    same_means_equal();
    quiet_frames_take_no_work();
    what_is_built_is_due();
}

/// Where the body of the first marked component gives an Inherit of the name, the key and the child of the one Inherit below the component, and
/// it gives another value, that one can give it in its place. Then the components below it that read the name are marked instead of the
/// component: the tree is as ready as it was, it leads to what the old one does, with one component less to build, and what is laid out of it
/// is the same.
pub fn regiven_values_mark_readers()
    ensures ready { (b : Blueprint) (marks : List ℕ) (wanted next : ℕ) (root : PlainWidget) (tree : PlainNode) (p : NodePlace) (w : PlainWidget) (name : ℕ)
        → IsReadyTree b marks next root tree → IsFirstMarked b marks wanted tree p → ReadTheirNames b tree → (can : CanRegive b w name p)
        → IsReadyTree b (without wanted marks ++ readers_in name (nodes_below can.child)) next root (regiven w wanted tree) }
    ensures leads { (b : Blueprint) (marks : List ℕ) (wanted next : ℕ) (root : PlainWidget) (tree : PlainNode) (p : NodePlace) (w : PlainWidget) (name : ℕ)
        → IsReadyTree b marks next root tree → IsFirstMarked b marks wanted tree p → ReadTheirNames b tree → (can : CanRegive b w name p)
        → Leads b next root tree marks (regiven w wanted tree) (without wanted marks ++ readers_in name (nodes_below can.child)) 1 }
    ensures drawn { (b : Blueprint) (marks : List ℕ) (wanted : ℕ) (tree : PlainNode) (p : NodePlace) (w : PlainWidget) (name : ℕ)
        → IsFirstMarked b marks wanted tree p → CanRegive b w name p → render_of (regiven w wanted tree) ≡ render_of tree }
{
    same_means_equal();
}

/// Then the first phase of a build, too, comes to what it would have come to: where the second one ends with a fault the same tree is there.
pub fn first_phases_go_on_alike()
    ensures { (b : Blueprint) (screen : Screen) (marks : List ℕ) (wanted next : ℕ) (root : PlainWidget) (tree : PlainNode) (p : NodePlace) (w : PlainWidget) (name : ℕ)
        → IsReadyTree b marks next root tree → IsFirstMarked b marks wanted tree p → ReadTheirNames b tree → CanRegive b w name p
        → made_first b screen (Some tree) (first_tree b (Some tree) next root) ≡ made_first b screen (Some (regiven w wanted tree)) (first_tree b (Some (regiven w wanted tree)) next root) }
{
    same_means_equal();
}

/// Steps follow one another. Where the tree to which they lead is settled for the root, that is the build's, and it builds as many components as
/// the steps did.
pub fn steps_follow_on()
    ensures follow { (b : Blueprint) (next : ℕ) (root : PlainWidget) (tree new last : PlainNode) (marks left rest : List ℕ) (builds more : ℕ)
        → Leads b next root tree marks new left builds → Leads b next root new left last rest more → Leads b next root tree marks last rest (builds + more) }
    ensures end { (b : Blueprint) (screen : Screen) (next : ℕ) (root : PlainWidget) (tree new : PlainNode) (marks left : List ℕ) (builds : ℕ)
        → Leads b next root tree marks new left builds → IsSettledFor b left root new → full_build b screen (Some tree) next root ≡ built new next }
    ensures builds { (b : Blueprint) (screen : Screen) (next : ℕ) (root : PlainWidget) (tree new : PlainNode) (marks left : List ℕ) (builds : ℕ)
        → Leads b next root tree marks new left builds → IsSettledFor b left root new → AllDiffer (numbers_of new) → all_builds b screen (Some tree) marks next root ≡ builds }
{
    builds_enter_their_trees();
    quiet_frames_take_no_work();
    what_is_built_is_due();
}

/// Steps over small trees are as they were worked out by hand.
pub fn worked_steps()
    ensures { WorksOfSteps }
{}
