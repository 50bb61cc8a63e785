// What holds before the first frame, what survives a build, and what it leaves unmarked. None of these calls does anything.
ghost use Rattle.std.specs.Prelude.{◌≡◌, false, None, []};
ghost use Rattle.fx_expr.specs.declared.values.Value.{Value as AnyValue};
ghost use Rattle.fx_handles.specs.declared.Handle.{Handle as AnyHandle};
ghost use Rattle.node_tree.specs.Forest.Forest.{none};
ghost use Rattle.node_tree.specs.Plan.{entries};
ghost use Rattle.node_tree.specs.Tree.{Tree as TreeOf, Is, children_at};
ghost use Rattle.tree_marks.specs.Marks.{listed};
ghost use Rattle.widget_model.specs.Plain.{PlainWidget};
ghost use Rattle.program_check.specs.Checked.{PlainChecked};
ghost use Rattle.build_form.specs.FullBuild.{Screen};
ghost use Rattle.build_form.specs.KeptStates.{EachIs, HadOrIsNew};
ghost use Rattle.build_form.specs.Laws.{HasSurvivors};
ghost use Rattle.build_form.specs.Program.{blueprint_of};
ghost use Rattle.element_tree.specs.Element.{Element as ElementOf};
ghost use Rattle.global_keys.specs.Holders.{Registry as RegistryOf, recorded};
ghost use Rattle.plain_tree.specs.declared.role.RenderRole.TheVariants.{Plain};
ghost use Rattle.render_tree.specs.Changes.{KeepsOwn, KeepsLook, EachEntry, BecomesRoot};
ghost use Rattle.render_tree.specs.Object.{RenderObject as ObjectOf};
ghost use Rattle.build_walk.specs.Renewing.{drawn};
ghost use Rattle.build_owner.specs.Standing.{StandsFor, Beginning, next_at};
ghost use Rattle.build_owner.specs.Phases.{IsFirstPhase, first_node_of, first_plan_of, IsWholeBuild};
ghost use Rattle.build_owner.specs.Unmarked.{LeavesLaid, LeavesPainted, KeepsItems};
ghost use Rattle.build_owner.specs.Waiting.{WaitingBuild};

use build_form::{states_survive, survivors as survivors_of_builds};

/// New trees and a new registry stand for no tree: so the first frame begins.
pub fn new_trees_stand()
    ensures { (c : PlainChecked) (t : TreeOf ElementOf) (r : TreeOf ObjectOf) (g : RegistryOf) → t.root ≡ None → Is t none → r.root ≡ None → Is r none
        → ((k : AnyValue) → recorded g k ≡ None) → StandsFor c [] None (λ _. 0) t r g }
{}

/// Which states survive both phases: all numbers of the tree of each phase differ, and each was in the old tree or was free; a node whose
/// number was there has a widget of the type and the key that it had, and the values of its fields and the offset that it had; each
/// other one is new, with the first values of its fields, and isn't scrolled.
pub fn survivors()
    ensures first { (c : PlainChecked) (t0 : TreeOf ElementOf) (r0 : TreeOf ObjectOf) (g0 : RegistryOf) (b : Beginning c t0 r0 g0) (w : PlainWidget) (t : TreeOf ElementOf) (r : TreeOf ObjectOf) (g : RegistryOf) (l : WaitingBuild)
        → (p : IsFirstPhase c t0 r0 g0 b w t r g l)
        → HasSurvivors b.old (next_at t0) (next_at t) (first_node_of p) × EachIs (HadOrIsNew (blueprint_of c) b.old (next_at t0)) (first_node_of p) }
    ensures whole { (c : PlainChecked) (t0 : TreeOf ElementOf) (r0 : TreeOf ObjectOf) (g0 : RegistryOf) (b : Beginning c t0 r0 g0) (screen : Screen) (w : PlainWidget) (was : TreeOf ObjectOf) (t : TreeOf ElementOf) (r : TreeOf ObjectOf)
        (g : RegistryOf) → (p : IsWholeBuild c t0 r0 g0 b screen w was t r g)
        → HasSurvivors b.old (next_at t0) (next_at t) p.tree × EachIs (HadOrIsNew (blueprint_of c) b.old (next_at t0)) p.tree }
{
    survivors_of_builds();
    states_survive();
}

/// Lazy lists that stay as they are aren't marked. In the first phase a list none of whose old items is claimed keeps them, and loses no
/// child: where a layout reads the same of it, it isn't marked for layout, and where it has the members that it had, not for painting.
/// In a whole build, of which the second phase is one, it is so of each node that has the same children, of which it takes the same.
pub fn kept_lists_are_not_marked()
    ensures layout { (c : PlainChecked) (t0 : TreeOf ElementOf) (r0 : TreeOf ObjectOf) (g0 : RegistryOf) (b : Beginning c t0 r0 g0) (w : PlainWidget) (t : TreeOf ElementOf) (r : TreeOf ObjectOf) (g : RegistryOf) (l : WaitingBuild)
        → (p : IsFirstPhase c t0 r0 g0 b w t r g l) (k : AnyHandle) → KeepsItems p.made (first_plan_of p) k → EachEntry (λ e. e.at ≡ k → KeepsOwn p.made e) (entries None (first_plan_of p))
        → (BecomesRoot p.made p.redrawn.committed.root k → ⊥) → (listed k p.redrawn.laid ≡ false) × (listed k p.redrawn.lost ≡ false) × (children_at r k ≡ children_at p.made k) }
    ensures paint { (c : PlainChecked) (t0 : TreeOf ElementOf) (r0 : TreeOf ObjectOf) (g0 : RegistryOf) (b : Beginning c t0 r0 g0) (w : PlainWidget) (t : TreeOf ElementOf) (r : TreeOf ObjectOf) (g : RegistryOf) (l : WaitingBuild)
        → (p : IsFirstPhase c t0 r0 g0 b w t r g l) (k : AnyHandle) → KeepsItems p.made (first_plan_of p) k → EachEntry (λ e. e.at ≡ k → KeepsLook p.made e) (entries None (first_plan_of p))
        → (BecomesRoot p.made p.redrawn.committed.root k → ⊥) → listed k p.redrawn.painted ≡ false }
    ensures whole_layout { (c : PlainChecked) (t0 : TreeOf ElementOf) (r0 : TreeOf ObjectOf) (g0 : RegistryOf) (b : Beginning c t0 r0 g0) (screen : Screen) (w : PlainWidget) (was : TreeOf ObjectOf) (t : TreeOf ElementOf) (r : TreeOf ObjectOf)
        (g : RegistryOf) → (p : IsWholeBuild c t0 r0 g0 b screen w was t r g) (k : AnyHandle)
        → LeavesLaid p.made p.redrawn.committed.root (entries None (drawn Plain None p.stands.elements.forest)) k → listed k p.redrawn.laid ≡ false }
    ensures whole_paint { (c : PlainChecked) (t0 : TreeOf ElementOf) (r0 : TreeOf ObjectOf) (g0 : RegistryOf) (b : Beginning c t0 r0 g0) (screen : Screen) (w : PlainWidget) (was : TreeOf ObjectOf) (t : TreeOf ElementOf) (r : TreeOf ObjectOf)
        (g : RegistryOf) → (p : IsWholeBuild c t0 r0 g0 b screen w was t r g) (k : AnyHandle)
        → LeavesPainted p.made p.redrawn.committed.root (entries None (drawn Plain None p.stands.elements.forest)) k → listed k p.redrawn.painted ≡ false }
{}
