// What is laid out of a tree in which nodes took other widgets where they are matched, and what stays of it. None of these calls does anything.
ghost use Rattle.std.specs.Prelude.{◌≡◌, ℕ, true, List, [], ◌++◌};
ghost use Rattle.widget_model.specs.Plain.{PlainWidget};
ghost use Rattle.plain_tree.specs.Laws.{VanishAlone};
ghost use Rattle.plain_tree.specs.PlainNode.{PlainNode};
ghost use Rattle.plain_tree.specs.Projection.{render_of};
ghost use Rattle.plain_tree.specs.Render.{renders_of};
ghost use Rattle.build_form.specs.Entering.{Blueprint, depth_limit};
ghost use Rattle.build_walk.specs.Past.{is_marked};
ghost use Rattle.settled_builds.specs.Looks.{NewLook, look_after};
ghost use Rattle.settled_builds.specs.Moved.{AreSpotsAlike};
ghost use Rattle.settled_builds.specs.Places.{NodePlace, spot_at};
ghost use Rattle.settled_builds.specs.Rearranged.{NewOrder, all_rearranged, order_after, looks_in, orders_in, drawn_in, IsRearrangedFrom};
ghost use Rattle.settled_builds.specs.Regiven.{CanRegive, regiven};
ghost use Rattle.settled_builds.specs.Retaken.{retaken};
ghost use Rattle.settled_builds.specs.Settled.{IsReadyTree};
ghost use Rattle.settled_builds.specs.Steps.{IsFirstMarked, CanTakeAnew, without};
ghost use Rattle.settled_builds.specs.WorkedRearranged.{WorksOfRearranging};

use work_sets::same_means_equal;

/// What is laid out of a tree in which those below the first marked component took what its body gives are the same render nodes, with the
/// looks and in the orders of the widgets that are taken, where each node that takes another widget is drawn.
pub fn projections_are_rearranged()
    ensures { (b : Blueprint) (marks : List ℕ) (wanted next : ℕ) (root : PlainWidget) (tree : PlainNode) (p : NodePlace) (ws : List PlainWidget)
        → IsReadyTree b marks next root tree → IsFirstMarked b marks wanted tree p → CanTakeAnew b ws p → VanishAlone tree → drawn_in ws p.node ≡ true
        → render_of (retaken ws wanted tree) ≡ all_rearranged (look_after (looks_in ws p.node)) (order_after (orders_in ws p.node)) (renders_of (render_of tree)) }
{}

/// Where those below the first marked component took what its body gives, or an Inherit there gives another value, each node that has no render
/// node has one child, as before.
pub fn steps_vanish_alone()
    ensures retaken { (b : Blueprint) (marks : List ℕ) (wanted next : ℕ) (root : PlainWidget) (tree : PlainNode) (p : NodePlace) (ws : List PlainWidget)
        → IsReadyTree b marks next root tree → IsFirstMarked b marks wanted tree p → CanTakeAnew b ws p → VanishAlone tree → VanishAlone (retaken ws wanted tree) }
    ensures regiven { (b : Blueprint) (marks : List ℕ) (wanted next : ℕ) (root : PlainWidget) (tree : PlainNode) (p : NodePlace) (w : PlainWidget) (name : ℕ)
        → IsReadyTree b marks next root tree → IsFirstMarked b marks wanted tree p → CanRegive b w name p → VanishAlone tree → VanishAlone (regiven w wanted tree) }
{}

/// Where those below the first marked component took what its body gives, each other marked component stands where it stood, with all that is
/// below it: its place among the children of its parent alone may be another one.
pub fn marked_spots_stay()
    ensures { (b : Blueprint) (marks : List ℕ) (wanted next : ℕ) (root : PlainWidget) (tree : PlainNode) (p : NodePlace) (ws : List PlainWidget) (k : ℕ)
        → IsReadyTree b marks next root tree → IsFirstMarked b marks wanted tree p → CanTakeAnew b ws p → is_marked (without wanted marks) k ≡ true
        → AreSpotsAlike (spot_at k depth_limit b.defaults 0 0 tree) (spot_at k depth_limit b.defaults 0 0 (retaken ws wanted tree)) }
{
    same_means_equal();
}

/// So it is after several steps, one after another: what is laid out of the tree to which they come are the render nodes of the tree before them,
/// with the looks and in the orders that all of them take, of which none is of a component that is still marked, or of what is below it. It is
/// so, too, where what a component gives isn't taken.
pub fn rearrangements_go_on()
    ensures begun { (b : Blueprint) (marks : List ℕ) (tree : PlainNode) → VanishAlone tree → IsRearrangedFrom b marks [] [] tree tree }
    ensures taken { (b : Blueprint) (marks : List ℕ) (wanted next : ℕ) (root : PlainWidget) (old tree : PlainNode) (p : NodePlace) (ws : List PlainWidget) (looks : List NewLook) (orders : List NewOrder)
        → IsRearrangedFrom b marks looks orders old tree → IsReadyTree b marks next root tree → IsFirstMarked b marks wanted tree p → CanTakeAnew b ws p → drawn_in ws p.node ≡ true
        → IsRearrangedFrom b (without wanted marks) (looks ++ looks_in ws p.node) (orders ++ orders_in ws p.node) old (retaken ws wanted tree) }
    ensures left { (b : Blueprint) (marks : List ℕ) (wanted : ℕ) (looks : List NewLook) (orders : List NewOrder) (old tree : PlainNode)
        → IsRearrangedFrom b marks looks orders old tree → IsRearrangedFrom b (without wanted marks) looks orders old tree }
{
    same_means_equal();
}

/// What is laid out of small trees whose children come into another order is as it was worked out by hand.
pub fn worked_rearrangements()
    ensures { WorksOfRearranging }
{}
