// Laws of the second phase of a build. None of these calls does anything.
ghost use Rattle.std.specs.Prelude.{◌≡◌, ℕ, ◌+◌, nat_lt, Bool, false, List, [], Option, filter, map};
ghost use Rattle.std.specs.List.{All};
ghost use Rattle.fx_expr.specs.declared.values.Value.{Value};
ghost use Rattle.fx_handles.specs.declared.Handle.{Handle};
ghost use Rattle.node_tree.specs.Children.{Keeps};
ghost use Rattle.node_tree.specs.Forest.{Forest, tops};
ghost use Rattle.node_tree.specs.Part.{CommitsPart};
ghost use Rattle.node_tree.specs.Plan.{PlanEntry, entries};
ghost use Rattle.node_tree.specs.Tree.{Tree as TreeOf};
ghost use Rattle.widget_model.specs.Plain.{PlainWidget};
ghost use Rattle.widget_model.specs.Size.{count_of};
ghost use Rattle.program_check.specs.Checked.{PlainChecked};
ghost use Rattle.program_check.specs.TypedChecked.{IsTypedChecked};
ghost use Rattle.plain_tree.specs.declared.render.ParentData.{ParentData};
ghost use Rattle.plain_tree.specs.declared.role.RenderRole.{RenderRole};
ghost use Rattle.plain_tree.specs.PlainNode.{PlainNode};
ghost use Rattle.build_form.specs.Entering.{depth_limit, output_limit};
ghost use Rattle.build_form.specs.FullBuild.{Screen, failed, built, live_ranges, basis, first_tree, full_build};
ghost use Rattle.build_form.specs.Program.{blueprint_of};
ghost use Rattle.build_form.specs.Step.{Fault, Progress, stops, gives, each};
ghost use Rattle.element_tree.specs.Element.{Element as ElementOf, element_at, made_count};
ghost use Rattle.element_tree.specs.Nodes.{nodes_of};
ghost use Rattle.render_tree.specs.Marked.{SetsMarks};
ghost use Rattle.render_tree.specs.Marks.{layout_marks, paint_marks};
ghost use Rattle.render_tree.specs.Object.{RenderObject as ObjectOf};
ghost use Rattle.render_tree.specs.Redraw.{Redraw as RedrawOf, redrawn};
ghost use Rattle.render_tree.specs.Tree.{object_at};
ghost use Rattle.build_walk.specs.Counting.{builds_by_each};
ghost use Rattle.build_walk.specs.Kept.{node_over, IsOldElement};
ghost use Rattle.build_walk.specs.Merging.{lists_element, lists_renewal, lists_redraw, grown_below, grow, list_handles, AreBare};
ghost use Rattle.build_walk.specs.Past.{Pasts};
ghost use Rattle.build_walk.specs.Renewing.{renewals, AllGoOn, drawn, AreDrawn};
ghost use Rattle.build_walk.specs.Serving.{waiting_lists, served, builds_serving};
ghost use Rattle.build_walk.specs.Standing.{ElementsStandFor, pasts_from, first_builds, all_builds, KeepsDrawn};
ghost use Rattle.build_walk.specs.Telling.{StoreOutputs};

use crate::frames::{first_phases_go_on_from_elements, standing_elements_are_known};
use work_sets::same_means_equal;

/// Where lazy lists wait after the first phase, the walk that keeps outputs, by what the elements tell that stand for the old tree, comes
/// list by list to what the build comes to: its tree has the items in place, or it has the fault of the first list that stops. So the
/// components that it builds are those of the first phase and of all lists.
pub fn items_complete_the_build()
    ensures nodes { (c : PlainChecked) (marks : List ℕ) (old : Option PlainNode) (scrolled : ℕ → ℕ) (t : TreeOf ElementOf) (screen : Screen) (w : PlainWidget) (h : Handle) (e : ElementOf) (kids : Forest ElementOf)
        (gs : List (Forest ElementOf)) (mid after : Progress) → IsTypedChecked c → (s : ElementsStandFor c marks old scrolled t) → nat_lt output_limit (count_of w) ≡ false
        → first_tree (blueprint_of c) old (made_count t + 1) w ≡ gives (node_over scrolled e kids) mid → (mid.waiting ≡ [] → ⊥)
        → each (served (basis (blueprint_of c) old) (pasts_from c s.forest) (live_ranges screen (node_over scrolled e kids))) (waiting_lists depth_limit (blueprint_of c).defaults (node_over scrolled e kids)) mid
        ≡ gives (map (nodes_of scrolled) gs) after
        → full_build (blueprint_of c) screen old (made_count t + 1) w ≡ built (node_over scrolled e (grown_below (lists_element e) gs (grow lists_element kids gs)).forest) after.next }
    ensures fault { (c : PlainChecked) (marks : List ℕ) (old : Option PlainNode) (scrolled : ℕ → ℕ) (t : TreeOf ElementOf) (screen : Screen) (w : PlainWidget) (n : PlainNode) (mid : Progress) (f : Fault)
        → IsTypedChecked c → (s : ElementsStandFor c marks old scrolled t) → nat_lt output_limit (count_of w) ≡ false
        → first_tree (blueprint_of c) old (made_count t + 1) w ≡ gives n mid → (mid.waiting ≡ [] → ⊥)
        → each (served (basis (blueprint_of c) old) (pasts_from c s.forest) (live_ranges screen n)) (waiting_lists depth_limit (blueprint_of c).defaults n) mid ≡ stops f
        → full_build (blueprint_of c) screen old (made_count t + 1) w ≡ failed f }
    ensures builds { (c : PlainChecked) (marks : List ℕ) (old : Option PlainNode) (scrolled : ℕ → ℕ) (t : TreeOf ElementOf) (screen : Screen) (w : PlainWidget) (n : PlainNode) (mid : Progress)
        → IsTypedChecked c → (s : ElementsStandFor c marks old scrolled t) → nat_lt output_limit (count_of w) ≡ false
        → first_tree (blueprint_of c) old (made_count t + 1) w ≡ gives n mid → (mid.waiting ≡ [] → ⊥)
        → all_builds (blueprint_of c) screen old marks (made_count t + 1) w
        ≡ first_builds (blueprint_of c) old marks (made_count t + 1) w
        + builds_by_each (served (basis (blueprint_of c) old) (pasts_from c s.forest) (live_ranges screen n)) (builds_serving (basis (blueprint_of c) old) (pasts_from c s.forest) (live_ranges screen n))
        (waiting_lists depth_limit (blueprint_of c).defaults n) mid }
{
    standing_elements_are_known();
    first_phases_go_on_from_elements();
    same_means_equal();
}

/// A forest of elements into which items are put goes on from what is stored, has its render nodes and stores its outputs, where it and
/// the items did. Its render nodes have the same tops, and its lists have the same handles, which a plan for it lists in order.
pub fn grown_forests_go_on()
    ensures elements { (t : TreeOf ElementOf) (f : Forest ElementOf) (gs : List (Forest ElementOf)) → AllGoOn (element_at t) f → All (AllGoOn (element_at t)) gs
        → AllGoOn (element_at t) (grow lists_element f gs).forest }
    ensures objects { (t : TreeOf ObjectOf) (scrolled : ℕ → ℕ) (f : Forest ElementOf) (gs : List (Forest ElementOf)) → AreDrawn (object_at t) scrolled f → All (AreDrawn (object_at t) scrolled) gs
        → AreDrawn (object_at t) scrolled (grow lists_element f gs).forest }
    ensures outputs { (scrolled : ℕ → ℕ) (f : Forest ElementOf) (gs : List (Forest ElementOf)) → StoreOutputs scrolled f → All (StoreOutputs scrolled) gs
        → StoreOutputs scrolled (grow lists_element f gs).forest }
    ensures tops { (t : TreeOf ObjectOf) (scrolled : ℕ → ℕ) (above : RenderRole) (told : Option ParentData) (f : Forest ElementOf) (gs : List (Forest ElementOf)) → AreDrawn (object_at t) scrolled f
        → tops (drawn above told (grow lists_element f gs).forest) ≡ tops (drawn above told f) }
    ensures handles { (f : Forest ElementOf) → list_handles lists_renewal (renewals f) ≡ list_handles lists_element f }
    ensures drawn_handles { (p : Option Handle) (above : RenderRole) (told : Option ParentData) (f : Forest ElementOf) → AreBare lists_element f
        → map (λ e. e.at) (filter (λ e. lists_redraw e.update) (entries p (drawn above told f))) ≡ list_handles lists_redraw (drawn above told f) }
{}

/// What is known of elements stays so where their render nodes keep their numbers and offsets, as they do where nodes are added, a plan
/// becomes a part of the tree, and marks are set.
pub fn drawn_elements_stay()
    ensures kept { (pasts : Pasts) (scrolled : ℕ → ℕ) (olds : List Value) (t : TreeOf ElementOf) (r s : TreeOf ObjectOf) (h : Handle) → KeepsDrawn r s
        → IsOldElement pasts scrolled olds t r h → IsOldElement pasts scrolled olds t s h }
    ensures drawn { (scrolled : ℕ → ℕ) (r s : TreeOf ObjectOf) (f : Forest ElementOf) → KeepsDrawn r s → AreDrawn (object_at r) scrolled f → AreDrawn (object_at s) scrolled f }
    ensures both { (r s x : TreeOf ObjectOf) → KeepsDrawn r s → KeepsDrawn s x → KeepsDrawn r x }
    ensures added { (r s : TreeOf ObjectOf) → Keeps r s → KeepsDrawn r s }
    ensures part { (r s : TreeOf ObjectOf) (es : List (PlanEntry RedrawOf)) → CommitsPart redrawn es r.nodes s.nodes → KeepsDrawn r s }
    ensures laid { (also : Bool) (hs : List Handle) (r s : TreeOf ObjectOf) → SetsMarks layout_marks also hs r s → KeepsDrawn r s }
    ensures painted { (also : Bool) (hs : List Handle) (r s : TreeOf ObjectOf) → SetsMarks paint_marks also hs r s → KeepsDrawn r s }
{}
