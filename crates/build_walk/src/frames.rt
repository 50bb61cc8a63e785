// Laws of what stands between two frames, and of what a build goes on from and leaves. None of these calls does anything.
ghost use Rattle.std.specs.Prelude.{◌≡◌, ℕ, ◌+◌, ◌≤◌, nat_lt, Bool, true, false, List, [], ◌∷◌, Option, Some, None, IfSome};
ghost use Rattle.std.specs.List.{All};
ghost use Rattle.std.specs.Option.{option_to_list};
ghost use Rattle.fx_expr.specs.declared.values.Value.{Value};
ghost use Rattle.fx_handles.specs.declared.Handle.{Handle};
ghost use Rattle.node_tree.specs.Forest.{Forest, tops, append, In};
ghost use Rattle.node_tree.specs.Forest.Forest.{none, tree};
ghost use Rattle.node_tree.specs.Plan.{entries, IsUpdated};
ghost use Rattle.node_tree.specs.Tree.{Tree as TreeOf, IsNode, Is};
ghost use Rattle.widget_model.specs.Plain.{PlainWidget, look_of};
ghost use Rattle.widget_model.specs.Size.{count_of};
ghost use Rattle.widget_model.specs.Typed.{Declarations, IsTypedWidget};
ghost use Rattle.program_check.specs.Checked.{PlainChecked};
ghost use Rattle.program_check.specs.TypedChecked.{IsTypedChecked};
ghost use Rattle.template_build.specs.Program.{declarations_of};
ghost use Rattle.plain_tree.specs.declared.role.RenderRole.TheVariants.{Plain};
ghost use Rattle.plain_tree.specs.PlainNode.{PlainNode, nodes_of as listed};
ghost use Rattle.tree_marks.specs.Marking.{Marking};
ghost use Rattle.build_form.specs.BuildRole.{composes, build_role_of};
ghost use Rattle.build_form.specs.Entering.{Blueprint, depth_limit, first, output_limit};
ghost use Rattle.build_form.specs.Filling.{FitsNames};
ghost use Rattle.build_form.specs.FullBuild.{Screen, failed, built, started, basis, first_tree, full_build};
ghost use Rattle.build_form.specs.Numbered.{IsNumbered, IsInPlace};
ghost use Rattle.build_form.specs.Partner.{root_arrival};
ghost use Rattle.build_form.specs.Program.{blueprint_of};
ghost use Rattle.build_form.specs.Step.{Fault, output_too_large, Progress, stops, gives};
ghost use Rattle.build_form.specs.WellBuilt.{IsWellBuilt};
ghost use Rattle.element_tree.specs.Element.{Element as ElementOf, element_at, made_count};
ghost use Rattle.element_tree.specs.Nodes.{nodes_of};
ghost use Rattle.render_tree.specs.Changes.{LaidAnew, PaintedAnew};
ghost use Rattle.render_tree.specs.Marked.{SetsMarks};
ghost use Rattle.render_tree.specs.Marks.{layout_marks, paint_marks};
ghost use Rattle.render_tree.specs.Object.{RenderObject as ObjectOf};
ghost use Rattle.render_tree.specs.Redraw.{Redraw as RedrawOf, redrawn};
ghost use Rattle.render_tree.specs.Tree.{object_at};
ghost use Rattle.work_sets.specs.Entered.{entered_widgets};
ghost use Rattle.build_walk.specs.Counting.{builds_from, TellsEntered};
ghost use Rattle.build_walk.specs.Fresh.{AreKnown};
ghost use Rattle.build_walk.specs.Keeping.{reenter};
ghost use Rattle.build_walk.specs.Kept.{node_over, plain_at};
ghost use Rattle.build_walk.specs.Renewing.{AllGoOn, drawn, AreDrawn};
ghost use Rattle.build_walk.specs.Standing.{ElementsStandFor, RendersStandFor, RendersStandBeside, pasts_from, first_entered, first_builds};
ghost use Rattle.build_walk.specs.Telling.{TellPasts, StoreOutputs};

use crate::laws::{
    builds_leave_fresh_trees, elements_tell_the_last_frame, one_forest_plans_both_trees,
    plans_report_all_changes, walks_build_what_changed, walks_keep_what_is_right,
};
use crate::old_elements::elements_have_pasts;
use build_form::{builds_are_well_built, built_trees_vanish_alone, numbers_differ};
use element_tree::Element;
use node_tree::Tree;

/// Trees that were just made stand for none.
pub fn new_trees_stand_for_none()
    ensures elements { (c : PlainChecked) (t : TreeOf ElementOf) → Is t none → t.root ≡ None → (s : ElementsStandFor c [] None (λ n. 0) t) × (s.forest ≡ none) }
    ensures renders { (r : TreeOf ObjectOf) → Is r none → r.root ≡ None → RendersStandFor None (λ n. 0) none r }
{}

/// What elements that stand for a tree of a checked program say: what is known of numbers is what they tell, and that is right, and
/// is what was entered in the last frame. Each is well built and in place, gives an inherited name a value of its type, and stores a
/// typed output, if it is a component without a flag.
pub fn standing_elements_are_known()
    ensures tells { (c : PlainChecked) (marks : List ℕ) (old : Option PlainNode) (scrolled : ℕ → ℕ) (t : TreeOf ElementOf) → (s : ElementsStandFor c marks old scrolled t)
        → TellPasts (pasts_from c s.forest) (blueprint_of c).defaults s.forest }
    ensures known { (c : PlainChecked) (marks : List ℕ) (old : Option PlainNode) (scrolled : ℕ → ℕ) (t : TreeOf ElementOf) → IsTypedChecked c → (s : ElementsStandFor c marks old scrolled t)
        → AreKnown (blueprint_of c) (pasts_from c s.forest) (listed (nodes_of scrolled s.forest)) }
    ensures entered { (c : PlainChecked) (marks : List ℕ) (old : Option PlainNode) (scrolled : ℕ → ℕ) (t : TreeOf ElementOf) → (s : ElementsStandFor c marks old scrolled t)
        → TellsEntered (pasts_from c s.forest) (blueprint_of c).defaults old marks (made_count t + 1) }
    ensures built { (c : PlainChecked) (marks : List ℕ) (old : Option PlainNode) (scrolled : ℕ → ℕ) (t : TreeOf ElementOf) (h : Handle) → IsTypedChecked c → ElementsStandFor c marks old scrolled t
        → IsNode t h → IfSome (plain_at (λ _. 0) t h) (IsWellBuilt (declarations_of c)) × IfSome (plain_at (λ _. 0) t h) IsInPlace }
    ensures outputs { (c : PlainChecked) (marks : List ℕ) (old : Option PlainNode) (scrolled : ℕ → ℕ) (t : TreeOf ElementOf) (h : Handle) (e : ElementOf) → IsTypedChecked c → ElementsStandFor c marks old scrolled t
        → element_at t h ≡ Some e → e.dirty ≡ false → (place : ℕ) (props : List Value) → build_role_of (look_of e.widget) ≡ composes place props → IfSome e.output (IsTypedWidget (declarations_of c)) }
    ensures names { (c : PlainChecked) (marks : List ℕ) (old : Option PlainNode) (scrolled : ℕ → ℕ) (t : TreeOf ElementOf) (h : Handle) (e : ElementOf) → IsTypedChecked c → ElementsStandFor c marks old scrolled t
        → element_at t h ≡ Some e → FitsNames (declarations_of c).inherited (build_role_of (look_of e.widget)) }
{
    elements_have_pasts();
    elements_tell_the_last_frame();
    Tree::<Element>::walk_laws();
}

/// The walk that keeps outputs, by what such elements tell, comes to the first phase's tree or its fault, and builds exactly those that
/// are new, marked, have another widget or read another value. A fault of the first phase is the build's, and where no lazy list waits
/// its tree is the build's; then no other widgets are entered. A root that is too large is all that is looked at.
pub fn first_phases_go_on_from_elements()
    ensures same { (c : PlainChecked) (marks : List ℕ) (old : Option PlainNode) (scrolled : ℕ → ℕ) (t : TreeOf ElementOf) (w : PlainWidget) → IsTypedChecked c → (s : ElementsStandFor c marks old scrolled t)
        → reenter (basis (blueprint_of c) old) (pasts_from c s.forest) first depth_limit (blueprint_of c).defaults (root_arrival old w) (started (made_count t + 1))
        ≡ first_tree (blueprint_of c) old (made_count t + 1) w }
    ensures builds { (c : PlainChecked) (marks : List ℕ) (old : Option PlainNode) (scrolled : ℕ → ℕ) (t : TreeOf ElementOf) (w : PlainWidget) → IsTypedChecked c → (s : ElementsStandFor c marks old scrolled t)
        → builds_from (basis (blueprint_of c) old) (pasts_from c s.forest) first depth_limit (blueprint_of c).defaults (root_arrival old w) (started (made_count t + 1))
        ≡ first_builds (blueprint_of c) old marks (made_count t + 1) w }
    ensures large { (b : Blueprint) (screen : Screen) (old : Option PlainNode) (next : ℕ) (w : PlainWidget) → nat_lt output_limit (count_of w) ≡ true
        → (full_build b screen old next w ≡ failed output_too_large) × (entered_widgets b screen old next w ≡ []) }
    ensures fault { (b : Blueprint) (screen : Screen) (old : Option PlainNode) (next : ℕ) (w : PlainWidget) (f : Fault) → nat_lt output_limit (count_of w) ≡ false → first_tree b old next w ≡ stops f
        → (full_build b screen old next w ≡ failed f) × (entered_widgets b screen old next w ≡ first_entered b old next w) }
    ensures whole { (b : Blueprint) (screen : Screen) (old : Option PlainNode) (next : ℕ) (w : PlainWidget) (n : PlainNode) (s : Progress) → nat_lt output_limit (count_of w) ≡ false
        → first_tree b old next w ≡ gives n s → s.waiting ≡ []
        → (full_build b screen old next w ≡ built n s.next) × (entered_widgets b screen old next w ≡ first_entered b old next w) }
{
    standing_elements_are_known();
    walks_keep_what_is_right();
    walks_build_what_changed();
}

/// A tree that is well built has one render node at its top.
pub fn built_trees_have_one_top()
    ensures { (d : Declarations) (t : TreeOf ObjectOf) (scrolled : ℕ → ℕ) (h : Handle) (e : ElementOf) (kids : Forest ElementOf) → IsWellBuilt d (node_over scrolled e kids)
        → AreDrawn (object_at t) scrolled (tree h e kids none) → (k : Handle) × (tops (drawn Plain None (tree h e kids none)) ≡ k ∷ []) }
{
    built_trees_vanish_alone();
}

/// A plan for render nodes that are live can be committed: there is a forest that it leaves. The nodes that it reports as changed are
/// live then, and stay so where marks are set.
pub fn changed_nodes_are_live()
    ensures left { (t : TreeOf ObjectOf) (d : Forest RedrawOf) → ((k : Handle) → In k d → IsNode t k) → (g : Forest ObjectOf) × IsUpdated redrawn (object_at t) d g }
    ensures layout { (t u : TreeOf ObjectOf) (root : Option Handle) (hs : List Handle) (d : Forest RedrawOf) (g : Forest ObjectOf) → IsUpdated redrawn (object_at t) d g → option_to_list root ≡ tops d
        → ((k : Handle) → In k g → IsNode u k) → LaidAnew t root (entries None d) hs → All (IsNode u) hs }
    ensures paint { (t u : TreeOf ObjectOf) (root : Option Handle) (hs : List Handle) (d : Forest RedrawOf) (g : Forest ObjectOf) → IsUpdated redrawn (object_at t) d g → option_to_list root ≡ tops d
        → ((k : Handle) → In k g → IsNode u k) → PaintedAnew t root (entries None d) hs → All (IsNode u) hs }
    ensures tops { (t : TreeOf ObjectOf) (d : Forest RedrawOf) (g : Forest ObjectOf) → IsUpdated redrawn (object_at t) d g → tops g ≡ tops d }
    ensures marked { (m : Marking ObjectOf) (also : Bool) (hs ks : List Handle) (t u : TreeOf ObjectOf) → SetsMarks m also hs t u → All (IsNode t) ks → All (IsNode u) ks }
{
    plans_report_all_changes();
}

/// Once both plans of a build are committed, and the render nodes that change are marked, elements and render nodes stand for the
/// tree of the build, and nothing is flagged. So they do, beside others, once a plan is committed as a part.
pub fn builds_leave_standing_trees()
    ensures elements { (c : PlainChecked) (screen : Screen) (old : Option PlainNode) (next : ℕ) (w : PlainWidget) (scrolled : ℕ → ℕ) (t u : TreeOf ElementOf) (h : Handle) (e : ElementOf) (kids : Forest ElementOf)
        → IsTypedChecked c → IfSome old (IsNumbered next) → IfSome old (IsWellBuilt (declarations_of c)) → IsTypedWidget (declarations_of c) w
        → full_build (blueprint_of c) screen old next w ≡ built (node_over scrolled e kids) (made_count t + 1)
        → AllGoOn (element_at t) (tree h e kids none) → StoreOutputs scrolled (tree h e kids none) → ((n : ℕ) → made_count t + 1 ≤ n → scrolled n ≡ 0)
        → Is u (tree h e kids none) → u.root ≡ Some h → made_count u ≡ made_count t
        → (s : ElementsStandFor c [] (Some (node_over scrolled e kids)) scrolled u) × (s.forest ≡ tree h e kids none) }
    ensures renders { (scrolled : ℕ → ℕ) (old : Option PlainNode) (f : Forest ElementOf) (t u v x : TreeOf ObjectOf) (g : Forest ObjectOf) (laid painted : List Handle)
        → option_to_list old ≡ nodes_of scrolled f → AreDrawn (object_at t) scrolled f → IsUpdated redrawn (object_at t) (drawn Plain None f) g
        → Is u g → option_to_list u.root ≡ tops g → SetsMarks layout_marks true laid u v → SetsMarks paint_marks true painted v x
        → RendersStandFor old scrolled f x }
    ensures beside { (scrolled : ℕ → ℕ) (old : Option PlainNode) (f : Forest ElementOf) (t u v x : TreeOf ObjectOf) (g others : Forest ObjectOf) (laid painted : List Handle)
        → option_to_list old ≡ nodes_of scrolled f → AreDrawn (object_at t) scrolled f → IsUpdated redrawn (object_at t) (drawn Plain None f) g
        → Is u (append g others) → option_to_list u.root ≡ tops g → SetsMarks layout_marks true laid u v → SetsMarks paint_marks true painted v x
        → RendersStandBeside old scrolled f x }
{
    builds_are_well_built();
    numbers_differ();
    builds_leave_fresh_trees();
    one_forest_plans_both_trees();
}
