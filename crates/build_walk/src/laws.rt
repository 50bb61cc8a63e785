// Laws of builds that keep what bodies gave before.
ghost use Rattle.std.specs.Prelude.{◌≡◌, ◌⊎◌, ℕ, ◌≤◌, ℤ, true, false, Decides, List, [], ◌∷◌, ◌++◌, Option, Some, None, IfSome, filter, length, map, slice_get};
ghost use Rattle.std.specs.Option.{option_to_list};
ghost use Rattle.delegates.specs.Table.{Plug};
ghost use Rattle.fx_expr.specs.declared.handlers.Handler.{Handler};
ghost use Rattle.fx_expr.specs.declared.values.Value.{Value};
ghost use Rattle.fx_handles.specs.declared.Handle.{Handle};
ghost use Rattle.node_tree.specs.Forest.{Forest, tops, append, Stands};
ghost use Rattle.node_tree.specs.Forest.Forest.{none, tree};
ghost use Rattle.node_tree.specs.Children.{Keeps};
ghost use Rattle.node_tree.specs.Plan.{entries, IsPlan, IsUpdated};
ghost use Rattle.node_tree.specs.Tree.{Tree as TreeOf, node_at};
ghost use Rattle.widget_model.specs.Plain.{PlainWidget};
ghost use Rattle.widget_model.specs.Typed.{IsTypedWidget};
ghost use Rattle.program_check.specs.Checked.{PlainChecked, PlainCheckedComponent};
ghost use Rattle.program_check.specs.Decl.{names_read};
ghost use Rattle.program_check.specs.TypedChecked.{IsTypedChecked};
ghost use Rattle.template_build.specs.Program.{declarations_of, component_output};
ghost use Rattle.plain_tree.specs.declared.render.ParentData.{ParentData};
ghost use Rattle.plain_tree.specs.declared.role.RenderRole.{RenderRole};
ghost use Rattle.plain_tree.specs.declared.role.RenderRole.TheVariants.{Lazy, Plain};
ghost use Rattle.plain_tree.specs.At.{numbers_in, having_fields, having_scroll, changed_at};
ghost use Rattle.plain_tree.specs.Offsets.{scrolled_by};
ghost use Rattle.plain_tree.specs.Laws.{AllDiffer};
ghost use Rattle.plain_tree.specs.PlainNode.{PlainNode, nodes_of as listed};
ghost use Rattle.plain_tree.specs.Projection.{projected_all};
ghost use Rattle.plain_tree.specs.RenderRole.{vanishes};
ghost use Rattle.plain_tree.specs.Render.{renders_of as renders_listed};
ghost use Rattle.element_tree.specs.Element.{Element as ElementOf, element_at};
ghost use Rattle.element_tree.specs.Nodes.{nodes_of};
ghost use Rattle.element_tree.specs.Renewal.{renewed, FollowsIn};
ghost use Rattle.tree_marks.specs.Marks.{listed as is_listed};
ghost use Rattle.render_tree.specs.Changes.{LaidAnew, PaintedAnew, BecomesRoot};
ghost use Rattle.render_tree.specs.Object.{RenderObject as ObjectOf, object_look};
ghost use Rattle.render_tree.specs.Plain.{renders_of};
ghost use Rattle.render_tree.specs.Redraw.{Redraw as RedrawOf, redrawn};
ghost use Rattle.render_tree.specs.Tree.{object_at};
ghost use Rattle.build_form.specs.Step.{Progress, gives, and_then, each};
ghost use Rattle.build_form.specs.Partner.{Arrival};
ghost use Rattle.build_form.specs.Entering.{Blueprint, Basis, Phase, enter};
ghost use Rattle.build_form.specs.FullBuild.{Screen, Ranges, built, full_build, first_tree, filled};
ghost use Rattle.build_form.specs.Numbered.{IsNumbered};
ghost use Rattle.build_form.specs.Program.{names_in, blueprint_of};
ghost use Rattle.build_form.specs.WellBuilt.{IsWellBuilt, AreWellBuilt};
ghost use Rattle.session_form.specs.Changing.{with_field, scrolled_to};
ghost use Rattle.session_form.specs.Framing.{screen_of, built_of, framed};
ghost use Rattle.session_form.specs.Handlers.{handled};
ghost use Rattle.session_form.specs.State.{SessionState, first_state};
ghost use Rattle.work_sets.specs.Due.{is_due};
ghost use Rattle.work_sets.specs.Entered.{Entered, seen_from, seen_filling, entered_widgets};
ghost use Rattle.work_roles.specs.Place.{RegionPlace};
ghost use Rattle.work_roles.specs.WorkRole.{is_offstage};
ghost use Rattle.work_sets.specs.Before.{Before};
ghost use Rattle.work_sets.specs.InTree.{standing};
ghost use Rattle.work_sets.specs.Layout.{is_same_for_layout, is_changed};
ghost use Rattle.work_sets.specs.Paint.{is_same_for_paint, differs_since};
ghost use Rattle.work_sets.specs.Work.{due_components};
ghost use Rattle.build_walk.specs.FreshState.{IsFreshState};
ghost use Rattle.build_walk.specs.Reading.{AgreeAt};
ghost use Rattle.build_walk.specs.Past.{Pasts, is_marked, past_in};
ghost use Rattle.build_walk.specs.Fresh.{ReadsItsNames, HasFreshOutputs, HaveFreshOutputs, IsKnown, AreKnown, WaitKnown};
ghost use Rattle.build_walk.specs.Keeping.{reenter, refilled, rebuild};
ghost use Rattle.build_walk.specs.Counting.{is_built, builds_by_each, builds_from, builds_filling, build_count, TellsEntered};
ghost use Rattle.build_walk.specs.Renewing.{renewals, GoesOn, AllGoOn, role_of, drawn, IsDrawn, AreDrawn};
ghost use Rattle.build_walk.specs.Serving.{WaitingList, waiting_lists, all_waiting_lists, served, builds_serving, put_in, all_put_in};
ghost use Rattle.build_walk.specs.Merging.{lists_element, lists_renewal, lists_redraw, grow, list_handles, AreBare, ListsAreBare, AllListsAreBare, merged, serving_each, merge};
ghost use Rattle.build_walk.specs.Changing.{render_over, AreNumbered, TellsApart, KeepsForLayout, KeepsForPaint, OthersStay, SomeChanges, OthersLook, SomeLooks, StoodBelow, AreSizedSame, ChangesForLayout, ChangesForPaint, object_number};
ghost use Rattle.build_walk.specs.Telling.{TellPasts, HoldOutputs, StoreOutputs, AreFlagged};
ghost use Rattle.build_walk.specs.Walked.{WalkPlans, WalkPlace, Walked, through, under, planned_through, planned_under, without_tops};
ghost use Rattle.build_walk.specs.Entered.{IsEntered, AreEntered};
ghost use Rattle.build_walk.specs.WorkedRebuilds.{WorksOfRebuilds};

use element_tree::{Element, Renewal};
use node_tree::Tree;
use render_tree::{Redraw, RenderObject};
use work_sets::same_means_equal;

/// What the body of a component gives depends on the inherited names alone that stand in it, which its declaration lists.
pub fn outputs_read_their_names()
    ensures bodies { (c : PlainChecked) (place : ℕ) (component : PlainCheckedComponent) (props fields was now : List Value) (slots : List PlainWidget) (number : ℕ)
        → slice_get c.components place ≡ Some component → length was ≡ length c.inherited.names → length now ≡ length c.inherited.names
        → AgreeAt (names_read (length c.inherited.names) component.body) was now
        → component_output c place (names_in props fields was) slots number ≡ component_output c place (names_in props fields now) slots number }
    ensures widgets { (c : PlainChecked) (w : PlainWidget) → IsTypedChecked c → IsTypedWidget (declarations_of c) w → ReadsItsNames (blueprint_of c) w }
{}

/// In the tree that a build gives, and in the first phase's, each component has below it what its body gives.
pub fn builds_leave_fresh_trees()
    ensures first { (b : Blueprint) (old : Option PlainNode) (next : ℕ) (root : PlainWidget) (tree : PlainNode) (s : Progress)
        → first_tree b old next root ≡ gives tree s → HasFreshOutputs b [] b.defaults tree }
    ensures whole { (b : Blueprint) (screen : Screen) (old : Option PlainNode) (next after : ℕ) (root : PlainWidget) (tree : PlainNode)
        → full_build b screen old next root ≡ built tree after → HasFreshOutputs b [] b.defaults tree }
{}

/// A walk that keeps the outputs of components that are unchanged comes to what the definition's walk comes to, its faults and
/// numbers too, in either phase, where what it knows of the old tree is right.
pub fn walks_keep_what_is_right()
    ensures enters { (from : Basis) (pasts : Pasts) (phase : Phase) (left : ℕ) (values : List Value) (a : Arrival) (s : Progress)
        → ((k : Value) → IfSome (from.holder k) (IsKnown from.program pasts)) → IfSome a.beside (IsKnown from.program pasts)
        → WaitKnown from.program pasts s.waiting → length values ≡ length from.program.defaults
        → reenter from pasts phase left values a s ≡ enter from phase left values a s }
    ensures fills { (from : Basis) (pasts : Pasts) (ranges : Ranges) (left : ℕ) (values : List Value) (tree : PlainNode) (s : Progress)
        → ((k : Value) → IfSome (from.holder k) (IsKnown from.program pasts))
        → WaitKnown from.program pasts s.waiting → length values ≡ length from.program.defaults
        → refilled from pasts ranges left values tree s ≡ filled from ranges left values tree s }
{
    same_means_equal();
}

/// After a tree that a build gave, of which some nodes were marked and each other component still has below it what its body gives,
/// the build that keeps outputs comes to what the full build comes to: the same tree and numbers, or the same fault.
pub fn keeping_comes_to_the_full_build()
    ensures { (c : PlainChecked) (screen : Screen) (old : Option PlainNode) (marks : List ℕ) (next : ℕ) (root : PlainWidget) → IsTypedChecked c
        → IfSome old (IsNumbered next) → IfSome old (IsWellBuilt (declarations_of c)) → IfSome old (HasFreshOutputs (blueprint_of c) marks (blueprint_of c).defaults)
        → rebuild (blueprint_of c) screen old marks next root ≡ full_build (blueprint_of c) screen old next root }
{
    same_means_equal();
}

/// A change of a node's fields, where the node is marked then, a change of an offset, and the offsets that a layout gives leave each
/// component that isn't marked with what its body gives; and so do more marks.
pub fn edits_leave_fresh_trees()
    ensures fields { (b : Blueprint) (marks : List ℕ) (values : List Value) (f : PlainNode → List Value) (wanted : ℕ) (n : PlainNode)
        → HasFreshOutputs b marks values n → HasFreshOutputs b (marks ++ wanted ∷ []) values (changed_at (λ m. having_fields (f m) m) wanted n) }
    ensures scroll { (b : Blueprint) (marks : List ℕ) (values : List Value) (scroll wanted : ℕ) (n : PlainNode)
        → HasFreshOutputs b marks values n → HasFreshOutputs b marks values (changed_at (having_scroll scroll) wanted n) }
    ensures offsets { (b : Blueprint) (marks : List ℕ) (values : List Value) (offset : ℕ → Option ℕ) (n : PlainNode)
        → HasFreshOutputs b marks values n → HasFreshOutputs b marks values (scrolled_by offset n) }
    ensures marked { (b : Blueprint) (marks more : List ℕ) (values : List Value) (n : PlainNode)
        → HasFreshOutputs b marks values n → HasFreshOutputs b (marks ++ more) values n }
{}

/// The components that such a build builds, also one that ends with a fault, are those of the widgets that it enters that are new,
/// marked, have another widget, or read an inherited name that has another value. Each of them is due.
pub fn what_is_built_is_due()
    ensures counted { (c : PlainChecked) (screen : Screen) (old : Option PlainNode) (marks : List ℕ) (next : ℕ) (root : PlainWidget) → IsTypedChecked c
        → IfSome old (IsNumbered next) → IfSome old (IsWellBuilt (declarations_of c)) → IfSome old (HasFreshOutputs (blueprint_of c) marks (blueprint_of c).defaults)
        → build_count (blueprint_of c) screen old marks next root
        ≡ length (filter (is_built (blueprint_of c).defaults old marks) (entered_widgets (blueprint_of c) screen old next root)) }
    ensures due { (defaults : List Value) (old : Option PlainNode) (marks : List ℕ) (e : Entered) → is_built defaults old marks e ≡ true → is_due defaults old marks e ≡ true }
    ensures bound { (c : PlainChecked) (screen : Screen) (old : Option PlainNode) (marks : List ℕ) (next : ℕ) (root : PlainWidget) → IsTypedChecked c
        → IfSome old (IsNumbered next) → IfSome old (IsWellBuilt (declarations_of c)) → IfSome old (HasFreshOutputs (blueprint_of c) marks (blueprint_of c).defaults)
        → build_count (blueprint_of c) screen old marks next root
        ≤ length (filter (is_due (blueprint_of c).defaults old marks) (entered_widgets (blueprint_of c) screen old next root)) }
{
    same_means_equal();
}

/// What builds of small trees that keep outputs come to, and how many components they build, is as it was worked out by hand.
pub fn worked_rebuilds()
    ensures { WorksOfRebuilds }
{}

/// One forest of new elements, each of which goes on from what is stored at its handle, says what is planned for both trees, where
/// no two of them have one number: its plan for the elements leaves exactly these elements, and its plan for the render nodes leaves
/// the render nodes of the plain nodes that they are.
pub fn one_forest_plans_both_trees()
    ensures elements { (t : TreeOf ElementOf) (root : Option Handle) (scrolled : ℕ → ℕ) (f : Forest ElementOf) → AllGoOn (element_at t) f
        → AllDiffer (numbers_in (listed (nodes_of scrolled f))) → option_to_list root ≡ tops f → IsPlan t (entries None (renewals f)) root [] (renewals f) }
    ensures follows { (t : TreeOf ElementOf) (f : Forest ElementOf) → AllGoOn (element_at t) f → FollowsIn t (entries None (renewals f)) }
    ensures renewed { (t : TreeOf ElementOf) (f : Forest ElementOf) → AllGoOn (element_at t) f → IsUpdated renewed (element_at t) (renewals f) f }
    ensures drawn { (t : TreeOf ObjectOf) (root : Option Handle) (inactive : List Handle) (scrolled : ℕ → ℕ) (f : Forest ElementOf) → AreDrawn (object_at t) scrolled f
        → AllDiffer (numbers_in (listed (nodes_of scrolled f))) → option_to_list root ++ inactive ≡ tops (drawn Plain None f)
        → IsPlan t (entries None (drawn Plain None f)) root inactive (drawn Plain None f) }
    ensures renders { (t : TreeOf ObjectOf) (scrolled : ℕ → ℕ) (f : Forest ElementOf) (g : Forest ObjectOf) → AreDrawn (object_at t) scrolled f
        → IsUpdated redrawn (object_at t) (drawn Plain None f) g → renders_of g ≡ renders_listed (projected_all Plain None (listed (nodes_of scrolled f))) }
{
    Tree::<Element>::plan_laws::<Renewal>();
    Tree::<RenderObject>::plan_laws::<Redraw>();
}

/// The second phase, which goes over the first one's tree, is one pass over its lazy lists: each gets its items in turn, and then all
/// are put in place. So are its builds counted, also up to a fault.
pub fn lists_are_served_in_order()
    ensures nodes { (from : Basis) (pasts : Pasts) (ranges : Ranges) (left : ℕ) (values : List Value) (tree : PlainNode) (s : Progress)
        → refilled from pasts ranges left values tree s
        ≡ and_then (each (served from pasts ranges) (waiting_lists left values tree) s) (λ nss t. gives (put_in tree nss).whole t) }
    ensures builds { (from : Basis) (pasts : Pasts) (ranges : Ranges) (left : ℕ) (values : List Value) (tree : PlainNode) (s : Progress)
        → builds_filling from pasts ranges left values tree s
        ≡ builds_by_each (served from pasts ranges) (builds_serving from pasts ranges) (waiting_lists left values tree) s }
{}

/// Nothing is below a lazy list of the first phase's tree, so neither is below one of the elements that stand for it.
pub fn waiting_lists_are_bare()
    ensures first { (b : Blueprint) (old : Option PlainNode) (next : ℕ) (root : PlainWidget) (tree : PlainNode) (s : Progress)
        → first_tree b old next root ≡ gives tree s → ListsAreBare tree }
    ensures elements { (scrolled : ℕ → ℕ) (f : Forest ElementOf) → AllListsAreBare (listed (nodes_of scrolled f)) → AreBare lists_element f }
{}

/// Where nothing is below a lazy list yet, the plan into which the plans of the lists' items are merged, list by list, is the plan of
/// the forest into which the items are put: so it is of any plan. What is so put together of elements is what the second phase puts
/// together of plain nodes, and it says again what is planned for both trees.
pub fn plans_of_items_are_merged()
    ensures elements { (p : Option Handle) (f : Forest ElementOf) (gs : List (Forest ElementOf)) → AreBare lists_element f
        → merge lists_renewal (entries p (renewals f)) (serving_each (list_handles lists_renewal (renewals f)) (map renewals gs))
        ≡ merged (entries p (renewals (grow lists_element f gs).forest)) [] }
    ensures drawn { (t : TreeOf ObjectOf) (scrolled : ℕ → ℕ) (p : Option Handle) (f : Forest ElementOf) (gs : List (Forest ElementOf)) → AreDrawn (object_at t) scrolled f
        → AreBare lists_element f
        → merge lists_redraw (entries p (drawn Plain None f)) (serving_each (list_handles lists_redraw (drawn Plain None f)) (map (drawn Lazy None) gs))
        ≡ merged (entries p (drawn Plain None (grow lists_element f gs).forest)) [] }
    ensures nodes { (scrolled : ℕ → ℕ) (f : Forest ElementOf) (gs : List (Forest ElementOf))
        → (all_put_in (listed (nodes_of scrolled f)) (map (nodes_of scrolled) gs)).whole ≡ listed (nodes_of scrolled (grow lists_element f gs).forest) }
{}

/// What a plan reports by handles is what the work sets say by numbers, at each node that stays: where no number stands for two
/// handles, a layout reads the same of the plain render node exactly where it reads the same of the node itself, and its children have
/// their handles and are told the same; and it has the same to paint exactly where it has the members, callbacks and children.
pub fn plans_report_what_differs()
    ensures layout { (numbered : Handle → Option ℕ) (o w : ObjectOf) (was now : Forest ObjectOf) → TellsApart numbered → AreNumbered numbered was → AreNumbered numbered now
        → w.scroll ≡ o.scroll → Decides (is_same_for_layout (render_over o was) (render_over w now)) (KeepsForLayout o was w now) }
    ensures paint { (numbered : Handle → Option ℕ) (o w : ObjectOf) (was now : Forest ObjectOf) → TellsApart numbered → AreNumbered numbered was → AreNumbered numbered now
        → Decides (is_same_for_paint (render_over o was) (render_over w now)) (KeepsForPaint o was w now) }
{
    same_means_equal();
}

/// What elements tell of the last frame is right, where each that has no flag stores what its body gives; and this it does, where the
/// plain nodes that they are have below them what bodies give, and each component stores the widget below it.
pub fn elements_tell_the_last_frame()
    ensures known { (c : PlainChecked) (pasts : Pasts) (scrolled : ℕ → ℕ) (f : Forest ElementOf) → IsTypedChecked c
        → AreWellBuilt (declarations_of c) (listed (nodes_of scrolled f)) → TellPasts pasts (blueprint_of c).defaults f → HoldOutputs (blueprint_of c) (blueprint_of c).defaults f
        → AreKnown (blueprint_of c) pasts (listed (nodes_of scrolled f)) }
    ensures held { (b : Blueprint) (marks : List ℕ) (values : List Value) (scrolled : ℕ → ℕ) (f : Forest ElementOf) → StoreOutputs scrolled f
        → AreFlagged (λ number. is_marked marks number ≡ false) f → HaveFreshOutputs b marks values (listed (nodes_of scrolled f)) → HoldOutputs b values f }
{}

/// What a forest of elements says is said tree by tree: both plans, the plain nodes, the lists that wait and their handles; and it
/// goes on from what is stored where each tree does, also where more is stored later.
pub fn forests_are_walked_in_turn()
    ensures renewals { (f g : Forest ElementOf) → renewals (append f g) ≡ append (renewals f) (renewals g) }
    ensures drawn { (above : RenderRole) (told : Option ParentData) (f g : Forest ElementOf) → drawn above told (append f g) ≡ append (drawn above told f) (drawn above told g) }
    ensures nodes { (scrolled : ℕ → ℕ) (f g : Forest ElementOf) → nodes_of scrolled (append f g) ≡ nodes_of scrolled f ++ nodes_of scrolled g }
    ensures lists { (left : ℕ) (values : List Value) (ms ns : List PlainNode)
        → all_waiting_lists left values (listed (ms ++ ns)) ≡ all_waiting_lists left values (listed ms) ++ all_waiting_lists left values (listed ns) }
    ensures handles { (f g : Forest ElementOf) → list_handles lists_element (append f g) ≡ list_handles lists_element f ++ list_handles lists_element g }
    ensures drawn_handles { (f g : Forest RedrawOf) → list_handles lists_redraw (append f g) ≡ list_handles lists_redraw f ++ list_handles lists_redraw g }
    ensures elements { (t : TreeOf ElementOf) (f g : Forest ElementOf) → AllGoOn (element_at t) f → AllGoOn (element_at t) g → AllGoOn (element_at t) (append f g) }
    ensures objects { (t : TreeOf ObjectOf) (scrolled : ℕ → ℕ) (f g : Forest ElementOf)
        → AreDrawn (object_at t) scrolled f → AreDrawn (object_at t) scrolled g → AreDrawn (object_at t) scrolled (append f g) }
    ensures later_elements { (old new : TreeOf ElementOf) (f : Forest ElementOf) → Keeps old new → AllGoOn (element_at old) f → AllGoOn (element_at new) f }
    ensures later_objects { (old new : TreeOf ObjectOf) (scrolled : ℕ → ℕ) (f : Forest ElementOf) → Keeps old new → AreDrawn (object_at old) scrolled f
        → AreDrawn (object_at new) scrolled f }
{
    Tree::<Element>::keep_laws();
    Tree::<RenderObject>::keep_laws();
}

/// What a plan reports as changed for layout, and for painting, is what changes in the forest that it leaves: each node that isn't
/// reported is as it was, with what is right below it, and each that is reported is a new root or changes.
pub fn plans_report_all_changes()
    ensures layout { (t : TreeOf ObjectOf) (root : Option Handle) (hs : List Handle) (d : Forest RedrawOf) (g : Forest ObjectOf) → IsUpdated redrawn (object_at t) d g
        → LaidAnew t root (entries None d) hs → OthersStay t hs g }
    ensures layout_causes { (t : TreeOf ObjectOf) (root : Option Handle) (hs : List Handle) (d : Forest RedrawOf) (g : Forest ObjectOf) (h : Handle) → IsUpdated redrawn (object_at t) d g
        → LaidAnew t root (entries None d) hs → is_listed h hs ≡ true → SomeChanges t h g ⊎ BecomesRoot t root h }
    ensures paint { (t : TreeOf ObjectOf) (root : Option Handle) (hs : List Handle) (d : Forest RedrawOf) (g : Forest ObjectOf) → IsUpdated redrawn (object_at t) d g
        → PaintedAnew t root (entries None d) hs → OthersLook t hs g }
    ensures paint_causes { (t : TreeOf ObjectOf) (root : Option Handle) (hs : List Handle) (d : Forest RedrawOf) (g : Forest ObjectOf) (h : Handle) → IsUpdated redrawn (object_at t) d g
        → PaintedAnew t root (entries None d) hs → is_listed h hs ≡ true → SomeLooks t h g ⊎ BecomesRoot t root h }
{}

/// The state of a session that begins, and the state after a frame, are such that the next build may keep outputs; and a state stays so
/// where a field is set, a handler is run, or a Viewport is scrolled, and where neither its tree nor its marks change.
pub fn states_stay_fresh()
    ensures first { (c : PlainChecked) (delegates : List Plug) → IsFreshState (first_state c delegates) }
    ensures framed { (s : SessionState) (tree : PlainNode) (next : ℕ) → built_of s ≡ built tree next → IsFreshState (framed s tree next) }
    ensures set { (s : SessionState) (number place : ℕ) (v : Value) → IsFreshState s → IsFreshState (with_field number place v s) }
    ensures handled { (s : SessionState) (h : Handler) (dx dy : ℤ) → IsFreshState s → IsFreshState (handled h dx dy s) }
    ensures scrolled { (s : SessionState) (number offset : ℕ) → IsFreshState s → IsFreshState (scrolled_to number offset s) }
    ensures kept { (s t : SessionState) → t.program ≡ s.program → t.tree ≡ s.tree → t.marks ≡ s.marks → IsFreshState s → IsFreshState t }
{}

/// In such a state of a session, whose program and tree are typed and whose numbers differ, a frame's build that keeps outputs comes to
/// the frame's build, and builds at most as many components as are due.
pub fn frames_keep_outputs()
    ensures built { (s : SessionState) → IsTypedChecked s.program → IfSome s.tree (IsNumbered s.next) → IfSome s.tree (IsWellBuilt (declarations_of s.program)) → IsFreshState s
        → rebuild (blueprint_of s.program) (screen_of s) s.tree s.marks s.next s.root ≡ built_of s }
    ensures due { (s : SessionState) → IsTypedChecked s.program → IfSome s.tree (IsNumbered s.next) → IfSome s.tree (IsWellBuilt (declarations_of s.program)) → IsFreshState s
        → build_count (blueprint_of s.program) (screen_of s) s.tree s.marks s.next s.root ≤ length (due_components s) }
{
    same_means_equal();
}

/// A node that changes is changed by the words of the work sets, against the render tree that stood before, where no number stands for
/// two handles: for layout, unless the size of a node right below it follows otherwise from its bounds; and for painting.
pub fn changed_nodes_are_in_the_work_sets()
    ensures layout { (t : TreeOf ObjectOf) (before : Before) (top : Handle) (root : ObjectOf) (kids : Forest ObjectOf) (h : Handle) (o w : ObjectOf) (now : Forest ObjectOf) (p : RegionPlace)
        → TellsApart (object_number t) → Stands (node_at t) None (tree top root kids none) → before.tree ≡ Some (render_over root kids)
        → object_at t h ≡ Some o → w.number ≡ o.number → AreNumbered (object_number t) now → w.scroll ≡ o.scroll → ChangesForLayout t h w now
        → (is_changed before p (render_over w now) ≡ true) ⊎ ((was : Forest ObjectOf) × StoodBelow t h was × (AreSizedSame (is_offstage (object_look o)) was now → ⊥)) }
    ensures paint { (t : TreeOf ObjectOf) (before : Before) (top : Handle) (root : ObjectOf) (kids : Forest ObjectOf) (h : Handle) (o w : ObjectOf) (now : Forest ObjectOf) (p : RegionPlace)
        → TellsApart (object_number t) → Stands (node_at t) None (tree top root kids none) → before.tree ≡ Some (render_over root kids)
        → object_at t h ≡ Some o → w.number ≡ o.number → AreNumbered (object_number t) now → ChangesForPaint t h w now
        → differs_since (standing before.tree w.number) p (render_over w now) ≡ true }
    ensures numbered { (t : TreeOf ObjectOf) (d : Forest RedrawOf) (g : Forest ObjectOf) → IsUpdated redrawn (object_at t) d g → AreNumbered (object_number t) g }
{
    same_means_equal();
}

/// Wherever a walk that keeps outputs enters, it builds exactly the components of those that are entered that are new, marked, have
/// another widget or read another value, in either phase, and also up to a fault, where what it knows of numbers is what was entered
/// with them.
pub fn walks_build_what_changed()
    ensures enters { (from : Basis) (pasts : Pasts) (old : Option PlainNode) (marks : List ℕ) (free : ℕ) (phase : Phase) (left : ℕ) (above : List ℕ) (values : List Value) (a : Arrival) (s : Progress)
        → ((k : Value) → IfSome (from.holder k) (IsKnown from.program pasts)) → TellsEntered pasts from.program.defaults old marks free
        → IfSome a.beside (IsKnown from.program pasts) → WaitKnown from.program pasts s.waiting → free ≤ s.next → length values ≡ length from.program.defaults
        → builds_from from pasts phase left values a s ≡ length (filter (is_built from.program.defaults old marks) (seen_from from phase left above values a s)) }
    ensures fills { (from : Basis) (pasts : Pasts) (old : Option PlainNode) (marks : List ℕ) (free : ℕ) (ranges : Ranges) (left : ℕ) (above : List ℕ) (values : List Value) (tree : PlainNode) (s : Progress)
        → ((k : Value) → IfSome (from.holder k) (IsKnown from.program pasts)) → TellsEntered pasts from.program.defaults old marks free
        → WaitKnown from.program pasts s.waiting → free ≤ s.next → length values ≡ length from.program.defaults
        → builds_filling from pasts ranges left values tree s ≡ length (filter (is_built from.program.defaults old marks) (seen_filling from ranges left above values tree s)) }
    ensures known { (marks : List ℕ) (defaults : List Value) (old : Option PlainNode) (next : ℕ) → IfSome old (IsNumbered next)
        → TellsEntered (past_in marks defaults old) defaults old marks next }
{
    same_means_equal();
}

/// Parts of a walk that follow one another at one place are one part, of which the elements of both come; and a part that enters
/// nothing plans nothing.
pub fn walks_join()
    ensures nothing { (phase : Phase) (t : TreeOf ElementOf) (r : TreeOf ObjectOf) (scrolled : ℕ → ℕ) (at : WalkPlace) (p : WalkPlans) → Walked phase t r scrolled at p p none }
    ensures both { (phase : Phase) (t u : TreeOf ElementOf) (r s : TreeOf ObjectOf) (scrolled : ℕ → ℕ) (at : WalkPlace) (old mid new : WalkPlans) (f g : Forest ElementOf)
        → Keeps t u → Keeps r s → Walked phase t r scrolled at old mid f → Walked phase u s scrolled at mid new g → Walked phase u s scrolled at old new (append f g) }
{
    Tree::<Element>::keep_laws();
    Tree::<RenderObject>::keep_laws();
}

/// A node is walked once what is below it is and its entries are planned: of an element without a render node its own, after those of
/// what is below it; of one with a render node also that one's, with the render nodes that were walked below it. A lazy list of the first phase waits.
pub fn nodes_are_walked()
    ensures through { (phase : Phase) (t : TreeOf ElementOf) (r : TreeOf ObjectOf) (scrolled : ℕ → ℕ) (at : WalkPlace) (h : Handle) (e : ElementOf) (kids : Forest ElementOf) (old mid : WalkPlans)
        → GoesOn (element_at t) h e → vanishes (role_of e) ≡ true → lists_element e ≡ false → Walked phase t r scrolled (through at h e) old mid kids
        → Walked phase t r scrolled at old (planned_through at h e (tops kids) mid) (tree h e kids none) }
    ensures under { (phase : Phase) (t : TreeOf ElementOf) (r : TreeOf ObjectOf) (scrolled : ℕ → ℕ) (at : WalkPlace) (h k : Handle) (e : ElementOf) (itself : WaitingList) (kids : Forest ElementOf) (old mid : WalkPlans)
        → GoesOn (element_at t) h e → vanishes (role_of e) ≡ false → IsDrawn (object_at r) (scrolled e.number) e → e.render ≡ Some k
        → Walked phase t r scrolled (under h k e) (without_tops old) mid kids
        → Walked phase t r scrolled at old (planned_under phase at h k e itself (tops kids) old mid) (tree h e kids none) }
{}

/// Widgets that are entered one after another: no widget leaves all as it is, and one widget more is one tree more.
pub fn widgets_are_entered_in_turn()
    ensures none { (from : Basis) (pasts : Pasts) (phase : Phase) (left : ℕ) (values : List Value) (scrolled : ℕ → ℕ) (at : WalkPlace) (s : Progress) (t : TreeOf ElementOf) (r : TreeOf ObjectOf) (p : WalkPlans)
        → AreEntered from pasts phase left values scrolled at [] s s t r p p [] }
    ensures more { (from : Basis) (pasts : Pasts) (phase : Phase) (left : ℕ) (values : List Value) (scrolled : ℕ → ℕ) (at : WalkPlace) (arriving : List Arrival) (a : Arrival) (before mid after : Progress)
        (t u : TreeOf ElementOf) (r s : TreeOf ObjectOf) (old halfway new : WalkPlans) (hs : List Handle) (h : Handle) → Keeps t u → Keeps r s
        → AreEntered from pasts phase left values scrolled at arriving before mid t r old halfway hs → IsEntered from pasts phase left values scrolled at a mid after u s halfway new h
        → AreEntered from pasts phase left values scrolled at (arriving ++ a ∷ []) before after u s old new (hs ++ h ∷ []) }
{
    Tree::<Element>::keep_laws();
    Tree::<RenderObject>::keep_laws();
}
