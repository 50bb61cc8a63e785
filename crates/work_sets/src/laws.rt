// Laws of the work sets.
ghost use Rattle.std.specs.Prelude.{◌≡◌, ℕ, ◌≤◌, Bool, Decides, Option, Some, None, List, [], filter, length};
ghost use Rattle.fx_expr.specs.declared.values.Value.{Value};
ghost use Rattle.fx_geom.specs.declared.boxes.Bounds.{Bounds};
ghost use Rattle.fx_geom.specs.declared.lengths.Len.{Len};
ghost use Rattle.fx_geom.specs.declared.shapes.Axis.{Axis};
ghost use Rattle.sliver_layout.specs.declared.protocol.SliverBounds.{SliverBounds};
ghost use Rattle.widget_model.specs.Look.{Look};
ghost use Rattle.widget_model.specs.Plain.{PlainWidget};
ghost use Rattle.layout_form.specs.Layout.{box_rule, sliver_rule, intrinsic_rule};
ghost use Rattle.layout_form.specs.Object.{Setting, Object};
ghost use Rattle.plain_tree.specs.declared.laid.Frame.{Frame};
ghost use Rattle.plain_tree.specs.declared.render.ParentData.{ParentData};
ghost use Rattle.plain_tree.specs.At.{numbers_of};
ghost use Rattle.plain_tree.specs.Laws.{render_numbers_of, IsLeftOf, AllDiffer};
ghost use Rattle.plain_tree.specs.PlainNode.{PlainNode};
ghost use Rattle.plain_tree.specs.Render.{Render, count_of};
ghost use Rattle.build_form.specs.Entering.{Blueprint, Phase, first, depth_limit, enter};
ghost use Rattle.build_form.specs.FullBuild.{Screen, built, full_build, basis};
ghost use Rattle.build_form.specs.Partner.{Arrival};
ghost use Rattle.build_form.specs.Step.{Progress, gives};
ghost use Rattle.session_form.specs.Framing.{built_of};
ghost use Rattle.session_form.specs.State.{SessionState};
ghost use Rattle.work_sets.specs.Before.{Before};
ghost use Rattle.work_sets.specs.Due.{is_due};
ghost use Rattle.work_sets.specs.Entered.{Entered, entered_of, entered_widgets, seen_from};
ghost use Rattle.work_roles.specs.ForLayout.{for_layout};
ghost use Rattle.work_sets.specs.Laws.{IsOfSubtrees, IsOfGroups, IsUnchanged, ChangesMore, AsksMore, IsQuiet, IsShownAgain, tree_built, new_tree};
ghost use Rattle.work_sets.specs.Layout.{is_told_same, layout_region, idle_region};
ghost use Rattle.work_sets.specs.Members.{is_same_look, is_same_widget};
ghost use Rattle.work_sets.specs.Paint.{Asks, Shows, coded_frames, group_asks, groups_of, paint_region, idle_groups};
ghost use Rattle.work_roles.specs.Place.{at_root};
ghost use Rattle.work_sets.specs.Region.{Judge, region_of};
ghost use Rattle.work_sets.specs.Same.{is_same};
ghost use Rattle.work_sets.specs.Scripts.{Works};
ghost use Rattle.work_sets.specs.Work.{made};

/// The work sets of frames after small scripts are as they were worked out by hand.
pub fn worked_work_sets()
    ensures { Works }
{}

/// Whatever counts as a firm boundary and as changed, the layout region has with a node all that is below it.
pub fn layout_regions_are_whole()
    ensures { (judge : Judge) (root : Render) → IsOfSubtrees (region_of judge root) root }
{}

/// Whatever asks to be painted, the paint region has with a node all of its group.
pub fn paint_regions_are_whole()
    ensures { (asks : Asks) (root : Render) → IsOfGroups (group_asks asks at_root root) (groups_of asks root) root }
{}

/// Both regions have nodes of the tree alone, each once at most where it stands once in the tree, in its order.
pub fn regions_keep_to_the_tree()
    ensures layout { (judge : Judge) (root : Render) → IsLeftOf (region_of judge root) (render_numbers_of root) }
    ensures layouts { (judge : Judge) (root : Render) → length (region_of judge root) ≤ count_of root }
    ensures paint { (asks : Asks) (root : Render) → IsLeftOf (groups_of asks root) (render_numbers_of root) }
    ensures paints { (asks : Asks) (root : Render) → length (groups_of asks root) ≤ count_of root }
{}

/// Where no node is changed, whatever that means, none is laid out.
pub fn unchanged_trees_keep_their_layout()
    ensures { (judge : Judge) (root : Render) → IsUnchanged judge at_root root → region_of judge root ≡ [] }
{}

/// Before there is a tree, all is laid out.
pub fn first_frames_lay_all_out()
    ensures { (before : Before) (root : Render) → before.tree ≡ None → layout_region before root ≡ render_numbers_of root }
{}

/// Where nothing happened since a frame, no component is due, nothing is laid out and nothing is painted; and where no line
/// touched anything, no node may have a flag between two frames.
pub fn quiet_frames_take_no_work()
    ensures due { (defaults : List Value) (old : PlainNode) → AllDiffer (numbers_of old) → filter (is_due defaults (Some old) []) (entered_of [] defaults old) ≡ [] }
    ensures layout { (before : Before) (root : Render) → IsQuiet before root → layout_region before root ≡ [] }
    ensures paint { (before : Before) (shows : Shows) (root : Render) → IsQuiet before root → IsShownAgain before shows → paint_region before shows root ≡ [] }
    ensures flags { (before : Before) → before.touched ≡ [] → (idle_region before ≡ []) × (idle_groups before ≡ []) }
{}

/// The rules of layout read no member of a kind but those that count for a layout.
pub fn layouts_read_what_counts()
    ensures boxes { (s : Setting) (look : Look) (scroll : ℕ) (b : Bounds) (cs : List Object) → box_rule s (for_layout look) scroll b cs ≡ box_rule s look scroll b cs }
    ensures slivers { (look : Look) (count : ℕ) (b : SliverBounds) (cs : List Object) → sliver_rule (for_layout look) count b cs ≡ sliver_rule look count b cs }
    ensures extents { (s : Setting) (look : Look) (along : Axis) (across : Len) (cs : List Object)
        → intrinsic_rule s (for_layout look) along across cs ≡ intrinsic_rule s look along across cs }
{}

/// Where a build comes to a tree, the widgets that it enters are those of the tree: however they are counted, they are as
/// many, and in the first phase they are the same in the same order.
pub fn builds_enter_their_trees()
    ensures counted { (test : Entered → Bool) (program : Blueprint) (screen : Screen) (old : Option PlainNode) (next : ℕ) (root : PlainWidget) (tree : PlainNode) (free : ℕ)
        → full_build program screen old next root ≡ built tree free
        → length (filter test (entered_widgets program screen old next root)) ≡ length (filter test (entered_of [] program.defaults tree)) }
    ensures first { (program : Blueprint) (old : Option PlainNode) (a : Arrival) (s t : Progress) (tree : PlainNode)
        → enter (basis program old) first depth_limit program.defaults a s ≡ gives tree t
        → seen_from (basis program old) first depth_limit [] program.defaults a s ≡ entered_of [] program.defaults tree }
{}

/// Where more counts as changed, the layout region is no smaller, and where more asks to be painted, no less is. So what may
/// have a flag between two frames is in the regions of a frame over the same tree.
pub fn more_changes_take_no_less()
    ensures layout { (j k : Judge) → ChangesMore j k → (root : Render) → IsLeftOf (region_of j root) (region_of k root) }
    ensures paint { (j k : Asks) → AsksMore j k → (root : Render) → IsLeftOf (groups_of j root) (groups_of k root) }
    ensures layout_flags { (before : Before) (root : Render) → before.tree ≡ Some root → IsLeftOf (idle_region before) (layout_region before root) }
    ensures paint_flags { (before : Before) (shows : Shows) (root : Render) → before.tree ≡ Some root → IsLeftOf (idle_groups before) (paint_region before shows root) }
{}

/// The tests of sameness are exact: of two kinds, of two widgets, and of two values whose type is told apart by numbers.
pub fn same_means_equal()
    ensures looks { (a b : Look) → Decides (is_same_look a b) (a ≡ b) }
    ensures widgets { (v w : PlainWidget) → Decides (is_same_widget v w) (v ≡ w) }
    ensures frames { (a b : Option Frame) → Decides (is_same coded_frames a b) (a ≡ b) }
    ensures told { (a b : ParentData) → Decides (is_told_same a b) (a ≡ b) }
{}

/// A frame's work is that over the tree that its build gives: there is a new tree of which it is said exactly where the build
/// has no fault, and it is the build's.
pub fn work_is_over_the_build()
    ensures { (s : SessionState) → new_tree (made s) ≡ tree_built (built_of s) }
{}
