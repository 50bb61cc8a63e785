// Laws of a frame whose build goes in two phases.
ghost use Rattle.std.specs.Prelude.{◌≡◌, ◌+◌, ◌*◌, ◌≤◌, ℕ, Bool, true, false, Option, Some, None, List, length};
ghost use Rattle.fx_geom.specs.declared.shapes.Size.{Size};
ghost use Rattle.fx_handles.specs.declared.Handle.{Handle};
ghost use Rattle.node_tree.specs.Forest.{Forest, Stands, pruned};
ghost use Rattle.node_tree.specs.Forest.Forest.{none, tree};
ghost use Rattle.node_tree.specs.Plan.{IsUpdated};
ghost use Rattle.node_tree.specs.Tree.{Tree, node_at};
ghost use Rattle.widget_model.specs.Look.{Look};
ghost use Rattle.plain_tree.specs.declared.render.ParentData.{ParentData};
ghost use Rattle.plain_tree.specs.Laws.{render_numbers_of, AllDiffer};
ghost use Rattle.plain_tree.specs.Render.{Render, render, Renders, no_renders, more_renders};
ghost use Rattle.tree_marks.specs.Marking.{at_top};
ghost use Rattle.tree_marks.specs.Marks.{some_climbs, sweep};
ghost use Rattle.layout_form.specs.declared.asks.Ask.{Ask};
ghost use Rattle.layout_form.specs.Object.{Setting};
ghost use Rattle.layout_walk.specs.Flush.{ticks};
ghost use Rattle.layout_walk.specs.Here.{HereAll};
ghost use Rattle.layout_walk.specs.Node.{LayoutNode};
ghost use Rattle.layout_walk.specs.Rules.{parts_of};
ghost use Rattle.layout_walk.specs.Work.{AreKnown};
ghost use Rattle.layout_owner.specs.Roots.{rooted, view_asks, IsAskedAs};
ghost use Rattle.layout_rules.specs.Nodes.{layout_nodes};
ghost use Rattle.render_tree.specs.Marks.{layout_marks};
ghost use Rattle.render_tree.specs.Object.{RenderObject, object_look};
ghost use Rattle.render_tree.specs.Plain.{renders_of};
ghost use Rattle.render_tree.specs.Redraw.{Redraw, redrawn};
ghost use Rattle.render_tree.specs.Tree.{object_at};
ghost use Rattle.render_sync.specs.Numbering.{NumbersDiffer};
ghost use Rattle.render_sync.specs.Renders.{AllNumbers};
ghost use Rattle.render_sync.specs.Synced.{Grows};
ghost use Rattle.counted_work.specs.Caused.{FramesAgree, IsNewUnlaid};
ghost use Rattle.build_walk.specs.Changing.{render_over};
ghost use Rattle.work_roles.specs.Place.{RegionPlace, at_root, below};
ghost use Rattle.work_sets.specs.Before.{Before, Frames};
ghost use Rattle.work_sets.specs.InTree.{standing, number_of, look_of, children_of};
ghost use Rattle.work_sets.specs.Layout.{idle_judge, frame_judge, layout_region};
ghost use Rattle.work_sets.specs.Region.{Judge, is_reached, is_inside, reaches_out};
ghost use Rattle.counted_work.specs.Inside.{marks_above, FlagsInside, RootFlagsInside, AreReached};
ghost use Rattle.counted_phases.specs.Outer.{outer_size, outer_due, IsOuter, AreOuter, RootOuterInside, AreOuterReached, OuterFirmEnds, ListedInside, FirmEndsOutside, all_in_region};
ghost use Rattle.layout_owner.specs.Undue.{RootUndue, RootAsked};
ghost use Rattle.counted_phases.specs.Framed.{HaveFrames, OuterHaveFrames, OuterAsBefore, AllAsBefore, RootItemsInside};
ghost use Rattle.counted_phases.specs.Lists.{AreSeen, ListsLeft, RootShownAsBefore};
ghost use Rattle.counted_phases.specs.Left.{AreBereft, AreUnclaimed, AreLeftItems};
ghost use Rattle.counted_phases.specs.Phased.{Rooted, render_of, PhasedFrame};
ghost use Rattle.counted_phases.specs.Unreached.{StandBelow, StaysAsRead, AreDiffering, AreOuterDiffering};
ghost use Rattle.counted_work.specs.Windows.{AllWindowsStay};
ghost use Rattle.counted_phases.specs.Worked.{WorksOfPhases};

use layout_walk::flushes_run_what_is_due;
use work_sets::same_means_equal;

/// An outer flush runs at most as many rules as there are outer nodes, and where each tree that is asked has to be laid out or is asked as
/// in its last layout, at most as many as there are outer nodes at or below those in the window that have to be laid out. It does nothing.
pub fn outer_flushes_run_what_is_due()
    ensures few { (s : Setting) (asks : List (Option Ask)) (f : Forest LayoutNode) → HereAll (parts_of s) f → ticks (parts_of s) true asks f ≤ outer_size f }
    ensures due { (s : Setting) (asks : List (Option Ask)) (f : Forest LayoutNode) → HereAll (parts_of s) f → AreKnown asks f → ticks (parts_of s) true asks f ≤ outer_due f }
{}

/// Once the first phase of a build is committed and what it changes is marked, the outer nodes in the window that have to be laid out are
/// in the layout region of the frame, which is of the whole build's tree. So an outer flush runs no more rules than the region has nodes, in
/// the view of the last frame and in another. It does nothing.
pub fn first_phases_lay_out_their_region()
    ensures flags { (before : Before) (hs : List Handle) (h : Handle) (o : RenderObject) (kids : Forest RenderObject) (top : Render)
        → AreOuter (tree h o kids none) (more_renders top no_renders) → OuterHaveFrames before.frames (tree h o kids none)
        → AreOuterReached (frame_judge before) hs at_root (tree h o kids none) (more_renders top no_renders)
        → RootOuterInside (frame_judge before) (tree h o kids none) top → RootOuterInside (frame_judge before) (sweep layout_marks true hs at_top (tree h o kids none)) top }
    ensures layouts { (s : Setting) (before : Before) (view : Size) (h : Handle) (o : RenderObject) (kids : Forest RenderObject) (top : Render)
        → AreOuter (tree h o kids none) (more_renders top no_renders) → HereAll (parts_of s) (layout_nodes (tree h o kids none))
        → RootOuterInside (frame_judge before) (tree h o kids none) top → (before.same_view ≡ true → IsAskedAs view (tree h o kids none))
        → ticks (parts_of s) true (view_asks view) (rooted (tree h o kids none)) ≤ length (layout_region before top) }
{}

/// An outer flush, which does nothing to nodes that needn't be laid out, leaves the flags of outer nodes in the region; and where it gave an
/// outer node other bounds, the node above is in the region. It does nothing.
pub fn outer_flushes_stay_in_their_region()
    ensures flags { (before : Before) (view : Size) (h k : Handle) (o w : RenderObject) (kids under : Forest RenderObject) (top : Render)
        → RootUndue view (layout_nodes (tree h o kids none)) (layout_nodes (tree k w under none)) → AreOuter (tree h o kids none) (more_renders top no_renders)
        → AreOuter (tree k w under none) (more_renders top no_renders) → (before.same_view ≡ true → IsAskedAs view (tree h o kids none))
        → RootOuterInside (frame_judge before) (tree h o kids none) top → RootOuterInside (frame_judge before) (tree k w under none) top }
    ensures bounds { (before : Before) (view : Size) (h k : Handle) (o w : RenderObject) (kids under : Forest RenderObject) (top : Render)
        → RootUndue view (layout_nodes (tree h o kids none)) (layout_nodes (tree k w under none)) → AreOuter (tree h o kids none) (more_renders top no_renders)
        → AreOuter (tree k w under none) (more_renders top no_renders) → (before.same_view ≡ true → IsAskedAs view (tree h o kids none))
        → RootOuterInside (frame_judge before) (tree h o kids none) top → OuterHaveFrames before.frames (tree h o kids none) → RootAsked view (layout_nodes (tree k w under none))
        → OuterFirmEnds (frame_judge before) (reaches_out (frame_judge before) at_root top) at_root (tree k w under none) (more_renders top no_renders) }
{}

/// Flags that the last frame left, or a line set, are in the region of the whole build's tree: of its outer nodes, each of which is in the
/// window and has to be laid out as the node with its number was. It does nothing.
pub fn outer_flags_have_their_region()
    ensures flags { (before : Before) (old : Tree RenderObject) (h k : Handle) (o w : RenderObject) (kids under : Forest RenderObject) (top : Render)
        → before.tree ≡ Some (render_over o kids) → AllDiffer (render_numbers_of (render_over o kids)) → Stands (node_at old) None (tree h o kids none)
        → OuterAsBefore old (tree k w under none) → AreOuter (tree k w under none) (more_renders top no_renders)
        → RootFlagsInside (idle_judge before) (tree h o kids none) → RootOuterInside (frame_judge before) (tree k w under none) top }
    ensures first { (before : Before) (h : Handle) (o : RenderObject) (kids : Forest RenderObject) (top : Render) → before.tree ≡ None
        → AreOuter (tree h o kids none) (more_renders top no_renders) → RootOuterInside (frame_judge before) (tree h o kids none) top }
{
    same_means_equal();
}

/// So it is of the items of all lists, where outer nodes whose numbers were there are in the window as those were, but right below a node of
/// the region, and all flags of the last frame's tree had causes. It does nothing.
pub fn lists_flag_their_region()
    ensures { (before : Before) (old ranged : Tree RenderObject) (claimed : Handle → Bool) (hs : List Handle) (h k : Handle) (o w : RenderObject) (kids under : Forest RenderObject)
        → before.tree ≡ Some (render_over o kids) → AllDiffer (render_numbers_of (render_over o kids)) → Stands (node_at old) None (tree h o kids none)
        → HaveFrames before.frames kids → RootFlagsInside (idle_judge before) (tree h o kids none) → ListsLeft old ranged claimed hs at_root (tree k w under none)
        → RootShownAsBefore (frame_judge before) old (tree k w under none)
        → RootItemsInside (frame_judge before) (tree k w under none) }
{
    same_means_equal();
}

/// Of a node of the whole build that isn't reached a layout reads what it read of the one of the last frame with its number: its kind, its
/// children with what they were told, and how the sizes of these follow from their bounds, where that has a say. Viewports stay Viewports.
/// It does nothing.
pub fn unreached_nodes_stay()
    ensures { (before : Before) (p q : RegionPlace) (was r : Render) → number_of was ≡ number_of r → standing before.tree (number_of was) ≡ Some (record { place = p; node = was })
        → StandBelow before (below p (look_of was)) (children_of was) → AllWindowsStay before (children_of r)
        → is_reached (frame_judge before) q r ≡ false → StaysAsRead before was r }
{
    same_means_equal();
}

/// So nodes that differ from those of the last frame are reached, and what their plan changes is marked in the region: outer nodes of the first
/// phase, with the lists whose items lost children, and all nodes of the second. It does nothing.
pub fn differing_nodes_are_reached()
    ensures first { (before : Before) (old : Tree RenderObject) (claimed : Handle → Bool) (hs : List Handle) (p : RegionPlace) (last : Render) (f : Forest RenderObject) (rs : Renders)
        → before.tree ≡ Some last → AllDiffer (render_numbers_of last) → AreOuter f rs → AllWindowsStay before rs
        → AreOuterDiffering before old claimed hs p f rs → AreOuterReached (frame_judge before) hs p f rs }
    ensures second { (before : Before) (hs : List Handle) (p : RegionPlace) (last : Render) (f : Forest RenderObject) → before.tree ≡ Some last → AllDiffer (render_numbers_of last)
        → AllWindowsStay before (renders_of f) → AreDiffering before hs p f → AreReached (frame_judge before) hs p f }
{
    same_means_equal();
}

/// Where the items of a list between the phases are those of the last frame, without what the first phase's tree claims, and each of them
/// that is marked lost a child to it, a mark that climbs out of them reaches the list in the whole build, where no item has the number of
/// what is claimed. It does nothing.
pub fn bereft_items_reach_their_list()
    ensures { (before : Before) (old : Tree RenderObject) (claimed : Handle → Bool) (hs : List Handle) (p : RegionPlace) (o : RenderObject) (kids : Forest RenderObject)
        (number : ℕ) (look : Look) (told : ParentData) (scroll count : ℕ) (children : Renders)
        → IsOuter o (render number look told scroll count children) → (l : AreLeftItems before old claimed number kids) → AreUnclaimed old claimed children → AreBereft claimed hs l.items
        → some_climbs layout_marks hs (marks_above (below p (object_look o))) kids ≡ true
        → is_reached (frame_judge before) p (render number look told scroll count children) ≡ true }
{
    same_means_equal();
}

/// The items of such a list that are left with their marks have flags in the region of the whole build's tree once the second phase brings
/// them there: below the list, where the last frame's were in the region of what a line touched. It does nothing.
pub fn left_items_flag_their_region()
    ensures { (before : Before) (old ranged : Tree RenderObject) (claimed : Handle → Bool) (hs : List Handle) (was above : Bool) (p : RegionPlace)
        (kids : Forest RenderObject) (w : RenderObject) (under : Forest RenderObject) → (l : AreLeftItems before old claimed w.number kids)
        → AreSeen ranged (sweep layout_marks true hs (marks_above (below p (object_look w))) (pruned claimed l.items))
        → AllAsBefore ranged under → AreUnclaimed old claimed (renders_of under) → AreBereft claimed hs l.items
        → (is_inside (idle_judge before) was l.place (render_over l.list l.items) ≡ true → is_inside (frame_judge before) above p (render_over w under) ≡ true)
        → (reaches_out (frame_judge before) p (render_over w under) ≡ true → above ≡ true)
        → FlagsInside (idle_judge before) (is_inside (idle_judge before) was l.place (render_over l.list l.items)) (below l.place (object_look l.list)) l.items
        → FlagsInside (frame_judge before) (is_inside (frame_judge before) above p (render_over w under)) (below p (object_look w)) under }
{
    same_means_equal();
}

/// The nodes of a plan are in the window, and have to be laid out, as those of their numbers were before it, and have the frames that the
/// layouts so far left: so it is in both phases, where no two nodes have one number. It does nothing.
pub fn redrawn_nodes_are_as_before()
    ensures alike { (old made : Tree RenderObject) (d : Forest Redraw) (g : Forest RenderObject) → Grows old made → NumbersDiffer made → IsUpdated redrawn (object_at made) d g → AllAsBefore old g }
    ensures frames { (frames : Frames) (old made : Tree RenderObject) (d : Forest Redraw) (g : Forest RenderObject) → Grows old made → NumbersDiffer made → FramesAgree frames old
        → IsUpdated redrawn (object_at made) d g → AllNumbers (IsNewUnlaid frames old) (renders_of g) → HaveFrames frames g }
    ensures outer { (old : Tree RenderObject) (g : Forest RenderObject) → AllAsBefore old g → OuterAsBefore old g }
    ensures outer_frames { (frames : Frames) (g : Forest RenderObject) → HaveFrames frames g → OuterHaveFrames frames g }
{}

/// Marks of nodes in a region stay in it where marks end at firm boundaries, but at those right below a node of the region. It does nothing.
pub fn marks_stay_where_bounds_do()
    ensures { (judge : Judge) (hs : List Handle) (f : Forest RenderObject) → ListedInside judge hs (all_in_region judge f) at_root f
        → FirmEndsOutside judge (all_in_region judge f) at_root f → RootFlagsInside judge f → RootFlagsInside judge (sweep layout_marks true hs at_top f) }
{}

/// Small trees between the phases are as they were worked out by hand. It does nothing.
pub fn worked_phases()
    ensures { WorksOfPhases }
{}

/// A frame whose build goes in two phases lays out its lists and then all, and runs at most twice as many rules as its layout region has
/// nodes, where flags of the last frame's tree had causes. It does nothing.
pub fn phased_frames_lay_out_twice()
    ensures { (s : Setting) (view : Size) (before : Before) (old : Tree RenderObject) (whole : Rooted) (layouts_before layouts_after : ℕ)
        → PhasedFrame s view before old whole layouts_before layouts_after → layouts_after ≤ layouts_before + 2 * length (layout_region before (render_of whole)) }
{
    flushes_run_what_is_due();
    same_means_equal();
}
