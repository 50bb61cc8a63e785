// Laws of where flags are, and of how much is laid out and painted then.
ghost use Rattle.std.specs.Prelude.{◌≡◌, ◌≤◌, ℕ, Bool, true, false, Some, None, List, [], ◌∷◌, ◌++◌, length};
ghost use Rattle.delegates.specs.Table.{Plug};
ghost use Rattle.fx_geom.specs.declared.shapes.Offset.{Offset};
ghost use Rattle.fx_geom.specs.declared.shapes.Size.{Size};
ghost use Rattle.fx_handles.specs.declared.Handle.{Handle};
ghost use Rattle.node_tree.specs.Forest.{Forest};
ghost use Rattle.node_tree.specs.Forest.Forest.{none, tree};
ghost use Rattle.node_tree.specs.Tree.{Tree, IsTree};
ghost use Rattle.plain_tree.specs.Laid.{Laid};
ghost use Rattle.plain_tree.specs.Laws.{render_numbers_in, AllDiffer};
ghost use Rattle.plain_tree.specs.Render.{Render, no_renders, more_renders};
ghost use Rattle.tree_marks.specs.Marking.{at_top};
ghost use Rattle.tree_marks.specs.Marks.{listed, sweep};
ghost use Rattle.session_form.specs.State.{delegate, viewport};
ghost use Rattle.work_roles.specs.Place.{at_root};
ghost use Rattle.work_roles.specs.WorkRole.{is_viewport};
ghost use Rattle.work_sets.specs.Before.{Before, Frames, frames_after};
ghost use Rattle.work_sets.specs.Layout.{frame_judge, layout_region};
ghost use Rattle.work_sets.specs.Paint.{Asks, Shows, asks_idly, groups_of, paint_region};
ghost use Rattle.work_sets.specs.Region.{Judge, region_of};
ghost use Rattle.layout_form.specs.declared.asks.Ask.{Ask};
ghost use Rattle.layout_walk.specs.Flush.{ticks};
ghost use Rattle.layout_form.specs.Object.{Setting};
ghost use Rattle.layout_walk.specs.Here.{HereAll, nobody_back};
ghost use Rattle.layout_walk.specs.Node.{LayoutNode};
ghost use Rattle.layout_walk.specs.Rule.{LayoutParts, Lawful};
ghost use Rattle.layout_walk.specs.Rules.{parts_of};
ghost use Rattle.layout_walk.specs.Walk.{LaysOut};
ghost use Rattle.layout_walk.specs.Work.{due_count};
ghost use Rattle.layout_owner.specs.Calm.{IsLaidCalm};
ghost use Rattle.layout_owner.specs.Roots.{rooted, view_asks, top_render, IsAskedAs, IsPlaced};
ghost use Rattle.layout_rules.specs.Nodes.{layout_nodes};
ghost use Rattle.layout_rules.specs.Painting.{KeepsRest};
ghost use Rattle.kept_layers.specs.Steps.{painted_count};
ghost use Rattle.paint_owner.specs.Finding.{root_flag};
ghost use Rattle.paint_owner.specs.Settled.{IsPaintedCalm, IsRootShown, Settles};
ghost use Rattle.render_tree.specs.Edits.{Writes, with_scroll};
ghost use Rattle.render_tree.specs.Marked.{SetsMarks};
ghost use Rattle.render_tree.specs.Marks.{layout_marks, paint_marks};
ghost use Rattle.render_tree.specs.Object.{RenderObject, object_look};
ghost use Rattle.render_tree.specs.Plain.{laid_of, renders_of, root_tree};
ghost use Rattle.render_tree.specs.Tree.{object_at};
ghost use Rattle.render_tree.specs.Users.{uses};
ghost use Rattle.render_sync.specs.Synced.{Synced};
ghost use Rattle.screen_owner.specs.Changes.{AreKindsSo};
ghost use Rattle.counted_work.specs.Caused.{FramesAgree, NewAreUnlaid, LayoutsAreCaused};
ghost use Rattle.build_walk.specs.Changing.{render_over};
ghost use Rattle.counted_work.specs.Drawn.{PaintsAreCaused, LayoutLeaves};
ghost use Rattle.counted_work.specs.Inside.{RootFlagsInside, AreReached, FirmEndsMarks};
ghost use Rattle.layout_owner.specs.Left.{AreLeft};
ghost use Rattle.counted_work.specs.Painted.{RootFlagsAsked, AreAsking};
ghost use Rattle.counted_work.specs.Shows.{ArePutSo, PluggedAsBefore};
ghost use Rattle.counted_work.specs.Touches.{Touches};
ghost use Rattle.counted_work.specs.Windows.{WindowsStay};
ghost use Rattle.counted_work.specs.Worked.{WorksOfCounts};

use layout_walk::flushes_run_what_is_due;
use work_sets::same_means_equal;

/// Whatever counts as a firm boundary and as changed: where the nodes in the window that have to be laid out are in the region, no more
/// are due than it has; and marks of nodes that are changed, or that a changed node reaches, leave them there, where marks end at firm
/// boundaries. It does nothing.
pub fn marks_stay_inside()
    ensures due { (judge : Judge) (h : Handle) (o : RenderObject) (kids : Forest RenderObject) → RootFlagsInside judge (tree h o kids none)
        → due_count (rooted (tree h o kids none)) ≤ length (region_of judge (render_over o kids)) }
    ensures marks { (judge : Judge) (also : Bool) (hs : List Handle) (f : Forest RenderObject) → AreReached judge hs at_root f → FirmEndsMarks judge at_root f
        → RootFlagsInside judge f → RootFlagsInside judge (sweep layout_marks also hs at_top f) }
{}

/// Once a tree is brought to a build, the nodes in the window that have to be laid out are in the layout region of the frame, where flags
/// had causes before: each was in the region of something that a line touched. Viewports stay Viewports. And the root was asked in the
/// view where it had been. It does nothing.
pub fn builds_flag_their_region()
    ensures flags { (before : Before) (old new : Tree RenderObject) (top : Render) → Synced old new top → IsTree old → old.inactive ≡ []
        → AllDiffer (render_numbers_in (renders_of (root_tree old))) → LayoutsAreCaused before old → NewAreUnlaid before.frames old top
        → WindowsStay before top → RootFlagsInside (frame_judge before) (root_tree new) }
    ensures frames { (before : Before) (old new : Tree RenderObject) (top : Render) → Synced old new top → FramesAgree before.frames old
        → NewAreUnlaid before.frames old top → FramesAgree before.frames new }
    ensures asked { (view : Size) (old new : Tree RenderObject) (top : Render) → Synced old new top → IsTree old → old.inactive ≡ []
        → IsAskedAs view (root_tree old) → IsAskedAs view (root_tree new) }
{
    same_means_equal();
}

/// A flush of a tree whose flags are in the layout region of a frame runs no more rules than the region has nodes, in the view of the
/// last frame and in another. It does nothing.
pub fn flushes_lay_out_their_region()
    ensures { (P : LayoutParts) (before : Before) (view : Size) (h : Handle) (o : RenderObject) (kids : Forest RenderObject)
        → RootFlagsInside (frame_judge before) (tree h o kids none) → (before.same_view ≡ true → IsAskedAs view (tree h o kids none))
        → ticks P false (view_asks view) (rooted (tree h o kids none)) ≤ length (layout_region before (render_over o kids)) }
{
    flushes_run_what_is_due();
}

/// Where a Viewport is scrolled and marked, and where the users of a delegate are marked that means something else, flags have causes
/// again: what the line touched is one. It does nothing.
pub fn lines_cause_their_flags()
    ensures scrolled { (before after : Before) (old mid new : Tree RenderObject) (h : Handle) (o : RenderObject) (scroll : ℕ) → object_at old h ≡ Some o
        → Writes old mid h (with_scroll scroll o) → IsTree old → old.inactive ≡ [] → is_viewport (object_look o) ≡ true
        → SetsMarks layout_marks true (h ∷ []) mid new → Touches (viewport o.number) before after new → LayoutsAreCaused before old → LayoutsAreCaused after new }
    ensures scrolled_paints { (before after : Before) (old mid new : Tree RenderObject) (h : Handle) (o : RenderObject) (scroll : ℕ) → object_at old h ≡ Some o
        → Writes old mid h (with_scroll scroll o) → IsTree old → old.inactive ≡ [] → SetsMarks layout_marks true (h ∷ []) mid new
        → Touches (viewport o.number) before after new → RootFlagsAsked (asks_idly before) (root_tree old) → RootFlagsAsked (asks_idly after) (root_tree new) }
    ensures changed { (before after : Before) (name : List ℕ) (old new : Tree RenderObject) (hs : List Handle) → IsTree old → old.inactive ≡ []
        → ((k : Handle) → listed k hs ≡ true → uses old name k ≡ true) → SetsMarks layout_marks true hs old new
        → Touches (delegate name) before after new → LayoutsAreCaused before old → LayoutsAreCaused after new }
    ensures changed_paints { (before after : Before) (name : List ℕ) (old mid new : Tree RenderObject) (hs : List Handle) → after.touched ≡ before.touched ++ delegate name ∷ []
        → IsTree old → old.inactive ≡ [] → ((k : Handle) → listed k hs ≡ true → uses old name k ≡ true) → SetsMarks layout_marks true hs old mid
        → SetsMarks paint_marks true hs mid new → RootFlagsAsked (asks_idly before) (root_tree old) → RootFlagsAsked (asks_idly after) (root_tree new) }
{}

/// After a flush no flag needs a cause: of layouts, and of paints. It does nothing.
pub fn flushed_trees_have_no_flags()
    ensures laid { (judge : Judge) (f : Forest RenderObject) → IsPlaced f → IsLaidCalm f → RootFlagsInside judge f }
    ensures painted { (asks : Asks) (f : Forest RenderObject) → IsRootShown f → IsPaintedCalm f → RootFlagsAsked asks f }
{}

/// Whatever asks to be painted: where the groups of painted boundaries that are flagged ask, no more nodes are painted than the groups that
/// ask have; and marks of nodes that ask leave it so. It does nothing.
pub fn paints_keep_to_their_groups()
    ensures count { (asks : Asks) (h : Handle) (o : RenderObject) (kids : Forest RenderObject) → RootFlagsAsked asks (tree h o kids none)
        → painted_count (root_flag (tree h o kids none)) (tree h o kids none) ≤ length (groups_of asks (render_over o kids)) }
    ensures marks { (asks : Asks) (also : Bool) (hs : List Handle) (f : Forest RenderObject) → AreAsking asks hs at_root f → RootFlagsAsked asks f
        → RootFlagsAsked asks (sweep paint_marks also hs at_top f) }
{}

/// A layout leaves the nodes out of the window as they were, and each node in the window has a frame and a place. So each node has the
/// frame that the layouts so far left of its number, once its tree was laid out. It does nothing.
pub fn layouts_leave_frames()
    ensures left { (P : LayoutParts) → Lawful P → (ask : Ask) (at : Offset) (h : Handle) (v : LayoutNode) (kids : Forest LayoutNode) (w : LayoutNode) (below : Forest LayoutNode)
        → LaysOut P nobody_back ask v kids w below → v.shown ≡ true → v.offset ≡ Some at → AreLeft (tree h v kids none) (tree h w below none) }
    ensures frames { (frames : Frames) (l : Laid) (old new : Tree RenderObject) → IsTree old → IsTree new → old.inactive ≡ [] → new.inactive ≡ []
        → AllDiffer (render_numbers_in (renders_of (root_tree new))) → IsPlaced (root_tree new) → laid_of (root_tree new) ≡ Some l
        → AreLeft (layout_nodes (root_tree old)) (layout_nodes (root_tree new)) → FramesAgree frames old → FramesAgree (frames_after l frames) new }
    ensures put { (s : Setting) (f g : Forest RenderObject) → HereAll (parts_of s) (layout_nodes g) → IsLaidCalm g → AreLeft (layout_nodes f) (layout_nodes g) → ArePutSo s.delegates g }
{}

/// After a whole frame, which brought a tree to a build, laid it out and painted it, flags have causes again, and each node has the frame
/// that the layouts so far left of its number. It does nothing.
pub fn frames_leave_causes()
    ensures { (frames : Frames) (l : Laid) (after : Before) (brought laid new : Tree RenderObject) → after.tree ≡ top_render (renders_of (root_tree new))
        → after.frames ≡ frames_after l frames → IsTree brought → IsTree laid → brought.inactive ≡ [] → laid.inactive ≡ []
        → AllDiffer (render_numbers_in (renders_of (root_tree laid))) → IsPlaced (root_tree laid) → IsLaidCalm (root_tree laid) → laid_of (root_tree laid) ≡ Some l
        → AreLeft (layout_nodes (root_tree brought)) (layout_nodes (root_tree laid)) → FramesAgree frames brought → Settles laid new → LayoutsAreCaused after new }
{}

/// Flags, marks and toggled nodes of small trees are as they were worked out by hand. It does nothing.
pub fn worked_counts()
    ensures { WorksOfCounts }
{}

/// Once a tree was brought to a build, laid out, and marked for painting where it looks otherwise, the groups of its painted boundaries
/// that are flagged ask to be painted, and no more nodes are painted than the paint region of the frame has: where flags had causes
/// before, the layout leaves what is out of the window, and all that it marks looks otherwise; and before any frame. It does nothing.
pub fn frames_paint_their_region()
    ensures first { (before : Before) (shows : Shows) (changed : List Handle) (old brought laid new : Tree RenderObject) (top : Render) → Synced old brought top
        → before.tree ≡ None → KeepsRest brought laid → IsTree laid → laid.inactive ≡ [] → SetsMarks paint_marks true changed laid new
        → painted_count (root_flag (root_tree new)) (root_tree new) ≤ length (paint_region before shows top) }
    ensures paints { (before : Before) (last now_laid : Laid) (then now : List Plug) (changed : List Handle) (old brought laid new : Tree RenderObject) (top : Render) → Synced old brought top
        → PluggedAsBefore before.touched then now → IsTree old → IsTree laid → old.inactive ≡ [] → laid.inactive ≡ [] → AreKindsSo old top
        → AllDiffer (render_numbers_in (renders_of (root_tree old))) → AllDiffer (render_numbers_in (renders_of (root_tree laid)))
        → PaintsAreCaused before last then old → LayoutLeaves now_laid now changed brought laid → SetsMarks paint_marks true changed laid new
        → painted_count (root_flag (root_tree new)) (root_tree new) ≤ length (paint_region before (record { before = Some last; now = now_laid }) top) }
{
    same_means_equal();
}
