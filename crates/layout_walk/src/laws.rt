// Laws of stored layouts, and of a walk that lays out again what has to be.
ghost use Rattle.std.specs.Prelude.{◌≡◌, ℕ, ◌+◌, ◌≤◌, Bool, true, false, List, [], ◌∷◌, ◌++◌, map, Option, Some};
ghost use Rattle.fx_geom.specs.declared.boxes.Bounds.{Bounds};
ghost use Rattle.fx_geom.specs.declared.shapes.Axis.{Axis};
ghost use Rattle.fx_geom.specs.declared.shapes.Offset.{Offset};
ghost use Rattle.fx_geom.specs.declared.shapes.Size.{Size};
ghost use Rattle.fx_geom.specs.Bounds.{tight};
ghost use Rattle.fx_geom.specs.Insets.{extent_of, other_of};
ghost use Rattle.fx_geom.specs.Offset.{origin};
ghost use Rattle.fx_handles.specs.declared.Handle.{Handle};
ghost use Rattle.node_tree.specs.Forest.{Forest, weigh};
ghost use Rattle.node_tree.specs.Forest.Forest.{none, tree};
ghost use Rattle.widget_model.specs.Look.{Look, viewport};
ghost use Rattle.plain_tree.specs.declared.laid.Frame.{Frame};
ghost use Rattle.plain_tree.specs.Laid.{no_laids, more_laids};
ghost use Rattle.plain_tree.specs.Render.{render};
ghost use Rattle.layout_form.specs.declared.asks.Ask.{Ask};
ghost use Rattle.layout_form.specs.declared.asks.Ask.TheVariants.{AsBox};
ghost use Rattle.layout_form.specs.Framed.{answers_of, framed, last_asks};
ghost use Rattle.layout_form.specs.Frames.{start_by, view_rest_by};
ghost use Rattle.layout_form.specs.Layout.{object, objects as objects_of, lay_view};
ghost use Rattle.layout_form.specs.Object.{Setting};
ghost use Rattle.layout_form.specs.Protocol.{answer};
ghost use Rattle.layout_form.specs.SliverRule.{view_size};
ghost use Rattle.layout_walk.specs.Node.{LayoutNode, members, renders_in, asked, stored};
ghost use Rattle.layout_walk.specs.Rule.{LayoutParts, Lawful};
ghost use Rattle.layout_walk.specs.Full.{asks_at, made_at, objects, laid_node, laid_trees, shown_trees};
ghost use Rattle.layout_walk.specs.Here.{StandAs, IsFirm, AreFirm, Here, HereAll, AreApart, HaveFixed, AreFresh, Backs, AreQuiet, nobody_back, outer_back, back_in, HoldsOnly};
ghost use Rattle.layout_walk.specs.Walk.{SameMembers, AreCorrected, LaysOut, AreLaid, Round, AskApart, any_mark, kept_asks, stand_all, ruled, held_back, marked_below, AreAskedAlike};
ghost use Rattle.layout_walk.specs.Asking.{same_ask, same_frame};
ghost use Rattle.layout_walk.specs.Flush.{runs, ticks};
ghost use Rattle.layout_walk.specs.Work.{due_count, AreKnown};
ghost use Rattle.layout_walk.specs.Measure.{AreMeasured, AskViews, ViewEach, extents_in, full_extents, measure_runs};
ghost use Rattle.layout_walk.specs.Offsets.{AreScrolled};
ghost use Rattle.layout_walk.specs.Items.{SameButItems, ItemsChange, lists_of, lists_in};
ghost use Rattle.layout_walk.specs.Rules.{liked_in, parts_of};
ghost use Rattle.layout_walk.specs.WorkedFlushes.{WorksOfFlushes};

use layout_form::{
    bounds_fix_sizes, frames_meet_bounds, hidden_boxes_are_blind, rules_see_frames,
    sizes_see_no_offsets,
};

/// Where each node and its children agree, what is stored of each node that needn't be laid out is what full layout gives to it,
/// in the bounds of its last layout and with the present offsets of Viewports: its frame, its notes, whether its delegate is
/// plugged, which of its children are in the window, in which bounds and where, and where a Viewport stands scrolled.
pub fn stored_layouts_are_full()
    ensures { (P : LayoutParts) → Lawful P → (f : Forest LayoutNode) → HereAll P f → AreFresh P f }
{}

/// Where besides nothing in the window has to be laid out, what is stored of the nodes in the window is full layout, as they were
/// asked and where they stand.
pub fn quiet_trees_show_full_layout()
    ensures { (P : LayoutParts) → Lawful P → (f : Forest LayoutNode) (asks : List (Option Ask)) (places : List Offset)
        → HereAll P f → AreQuiet P nobody_back f → StandAs asks places f → shown_trees f ≡ laid_trees P asks places f }
{}

/// A node that isn't held back is laid out in new bounds, or again, by its rule: once all children stand laid out as they are asked, whatever was done to
/// make it so, what the rule makes of their frames is stored, and they stand where it puts them. They were asked as full layout
/// asks them.
pub fn a_rule_lays_out()
    ensures asks { (P : LayoutParts) → Lawful P → (back : Backs) (v : LayoutNode) (ask : Ask) (kids mid : Forest LayoutNode)
        → SameMembers kids mid → HereAll P mid → AreLaid P back (asks_at P v ask mid (stored mid)) kids mid
        → asks_at P v ask kids (objects P kids) ≡ asks_at P v ask mid (stored mid) }
    ensures lays { (P : LayoutParts) → Lawful P → (back : Backs) (v : LayoutNode) (ask : Ask) (kids mid : Forest LayoutNode)
        → SameMembers kids mid → HereAll P mid → AreLaid P back (asks_at P v ask mid (stored mid)) kids mid
        → back v.look (Some ask) ≡ false → let made = made_at P v ask mid (stored mid) in
        let below = stand_all (asks_at P v ask mid (stored mid)) made.places mid in
        LaysOut P back ask v kids (ruled v made (any_mark below)) below }
{}

/// Where the children stand laid out as full layout asks them, they are asked the same by their stored frames.
pub fn laid_children_answer_in_full()
    ensures asks { (P : LayoutParts) → Lawful P → (back : Backs) (v : LayoutNode) (ask : Ask) (kids mid : Forest LayoutNode) → SameMembers kids mid → HereAll P mid
        → AreLaid P back (asks_at P v ask kids (objects P kids)) kids mid → asks_at P v ask kids (objects P kids) ≡ asks_at P v ask mid (stored mid) }
    ensures answers { (P : LayoutParts) → Lawful P → (back : Backs) (asks : List (Option Ask)) (f g : Forest LayoutNode) → HereAll P g → AreLaid P back asks f g
        → answers_of asks (objects P g) ≡ answers_of asks (stored g) }
{}

/// The slivers of a Viewport are measured before it is known in which views they are laid out. Measured slivers agree with what is
/// below them, tell how far each can be scrolled through by full layout, and stand laid out as they were asked once each is laid out in
/// a view of this axis and cross extent.
pub fn slivers_are_measured()
    ensures same { (s : Setting) (back : Backs) (axis : Axis) (cross : ℕ) (f g : Forest LayoutNode) → HoldsOnly (parts_of s) back → HereAll (parts_of s) f
        → AreMeasured (parts_of s) back axis cross f g → SameMembers f g }
    ensures here { (s : Setting) (back : Backs) (axis : Axis) (cross : ℕ) (f g : Forest LayoutNode) → HoldsOnly (parts_of s) back → HereAll (parts_of s) f
        → AreMeasured (parts_of s) back axis cross f g → HereAll (parts_of s) g }
    ensures extents { (s : Setting) (back : Backs) (axis : Axis) (cross : ℕ) (f g : Forest LayoutNode) → HoldsOnly (parts_of s) back → HereAll (parts_of s) f
        → AreMeasured (parts_of s) back axis cross f g → extents_in axis cross g ≡ full_extents (parts_of s) axis cross f }
    ensures laid { (s : Setting) (back : Backs) (axis : Axis) (cross : ℕ) (asks : List (Option Ask)) (f g k : Forest LayoutNode) → HoldsOnly (parts_of s) back → HereAll (parts_of s) f
        → AreMeasured (parts_of s) back axis cross f g → ViewEach axis cross asks f → Round (parts_of s) back asks g k → AreLaid (parts_of s) back asks f k }
{
    rules_are_lawful();
}

/// A Viewport asks its slivers in the views that follow from how far each can be scrolled through.
pub fn views_follow_extents()
    ensures asks { (s : Setting) (axis : Axis) (v : LayoutNode) (b : Bounds) (kids : Forest LayoutNode) → v.look ≡ viewport axis
        → let extents = full_extents (parts_of s) axis (extent_of (view_size b) (other_of axis)) kids in
        asks_at (parts_of s) v (AsBox b) kids (objects (parts_of s) kids) ≡ view_rest_by axis (start_by axis v.scroll b extents) b (map (λ n. Some n) extents) }
    ensures views { (axis : Axis) (start : ℕ) (b : Bounds) (extents : List ℕ)
        → AskViews axis (extent_of (view_size b) (other_of axis)) (view_rest_by axis start b (map (λ n. Some n) extents)) }
{}

/// Two rounds of asking come to one, where nobody is asked in both: each child is laid out as it was asked in either, and the first
/// answers are as they were.
pub fn two_rounds_are_one()
    ensures joined { (P : LayoutParts) (back : Backs) (first rest : List (Option Ask)) (f g k : Forest LayoutNode)
        → AskApart first rest → Round P back first f g → Round P back rest g k → Round P back (last_asks first rest) f k }
    ensures answers { (P : LayoutParts) (back : Backs) (first rest : List (Option Ask)) (f g : Forest LayoutNode)
        → AskApart first rest → Round P back rest f g → answers_of first (stored f) ≡ answers_of first (stored g) }
    ensures laid { (P : LayoutParts) (back : Backs) (asks : List (Option Ask)) (f g : Forest LayoutNode) → Round P back asks f g → AreLaid P back asks f g }
    ensures same { (P : LayoutParts) (back : Backs) (asks : List (Option Ask)) (f g : Forest LayoutNode) → Round P back asks f g → SameMembers f g }
    ensures here { (P : LayoutParts) (back : Backs) (asks : List (Option Ask)) (f g : Forest LayoutNode) → HereAll P f → Round P back asks f g → HereAll P g }
{}

/// A node that needn't be laid out and is asked in the bounds of its last layout is laid out without its rule: by visiting those of
/// its children that are in the window and have a mark, each in the bounds of its own last layout; or by nothing, where nothing
/// below it has a mark. Its children are then asked as in their last layouts.
pub fn an_unmarked_node_is_kept()
    ensures visits { (P : LayoutParts) → Lawful P → (back : Backs) (v : LayoutNode) (ask : Ask) (kids mid : Forest LayoutNode)
        → Here P v kids → HereAll P kids → asked v ≡ Some ask → v.needs_layout ≡ false → back v.look (Some ask) ≡ false → Round P back (kept_asks kids) kids mid
        → LaysOut P back ask v kids (marked_below v (any_mark mid)) mid }
    ensures bounds { (P : LayoutParts) → Lawful P → (back : Backs) (kids mid : Forest LayoutNode) → Round P back (kept_asks kids) kids mid → AreAskedAlike kids mid }
    ensures nothing { (P : LayoutParts) (back : Backs) (v : LayoutNode) (ask : Ask) (kids : Forest LayoutNode)
        → Here P v kids → HereAll P kids → asked v ≡ Some ask → v.needs_layout ≡ false → v.layout_below ≡ false → LaysOut P back ask v kids v kids }
{}

/// A node that is held back, since its frame is what it is asked alone gives, keeps what is below it as it is, and has to be laid out
/// again; one that has this frame already, as one has that needn't be laid out, is left alone.
pub fn a_held_node_keeps_what_is_below()
    ensures laid { (P : LayoutParts) → Lawful P → (back : Backs) (v : LayoutNode) (ask : Ask) (kids : Forest LayoutNode)
        → Here P v kids → HereAll P kids → P.holds v.look ask ≡ true → back v.look (Some ask) ≡ true
        → LaysOut P back ask v kids (held_back v (made_at P v ask kids (stored kids))) kids }
    ensures left { (P : LayoutParts) (back : Backs) (v : LayoutNode) (ask : Ask) (kids : Forest LayoutNode)
        → Here P v kids → HereAll P kids → asked v ≡ Some ask → IsFirm P v → back v.look (Some ask) ≡ true → LaysOut P back ask v kids v kids }
    ensures clear { (P : LayoutParts) → Lawful P → (v : LayoutNode) (ask : Ask) (kids : Forest LayoutNode)
        → Here P v kids → asked v ≡ Some ask → v.needs_layout ≡ false → P.holds v.look ask ≡ true → IsFirm P v }
{}

/// A flush runs at most as many rules as there are nodes at or below those in the window that have to be laid out, where each tree
/// that is asked is one of these or is asked as in its last layout. Afterwards none is due. Two rounds of asking, in which nobody is
/// asked twice, run what one does.
pub fn flushes_run_what_is_due()
    ensures bound { (P : LayoutParts) (outer : Bool) (asks : List (Option Ask)) (f : Forest LayoutNode) → AreKnown asks f → ticks P outer asks f ≤ due_count f }
    ensures after { (P : LayoutParts) (f : Forest LayoutNode) → AreQuiet P nobody_back f → due_count f ≡ 0 }
    ensures once { (w : Handle → ℕ) (P : LayoutParts) (outer : Bool) (asks : List (Option Ask)) (f : Forest LayoutNode) → runs w P outer asks f ≤ weigh w f }
    ensures rounds { (w : Handle → ℕ) (P : LayoutParts) (back : Backs) (outer : Bool) (first rest : List (Option Ask)) (f g : Forest LayoutNode)
        → AskApart first rest → Round P back first f g → runs w P outer first f + runs w P outer rest g ≡ runs w P outer (last_asks first rest) f }
{}

/// What was laid out runs no rule again in the same bounds, whatever was held back below it. So slivers that are measured first run
/// no rule twice: with their layout in their views it is at most what the layout alone would have been.
pub fn no_rule_runs_twice()
    ensures again { (q : Handle → ℕ) (P : LayoutParts) (outer : Bool) (ask : Ask) (v : LayoutNode) (kids : Forest LayoutNode) (h : Handle) (w : LayoutNode) (below rest : Forest LayoutNode)
        → LaysOut P (back_in P outer) ask v kids w below → runs q P outer (Some ask ∷ []) (tree h w below rest) ≡ 0 }
    ensures measured { (w : Handle → ℕ) (s : Setting) (outer : Bool) (axis : Axis) (cross : ℕ) (asks : List (Option Ask)) (f g : Forest LayoutNode)
        → ViewEach axis cross asks f → AreMeasured (parts_of s) (back_in (parts_of s) outer) axis cross f g
        → measure_runs w (parts_of s) outer axis cross f + runs w (parts_of s) outer asks g ≤ runs w (parts_of s) outer asks f }
{}

/// After an outer flush the lists that are laid out are those of full layout of the tree before it, each with its frame.
pub fn outer_flushes_lay_out_lists()
    ensures { (P : LayoutParts) → Lawful P → (h : Handle) (v : LayoutNode) (kids : Forest LayoutNode) (w : LayoutNode) (below : Forest LayoutNode) (ask : Ask) (at : Offset)
        → LaysOut P (outer_back P) ask v kids w below → v.shown ≡ true → v.offset ≡ Some at
        → lists_in P.lists (shown_trees (tree h w below none)) ≡ lists_of P.lists (laid_node P v ask kids) ++ [] }
{}

/// An offset that an outer flush corrects before the items of lazy lists are there changes nothing: where some Viewports stand where
/// full layout corrects them, full layout gives the same laid trees; and they stand so too once both trees have other items. The items
/// have no part in any other node's frame.
pub fn offsets_may_be_corrected_early()
    ensures trees { (P : LayoutParts) → Lawful P → (back : Backs) (asks : List (Option Ask)) (places : List Offset) (f g : Forest LayoutNode)
        → AreCorrected P back asks f g → laid_trees P asks places f ≡ laid_trees P asks places g }
    ensures walks { (P : LayoutParts) (back : Backs) (ask : Ask) (h : Handle) (v : LayoutNode) (kids : Forest LayoutNode) (w : LayoutNode) (below : Forest LayoutNode)
        → LaysOut P back ask v kids w below → AreCorrected P back (Some ask ∷ []) (tree h v kids none) (tree h w below none) }
    ensures items { (P : LayoutParts) → Lawful P → (back : Backs) (asks : List (Option Ask)) (f g f' g' : Forest LayoutNode)
        → AreCorrected P back asks f g → ItemsChange P f g f' g' → AreCorrected P back asks f' g' }
    ensures frames { (P : LayoutParts) → Lawful P → (f g : Forest LayoutNode) → SameButItems P f g → objects P f ≡ objects P g }
{}

/// The tests of asks and of frames say when two are the same.
pub fn asks_are_compared()
    ensures same { (a b : Ask) → same_ask a b ≡ true → a ≡ b }
    ensures itself { (a : Ask) → same_ask a a ≡ true }
    ensures frames { (a b : Frame) → same_frame a b ≡ true → a ≡ b }
    ensures itself_frame { (a : Frame) → same_frame a a ≡ true }
{}

/// The rules of layout are such rules.
pub fn rules_are_lawful()
    ensures { (s : Setting) → Lawful (parts_of s) }
{
    frames_meet_bounds();
    bounds_fix_sizes();
    hidden_boxes_are_blind();
}

/// By these rules full layout of a node is what layout_form says of its render node, in bounds or in a view.
pub fn full_layout_is_of_render_nodes()
    ensures { (s : Setting) (v : LayoutNode) (kids : Forest LayoutNode) (ask : Ask)
        → laid_node (parts_of s) v ask kids ≡ answer (object s (render v.number v.look v.told v.scroll v.count (renders_in kids))) ask }
{
    rules_see_frames();
    sizes_see_no_offsets();
}

/// So the trees of a forest answer as their render nodes do, and would like as much, wherever Viewports in them stand scrolled.
pub fn trees_answer_as_render_nodes()
    ensures answers { (s : Setting) (f : Forest LayoutNode) → objects (parts_of s) f ≡ map framed (objects_of s (renders_in f)) }
    ensures likes { (s : Setting) (look : Look) (ask : Ask) (f : Forest LayoutNode) → liked_in s look ask (members f) ≡ liked_in s look ask (renders_in f) }
{
    rules_see_frames();
    sizes_see_no_offsets();
}

/// A root that stands in the window at its start and is laid out in a view shows exactly the layout of its render nodes as they were
/// before, in this view.
pub fn flushes_show_full_layout()
    ensures { (s : Setting) (view : Size) (h : Handle) (v : LayoutNode) (kids : Forest LayoutNode) (w : LayoutNode) (below : Forest LayoutNode)
        → LaysOut (parts_of s) nobody_back (AsBox (tight view)) v kids w below → v.shown ≡ true → v.offset ≡ Some origin
        → shown_trees (tree h w below none) ≡ more_laids origin (lay_view s (render v.number v.look v.told v.scroll v.count (renders_in kids)) view) no_laids }
{
    rules_are_lawful();
    rules_see_frames();
    sizes_see_no_offsets();
}

/// After a flush each Viewport in the window stands scrolled where its layout left it, and every other node as before, in the window
/// or not.
pub fn flushes_correct_offsets()
    ensures { (P : LayoutParts) → Lawful P → (ask : Ask) (at : Offset) (h : Handle) (v : LayoutNode) (kids : Forest LayoutNode) (w : LayoutNode) (below : Forest LayoutNode)
        → LaysOut P nobody_back ask v kids w below → v.shown ≡ true → v.offset ≡ Some at → AreScrolled (tree h v kids none) (tree h w below none) }
{}

/// A child that has to be laid out below a node that needn't be: its stored frame is the one that its bounds alone give, or, read off
/// its members, its bounds alone give one. Where the frames that are given so are stored, as they are where nodes agree, the one is the
/// other.
pub fn firm_by_members()
    ensures firm { (P : LayoutParts) (f : Forest LayoutNode) → AreApart P f → HaveFixed P f → AreFirm P f }
    ensures members { (P : LayoutParts) (f : Forest LayoutNode) → AreFirm P f → AreApart P f }
    ensures stored { (P : LayoutParts) → Lawful P → (f : Forest LayoutNode) → HereAll P f → AreFirm P f → HaveFixed P f }
{}

/// Flushes of small trees come to what was worked out by hand.
pub fn worked_flushes()
    ensures { WorksOfFlushes }
{}
