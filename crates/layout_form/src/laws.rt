// Laws of layout.
ghost use Rattle.std.specs.Prelude.{◌≡◌, ℕ, ◌≤◌, ◌^◌, List, [], ◌∷◌, map, length, true, Option, Some};
ghost use Rattle.fx_geom.specs.declared.boxes.Bounds.{Bounds};
ghost use Rattle.fx_geom.specs.declared.lengths.Len.{Len};
ghost use Rattle.fx_geom.specs.declared.shapes.Axis.{Axis};
ghost use Rattle.fx_geom.specs.Bounds.{IsWithin};
ghost use Rattle.fx_geom.specs.Insets.{extent_of, other_of};
ghost use Rattle.fx_geom.specs.Len.{stopped};
ghost use Rattle.fx_geom.specs.Size.{HasLengths};
ghost use Rattle.fx_geom.specs.declared.shapes.Size.{Size};
ghost use Rattle.sliver_layout.specs.declared.protocol.SliverBounds.{SliverBounds};
ghost use Rattle.widget_model.specs.Look.{Look};
ghost use Rattle.plain_tree.specs.declared.laid.Frame.{Frame};
ghost use Rattle.plain_tree.specs.declared.render.ParentData.{ParentData};
ghost use Rattle.plain_tree.specs.Render.{Render, render, Renders, renders_of};
ghost use Rattle.plain_tree.specs.Laid.{Laid};
ghost use Rattle.plain_tree.specs.At.{numbers_of};
ghost use Rattle.plain_tree.specs.Laws.{render_numbers_of, AllDiffer};
ghost use Rattle.plain_tree.specs.Offsets.{corrected, scrolled_by};
ghost use Rattle.plain_tree.specs.PlainNode.{PlainNode, count_of};
ghost use Rattle.plain_tree.specs.Projection.{render_of};
ghost use Rattle.widget_model.specs.Typed.{Declarations};
ghost use Rattle.wrap_table.specs.Stretches.{starts_from};
ghost use Rattle.layout_form.specs.declared.asks.Ask.{Ask};
ghost use Rattle.layout_form.specs.Fits.{CanAllBeLaidOut};
ghost use Rattle.layout_form.specs.Members.{HasMembers};
ghost use Rattle.layout_form.specs.Object.{Setting, Object, facts_of, stood_in, size_in, geometry_in, datas, only_of};
ghost use Rattle.layout_form.specs.Layout.{object, objects, box_rule, sliver_rule, intrinsic_rule, laid_box, laid_sliver, lay_view};
ghost use Rattle.layout_form.specs.Corrected.{render_scrolled_by, corrected_render};
ghost use Rattle.layout_form.specs.Laws.{Lays, IsBoxIn, AllBoxesIn, IsProxy, Proxies};
ghost use Rattle.layout_form.specs.Protocol.{asked_box, asked_sliver, IsKept, measured};
ghost use Rattle.layout_form.specs.Frames.{done_with, passed_with, view_makes, geometries_from, views_by, start_by, sliver_makes, sliver_asks};
ghost use Rattle.layout_form.specs.Framed.{EndsInRange, framed, laid_for, box_asks, box_given, sliver_given, AllWithinAsks, fixed_size, is_blind};
ghost use Rattle.layout_form.specs.Intrinsic.{liked_by};
ghost use Rattle.layout_form.specs.SliverRule.{view_size, unseen, viewport_rule};
ghost use Rattle.layout_form.specs.Worked.{Works};
ghost use Rattle.layout_form.specs.WorkedFrames.{FramesWork};
ghost use Rattle.sliver_layout.specs.Slivers.{geometry_of, walk_from};

use plain_tree::projection_keeps_numbers_apart;

/// The objects of a list of render nodes, one by one.
pub fn objects_of_a_list()
    ensures { (s : Setting) (rs : List Render) → objects s (renders_of rs) ≡ map (object s) rs }
{}

/// A node is laid out by the rule of its kind, over the objects of its children.
pub fn nodes_go_by_their_rules()
    ensures parent_data { (s : Setting) (number : ℕ) (look : Look) (d : ParentData) (scroll count : ℕ) (rs : List Render)
        → (object s (render number look d scroll count (renders_of rs))).parent_data ≡ d }
    ensures in_bounds { (s : Setting) (number : ℕ) (look : Look) (d : ParentData) (scroll count : ℕ) (rs : List Render) (b : Bounds)
        → (object s (render number look d scroll count (renders_of rs))).in_bounds b ≡ laid_box s number look b (box_rule s look scroll b (map (object s) rs)) }
    ensures in_view { (s : Setting) (number : ℕ) (look : Look) (d : ParentData) (scroll count : ℕ) (rs : List Render) (b : SliverBounds)
        → (object s (render number look d scroll count (renders_of rs))).in_view b ≡ laid_sliver s number look b (sliver_rule look count b (map (object s) rs)) }
    ensures greatest { (s : Setting) (number : ℕ) (look : Look) (d : ParentData) (scroll count : ℕ) (rs : List Render) (axis : Axis) (across : Len)
        → (object s (render number look d scroll count (renders_of rs))).greatest axis across ≡ intrinsic_rule s look axis across (map (object s) rs) }
{}

/// Layouts of small trees, and what rules make of frames, are as they were worked out by hand.
pub fn worked_layouts()
    ensures trees { Works }
    ensures frames { FramesWork }
{}

/// Each box takes a size that its bounds allow.
pub fn sizes_meet_bounds()
    ensures { (s : Setting) (r : Render) (b : Bounds) → IsWithin b (size_in ((object s r).in_bounds b)) }
{}

/// Each side of each box is a length, as is how far a sliver can be scrolled through, and what a box would like.
pub fn sides_are_lengths()
    ensures boxes { (s : Setting) (r : Render) (b : Bounds) → HasLengths (size_in ((object s r).in_bounds b)) }
    ensures slivers { (s : Setting) (r : Render) (b : SliverBounds) → (geometry_in ((object s r).in_view b)).scroll ≤ 2 ^ 40 }
    ensures greatest { (s : Setting) (r : Render) (axis : Axis) (across : Len) → (object s r).greatest axis across ≤ 2 ^ 40 }
{}

/// No more of a sliver is painted than there is room for.
pub fn slivers_keep_to_their_view()
    ensures { (s : Setting) (r : Render) (b : SliverBounds) → (geometry_in ((object s r).in_view b)).paint ≤ b.remaining }
{}

/// A laid node has the number and the kind of its render node, and its laid children are children of that node, in their
/// order. A Viewport stands scrolled at most as far as before.
pub fn layout_keeps_nodes()
    ensures boxes { (s : Setting) (r : Render) (b : Bounds) → Lays r ((object s r).in_bounds b) }
    ensures slivers { (s : Setting) (r : Render) (b : SliverBounds) → Lays r ((object s r).in_view b) }
{}

/// How large a box is, what a sliver gives and what a box would like don't depend on where the Viewports in it stand scrolled.
pub fn sizes_see_no_offsets()
    ensures boxes { (s : Setting) (r : Render) (offset : ℕ → Option ℕ) (b : Bounds)
        → size_in ((object s (render_scrolled_by offset r)).in_bounds b) ≡ size_in ((object s r).in_bounds b) }
    ensures slivers { (s : Setting) (r : Render) (offset : ℕ → Option ℕ) (b : SliverBounds)
        → geometry_in ((object s (render_scrolled_by offset r)).in_view b) ≡ geometry_in ((object s r).in_view b) }
    ensures greatest { (s : Setting) (r : Render) (offset : ℕ → Option ℕ) (axis : Axis) (across : Len)
        → (object s (render_scrolled_by offset r)).greatest axis across ≡ (object s r).greatest axis across }
{}

/// Laying out again with the offsets that a layout corrected gives the same laid tree, where all numbers differ. A Viewport
/// that wasn't laid out stands where it stood both times.
pub fn corrected_offsets_stay()
    ensures boxes { (s : Setting) (r : Render) (b : Bounds) → AllDiffer (render_numbers_of r)
        → (object s (corrected_render ((object s r).in_bounds b) r)).in_bounds b ≡ (object s r).in_bounds b }
    ensures slivers { (s : Setting) (r : Render) (b : SliverBounds) → AllDiffer (render_numbers_of r)
        → (object s (corrected_render ((object s r).in_view b) r)).in_view b ≡ (object s r).in_view b }
    ensures trees { (s : Setting) (n : PlainNode) (r : Render) (view : Size) → AllDiffer (numbers_of n) → render_of n ≡ r ∷ []
        → map (λ q. lay_view s q view) (render_of (corrected (lay_view s r view) n)) ≡ lay_view s r view ∷ [] }
{
    projection_keeps_numbers_apart();
}

/// The render nodes of a tree with other offsets are those of the tree, with these offsets.
pub fn projections_take_offsets()
    ensures { (offset : ℕ → Option ℕ) (n : PlainNode) → render_of (scrolled_by offset n) ≡ map (render_scrolled_by offset) (render_of n) }
{}

/// How far a sliver can be scrolled through doesn't depend on what is seen of it.
pub fn scroll_extents_see_nothing()
    ensures { (s : Setting) (r : Render) (b v : SliverBounds) → b.axis ≡ v.axis → b.cross ≡ v.cross
        → (geometry_in ((object s r).in_view b)).scroll ≡ (geometry_in ((object s r).in_view v)).scroll }
{}

/// A proxy passes its bounds on, so that its child is tight where it is itself. A laid box holds the bounds that it got.
pub fn proxies_pass_their_bounds_on()
    ensures kinds { (s : Setting) → Proxies s }
    ensures children { (s : Setting) (number : ℕ) (look : Look) (d : ParentData) (scroll count : ℕ) (rs : Renders) (b : Bounds)
        → IsProxy s look → AllBoxesIn b (stood_in ((object s (render number look d scroll count rs)).in_bounds b)) }
    ensures holds { (s : Setting) (r : Render) (b : Bounds) → IsBoxIn b (facts_of ((object s r).in_bounds b)).frame }
{}

/// Asking children in at most two rounds gives what the rules say, also where the child of a sliver is kept from an answer
/// where nothing was seen. What a sliver gave in one view tells what it gives in another one with the same axis and cross
/// extent.
pub fn two_rounds_suffice()
    ensures boxes { (s : Setting) (look : Look) (scroll : ℕ) (b : Bounds) (rs : Renders)
        → asked_box s look scroll b (objects s rs) ≡ box_rule s look scroll b (objects s rs) }
    ensures slivers { (s : Setting) (number : ℕ) (look : Look) (d : ParentData) (scroll count : ℕ) (rs : Renders) (b : SliverBounds) (kept : Option Laid)
        → IsKept b kept (object s (render number look d scroll count rs)) → asked_sliver look count b kept (objects s rs) ≡ sliver_rule look count b (objects s rs) }
    ensures measures { (s : Setting) (r : Render) (b v : SliverBounds) → b.axis ≡ v.axis → b.cross ≡ v.cross
        → measured ((object s r).in_view b) v ≡ geometry_in ((object s r).in_view v) }
{}

/// The places of children along an axis are the same whether their running sum stops on the way or at each place.
pub fn places_stop_once()
    ensures { (gap at : ℕ) (extents : List ℕ) → starts_from gap (stopped at) extents ≡ starts_from gap at extents }
{}

/// A tree of widgets whose members lie in their ranges, with at most 2^44 nodes, can be laid out.
pub fn trees_of_members_can_be_laid_out()
    ensures { (p : Declarations) (root : PlainNode) → HasMembers p root → count_of root ≤ 2 ^ 44 → CanAllBeLaidOut (renders_of (render_of root)) }
{}

/// In a view that ends at a length what a sliver gives follows from how far it can be scrolled through, and nothing else of it.
pub fn slivers_follow_their_scroll_extents()
    ensures { (s : Setting) (r : Render) (b : SliverBounds) → EndsInRange b
        → geometry_in ((object s r).in_view b) ≡ geometry_of b (geometry_in ((object s r).in_view (unseen b.axis b.cross))).scroll }
{}

/// A rule sees of its children what they were told, how they answer, and what an only child would like: it is what it makes of
/// their frames, and the laid children stand at the places that it makes. Of a Viewport's slivers it sees how far each can be
/// scrolled through, before it says in which views they are laid out.
pub fn rules_see_frames()
    ensures boxes { (s : Setting) (look : Look) (scroll : ℕ) (b : Bounds) (rs : Renders)
        → let cs = objects s rs in
        let liked = liked_by look b (only_of cs) in
        box_rule s look scroll b cs
        ≡ done_with (box_given s look scroll b liked (datas cs) (map framed cs)) (laid_for (box_asks s look scroll b liked (datas cs) (map framed cs)) cs) }
    ensures slivers { (look : Look) (count : ℕ) (b : SliverBounds) (cs : List Object)
        → sliver_rule look count b cs ≡ passed_with (sliver_given look count b (datas cs) (map framed cs)) (laid_for (sliver_asks look count b (datas cs)) cs) }
{}

/// Where children, as they are asked, take sizes that their bounds allow, a rule gives such a size too, and a sliver can be
/// scrolled through a length. No more of a sliver is painted than there is room for, whatever its children answer.
pub fn frames_meet_bounds()
    ensures boxes { (s : Setting) (look : Look) (scroll : ℕ) (b : Bounds) (liked : ℕ) (ds : List ParentData) (gs : List (Ask → Frame))
        → AllWithinAsks (box_asks s look scroll b liked ds gs) gs → IsWithin b (box_given s look scroll b liked ds gs).size }
    ensures scrolls { (look : Look) (count : ℕ) (b : SliverBounds) (ds : List ParentData) (gs : List (Ask → Frame))
        → AllWithinAsks (sliver_asks look count b ds) gs → (sliver_given look count b ds gs).geometry.scroll ≤ 2 ^ 40 }
    ensures paints { (look : Look) (count : ℕ) (b : SliverBounds) (ds : List ParentData) (frames : List (Option Frame))
        → (sliver_makes look count b ds frames).geometry.paint ≤ b.remaining }
{}

/// Tight bounds alone give the size of a box, as any bounds give that of a Viewport and of an Offstage that is offstage.
pub fn bounds_fix_sizes()
    ensures { (s : Setting) (look : Look) (scroll : ℕ) (b : Bounds) (liked : ℕ) (ds : List ParentData) (gs : List (Ask → Frame)) (size : Size)
        → fixed_size look b ≡ Some size → AllWithinAsks (box_asks s look scroll b liked ds gs) gs → (box_given s look scroll b liked ds gs).size ≡ size }
{}

/// How the child of an Offstage that is offstage is asked, and what is made of it, doesn't depend on how it answers.
pub fn hidden_boxes_are_blind()
    ensures asks { (s : Setting) (look : Look) (scroll : ℕ) (b : Bounds) (liked likes : ℕ) (ds : List ParentData) (gs hs : List (Ask → Frame))
        → is_blind look ≡ true → box_asks s look scroll b liked ds gs ≡ box_asks s look scroll b likes ds hs }
    ensures makes { (s : Setting) (look : Look) (scroll : ℕ) (b : Bounds) (liked likes : ℕ) (ds : List ParentData) (gs hs : List (Ask → Frame))
        → is_blind look ≡ true → length gs ≡ length hs → box_given s look scroll b liked ds gs ≡ box_given s look scroll b likes ds hs }
{}

/// A Viewport needs no more of its slivers than how far each can be scrolled through, to say how they are laid out and where they
/// stand.
pub fn viewports_need_scroll_extents()
    ensures { (s : Setting) (axis : Axis) (offset : ℕ) (b : Bounds) (rs : Renders)
        → let main = extent_of (view_size b) axis in
        let cross = extent_of (view_size b) (other_of axis) in
        let extents = map (λ c. (geometry_in (c.in_view (unseen axis cross))).scroll) (objects s rs) in
        let start = start_by axis offset b extents in
        viewport_rule axis offset b (objects s rs)
        ≡ done_with (view_makes axis b start (geometries_from axis main cross (walk_from start) extents)) (laid_for (views_by axis main cross (walk_from start) (map (λ n. Some n) extents)) (objects s rs)) }
{}
