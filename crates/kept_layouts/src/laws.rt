// Laws of what changes of a tree of render nodes leave of the layouts that it keeps.
ghost use Rattle.std.specs.Prelude.{◌≡◌, true, false, ℕ, Bool, List, [], ◌∷◌, Option, Some};
ghost use Rattle.fx_geom.specs.declared.shapes.Size.{Size};
ghost use Rattle.fx_handles.specs.declared.Handle.{Handle};
ghost use Rattle.delegates.specs.Meaning.{Meaning};
ghost use Rattle.delegates.specs.Table.{Plug, with_meaning};
ghost use Rattle.node_tree.specs.Forest.{TreeNode, Forest};
ghost use Rattle.node_tree.specs.Plan.{PlanEntry, IsPlan, IsUpdated};
ghost use Rattle.node_tree.specs.Tree.{Tree, IsTree, node_at, value_at};
ghost use Rattle.tree_marks.specs.Closed.{IsClosed, IsLinked, is_apart};
ghost use Rattle.tree_marks.specs.Marking.{Above};
ghost use Rattle.tree_marks.specs.Marks.{sweep};
ghost use Rattle.layout_form.specs.Layout.{lay_view};
ghost use Rattle.layout_form.specs.Object.{Setting};
ghost use Rattle.plain_tree.specs.Render.{Render};
ghost use Rattle.layout_walk.specs.Items.{lists_of};
ghost use Rattle.layout_walk.specs.Here.{HereAll};
ghost use Rattle.layout_walk.specs.Rules.{parts_of, is_list};
ghost use Rattle.layout_rules.specs.Nodes.{layout_nodes};
ghost use Rattle.render_tree.specs.Changes.{LaidAnew};
ghost use Rattle.render_tree.specs.Edits.{Writes, with_scroll};
ghost use Rattle.render_tree.specs.Marked.{SetsMarks};
ghost use Rattle.render_tree.specs.Marks.{layout_marks, paint_marks, is_shown};
ghost use Rattle.render_tree.specs.Object.{RenderObject, object_look};
ghost use Rattle.render_tree.specs.Redraw.{Redraw, redrawn};
ghost use Rattle.render_tree.specs.Tree.{object_at};
ghost use Rattle.render_tree.specs.Users.{uses};
ghost use Rattle.kept_layouts.specs.Apart.{AreSettled, stands_apart};
ghost use Rattle.kept_layouts.specs.Items.{without_items, ListsUnasked, HasNoItems};
ghost use Rattle.kept_layouts.specs.Here.{KeepsLayouts, HereStore, AddsMarked, ReadsSame, ReadSameBut};

use layout_walk::{
    asks_are_compared, full_layout_is_of_render_nodes, offsets_may_be_corrected_early,
    rules_are_lawful, trees_answer_as_render_nodes,
};

/// After a plan was committed, and the nodes that it changes for layout were marked, each node agrees with its children again; also
/// where nodes were made before, which stood nowhere. It does nothing.
pub fn commits_keep_layouts()
    ensures stores { (s : Setting) (t : Tree RenderObject) → IsTree t → KeepsLayouts s t → HereStore s (node_at t) }
    ensures more { (s : Setting) (old new : Handle → Option (TreeNode RenderObject)) → HereStore s old → AddsMarked old new → HereStore s new }
    ensures commits { (s : Setting) (t : Tree RenderObject) (es : List (PlanEntry Redraw)) (root : Option Handle) (inactive : List Handle)
        (g : Forest Redraw) (f : Forest RenderObject) (hs : List Handle) (p : Above) → HereStore s (node_at t) → IsPlan t es root inactive g
        → LaidAnew t root es hs → IsUpdated redrawn (value_at t) g f → HereAll (parts_of s) (layout_nodes (sweep layout_marks true hs p f)) }
{
    rules_are_lawful();
    asks_are_compared();
}

/// Where delegates mean something else, and the nodes are marked that use them, each node agrees with its children again: a rule
/// reads of the delegates the one that it names, and what a box would like reads none. It does nothing.
pub fn changed_delegates_keep_layouts()
    ensures named { (cell : Size) (delegates : List Plug) (name : List ℕ) (m : Option Meaning) (t : Tree RenderObject) (k : Handle) (o : RenderObject)
        → object_at t k ≡ Some o → uses t name k ≡ false
        → ReadsSame (record { cell = cell; delegates = delegates }) (record { cell = cell; delegates = with_meaning delegates name m }) (object_look o) }
    ensures marked { (s after : Setting) (old new : Tree RenderObject) (hs : List Handle) → IsTree old → KeepsLayouts s old → ReadSameBut s after old hs
        → SetsMarks layout_marks true hs old new → KeepsLayouts after new }
{
    rules_are_lawful();
    asks_are_compared();
}

/// Where a node is scrolled, and is marked, each node agrees with its children again: its own rule alone reads how far. It does
/// nothing.
pub fn scrolls_keep_layouts()
    ensures { (s : Setting) (old mid new : Tree RenderObject) (h : Handle) (o : RenderObject) (scroll : ℕ) → IsTree old → KeepsLayouts s old
        → object_at old h ≡ Some o → Writes old mid h (with_scroll scroll o) → SetsMarks layout_marks true (h ∷ []) mid new → KeepsLayouts s new }
{
    rules_are_lawful();
    asks_are_compared();
}

/// Marks for painting change nothing of what a layout reads. It does nothing.
pub fn paint_marks_keep_layouts()
    ensures { (s : Setting) (also : Bool) (hs : List Handle) (old new : Tree RenderObject) → IsTree old → SetsMarks paint_marks also hs old new
        → KeepsLayouts s old → KeepsLayouts s new }
{}

/// Two forms of what holds between layouts are one. By what is stored: each node agrees with its children. By members, as they are now:
/// what is stored of each node that needn't be laid out is what its rule makes of its children's frames, each child of one that has to
/// be laid out tells nothing above it, and marks reach the parent. The nearest relayout boundaries of `mark_layouts` are such children.
/// It does nothing.
pub fn closedness_is_by_members()
    ensures stored { (s : Setting) (p : Above) (f : Forest RenderObject) → AreSettled (parts_of s) (layout_nodes f) → IsClosed layout_marks stands_apart [] p f
        → IsLinked layout_marks f → HereAll (parts_of s) (layout_nodes f) }
    ensures settled { (s : Setting) (f : Forest RenderObject) → HereAll (parts_of s) (layout_nodes f) → AreSettled (parts_of s) (layout_nodes f) }
    ensures closed { (s : Setting) (p : Above) (f : Forest RenderObject) → HereAll (parts_of s) (layout_nodes f) → IsClosed layout_marks stands_apart [] p f }
    ensures linked { (s : Setting) (f : Forest RenderObject) → HereAll (parts_of s) (layout_nodes f) → IsLinked layout_marks f }
    ensures apart { (p : Above) (f : Forest RenderObject) → IsClosed layout_marks (is_apart layout_marks is_shown) [] p f → IsClosed layout_marks stands_apart [] p f }
{
    rules_are_lawful();
}

/// The items of lazy lists have no part in where full layout puts the lists, nor in how large each is: without them the lists that are
/// laid out are the same, each with its frame, and none has items. It does nothing.
pub fn lists_lie_without_their_items()
    ensures lists { (s : Setting) (view : Size) (r : Render) → ListsUnasked false r
        → lists_of is_list (lay_view s (without_items r) view) ≡ lists_of is_list (lay_view s r view) }
    ensures items { (s : Setting) (view : Size) (r : Render) → HasNoItems (lay_view s (without_items r) view) }
{
    rules_are_lawful();
    trees_answer_as_render_nodes();
    full_layout_is_of_render_nodes();
    offsets_may_be_corrected_early();
}
