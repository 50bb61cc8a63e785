// Laws of what is kept while a build goes on in two phases.
ghost use Rattle.std.specs.Prelude.{◌≡◌, true, ℕ, List, [], ◌∷◌, Option, Some};
ghost use Rattle.delegates.specs.Table.{Plug};
ghost use Rattle.fx_geom.specs.declared.shapes.Size.{Size};
ghost use Rattle.fx_handles.specs.declared.Handle.{Handle};
ghost use Rattle.node_tree.specs.Forest.{In};
ghost use Rattle.node_tree.specs.Tree.{Tree, IsTree};
ghost use Rattle.layout_form.specs.Object.{Setting};
ghost use Rattle.layout_walk.specs.Here.{HereAll};
ghost use Rattle.layout_walk.specs.Rules.{parts_of};
ghost use Rattle.layout_rules.specs.Nodes.{layout_nodes, seen_at};
ghost use Rattle.layout_owner.specs.Outer.{PaintsThenRanges};
ghost use Rattle.render_tree.specs.Edits.{Writes, with_scroll};
ghost use Rattle.render_tree.specs.Marked.{SetsMarks};
ghost use Rattle.render_tree.specs.Marks.{layout_marks};
ghost use Rattle.render_tree.specs.Object.{RenderObject};
ghost use Rattle.render_tree.specs.Plain.{root_tree};
ghost use Rattle.render_tree.specs.Tree.{object_at};
ghost use Rattle.kept_layouts.specs.Here.{KeepsLayouts};
ghost use Rattle.paint_owner.specs.PaintOwner.{PaintOwner, IsKept};
ghost use Rattle.kept_phases.specs.Layers.{KeepsLayers};
ghost use Rattle.kept_phases.specs.Redraws.{Redraws, KeepsKinds};
ghost use Rattle.kept_phases.specs.Parts.{RedrawsPart};

use kept_layouts::{commits_keep_layouts, paint_marks_keep_layouts};

/// After a step of a build each node agrees with its children again, wherever it stands. It does nothing.
pub fn redraws_keep_layouts()
    ensures { (s : Setting) (old new : Tree RenderObject) → Redraws old new → IsTree old → KeepsLayouts s old → KeepsLayouts s new }
{
    commits_keep_layouts();
    paint_marks_keep_layouts();
}

/// After a step of a build all layers that are kept are fresh again, wherever their boundaries stand. It does nothing.
pub fn redraws_keep_layers()
    ensures { (cell : Size) (delegates : List Plug) (o : PaintOwner) (old new : Tree RenderObject) (r : Redraws old new) → KeepsKinds old r.committed → IsTree old
        → KeepsLayers cell delegates o old → KeepsLayers cell delegates o new }
{}

/// An outer layout, after which the nodes of the root's tree agree with their children, leaves those beside it as they were; and the
/// marks that it sets leave all layers fresh. It does nothing.
pub fn outer_layouts_keep_all()
    ensures layouts { (s : Setting) (old new : Tree RenderObject) (r : Handle) → old.root ≡ Some r → PaintsThenRanges old new → IsTree old → IsTree new
        → HereAll (parts_of s) (layout_nodes (root_tree new)) → ((k : Handle) → (In k (root_tree old) → ⊥) → seen_at new k ≡ seen_at old k)
        → KeepsLayouts s old → KeepsLayouts s new }
    ensures layers { (cell : Size) (delegates : List Plug) (o : PaintOwner) (old new : Tree RenderObject) → PaintsThenRanges old new → IsTree old → IsTree new
        → KeepsLayers cell delegates o old → KeepsLayers cell delegates o new }
{}

/// All layers stay fresh where a node is scrolled, and marked for layout. It does nothing.
pub fn scrolls_keep_layers()
    ensures { (cell : Size) (delegates : List Plug) (o : PaintOwner) (old mid new : Tree RenderObject) (h : Handle) (v : RenderObject) (scroll : ℕ) → IsTree old
        → object_at old h ≡ Some v → Writes old mid h (with_scroll scroll v) → SetsMarks layout_marks true (h ∷ []) mid new
        → KeepsLayers cell delegates o old → KeepsLayers cell delegates o new }
{}

/// Where no node stands beside the root's tree, all layers that are kept are those of the root's tree. It does nothing.
pub fn layers_are_kept_whole()
    ensures whole { (cell : Size) (delegates : List Plug) (o : PaintOwner) (t : Tree RenderObject) → t.inactive ≡ [] → IsKept cell delegates o (root_tree t) → KeepsLayers cell delegates o t }
    ensures root { (cell : Size) (delegates : List Plug) (o : PaintOwner) (t : Tree RenderObject) → t.inactive ≡ [] → IsTree t → KeepsLayers cell delegates o t
        → IsKept cell delegates o (root_tree t) }
{}

/// The first phase of a build is such a step, in which the nodes that its plan doesn't name stay as they are, but for the children that
/// they lose to it. It does nothing.
pub fn parts_are_redrawn()
    ensures { (old new : Tree RenderObject) → IsTree old → (p : RedrawsPart old new) → (r : Redraws old new) × (r.committed ≡ p.committed) }
{}
