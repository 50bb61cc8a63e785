// Laws of marks on render nodes. None of these calls does anything.
ghost use Rattle.std.specs.Prelude.{◌≡◌, [], List, Option, true};
ghost use Rattle.fx_handles.specs.declared.Handle.{Handle};
ghost use Rattle.node_tree.specs.Forest.{Forest};
ghost use Rattle.node_tree.specs.Tree.{Tree, node_at, value_at};
ghost use Rattle.node_tree.specs.Plan.{PlanEntry, IsPlan, IsUpdated};
ghost use Rattle.tree_marks.specs.Marking.{Above, IsMarking, IsWhole};
ghost use Rattle.tree_marks.specs.Marks.{sweep};
ghost use Rattle.tree_marks.specs.Closed.{IsLinked, IsClosed, is_apart};
ghost use Rattle.tree_marks.specs.Commit.{AreParts, IsSettled, IsLinkedStore, IsClosedStore};
ghost use Rattle.render_tree.specs.Object.{RenderObject};
ghost use Rattle.render_tree.specs.Redraw.{Redraw, redrawn};
ghost use Rattle.render_tree.specs.Marks.{layout_marks, paint_marks, layout_parts, is_shown};
ghost use Rattle.render_tree.specs.Changes.{LaidAnew};

/// The marks of render nodes are marks: they change nothing by which it is told how far they reach. How far those for layout
/// reach is told by what a layout reads of a node, what its parent takes of it, and what its last layout left.
pub fn render_marks_are_marks()
    ensures layout { IsMarking layout_marks }
    ensures paint { IsMarking paint_marks }
    ensures whole { IsWhole layout_marks }
    ensures parts { AreParts layout_marks layout_parts is_shown }
{}

/// After a plan was committed, and the nodes that it changes for layout were marked, each node without a layout flag had none
/// before, a layout reads the same of it, and its frame and those of its children are as they were; below an intrinsic box
/// without a flag a layout reads the same of every node. What stood apart and was linked does so again.
pub fn layouts_settle()
    ensures settled { (t : Tree RenderObject) (es : List (PlanEntry Redraw)) (root : Option Handle) (inactive : List Handle)
        (g : Forest Redraw) (f : Forest RenderObject) (hs : List Handle) → IsPlan t es root inactive g → LaidAnew t root es hs
        → IsUpdated redrawn (value_at t) g f → (p : Above)
        → IsSettled layout_marks layout_parts (node_at t) (sweep layout_marks true hs p f) }
    ensures closed { (t : Tree RenderObject) (es : List (PlanEntry Redraw)) (root : Option Handle) (inactive : List Handle)
        (g : Forest Redraw) (f : Forest RenderObject) (hs : List Handle) → IsPlan t es root inactive g → LaidAnew t root es hs
        → IsUpdated redrawn (value_at t) g f → (p : Above) → IsClosedStore layout_marks layout_parts is_shown (node_at t)
        → IsClosed layout_marks (is_apart layout_marks is_shown) [] p (sweep layout_marks true hs p f) }
    ensures linked { (t : Tree RenderObject) (es : List (PlanEntry Redraw)) (root : Option Handle) (inactive : List Handle)
        (g : Forest Redraw) (f : Forest RenderObject) (hs : List Handle) → IsPlan t es root inactive g → LaidAnew t root es hs
        → IsUpdated redrawn (value_at t) g f → (p : Above) → IsLinkedStore layout_marks layout_parts (node_at t)
        → IsLinked layout_marks (sweep layout_marks true hs p f) }
{}
