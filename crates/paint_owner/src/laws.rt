// Laws of what is kept, and of what a flush leaves.
ghost use Rattle.std.specs.Prelude.{◌≡◌, ◌∷◌, [], ℕ, Bool, true, Option, Some, List};
ghost use Rattle.fx_handles.specs.declared.Handle.{Handle};
ghost use Rattle.fx_geom.specs.declared.shapes.Size.{Size};
ghost use Rattle.delegates.specs.Meaning.{Meaning};
ghost use Rattle.delegates.specs.Table.{Plug, with_meaning};
ghost use Rattle.node_tree.specs.Forest.{TreeNode, Forest, tops, Stands};
ghost use Rattle.node_tree.specs.Tree.{Tree, parent_at, IsTree};
ghost use Rattle.tree_marks.specs.Marks.{listed};
ghost use Rattle.render_tree.specs.Calls.{MarksAt};
ghost use Rattle.render_tree.specs.Edits.{Writes};
ghost use Rattle.render_tree.specs.Marked.{SetsMarks};
ghost use Rattle.render_tree.specs.Marks.{layout_marks, paint_marks};
ghost use Rattle.render_tree.specs.Object.{RenderObject};
ghost use Rattle.render_tree.specs.Plain.{root_tree};
ghost use Rattle.render_tree.specs.Tree.{object_at};
ghost use Rattle.render_tree.specs.Users.{uses};
ghost use Rattle.kept_layers.specs.Committed.{CommitsListed};
ghost use Rattle.kept_layers.specs.Repainted.{FlagsChanges, ListsChanges};
ghost use Rattle.kept_layers.specs.Steps.{painted_count};
ghost use Rattle.kept_layers.specs.Unmarked.{placed_of, drawn_of, IsRootUnmarked};
ghost use Rattle.paint_owner.specs.Changes.{SamePaintMarks};
ghost use Rattle.paint_owner.specs.Settled.{IsRootShown, IsPaintedCalm};
ghost use Rattle.paint_owner.specs.Finding.{root_flag};
ghost use Rattle.paint_owner.specs.Due.{AllDue};
ghost use Rattle.paint_owner.specs.Relaid.{IsRelaid};
ghost use Rattle.paint_owner.specs.PaintOwner.{PaintOwner, KeepsRoot, IsKept};
ghost use Rattle.paint_owner.specs.Worked.{Works};

use kept_layers::{changes_are_listed, other_delegates_are_listed, unmarked_groups_stay};

/// The flags and marks of a small tree whose frame was painted are as they were worked out by hand. It does nothing.
pub fn worked_frame()
    ensures { Works }
{}

/// Where painting reads of the root and its group what it read, what is kept of the root stays as it would be, whatever changed
/// else, and in which order. It does nothing.
pub fn unmarked_roots_stay()
    ensures { (cell : Size) (before after : List Plug) (now : Handle → Option (TreeNode RenderObject)) (o : PaintOwner) (p : Option Handle) (f g : Forest RenderObject)
        → Stands now p g → tops f ≡ tops g → IsRootUnmarked cell before after now f → KeepsRoot cell before o f → KeepsRoot cell after o g }
{
    unmarked_groups_stay();
}

/// Where all nodes of a tree are to be painted, whatever is kept is fresh for it: so it is of a tree that was made just now. It
/// does nothing.
pub fn due_trees_are_kept()
    ensures { (cell : Size) (delegates : List Plug) (o : PaintOwner) (t : Tree RenderObject) → AllDue t → IsKept cell delegates o (root_tree t) }
{}

/// Marks for painting leave what is kept fresh, whatever nodes they are set for. It does nothing.
pub fn marks_keep_layers()
    ensures { (cell : Size) (delegates : List Plug) (o : PaintOwner) (also : Bool) (hs : List Handle) (old new : Tree RenderObject)
        → IsTree old → SetsMarks paint_marks also hs old new → IsKept cell delegates o (root_tree old) → IsKept cell delegates o (root_tree new) }
{}

/// Where all is flagged that is painted otherwise than it was in the tree of which something is kept, what is kept is fresh for the
/// other tree; whatever changed, and in which order. It does nothing.
pub fn repainted_trees_are_kept()
    ensures { (cell : Size) (before after : List Plug) (o : PaintOwner) (old new : Tree RenderObject)
        → IsTree old → IsTree new → FlagsChanges cell before after old new → IsKept cell before o (root_tree old) → IsKept cell after o (root_tree new) }
{}

/// Where a tree was changed, and then the nodes were marked for painting that the change lists, what is kept stays fresh. It does
/// nothing.
pub fn listed_changes_keep_layers()
    ensures { (cell : Size) (before after : List Plug) (o : PaintOwner) (also : Bool) (hs : List Handle) (old mid new : Tree RenderObject) → IsTree old → IsTree mid
        → ListsChanges cell before after also hs old mid → SetsMarks paint_marks also hs mid new → IsKept cell before o (root_tree old) → IsKept cell after o (root_tree new) }
{}

/// What is kept stays fresh where a plan was committed and the nodes were marked that it changes. It does nothing.
pub fn commits_keep_layers()
    ensures { (cell : Size) (delegates : List Plug) (o : PaintOwner) (painted : List Handle) (old mid new : Tree RenderObject) → IsTree old
        → CommitsListed painted old mid → SetsMarks paint_marks true painted mid new → IsKept cell delegates o (root_tree old) → IsKept cell delegates o (root_tree new) }
{
    changes_are_listed();
}

/// What is kept stays fresh where a node was written: by what painting reads of it, and it was marked; by its place alone, and its
/// parent was marked, or it has none; by nothing that painting reads. And marks for layout leave it fresh. It does nothing.
pub fn writes_keep_layers()
    ensures drawn { (cell : Size) (delegates : List Plug) (o : PaintOwner) (also : Bool) (old mid new : Tree RenderObject) (h : Handle) (v w : RenderObject) → IsTree old
        → object_at old h ≡ Some v → Writes old mid h w → SamePaintMarks v w → placed_of w ≡ placed_of v → SetsMarks paint_marks also (h ∷ []) mid new
        → IsKept cell delegates o (root_tree old) → IsKept cell delegates o (root_tree new) }
    ensures placed { (cell : Size) (delegates : List Plug) (o : PaintOwner) (old mid new : Tree RenderObject) (h : Handle) (v w : RenderObject) → IsTree old
        → object_at old h ≡ Some v → Writes old mid h w → SamePaintMarks v w → drawn_of w ≡ drawn_of v → MarksAt paint_marks (parent_at old h) mid new
        → IsKept cell delegates o (root_tree old) → IsKept cell delegates o (root_tree new) }
    ensures unread { (cell : Size) (delegates : List Plug) (o : PaintOwner) (old new : Tree RenderObject) (h : Handle) (v w : RenderObject) → IsTree old
        → object_at old h ≡ Some v → Writes old new h w → SamePaintMarks v w → drawn_of w ≡ drawn_of v → placed_of w ≡ placed_of v
        → IsKept cell delegates o (root_tree old) → IsKept cell delegates o (root_tree new) }
    ensures layouts { (cell : Size) (delegates : List Plug) (o : PaintOwner) (also : Bool) (hs : List Handle) (old new : Tree RenderObject) → IsTree old
        → SetsMarks layout_marks also hs old new → IsKept cell delegates o (root_tree old) → IsKept cell delegates o (root_tree new) }
{
    changes_are_listed();
}

/// A layout, and then marks for painting of the nodes that it changed for painting, leave what is kept fresh. It does nothing.
pub fn layouts_keep_layers()
    ensures { (cell : Size) (delegates : List Plug) (o : PaintOwner) (also : Bool) (changed : List Handle) (old laid new : Tree RenderObject)
        → IsTree old → IsRelaid old laid changed → SetsMarks paint_marks also changed laid new
        → IsKept cell delegates o (root_tree old) → IsKept cell delegates o (root_tree new) }
{}

/// What is kept stays fresh where the delegate of a name means something else, or was unplugged, and each node was marked that uses
/// a delegate of this name. It does nothing.
pub fn delegates_keep_layers()
    ensures { (cell : Size) (delegates : List Plug) (name : List ℕ) (m : Option Meaning) (o : PaintOwner) (also : Bool) (hs : List Handle) (old new : Tree RenderObject) → IsTree old
        → ((k : Handle) → uses old name k ≡ true → listed k hs ≡ true) → SetsMarks paint_marks also hs old new
        → IsKept cell delegates o (root_tree old) → IsKept cell (with_meaning delegates name m) o (root_tree new) }
{
    other_delegates_are_listed();
}

/// A frame whose painted nodes have no flag counts no step. It does nothing.
pub fn calm_frames_count_nothing()
    ensures { (f : Forest RenderObject) → IsRootShown f → IsPaintedCalm f → painted_count (root_flag f) f ≡ 0 }
{}
