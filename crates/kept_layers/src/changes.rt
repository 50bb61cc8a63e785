// Laws of changes: what is kept stays as it would be where all is flagged that is painted otherwise; and the marks that do so.
ghost use Rattle.std.specs.Prelude.{◌≡◌, ◌∷◌, [], Bool, true, false, Option, Some, None, IsSome, List, ℕ};
ghost use Rattle.std.specs.Str.{bytes_eq};
ghost use Rattle.fx_handles.specs.declared.Handle.{Handle};
ghost use Rattle.fx_geom.specs.declared.shapes.Size.{Size};
ghost use Rattle.delegates.specs.Meaning.{Meaning};
ghost use Rattle.delegates.specs.Table.{Plug, with_meaning};
ghost use Rattle.node_tree.specs.Forest.{TreeNode, Forest, tops, In, Stands};
ghost use Rattle.node_tree.specs.Forest.Forest.{none, tree};
ghost use Rattle.node_tree.specs.Tree.{Tree, parent_at, IsTree};
ghost use Rattle.tree_marks.specs.Marks.{listed};
ghost use Rattle.render_tree.specs.Edits.{Writes};
ghost use Rattle.render_tree.specs.Marked.{SetsMarks};
ghost use Rattle.render_tree.specs.Marks.{layout_marks, paint_marks};
ghost use Rattle.render_tree.specs.Object.{RenderObject};
ghost use Rattle.render_tree.specs.Plain.{root_tree};
ghost use Rattle.render_tree.specs.Tree.{object_at};
ghost use Rattle.render_tree.specs.Users.{uses};
ghost use Rattle.kept_layers.specs.Committed.{CommitsListed};
ghost use Rattle.kept_layers.specs.KeptLayers.{KeptLayers, IsFresh, IsMarked};
ghost use Rattle.kept_layers.specs.Repainted.{IsRepainted, IsRootRepainted, FlagsChanges, ListsChanges, KeepsParents};
ghost use Rattle.kept_layers.specs.Top.{root_parts};
ghost use Rattle.kept_layers.specs.Unmarked.{placed_of, drawn_of, DrawsSame};

/// Where all is flagged that is painted otherwise than it was, what is kept of the boundaries stays fresh, and the root's own part
/// is as it was where the root isn't flagged; whatever changed, and in which order.
pub fn repainted_trees_stay_fresh()
    ensures boundaries { (cell : Size) (before after : List Plug) (was : Handle → Option (TreeNode RenderObject)) (s : KeptLayers) (p : Option Handle) (old : Forest RenderObject)
        → Stands was p old → IsFresh cell before s old → (above : Bool) (f : Forest RenderObject)
        → ((h : Handle) → In h f → IsSome (was h) → In h old) → IsRepainted cell before after was above f → IsFresh cell after s f }
    ensures root { (cell : Size) (before after : List Plug) (was : Handle → Option (TreeNode RenderObject)) (root p : Option Handle) (h : Handle) (o : RenderObject)
        (below old : Forest RenderObject) → Stands was p old → tops old ≡ h ∷ [] → IsRootRepainted cell before after was root (tree h o below none)
        → o.needs_paint ≡ false → root_parts cell after (tree h o below none) ≡ root_parts cell before old }
{}

/// Where the nodes are marked for painting that a change lists, all is flagged that is painted otherwise than before it.
pub fn listed_changes_repaint()
    ensures { (cell : Size) (before after : List Plug) (also : Bool) (hs : List Handle) (old mid new : Tree RenderObject) → IsTree old → IsTree mid
        → ListsChanges cell before after also hs old mid → SetsMarks paint_marks also hs mid new → IsMarked (root_tree old) → FlagsChanges cell before after old new }
{}

/// What lists its changes: a commit, with what the plan changes for painting; a node that was written, with itself or its parent or
/// none, by what painting reads of it; marks for layout, without any node, alone and after another change; and two changes of one
/// list, one after the other. No marks are set for no node.
pub fn changes_are_listed()
    ensures committed { (cell : Size) (delegates : List Plug) (painted : List Handle) (old new : Tree RenderObject) → IsTree old → CommitsListed painted old new
        → ListsChanges cell delegates delegates true painted old new }
    ensures written { (cell : Size) (delegates : List Plug) (also : Bool) (hs : List Handle) (old new : Tree RenderObject) (h : Handle) (o v : RenderObject)
        → IsTree old → object_at old h ≡ Some o → Writes old new h v → v.needs_paint ≡ o.needs_paint → v.paint_below ≡ o.paint_below
        → (listed h hs ≡ false → drawn_of v ≡ drawn_of o)
        → ((p : Handle) → parent_at old h ≡ Some p → listed p hs ≡ false → placed_of v ≡ placed_of o) → ListsChanges cell delegates delegates also hs old new }
    ensures layouts { (cell : Size) (delegates : List Plug) (also laid_also : Bool) (hs laid : List Handle) (old new : Tree RenderObject)
        → IsTree old → SetsMarks layout_marks laid_also laid old new → ListsChanges cell delegates delegates also hs old new }
    ensures after_layouts { (cell : Size) (before after : List Plug) (also laid_also : Bool) (hs laid : List Handle) (old mid new : Tree RenderObject)
        → IsTree mid → ListsChanges cell before after also hs old mid → SetsMarks layout_marks laid_also laid mid new → ListsChanges cell before after also hs old new }
    ensures both { (cell : Size) (delegates : List Plug) (also : Bool) (hs : List Handle) (a b c : Tree RenderObject) → IsTree c
        → ListsChanges cell delegates delegates also hs a b → ListsChanges cell delegates delegates also hs b c → KeepsParents b c
        → ListsChanges cell delegates delegates also hs a c }
    ensures nothing { (also : Bool) (t : Tree RenderObject) → SetsMarks paint_marks also [] t t }
{}

/// Other delegates: each node that draws otherwise by them is listed. Where the delegate of one name means something else, the
/// others draw the same.
pub fn other_delegates_are_listed()
    ensures lists { (cell : Size) (before after : List Plug) (also : Bool) (hs : List Handle) (t : Tree RenderObject)
        → ((k : Handle) (o : RenderObject) → object_at t k ≡ Some o → listed k hs ≡ false → DrawsSame cell before after o) → ListsChanges cell before after also hs t t }
    ensures named { (cell : Size) (delegates : List Plug) (name : List ℕ) (m : Option Meaning) (t : Tree RenderObject) (k : Handle) (o : RenderObject)
        → object_at t k ≡ Some o → uses t name k ≡ false → DrawsSame cell delegates (with_meaning delegates name m) o }
{}
