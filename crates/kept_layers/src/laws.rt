// Laws of kept layers.
ghost use Rattle.std.specs.Prelude.{◌≡◌, ℕ, ◌+◌, Bool, true, if◌then◌else◌, Option, Some, List};
ghost use Rattle.fx_handles.specs.declared.Handle.{Handle};
ghost use Rattle.fx_geom.specs.declared.shapes.Offset.{Offset};
ghost use Rattle.fx_geom.specs.declared.shapes.Size.{Size};
ghost use Rattle.fx_geom.specs.Offset.{origin};
ghost use Rattle.delegates.specs.Table.{Plug};
ghost use Rattle.node_tree.specs.Forest.{TreeNode, Forest, tops, In, IsDistinct, Stands, map_values};
ghost use Rattle.node_tree.specs.Forest.Forest.{none, tree};
ghost use Rattle.node_tree.specs.Tree.{Tree, IsNode};
ghost use Rattle.plain_tree.specs.Laid.{laid};
ghost use Rattle.render_tree.specs.Object.{RenderObject, object_look};
ghost use Rattle.render_tree.specs.Plain.{laids_of, facts_of};
ghost use Rattle.screen_form.specs.Painted.{painted, painted_all};
ghost use Rattle.kept_layers.specs.Done.{IsTold, IsDone};
ghost use Rattle.kept_layers.specs.Group.{group_parts, group_count};
ghost use Rattle.kept_layers.specs.KeptLayers.{KeptLayers, KeepsGroup, IsFresh, IsRight, IsMarked, filled};
ghost use Rattle.kept_layers.specs.Steps.{Told, stale, redo_all, all_calmed, painted_count, counted, IsCounted, is_listed, calm_listed};
ghost use Rattle.kept_layers.specs.Top.{root_parts};
ghost use Rattle.kept_layers.specs.Unmarked.{IsUnmarked, IsRootUnmarked};
ghost use Rattle.kept_layers.specs.Worked.{Works};

/// What is kept of small trees is as it was worked out by hand.
pub fn worked_groups()
    ensures { Works }
{}

/// Where every painted boundary keeps what is painted below it, the parts of a group with the kept layers in their places are
/// what a full painting gives: of a forest, and of the root, which is in the window.
pub fn filled_parts_are_painted()
    ensures forest { (cell : Size) (delegates : List Plug) (s : KeptLayers) (f : Forest RenderObject) (q : Offset) → IsRight cell delegates s f
        → filled s.wholes (group_parts cell delegates f q) ≡ painted_all cell delegates (laids_of f) q }
    ensures root { (cell : Size) (delegates : List Plug) (s : KeptLayers) (h : Handle) (o : RenderObject) (below : Forest RenderObject)
        → IsRight cell delegates s (tree h o below none) → o.shown ≡ true
        → filled s.wholes (root_parts cell delegates (tree h o below none))
        ≡ painted cell delegates (laid o.number (object_look o) (facts_of o) (laids_of below)) origin }
{}

/// To do the stale boundaries of a tree again, nested ones first, is enough. What is kept of each boundary without a flag being
/// fresh before: afterwards each painted boundary keeps what a full painting gives, nothing else has changed, and what is kept is
/// fresh for the tree in which the flags of the painted boundaries are taken away; its marks are true if they were.
pub fn stale_boundaries_suffice()
    ensures done { (cell : Size) (delegates : List Plug) (t : Tree RenderObject) (told : Handle → Told) (f : Forest RenderObject) (s : KeptLayers)
        → IsTold cell delegates told f → IsFresh cell delegates s f → ((k : Handle) → In k f → IsNode t k) → IsDistinct f
        → IsDone cell delegates s (redo_all told (stale f) s) f }
    ensures right { (cell : Size) (delegates : List Plug) (s after : KeptLayers) (f : Forest RenderObject)
        → IsDone cell delegates s after f → IsRight cell delegates after f }
    ensures fresh { (cell : Size) (delegates : List Plug) (s after : KeptLayers) (f : Forest RenderObject)
        → IsFresh cell delegates s f → IsDone cell delegates s after f → IsFresh cell delegates after (all_calmed f) }
    ensures marked { (f : Forest RenderObject) → IsMarked f → IsMarked (all_calmed f) }
{}

/// Taking away the flags of the stale boundaries, each by its handle, takes away those of all boundaries that are painted.
pub fn flags_go_by_handles()
    ensures { (f : Forest RenderObject) (hs : List Handle) → IsDistinct f → ((k : Handle) → In k f → is_listed k hs ≡ is_listed k (stale f))
        → map_values (calm_listed hs) f ≡ all_calmed f }
{}

/// Where each stale boundary costs itself and its group if it is flagged, and nothing if not, the stale boundaries of a forest cost
/// exactly its nodes whose boundary is flagged, beside those of the group in which the forest stands.
pub fn flagged_groups_are_counted()
    ensures { (cost : Handle → ℕ) (above : Bool) (f : Forest RenderObject) → IsCounted cost f
        → counted cost (stale f) + (if above then group_count f else 0) ≡ painted_count above f }
{}

/// A group in which painting reads of each node what it read is painted as before, and what its boundary keeps stays as it would
/// be; whatever changed else, and in which order. So is the root's own part of a frame's layer.
pub fn unmarked_groups_stay()
    ensures parts { (cell : Size) (before after : List Plug) (now : Handle → Option (TreeNode RenderObject)) (p : Option Handle) (f g : Forest RenderObject)
        → Stands now p g → tops f ≡ tops g → IsUnmarked cell before after now f → (q : Offset) → group_parts cell after g q ≡ group_parts cell before f q }
    ensures keeps { (cell : Size) (before after : List Plug) (now : Handle → Option (TreeNode RenderObject)) (s : KeptLayers) (h : Handle) (p : Option Handle) (f g : Forest RenderObject)
        → Stands now p g → tops f ≡ tops g → IsUnmarked cell before after now f → KeepsGroup cell before s h f → KeepsGroup cell after s h g }
    ensures root { (cell : Size) (before after : List Plug) (now : Handle → Option (TreeNode RenderObject)) (p : Option Handle) (f g : Forest RenderObject)
        → Stands now p g → tops f ≡ tops g → IsRootUnmarked cell before after now f → root_parts cell after g ≡ root_parts cell before f }
{}
