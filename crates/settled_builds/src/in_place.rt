// Laws of trees of which one component is stale. None of these calls does anything.
ghost use Rattle.std.specs.Prelude.{◌≡◌, ℕ, Option, Some, None, List, [], ◌∷◌, ◌++◌};
ghost use Rattle.fx_expr.specs.declared.values.Value.{Value};
ghost use Rattle.widget_model.specs.Plain.{PlainWidget, look_of};
ghost use Rattle.plain_tree.specs.At.{node_at, changed_at, having_fields, having_scroll};
ghost use Rattle.plain_tree.specs.Offsets.{scrolled_by};
ghost use Rattle.plain_tree.specs.PlainNode.{PlainNode, widget_of};
ghost use Rattle.build_form.specs.Entering.{Blueprint};
ghost use Rattle.build_form.specs.Numbered.{IsNumbered};
ghost use Rattle.work_sets.specs.Due.{names_read};
ghost use Rattle.settled_builds.specs.Places.{NodePlace, HasNoGlobals};
ghost use Rattle.settled_builds.specs.Settled.{IsSettledFor};
ghost use Rattle.settled_builds.specs.Taken.{IsMarkedFor, IsStaleAt};

/// Where fields of a component are set in a settled tree its number alone is marked, and the tree is stale there. Such a tree stays one where
/// its fields are set once more, where a node is scrolled, or all nodes, and where a number is marked that it doesn't have.
pub fn lines_leave_marked_trees()
    ensures set { (b : Blueprint) (marks : List ℕ) (root : PlainWidget) (tree n : PlainNode) (f : PlainNode → List Value) (wanted : ℕ) (names : List ℕ)
        → IsSettledFor b marks root tree → node_at wanted tree ≡ Some n → names_read (look_of (widget_of n)) ≡ Some names
        → IsMarkedFor b (marks ++ wanted ∷ []) wanted root (changed_at (λ m. having_fields (f m) m) wanted tree) }
    ensures again { (b : Blueprint) (marks : List ℕ) (root : PlainWidget) (tree : PlainNode) (f : PlainNode → List Value) (wanted : ℕ)
        → IsMarkedFor b marks wanted root tree → IsMarkedFor b (marks ++ wanted ∷ []) wanted root (changed_at (λ m. having_fields (f m) m) wanted tree) }
    ensures scroll { (b : Blueprint) (marks : List ℕ) (root : PlainWidget) (tree : PlainNode) (wanted scroll place : ℕ)
        → IsMarkedFor b marks wanted root tree → IsMarkedFor b marks wanted root (changed_at (having_scroll scroll) place tree) }
    ensures offsets { (b : Blueprint) (marks : List ℕ) (root : PlainWidget) (tree : PlainNode) (wanted : ℕ) (offset : ℕ → Option ℕ)
        → IsMarkedFor b marks wanted root tree → IsMarkedFor b marks wanted root (scrolled_by offset tree) }
    ensures marked { (b : Blueprint) (marks : List ℕ) (root : PlainWidget) (tree : PlainNode) (wanted number : ℕ)
        → node_at number tree ≡ None → IsMarkedFor b marks wanted root tree → IsMarkedFor b (marks ++ number ∷ []) wanted root tree }
{}

/// In a tree of which the number of the stale component alone is marked, and which has no global keys, that component stands at a spot: it
/// is the node with its number.
pub fn marked_trees_are_stale()
    ensures spot { (b : Blueprint) (marks : List ℕ) (wanted next : ℕ) (root : PlainWidget) (tree : PlainNode)
        → IsMarkedFor b marks wanted root tree → HasNoGlobals tree → IsNumbered next tree → (p : NodePlace) × IsStaleAt b marks wanted next root tree p }
    ensures node { (b : Blueprint) (marks : List ℕ) (wanted next : ℕ) (root : PlainWidget) (tree : PlainNode) (p : NodePlace)
        → IsStaleAt b marks wanted next root tree p → node_at wanted tree ≡ Some p.node }
{}
