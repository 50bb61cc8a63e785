// Laws of marks. None of these calls does anything.
ghost use Rattle.std.specs.Prelude.{◌≡◌, ◌∷◌, [], Bool, true, List, Option};
ghost use Rattle.fx_handles.specs.declared.Handle.{Handle};
ghost use Rattle.node_tree.specs.Forest.{Forest, TreeNode, Stands};
ghost use Rattle.node_tree.specs.Tree.{Tree, IsTree, Is, node_at};
ghost use Rattle.node_tree.specs.Plan.{IsUpdated};
ghost use Rattle.tree_marks.specs.Marking.{Above, at_top, Marking, IsMarking, IsWhole};
ghost use Rattle.tree_marks.specs.Marks.{mark, mark_all, sweep};
ghost use Rattle.tree_marks.specs.Closed.{HasBelow, IsLinkedBut, IsLinked, IsClosed, AreEnds, is_apart};
ghost use Rattle.tree_marks.specs.Commit.{Parts, AreParts, IsCommit, IsCommitStore, IsSettled, IsLinkedStore, IsClosedStore, HasForests, LawStore, LawForest, LawBelowStore, LawBelow, SeenChild, NodeBuild, KeepsMarks, IsReady, Covers};
ghost use Rattle.tree_marks.specs.Worked.{Works};

/// The marks on small trees are as they were worked out by hand.
pub fn worked_marks()
    ensures { Works }
{}

/// One way through a forest sets the marks of a whole list, in whatever order.
pub fn sweeps_mark_all<V>()
    ensures { (m : Marking V) → IsMarking m → (also : Bool) (cs : List Handle) (p : Above) (f : Forest V) → mark_all m also p cs f ≡ sweep m also cs p f }
{}

/// A mark takes its node off the list of those that are still to be marked: so the marks of a list tell each to the nodes above
/// it, whatever had flags before.
pub fn marks_are_told<V>()
    ensures linked { (m : Marking V) → IsMarking m → (h : Handle) (todo : List Handle) (p : Above) (f : Forest V)
        → IsLinkedBut m (h ∷ todo) f → IsLinkedBut m todo (mark m true p h f) }
    ensures links { (m : Marking V) → IsMarking m → (cs : List Handle) (p : Above) (f : Forest V) → IsLinkedBut m cs f → IsLinked m (sweep m true cs p f) }
    ensures below { (m : Marking V) (f : Forest V) → IsLinked m f → HasBelow m f }
    ensures closed { (m : Marking V) → IsMarking m → IsWhole m → (ends : Above → V → Bool) → AreEnds m ends → (also : Bool) (h : Handle) (todo : List Handle) (p : Above) (f : Forest V)
        → IsClosed m ends (h ∷ todo) p f → IsClosed m ends todo p (mark m also p h f) }
    ensures closes { (m : Marking V) → IsMarking m → IsWhole m → (ends : Above → V → Bool) → AreEnds m ends → (also : Bool) (cs : List Handle) (p : Above) (f : Forest V)
        → IsClosed m ends cs p f → IsClosed m ends [] p (sweep m also cs p f) }
{}

/// After a commit and the marks of the nodes that it changed each node without a flag had none before, is built as it was, and
/// came to what it came to, and so did each of its children. So what was closed and linked is so again.
pub fn commits_settle<V, O, D, S>()
    ensures settled { (m : Marking V) (x : Parts V O D S) (shown : V → Bool) → IsMarking m → IsWhole m → AreParts m x shown
        → (at : Handle → Option (TreeNode V)) (also : Bool) (changed : List Handle) (p : Above) (f : Forest V)
        → IsCommit m x changed at f → IsSettled m x at (sweep m also changed p f) }
    ensures closed { (m : Marking V) (x : Parts V O D S) (shown : V → Bool) → IsMarking m → IsWhole m → AreParts m x shown
        → (at : Handle → Option (TreeNode V)) (also : Bool) (changed : List Handle) (p : Above) (f : Forest V)
        → IsClosedStore m x shown at → IsCommit m x changed at f → IsClosed m (is_apart m shown) [] p (sweep m also changed p f) }
    ensures linked { (m : Marking V) (x : Parts V O D S) → IsMarking m → (at : Handle → Option (TreeNode V)) (changed : List Handle) (p : Above) (f : Forest V)
        → IsLinkedStore m x at → IsCommit m x changed at f → IsLinked m (sweep m true changed p f) }
{}

/// What held of each node without a flag before a commit holds of each after it and its marks: a law of what the node is made
/// of, what it came to, and what is seen of its children; and for nodes that ask also of how all below them are built. A law is
/// said by a test here; the lemmas serve any other law too.
pub fn laws_survive_commits<V, O, D, S>()
    ensures law { (m : Marking V) (x : Parts V O D S) (law : O → S → List (Handle × Option (SeenChild D S)) → Bool) (at : Handle → Option (TreeNode V)) (f : Forest V)
        → LawStore m x (λ o s l. law o s l ≡ true) at → IsSettled m x at f → LawForest m x (λ o s l. law o s l ≡ true) f }
    ensures below { (m : Marking V) (x : Parts V O D S) (shown : V → Bool) → AreParts m x shown
        → (law : O → S → List (Handle × Option (SeenChild D S)) → Forest (NodeBuild O D) → Bool) (at : Handle → Option (TreeNode V)) (f : Forest V)
        → HasForests m x at → LawBelowStore m x (λ o s l g. law o s l g ≡ true) at → IsSettled m x at f → LawBelow m x (λ o s l g. law o s l g ≡ true) f }
    ensures forests { (m : Marking V) (x : Parts V O D S) (t : Tree V) → IsTree t → HasForests m x (node_at t) }
{}

/// What makes a commit: a plan whose updates keep marks, where all that it builds otherwise is on the list; or what is told of
/// each node of the new tree.
pub fn commits_are_told<V, U, O, D, S>()
    ensures planned { (updated : U → V → V) (m : Marking V) (x : Parts V O D S) → KeepsMarks updated m x
        → (at : Handle → Option (TreeNode V)) (now : Handle → Option V) (changed : List Handle) (g : Forest U) (f : Forest V)
        → IsReady updated m x at now → Covers updated m x changed at now g → IsUpdated updated now g f → IsCommit m x changed at f }
    ensures store { (m : Marking V) (x : Parts V O D S) (changed : List Handle) (at new : Handle → Option (TreeNode V)) (q : Option Handle) (f : Forest V)
        → IsCommitStore m x changed at new → Stands new q f → IsCommit m x changed at f }
{}

/// What holds of the forest that a tree is holds of its nodes, so that what a commit and its marks leave is what the next one
/// begins with.
pub fn forests_tell_their_stores<V, O, D, S>()
    ensures closed { (m : Marking V) (x : Parts V O D S) (shown : V → Bool) (t : Tree V) (f : Forest V) → Is t f
        → IsClosed m (is_apart m shown) [] at_top f → IsClosedStore m x shown (node_at t) }
    ensures linked { (m : Marking V) (x : Parts V O D S) (t : Tree V) (f : Forest V) → Is t f → IsLinked m f → IsLinkedStore m x (node_at t) }
    ensures law { (m : Marking V) (x : Parts V O D S) (law : O → S → List (Handle × Option (SeenChild D S)) → Bool) (t : Tree V) (f : Forest V)
        → Is t f → LawForest m x (λ o s l. law o s l ≡ true) f → LawStore m x (λ o s l. law o s l ≡ true) (node_at t) }
    ensures below { (m : Marking V) (x : Parts V O D S) (law : O → S → List (Handle × Option (SeenChild D S)) → Forest (NodeBuild O D) → Bool)
        (t : Tree V) (f : Forest V) → Is t f → LawBelow m x (λ o s l g. law o s l g ≡ true) f
        → LawBelowStore m x (λ o s l g. law o s l g ≡ true) (node_at t) }
{}
