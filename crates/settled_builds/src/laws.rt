// Laws of trees that a build leaves as they are. None of these calls does anything.
ghost use Rattle.std.specs.Prelude.{◌≡◌, ℕ, ◌+◌, Option, Some, None, List, [], ◌∷◌, ◌++◌};
ghost use Rattle.widget_model.specs.Plain.{PlainWidget};
ghost use Rattle.plain_tree.specs.At.{numbers_of, node_at, changed_at, having_scroll};
ghost use Rattle.plain_tree.specs.Laws.{AllDiffer};
ghost use Rattle.plain_tree.specs.Offsets.{scrolled_by};
ghost use Rattle.plain_tree.specs.PlainNode.{PlainNode};
ghost use Rattle.build_form.specs.Entering.{Blueprint};
ghost use Rattle.build_form.specs.FullBuild.{Screen, built, full_build};
ghost use Rattle.versioned_kinds.specs.Lists.{HasNoLists};
ghost use Rattle.build_walk.specs.Standing.{all_builds};
ghost use Rattle.settled_builds.specs.Settled.{IsSettledFor};
ghost use Rattle.settled_builds.specs.Worked.{WorksOfSettledTrees};

use build_form::trees_keep_to_the_limit;
use build_walk::{builds_leave_fresh_trees, edits_leave_fresh_trees, what_is_built_is_due};
use versioned_kinds::waiting_lists_are_in_the_tree;
use work_sets::{builds_enter_their_trees, quiet_frames_take_no_work};

/// The build of a root after a tree that is settled for it gives that tree, with all numbers, and no number is given. It builds no
/// component.
pub fn settled_trees_stay()
    ensures tree { (b : Blueprint) (screen : Screen) (marks : List ℕ) (next : ℕ) (root : PlainWidget) (tree : PlainNode)
        → IsSettledFor b marks root tree → full_build b screen (Some tree) next root ≡ built tree next }
    ensures builds { (b : Blueprint) (screen : Screen) (marks : List ℕ) (next : ℕ) (root : PlainWidget) (tree : PlainNode)
        → IsSettledFor b marks root tree → AllDiffer (numbers_of tree) → all_builds b screen (Some tree) marks next root ≡ 0 }
{
    builds_enter_their_trees();
    quiet_frames_take_no_work();
    what_is_built_is_due();
}

/// The tree that a build gives is settled for its root, where it has no lazy list.
pub fn builds_leave_settled_trees()
    ensures { (b : Blueprint) (screen : Screen) (old : Option PlainNode) (next after : ℕ) (root : PlainWidget) (tree : PlainNode)
        → full_build b screen old next root ≡ built tree after → HasNoLists tree → IsSettledFor b [] root tree }
{
    builds_leave_fresh_trees();
    trees_keep_to_the_limit();
    waiting_lists_are_in_the_tree();
}

/// A settled tree stays settled where a node of it is scrolled, by a line or as a layout says, and where a number is marked that it doesn't
/// have.
pub fn lines_leave_settled_trees()
    ensures scroll { (b : Blueprint) (marks : List ℕ) (root : PlainWidget) (tree : PlainNode) (scroll wanted : ℕ)
        → IsSettledFor b marks root tree → IsSettledFor b marks root (changed_at (having_scroll scroll) wanted tree) }
    ensures offsets { (b : Blueprint) (marks : List ℕ) (root : PlainWidget) (tree : PlainNode) (offset : ℕ → Option ℕ)
        → IsSettledFor b marks root tree → IsSettledFor b marks root (scrolled_by offset tree) }
    ensures marked { (b : Blueprint) (marks : List ℕ) (root : PlainWidget) (tree : PlainNode) (number : ℕ)
        → node_at number tree ≡ None → IsSettledFor b marks root tree → IsSettledFor b (marks ++ number ∷ []) root tree }
{
    edits_leave_fresh_trees();
}

/// Small trees that a build leaves as they are, and some that it doesn't, are as they were worked out by hand.
pub fn worked_settled_trees()
    ensures { WorksOfSettledTrees }
{}
