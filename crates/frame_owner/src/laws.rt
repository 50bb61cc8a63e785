// Laws of what stands between two frames.
ghost use Rattle.std.specs.Prelude.{◌≡◌, ◌≤◌, ◌++◌, ◌∷◌, [], ℕ, Option, None, List, length, option_map};
ghost use Rattle.delegates.specs.Table.{Plug};
ghost use Rattle.plain_tree.specs.PlainNode.{PlainNode};
ghost use Rattle.program_check.specs.Checked.{PlainChecked};
ghost use Rattle.layout_owner.specs.Roots.{top_render};
ghost use Rattle.render_tree.specs.Plain.{renders_of, root_tree};
ghost use Rattle.screen_owner.specs.Standing.{StandsAlone};
ghost use Rattle.session_form.specs.Framing.{screen_of};
ghost use Rattle.session_form.specs.Handlers.{node_in};
ghost use Rattle.session_form.specs.State.{SessionState};
ghost use Rattle.work_sets.specs.Work.{render_root, due_components};
ghost use Rattle.frame_owner.specs.Frame.{KeptFrame, next_in};
ghost use Rattle.frame_owner.specs.Framed.{builds_after};
ghost use Rattle.frame_owner.specs.Nodes.{drawn_of};
ghost use Rattle.frame_owner.specs.Standing.{FrameStandsFor};

use build_form::built_trees_vanish_alone;
use build_walk::what_is_built_is_due;
use plain_tree::{one_root_is_laid_out, projection_keeps_numbers_apart};
use settled_builds::{lines_leave_marked_trees, lines_leave_settled_trees};

/// Where a `FrameOwner` stands for a tree, no render node is beside the root's tree, no two have one number, and they are those of the tree.
/// It does nothing.
pub fn what_stands_is_drawn()
    ensures alone { (c : PlainChecked) (delegates : List Plug) (marks : List ℕ) (tree : Option PlainNode) (x : KeptFrame) → FrameStandsFor c delegates marks tree x
        → StandsAlone x.screen.nodes }
    ensures drawn { (c : PlainChecked) (delegates : List Plug) (marks : List ℕ) (tree : Option PlainNode) (x : KeptFrame) → FrameStandsFor c delegates marks tree x
        → renders_of (root_tree x.screen.nodes) ≡ drawn_of tree }
    ensures root { (c : PlainChecked) (delegates : List Plug) (marks : List ℕ) (tree : Option PlainNode) (x : KeptFrame) → FrameStandsFor c delegates marks tree x
        → option_map render_root tree ≡ top_render (renders_of (root_tree x.screen.nodes)) }
{
    built_trees_vanish_alone();
    one_root_is_laid_out();
    projection_keeps_numbers_apart();
}

/// A mark of a number that no node has marks nothing. It does nothing.
pub fn marks_need_nodes()
    ensures { (c : PlainChecked) (delegates : List Plug) (marks : List ℕ) (tree : Option PlainNode) (x : KeptFrame) (number : ℕ) → FrameStandsFor c delegates marks tree x
        → node_in tree number ≡ None → FrameStandsFor c delegates (marks ++ number ∷ []) tree x }
{
    lines_leave_settled_trees();
    lines_leave_marked_trees();
}

/// After what a session's state says, a frame builds no more components than are due, and neither does one whose build ends with a fault.
/// It does nothing.
pub fn frames_build_what_is_due()
    ensures { (s : SessionState) (x : KeptFrame) → next_in x ≡ s.next → builds_after s.program (screen_of s) x s.tree s.marks s.root ≤ length (due_components s) }
{
    what_is_built_is_due();
}
