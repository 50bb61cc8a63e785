// Laws of how a layout sees render nodes.
ghost use Rattle.std.specs.Prelude.{◌≡◌, ◌≤◌, ℕ, Bool, List, Some};
ghost use Rattle.fx_handles.specs.declared.Handle.{Handle};
ghost use Rattle.node_tree.specs.Forest.{Forest, skip, weigh};
ghost use Rattle.node_tree.specs.Forest.Forest.{none, tree};
ghost use Rattle.fx_handles.specs.Handle.{times, Among};
ghost use Rattle.node_tree.specs.Tree.{Tree, StandsAt, children_at};
ghost use Rattle.render_tree.specs.Tree.{object_at};
ghost use Rattle.render_tree.specs.Object.{RenderObject};
ghost use Rattle.render_tree.specs.Plain.{renders_of, laids_of};
ghost use Rattle.plain_tree.specs.Render.{render};
ghost use Rattle.layout_form.specs.Fits.{CanBeLaidOut};
ghost use Rattle.layout_form.specs.Object.{Setting};
ghost use Rattle.render_tree.specs.declared.layout_state.LayoutState.{LayoutState};
ghost use Rattle.render_tree.specs.Edits.{Changes};
ghost use Rattle.render_tree.specs.LayoutState.{with_layout_state};
ghost use Rattle.layout_walk.specs.Node.{LayoutNode, renders_in};
ghost use Rattle.layout_walk.specs.Here.{Here, HereAll};
ghost use Rattle.layout_walk.specs.Rules.{parts_of};
ghost use Rattle.layout_walk.specs.Full.{shown_trees};
ghost use Rattle.layout_rules.specs.declared.duties.Duty.{Duty};
ghost use Rattle.layout_rules.specs.Nodes.{layout_nodes, SeenAt};
ghost use Rattle.layout_rules.specs.Duties.{MayDo};
ghost use Rattle.layout_rules.specs.Courses.{course_of};
ghost use Rattle.layout_rules.specs.Ending.{Ending};
ghost use Rattle.layout_rules.specs.Lawful.{Laws};
ghost use Rattle.layout_rules.specs.Painting.{LooksSame, Repaints};
ghost use Rattle.layout_rules.specs.Reads.{state_at};
ghost use Rattle.layout_rules.specs.Turns.{Turns, node_with, put};

use layout_form::slivers_follow_their_scroll_extents;
use layout_walk::{rules_are_lawful, trees_answer_as_render_nodes};

/// What a layout sees of a forest of render nodes: its render nodes, its laid trees, and where it stands.
pub fn layouts_see_render_nodes()
    ensures renders { (f : Forest RenderObject) → renders_in (layout_nodes f) ≡ renders_of f }
    ensures laids { (f : Forest RenderObject) → shown_trees (layout_nodes f) ≡ laids_of f }
    ensures stands { (t : Tree RenderObject) (h : Handle) (f : Forest RenderObject) → StandsAt t h f → SeenAt t h (layout_nodes f) }
{}

/// What a duty of a layout comes to at a node that agrees with its children and can be laid out. Whatever is done at the children in
/// two rounds, as the node's course says, what it leaves is what the duty is: laid out as it was asked, by its rule, by visits of
/// children, or by nothing; or measured. The rule can be run over the frames that the children have then, nobody is asked twice, and no more
/// rules are run than full layout asks for.
pub fn courses_end_well()
    ensures { (s : Setting) (outer : Bool) (duty : Duty) (v : LayoutNode) (kids : Forest LayoutNode) → Here (parts_of s) v kids → HereAll (parts_of s) kids
        → CanBeLaidOut (render v.number v.look v.told v.scroll v.count (renders_in kids)) → MayDo duty → Ending s outer duty v kids (course_of outer duty v) }
{
    layouts_are_lawful();
}

// What a walk needs to know of the rules.
pub(crate) fn layouts_are_lawful()
    ensures { (s : Setting) → Laws s }
{
    rules_are_lawful();
    trees_answer_as_render_nodes();
    slivers_follow_their_scroll_extents();
}

/// Where the state of a node is written, its subtree has this state at its top, and nothing else changes for a layout; and where the
/// subtree of a child becomes another one over the same nodes, so does that of the parent.
pub fn subtrees_turn()
    ensures nodes { (old new : Tree RenderObject) (h : Handle) (v : LayoutNode) (kids : Forest LayoutNode) (u : LayoutState) → SeenAt old h (tree h v kids none)
        → Changes old new h (with_layout_state u) → Turns old new h (tree h v kids none) (tree h (node_with u v) kids none) }
    ensures children { (old new : Tree RenderObject) (h c : Handle) (v cv cw : LayoutNode) (kids ck cb after : Forest LayoutNode) (i : ℕ) → SeenAt old h (tree h v kids none)
        → skip i kids ≡ tree c cv ck after → ((w : Handle → ℕ) → weigh w cb ≡ weigh w ck) → Turns old new c (tree c cv ck none) (tree c cw cb none)
        → Turns old new h (tree h v kids none) (tree h v (put i cw cb kids) none) }
{}

/// After a layout a node that isn't among the listed ones has the frame that it had, and its children stand where they stood, in the
/// window or not. One that is listed once looks otherwise: so each mark for painting has a cause.
pub fn layouts_look_as_listed()
    ensures frames { (old new : Tree RenderObject) (hs : List Handle) (k : Handle) (o : RenderObject) → Repaints old new hs → object_at old k ≡ Some o → times k hs ≡ 0
        → (state_at new k).frame ≡ o.frame }
    ensures places { (old new : Tree RenderObject) (hs : List Handle) (k c : Handle) (o : RenderObject) → Repaints old new hs → object_at old c ≡ Some o
        → Among c (children_at old k) → times k hs ≡ 0 → ((state_at new c).offset ≡ o.offset) × ((state_at new c).shown ≡ o.shown) }
    ensures caused { (old new : Tree RenderObject) (hs : List Handle) (k : Handle) → Repaints old new hs → times k hs ≤ 1 → Among k hs → LooksSame old new k → ⊥ }
{}
