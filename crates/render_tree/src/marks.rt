// The marks of render nodes: what is to be laid out, and painted, again.
ghost use Rattle.std.specs.Prelude.{◌≡◌, ◌∷◌, [], All, true, false};
ghost use Rattle.node_tree.specs.Tree.{IsNode};
ghost use Rattle.render_tree.specs.Marked.{SetsMarks};
ghost use Rattle.render_tree.specs.Marks.{layout_marks, paint_marks};

use crate::RenderTree;
use crate::kinds::{ends_in, ends_painting, is_intrinsic, is_offstage};
use crate::object::{RenderObject, bounds_in};
use fx_handles::Handle;
use node_tree::Tree;
use tree_marks::{Marks, mark, mark_each};

// The marks for layout.
struct LayoutMarks;

impl Marks<RenderObject> for LayoutMarks {
    ghost use Rattle.render_tree.specs.Marks.{layout_marks};
    ghost use Rattle.render_tree.specs.MarkLaws.{layout_lawful};

    ghost marking = { layout_marks };

    ghost lawful = { layout_lawful };

    fn ends(&self, value: &RenderObject, top: bool, hidden: bool) -> bool {
        ends_in(bounds_in(value.frame), top, hidden, &value.widget.kind)
    }

    fn hides(&self, value: &RenderObject) -> bool {
        is_offstage(&value.widget.kind)
    }

    fn asks(&self, value: &RenderObject) -> bool {
        is_intrinsic(&value.widget.kind)
    }

    fn takes(&self, _: &RenderObject, _: bool) -> bool {
        true
    }

    fn is_marked(&self, value: &RenderObject) -> bool {
        value.needs_layout && value.layout_below
    }

    fn mark(&self, value: &mut RenderObject, flag: bool, below: bool) {
        value.needs_layout = value.needs_layout || flag;
        value.layout_below = value.layout_below || below;
    }
}

// The marks for painting.
struct PaintMarks;

impl Marks<RenderObject> for PaintMarks {
    ghost use Rattle.render_tree.specs.Marks.{paint_marks};
    ghost use Rattle.render_tree.specs.MarkLaws.{paint_lawful};

    ghost marking = { paint_marks };

    ghost lawful = { paint_lawful };

    fn ends(&self, value: &RenderObject, top: bool, _: bool) -> bool {
        ends_painting(top, &value.widget.kind)
    }

    fn hides(&self, _: &RenderObject) -> bool {
        false
    }

    fn asks(&self, _: &RenderObject) -> bool {
        false
    }

    fn takes(&self, value: &RenderObject, top: bool) -> bool {
        ends_painting(top, &value.widget.kind)
    }

    fn is_marked(&self, value: &RenderObject) -> bool {
        value.needs_paint && value.paint_below
    }

    fn mark(&self, value: &mut RenderObject, flag: bool, below: bool) {
        value.needs_paint = value.needs_paint || flag;
        value.paint_below = value.paint_below || below;
    }
}

// Marks a node, where the handle is live.
fn mark_live<M: Marks<RenderObject>>(marks: &M, tree: &mut Tree<RenderObject>, h: Handle)
    ensures live { IsNode tree.old h → SetsMarks M.marking false (h ∷ []) tree.old tree.new }
    ensures absent { (IsNode tree.old h → ⊥) → tree.new ≡ tree.old }
{
    if tree.contains(h) {
        mark(marks, tree, h, false);
    }
}

impl RenderTree {
    /// Marks a node to be laid out again, and all above it up to the nearest relayout boundary, past every node below an
    /// IntrinsicWidth or IntrinsicHeight; each node above has "something below" (`RenderObject.markNeedsLayout`). Where the
    /// handle isn't live nothing changes.
    pub fn mark_layout(&mut self, h: Handle)
        ensures live { IsNode self.old.tree h → SetsMarks layout_marks false (h ∷ []) self.old.tree self.new.tree }
        ensures absent { (IsNode self.old.tree h → ⊥) → self.new.tree ≡ self.old.tree }
        ensures scale { self.new.scale ≡ self.old.scale }
        ensures spent { self.new.spent ≡ self.old.spent }
    {
        mark_live(&LayoutMarks, &mut self.tree, h);
    }

    /// Marks the nearest repaint boundary at or above a node to be painted again; each node above it, and between both, has
    /// "something below" (`RenderObject.markNeedsPaint`). Where the handle isn't live nothing changes.
    pub fn mark_paint(&mut self, h: Handle)
        ensures live { IsNode self.old.tree h → SetsMarks paint_marks false (h ∷ []) self.old.tree self.new.tree }
        ensures absent { (IsNode self.old.tree h → ⊥) → self.new.tree ≡ self.old.tree }
        ensures scale { self.new.scale ≡ self.old.scale }
        ensures spent { self.new.spent ≡ self.old.spent }
    {
        mark_live(&PaintMarks, &mut self.tree, h);
    }

    /// Marks live nodes that changed to be laid out again, each also with "something below": what came below it may have
    /// brought marks along.
    pub fn mark_layouts(&mut self, hs: &[Handle])
        requires { All (IsNode self.old.tree) hs.now }
        ensures sets { SetsMarks layout_marks true hs.now self.old.tree self.new.tree }
        ensures scale { self.new.scale ≡ self.old.scale }
        ensures spent { self.new.spent ≡ self.old.spent }
    {
        mark_each(&LayoutMarks, &mut self.tree, self.alloc, hs, true);
    }

    /// Marks live nodes that changed to be painted again, each also with "something below".
    pub fn mark_paints(&mut self, hs: &[Handle])
        requires { All (IsNode self.old.tree) hs.now }
        ensures sets { SetsMarks paint_marks true hs.now self.old.tree self.new.tree }
        ensures scale { self.new.scale ≡ self.old.scale }
        ensures spent { self.new.spent ≡ self.old.spent }
    {
        mark_each(&PaintMarks, &mut self.tree, self.alloc, hs, true);
    }
}
