// The widget of a node, and what its parent takes from the widgets between them, which are set.
ghost use Rattle.std.specs.Prelude.{◌≡◌, ◌↔◌, Some, None, true, false, IsTrue, OnOk, OnErr};
ghost use Rattle.std.specs.Result.{is_err};
ghost use Rattle.node_tree.specs.Tree.{parent_at};
ghost use Rattle.widget_model.specs.View.{shared, plain_of};
ghost use Rattle.render_tree.specs.Object.{RenderObject as RenderObjectOf};
ghost use Rattle.render_tree.specs.Tree.{object_at};
ghost use Rattle.render_tree.specs.Marks.{layout_marks, paint_marks};
ghost use Rattle.render_tree.specs.Edits.{with_parent_data};
ghost use Rattle.render_tree.specs.Calls.{MarksAt, SetsPart};
ghost use Rattle.render_tree.specs.Updates.{IsReadSame, EndsSame, Updated};

use crate::RenderTree;
use crate::kinds::is_offstage;
use crate::reads::{both, is_same_data, is_same_for_layout, lazy_count, scrolls};
use crate::writes::write_parent_data;
use fx_handles::Handle;
use plain_tree::ParentData;
use std::alloc::AllocError;
use std::rc::Rc;
use widget_model::{Widget, same_look};

// Whether a layout reads the same of two widgets.
fn is_read_same(old: &Widget, new: &Widget) -> bool
    ensures { IsTrue result ↔ IsReadSame (plain_of old.now) (plain_of new.now) }
{
    let look = is_same_for_layout(&old.kind, &new.kind);
    let count = lazy_count(old) == lazy_count(new);
    both(look, count)
}

// Whether the size of a box follows from its bounds alone in the same way.
fn ends_same(old: &Widget, new: &Widget) -> bool
    ensures { IsTrue result ↔ EndsSame (plain_of old.now) (plain_of new.now) }
{
    let scrolled = scrolls(&old.kind) == scrolls(&new.kind);
    let hidden = is_offstage(&old.kind) == is_offstage(&new.kind);
    both(scrolled, hidden)
}

impl RenderTree {
    // Marks a node for layout, if one is given, unless nothing differs.
    fn mark_layout_unless(&mut self, same: bool, h: Option<Handle>)
        ensures same { IsTrue same → self.new.tree ≡ self.old.tree }
        ensures other { (IsTrue same → ⊥) → MarksAt layout_marks h self.old.tree self.new.tree }
        ensures scale { self.new.scale ≡ self.old.scale }
        ensures spent { self.new.spent ≡ self.old.spent }
    {
        if same {
            return;
        }
        self.mark_layout_of(h);
    }

    // Marks a node for painting, unless nothing differs.
    fn mark_paint_unless(&mut self, same: bool, h: Handle)
        ensures same { IsTrue same → self.new.tree ≡ self.old.tree }
        ensures other { (IsTrue same → ⊥) → MarksAt paint_marks (Some h) self.old.tree self.new.tree }
        ensures scale { self.new.scale ≡ self.old.scale }
        ensures spent { self.new.spent ≡ self.old.spent }
    {
        if same {
            return;
        }
        self.mark_paint(h);
    }

    /// Gives the node another widget. Where a layout reads something else of it, or it has another number of child widgets as a
    /// SliverLazy, the node is marked for layout; where its size follows from its bounds alone in another way, its parent is; and
    /// where any member or callback differs, the node is marked for painting. Where the handle isn't live nothing changes, and no
    /// memory is wanted. After want of memory, which a spent tree always answers, nothing has changed.
    pub fn update(&mut self, h: Handle, w: &Rc<Widget>) -> Result<(), AllocError>
        ensures updated { OnOk result ((o : RenderObjectOf) → object_at self.old.tree h ≡ Some o
            → Updated self.old.tree self.new.tree h o (shared w.now)) }
        ensures absent { object_at self.old.tree h ≡ None → self.new.tree ≡ self.old.tree }
        ensures answers { object_at self.old.tree h ≡ None → self.old.spent ≡ false → is_err result ≡ false }
        ensures refused { self.old.spent ≡ true → is_err result ≡ true }
        ensures spent { self.new.spent ≡ self.old.spent }
        ensures scale { self.new.scale ≡ self.old.scale }
        ensures err { OnErr result (self.new ≡ self.old) }
    {
        if self.spent {
            return Err(AllocError);
        }
        let Some(object) = self.tree.value(h) else {
            return Ok(());
        };
        let read = is_read_same(&object.widget, w);
        let ends = ends_same(&object.widget, w);
        let look = same_look(&object.widget.kind, &w.kind);
        let parent = self.tree.parent(h);
        self.update_unmarked(h, w)?;
        self.mark_layout_unless(read, Some(h));
        self.mark_layout_unless(ends, parent);
        self.mark_paint_unless(look, h);
        Ok(())
    }

    /// Sets what the node's parent takes from the widgets between them. Where it was something else before, the parent is marked
    /// for layout. Where the handle isn't live nothing changes.
    pub fn set_parent_data(&mut self, h: Handle, d: ParentData)
        ensures sets { SetsPart self.old.tree self.new.tree h (λ o. o.parent_data ≡ d) (with_parent_data d) (MarksAt layout_marks (parent_at self.old.tree h)) }
        ensures scale { self.new.scale ≡ self.old.scale }
        ensures spent { self.new.spent ≡ self.old.spent }
    {
        let Some(object) = self.tree.value(h) else {
            return;
        };
        if is_same_data(object.parent_data, d) {
            return;
        }
        let parent = self.tree.parent(h);
        write_parent_data(&mut self.tree, h, d);
        self.mark_layout_of(parent);
    }

    // Marks a node for layout, if one is given.
    fn mark_layout_of(&mut self, h: Option<Handle>)
        ensures marks { MarksAt layout_marks h self.old.tree self.new.tree }
        ensures scale { self.new.scale ≡ self.old.scale }
        ensures spent { self.new.spent ≡ self.old.spent }
    {
        match h {
            Some(at) => self.mark_layout(at),
            None => {}
        }
    }
}
