// Parts of one node that are set. Where a handle isn't live nothing changes.
ghost use Rattle.std.specs.Prelude.{◌≡◌, ◌↔◌, ◌^◌, pos, ◌+ℤ◌, Some, None, true, false, IsTrue};
ghost use Rattle.delegates.specs.Answers.{clamped};
ghost use Rattle.node_tree.specs.Forest.{below};
ghost use Rattle.node_tree.specs.Tree.{parent_at, subtree_at};
ghost use Rattle.tree_marks.specs.Closed.{any_flag};
ghost use Rattle.render_tree.specs.Object.{RenderObject as RenderObjectOf, is_viewport, is_lazy};
ghost use Rattle.render_tree.specs.Tree.{object_at};
ghost use Rattle.render_tree.specs.Marks.{layout_marks, paint_marks};
ghost use Rattle.render_tree.specs.Edits.{Changes, Writes, with_notes, with_plugged, with_scrolled, with_scroll, with_live, with_offset, with_shown, laid_out, laid_out_below, painted_now, painted_below};
ghost use Rattle.render_tree.specs.Calls.{Then, MarksAt, SetsPart};

use crate::RenderTree;
use crate::object::{is_lazy, is_noted, is_viewport};
use crate::reads::either;
use crate::writes::{
    lay_out, lay_out_below, paint_below, paint_now, write_live, write_notes, write_offset,
    write_plugged, write_scroll, write_scrolled, write_shown,
};
use fx_geom::{LEN_MAX, Offset};
use fx_handles::Handle;
use plain_tree::Notes;
use sliver_layout::Window;

// An offset that is changed by so much; it stops at 0 and at the greatest length.
fn scrolled_by(offset: u64, by: i64) -> u64
    ensures { result ≡ clamped (2 ^ 40) (pos offset +ℤ by) }
{
    if by < 0 {
        return offset.saturating_sub(by.unsigned_abs()).min(LEN_MAX);
    }
    offset.saturating_add(by as u64).min(LEN_MAX)
}

// Whether this offset is stored.
fn is_there(stored: Option<Offset>, at: Offset) -> bool
    ensures { IsTrue result ↔ (stored ≡ Some at) }
{
    match stored {
        Some(o) => o.x == at.x && o.y == at.y,
        None => false,
    }
}

impl RenderTree {
    /// Sets what the node's last layout remarked: by how much its children exceed it, in u, and whether it asked for all of a
    /// length that has no end.
    pub fn set_notes(&mut self, h: Handle, overflow: u64, unbounded: bool)
        ensures notes { Changes self.old.tree self.new.tree h (with_notes (record { overflow = overflow; unbounded = unbounded })) }
        ensures scale { self.new.scale ≡ self.old.scale }
        ensures spent { self.new.spent ≡ self.old.spent }
    {
        let notes = Notes {
            overflow,
            unbounded,
        };
        self.remarked = either(self.remarked, is_noted(notes));
        write_notes(&mut self.tree, h, notes);
    }

    /// Sets whether a delegate of the node's name was plugged in its last layout.
    pub fn set_has_delegate(&mut self, h: Handle, on: bool)
        ensures plugged { Changes self.old.tree self.new.tree h (with_plugged on) }
        ensures scale { self.new.scale ≡ self.old.scale }
        ensures spent { self.new.spent ≡ self.old.spent }
    {
        write_plugged(&mut self.tree, h, on);
    }

    /// Sets where the node's last layout left it scrolled, in u.
    pub fn set_scrolled(&mut self, h: Handle, v: u64)
        ensures scrolled { Changes self.old.tree self.new.tree h (with_scrolled v) }
        ensures scale { self.new.scale ≡ self.old.scale }
        ensures spent { self.new.spent ≡ self.old.spent }
    {
        write_scrolled(&mut self.tree, h, v);
    }

    /// Sets how far a Viewport is scrolled, in u; any other node stays as it is.
    pub fn set_scroll(&mut self, h: Handle, v: u64)
        ensures window { (o : RenderObjectOf) → object_at self.old.tree h ≡ Some o → is_viewport o ≡ true
            → Writes self.old.tree self.new.tree h (with_scroll v o) }
        ensures other { (o : RenderObjectOf) → object_at self.old.tree h ≡ Some o → is_viewport o ≡ false → self.new ≡ self.old }
        ensures absent { object_at self.old.tree h ≡ None → self.new ≡ self.old }
        ensures scale { self.new.scale ≡ self.old.scale }
        ensures spent { self.new.spent ≡ self.old.spent }
    {
        let Some(object) = self.tree.value(h) else {
            return;
        };
        if !is_viewport(&object.widget.kind) {
            return;
        }
        write_scroll(&mut self.tree, h, v);
    }

    /// Scrolls a Viewport by so much, in u, up to 0 or 2^40, and marks it for layout. `false`, and nothing changes, exactly where
    /// the handle isn't that of a live Viewport.
    pub fn scroll_by(&mut self, h: Handle, d: i64) -> bool
        ensures window { (o : RenderObjectOf) → object_at self.old.tree h ≡ Some o → is_viewport o ≡ true
            → (result ≡ true) × Then (λ mid. Writes self.old.tree mid h (with_scroll (clamped (2 ^ 40) (pos o.scroll +ℤ d)) o))
            (λ mid. MarksAt layout_marks (Some h) mid self.new.tree) }
        ensures other { (o : RenderObjectOf) → object_at self.old.tree h ≡ Some o → is_viewport o ≡ false → (result ≡ false) × (self.new ≡ self.old) }
        ensures absent { object_at self.old.tree h ≡ None → (result ≡ false) × (self.new ≡ self.old) }
        ensures scale { self.new.scale ≡ self.old.scale }
        ensures spent { self.new.spent ≡ self.old.spent }
    {
        let Some(offset) = self.scroll(h) else {
            return false;
        };
        self.set_scroll(h, scrolled_by(offset, d));
        self.mark_layout(h);
        true
    }

    /// Stores the live range of a SliverLazy; any other node stays as it is.
    pub fn set_live(&mut self, h: Handle, w: Window)
        ensures lazy { (o : RenderObjectOf) → object_at self.old.tree h ≡ Some o → is_lazy o ≡ true
            → Writes self.old.tree self.new.tree h (with_live (Some w) o) }
        ensures other { (o : RenderObjectOf) → object_at self.old.tree h ≡ Some o → is_lazy o ≡ false → self.new ≡ self.old }
        ensures absent { object_at self.old.tree h ≡ None → self.new ≡ self.old }
        ensures scale { self.new.scale ≡ self.old.scale }
        ensures spent { self.new.spent ≡ self.old.spent }
    {
        let Some(object) = self.tree.value(h) else {
            return;
        };
        if !is_lazy(&object.widget.kind) {
            return;
        }
        write_live(&mut self.tree, h, Some(w));
    }

    /// Sets where the node's parent put it. Where it was put elsewhere before, or not at all, the parent is marked for painting.
    pub fn set_offset(&mut self, h: Handle, at: Offset)
        ensures sets { SetsPart self.old.tree self.new.tree h (λ o. o.offset ≡ Some at) (with_offset at) (MarksAt paint_marks (parent_at self.old.tree h)) }
        ensures scale { self.new.scale ≡ self.old.scale }
        ensures spent { self.new.spent ≡ self.old.spent }
    {
        let Some(object) = self.tree.value(h) else {
            return;
        };
        if is_there(object.offset, at) {
            return;
        }
        let parent = self.tree.parent(h);
        write_offset(&mut self.tree, h, at);
        self.mark_paint_of(parent);
    }

    /// Sets whether the node is in the window of its parent. Where that changes, the parent is marked for painting.
    pub fn set_shown(&mut self, h: Handle, on: bool)
        ensures sets { SetsPart self.old.tree self.new.tree h (λ o. o.shown ≡ on) (with_shown on) (MarksAt paint_marks (parent_at self.old.tree h)) }
        ensures scale { self.new.scale ≡ self.old.scale }
        ensures spent { self.new.spent ≡ self.old.spent }
    {
        let Some(object) = self.tree.value(h) else {
            return;
        };
        if object.shown == on {
            return;
        }
        let parent = self.tree.parent(h);
        write_shown(&mut self.tree, h, on);
        self.mark_paint_of(parent);
    }

    // Marks a node for painting, if one is given.
    fn mark_paint_of(&mut self, h: Option<Handle>)
        ensures marks { MarksAt paint_marks h self.old.tree self.new.tree }
        ensures scale { self.new.scale ≡ self.old.scale }
        ensures spent { self.new.spent ≡ self.old.spent }
    {
        match h {
            Some(at) => self.mark_paint(at),
            None => {}
        }
    }

    /// Takes the node's layout flag away.
    pub fn clear_layout(&mut self, h: Handle)
        ensures mark { Changes self.old.tree self.new.tree h laid_out }
        ensures scale { self.new.scale ≡ self.old.scale }
        ensures spent { self.new.spent ≡ self.old.spent }
    {
        lay_out(&mut self.tree, h);
    }

    /// Takes "something below" for layout away from a node below which none has a layout flag.
    pub fn clear_layout_below(&mut self, h: Handle)
        requires { any_flag layout_marks (below (subtree_at self.old.tree h)) ≡ false }
        ensures mark { Changes self.old.tree self.new.tree h laid_out_below }
        ensures scale { self.new.scale ≡ self.old.scale }
        ensures spent { self.new.spent ≡ self.old.spent }
    {
        lay_out_below(&mut self.tree, h);
    }

    /// Takes the node's paint flag away.
    pub fn clear_paint(&mut self, h: Handle)
        ensures mark { Changes self.old.tree self.new.tree h painted_now }
        ensures scale { self.new.scale ≡ self.old.scale }
        ensures spent { self.new.spent ≡ self.old.spent }
    {
        paint_now(&mut self.tree, h);
    }

    /// Takes "something below" for painting away from a node below which none has a paint flag.
    pub fn clear_paint_below(&mut self, h: Handle)
        requires { any_flag paint_marks (below (subtree_at self.old.tree h)) ≡ false }
        ensures mark { Changes self.old.tree self.new.tree h painted_below }
        ensures scale { self.new.scale ≡ self.old.scale }
        ensures spent { self.new.spent ≡ self.old.spent }
    {
        paint_below(&mut self.tree, h);
    }
}
