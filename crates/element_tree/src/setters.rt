// Parts of one element that are set. Where a handle isn't live nothing changes.
ghost use Rattle.std.specs.Prelude.{◌≡◌, Some, None, true, false, option_map};
ghost use Rattle.widget_model.specs.View.{shared, plain_of};
ghost use Rattle.element_tree.specs.Element.{element_at};
ghost use Rattle.element_tree.specs.Fields.{CanFollow};
ghost use Rattle.element_tree.specs.Edits.{Changes, with_widget, with_render, with_flag, with_output, with_index};
ghost use Rattle.element_tree.specs.Items.{is_lazy, is_item};

use crate::ElementTree;
use crate::element::Element;
use fx_handles::Handle;
use node_tree::Tree;
use std::rc::Rc;
use widget_model::{Kind, Widget};

fn set_widget(tree: &mut Tree<Element>, h: Handle, w: Rc<Widget>)
    ensures { Changes tree.old tree.new h (with_widget (shared w)) }
{
    if let Some(element) = tree.value_mut(h) {
        element.widget = w;
    }
}

fn set_render(tree: &mut Tree<Element>, h: Handle, r: Option<Handle>)
    ensures { Changes tree.old tree.new h (with_render r) }
{
    if let Some(element) = tree.value_mut(h) {
        element.render = r;
    }
}

fn set_flag(tree: &mut Tree<Element>, h: Handle, dirty: bool)
    ensures { Changes tree.old tree.new h (with_flag dirty) }
{
    if let Some(element) = tree.value_mut(h) {
        element.dirty = dirty;
    }
}

fn set_output(tree: &mut Tree<Element>, h: Handle, w: Rc<Widget>)
    ensures { Changes tree.old tree.new h (with_output (shared w)) }
{
    if let Some(element) = tree.value_mut(h) {
        element.output = Some(w);
    }
}

fn set_index(tree: &mut Tree<Element>, h: Handle, i: u64)
    ensures { Changes tree.old tree.new h (with_index i) }
{
    if let Some(element) = tree.value_mut(h) {
        element.index = i;
    }
}

// Whether a widget is a SliverLazy, whose children are known by their index.
fn is_lazy(w: &Widget) -> bool
    ensures { result ≡ is_lazy (plain_of w.now) }
{
    match w.kind {
        Kind::SliverLazy { .. } => true,
        _ => false,
    }
}

impl ElementTree {
    // Whether the element is the child of a SliverLazy.
    fn is_item(&self, h: Handle) -> bool
        ensures { result ≡ is_item self.now.tree h }
    {
        let Some(parent) = self.tree.parent(h) else {
            return false;
        };
        match self.tree.value(parent) {
            Some(element) => is_lazy(&element.widget),
            None => false,
        }
    }

    /// The index of a child of a SliverLazy among its child widgets, 0 until it is set; `None` exactly where the handle isn't
    /// live, or is no such child.
    pub fn index(&self, h: Handle) -> Option<u64>
        ensures item { is_item self.now.tree h ≡ true → result ≡ option_map (λ e. e.index) (element_at self.now.tree h) }
        ensures other { is_item self.now.tree h ≡ false → result ≡ None }
    {
        if self.is_item(h) { self.place(h) } else { None }
    }

    /// Sets the index of a child of a SliverLazy; for any other handle nothing changes.
    pub fn set_index(&mut self, h: Handle, i: u64)
        ensures item { is_item self.old.tree h ≡ true → Changes self.old.tree self.new.tree h (with_index i) }
        ensures other { is_item self.old.tree h ≡ false → self.new ≡ self.old }
        ensures spent { self.new.spent ≡ self.old.spent }
    {
        if self.is_item(h) {
            set_index(&mut self.tree, h, i);
        }
    }

    /// Sets the place of the element among its parent's child widgets.
    pub fn set_place(&mut self, h: Handle, i: u64)
        ensures place { Changes self.old.tree self.new.tree h (with_index i) }
        ensures spent { self.new.spent ≡ self.old.spent }
    {
        set_index(&mut self.tree, h, i);
    }

    /// Stores what the element's body gave.
    pub fn set_output(&mut self, h: Handle, w: Rc<Widget>)
        ensures output { Changes self.old.tree self.new.tree h (with_output (shared w)) }
        ensures spent { self.new.spent ≡ self.old.spent }
    {
        set_output(&mut self.tree, h, w);
    }

    /// Gives the element a widget that may follow the one that it has, and declares the same fields.
    pub fn update(&mut self, h: Handle, w: Rc<Widget>)
        requires { (e : _) → element_at self.old.tree h ≡ Some e → CanFollow e.widget (shared w) }
        ensures widget { Changes self.old.tree self.new.tree h (with_widget (shared w)) }
        ensures spent { self.new.spent ≡ self.old.spent }
    {
        set_widget(&mut self.tree, h, w);
    }

    /// Stores the handle of the element's render node.
    pub fn set_render(&mut self, h: Handle, r: Option<Handle>)
        ensures render { Changes self.old.tree self.new.tree h (with_render r) }
        ensures spent { self.new.spent ≡ self.old.spent }
    {
        set_render(&mut self.tree, h, r);
    }

    /// Sets the element's build flag: it is to be built anew.
    pub fn mark_dirty(&mut self, h: Handle)
        ensures flag { Changes self.old.tree self.new.tree h (with_flag true) }
        ensures spent { self.new.spent ≡ self.old.spent }
    {
        set_flag(&mut self.tree, h, true);
    }

    /// Takes the element's build flag away.
    pub fn clear_dirty(&mut self, h: Handle)
        ensures flag { Changes self.old.tree self.new.tree h (with_flag false) }
        ensures spent { self.new.spent ≡ self.old.spent }
    {
        set_flag(&mut self.tree, h, false);
    }
}
