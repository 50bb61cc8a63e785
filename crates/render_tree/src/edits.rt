// Edits of the tree, which keep the users of delegates. They set no marks.
ghost use Rattle.std.specs.Prelude.{◌≡◌, ◌↔◌, ◌+◌, ◌<◌, ◌≤◌, ℕ, List, length, true, false, Ok, Err, Some, None, IfOk, OnOk, OnErr, option_copied};
ghost use Rattle.std.specs.Result.{is_err};
ghost use Rattle.fx_handles.specs.declared.Handle.{Handle};
ghost use Rattle.fx_handles.specs.declared.TheConstants.{SLOTS_MAX};
ghost use Rattle.fx_handles.specs.Handle.{Among};
ghost use Rattle.fx_handles.specs.Arena.{used_count, retired_count};
ghost use Rattle.handle_groups.specs.Groups.{stands_under};
ghost use Rattle.node_tree.specs.Forest.{Forest};
ghost use Rattle.node_tree.specs.Forest.Forest.{none, tree};
ghost use Rattle.node_tree.specs.Tree.{IsNode, Is};
ghost use Rattle.node_tree.specs.Edits.{Adds, HasPlace, CanMove, CanReorder, CanDetach, CanHang, root_with};
ghost use Rattle.node_tree.specs.Mounting.{put_last, children_below, CanMount};
ghost use Rattle.widget_model.specs.View.{shared, look_in};
ghost use Rattle.layout_form.specs.Layout.{delegate_of};
ghost use Rattle.render_tree.specs.Object.{RenderObject as RenderObjectOf};
ghost use Rattle.render_tree.specs.Users.{HasRoom};
ghost use Rattle.render_tree.specs.Edits.{Changes, Inserted, InsertedLoose, Moved, Reordered, Detached, Attached, new_object, mounted_object, data_or_none, with_widget};
ghost use Rattle.render_tree.specs.declared.edits.TreeFault.TheVariants as fault;

use crate::RenderTree;
use crate::object::RenderObject;
use crate::users::{drop_user, put_user, reserve_user};
use crate::writes::write_widget;
use fx_handles::Handle;
use handle_groups::Groups;
use node_tree::Tree;
use plain_tree::{Notes, ParentData};
use std::alloc::AllocError;
use std::rc::Rc;
use thiserror::Error;
use widget_model::Widget;

/// Why a node was not inserted.
#[derive(Debug, Drop, Error)]
pub enum TreeFault {
    /// So many slots are in use or retired that no more may be.
    #[error("the tree is full")]
    Full,
    /// There was no memory for the node.
    #[error("out of memory")]
    OutOfMemory,
}

// What a node is told that is told nothing.
const NO_PARENT_DATA: ParentData = ParentData {
    flex: 0,
    tight: false,
    placed: None,
    index: 0,
};

// A node that is inserted just now. It has everything to be done.
fn new_object(number: u64, widget: Rc<Widget>) -> RenderObject
    ensures { result ≡ new_object number (shared widget) }
{
    RenderObject {
        number,
        widget,
        parent_data: NO_PARENT_DATA,
        scroll: 0,
        frame: None,
        notes: Notes {
            overflow: 0,
            unbounded: false,
        },
        plugged: false,
        scrolled: 0,
        offset: None,
        shown: false,
        live: None,
        needs_layout: true,
        layout_below: true,
        needs_paint: true,
        paint_below: true,
    }
}

// What a node is told, if something is.
fn data_or_none(told: Option<&ParentData>) -> ParentData
    ensures { result ≡ data_or_none (option_copied told.entry) }
{
    match told {
        Some(told) => *told,
        None => NO_PARENT_DATA,
    }
}

// A node that is to be inserted, with room for it among the users of its delegate.
fn make_object(users: &mut Groups, w: &Rc<Widget>, number: u64) -> Result<RenderObject, AllocError>
    ensures object { IfOk result (λ o. o ≡ new_object number (shared w.now)) }
    ensures room { OnOk result (HasRoom users.new (delegate_of (look_in w.now.value.kind))) }
    ensures same { (n : List ℕ) (k : Handle) → stands_under users.new n k ≡ stands_under users.old n k }
{
    let widget = Rc::clone(w)?;
    reserve_user(users, &w.kind)?;
    Ok(new_object(number, widget))
}

// The same, where the tree may take a node.
fn prepare(
    spent: bool,
    tree: &Tree<RenderObject>,
    users: &mut Groups,
    w: &Rc<Widget>,
    number: u64,
) -> Result<RenderObject, TreeFault>
    ensures object { IfOk result (λ o. o ≡ new_object number (shared w.now)) }
    ensures room { OnOk result (HasRoom users.new (delegate_of (look_in w.now.value.kind))) }
    ensures same { (n : List ℕ) (k : Handle) → stands_under users.new n k ≡ stands_under users.old n k }
    ensures full { spent ≡ false → ((result ≡ Err fault.Full)
        ↔ (SLOTS_MAX ≤ used_count tree.now.nodes + retired_count tree.now.nodes)) }
    ensures refused { spent ≡ true → result ≡ Err fault.OutOfMemory }
{
    if spent {
        return Err(TreeFault::OutOfMemory);
    }
    if tree.is_full() {
        return Err(TreeFault::Full);
    }
    match make_object(users, w, number) {
        Ok(object) => Ok(object),
        Err(_) => Err(TreeFault::OutOfMemory),
    }
}

// A node that is to be mounted, where the tree isn't spent.
fn prepare_mounted(
    spent: bool,
    users: &mut Groups,
    w: &Rc<Widget>,
    number: u64,
    told: Option<&ParentData>,
) -> Result<RenderObject, AllocError>
    ensures object { IfOk result (λ o. o ≡ mounted_object number (shared w.now) (option_copied told.entry)) }
    ensures room { OnOk result (HasRoom users.new (delegate_of (look_in w.now.value.kind))) }
    ensures same { (n : List ℕ) (k : Handle) → stands_under users.new n k ≡ stands_under users.old n k }
    ensures refused { spent ≡ true → is_err result ≡ true }
{
    if spent {
        return Err(AllocError);
    }
    let mut object = make_object(users, w, number)?;
    object.parent_data = data_or_none(told);
    Ok(object)
}

impl RenderTree {
    // Puts a new node below a parent, or makes it the root.
    pub(crate) fn insert_unmarked(
        &mut self,
        parent: Option<Handle>,
        at: usize,
        w: &Rc<Widget>,
        number: u64,
    ) -> Result<Handle, TreeFault>
        requires { HasPlace self.old.tree parent at }
        ensures inserted { IfOk result (λ h. Inserted self.old.tree self.new.tree parent at h (new_object number (shared w.now))) }
        ensures full { self.old.spent ≡ false → ((result ≡ Err fault.Full)
            ↔ (SLOTS_MAX ≤ used_count self.old.tree.nodes + retired_count self.old.tree.nodes)) }
        ensures refused { self.old.spent ≡ true → result ≡ Err fault.OutOfMemory }
        ensures spent { self.new.spent ≡ self.old.spent }
        ensures scale { self.new.scale ≡ self.old.scale }
        ensures err { OnErr result (self.new ≡ self.old) }
    {
        Tree::<RenderObject>::edit_laws();
        let object = prepare(self.spent, &self.tree, &mut self.users, w, number)?;
        match self.tree.insert(parent, at, object) {
            Ok(h) => {
                put_user(&mut self.users, &w.kind, h);
                Ok(h)
            }
            Err(_) => Err(TreeFault::OutOfMemory),
        }
    }

    /// Makes a new node with this number and widget, as the last child of its parent, or as the root where no parent is given, with
    /// room for so many children. It has the parent data that it is told, if it is told any, nothing of a layout is stored for it yet,
    /// it is to be laid out and painted, and so may be what is below it. No other node is marked.
    ///
    /// The error is want of memory, which a spent tree always answers: nothing has changed then.
    pub fn mount(
        &mut self,
        parent: Option<Handle>,
        room: usize,
        w: &Rc<Widget>,
        number: u64,
        told: Option<&ParentData>,
    ) -> Result<Handle, AllocError>
        requires place { CanMount self.old.tree parent }
        requires room { used_count self.old.tree.nodes + retired_count self.old.tree.nodes < SLOTS_MAX }
        ensures adds { IfOk result (λ h. Adds self.old.tree.nodes self.new.tree.nodes parent
            (length (children_below self.old.tree parent)) h (mounted_object number (shared w.now) (option_copied told.entry))) }
        ensures root { IfOk result (λ h. self.new.tree.root ≡ root_with parent h self.old.tree.root) }
        ensures inactive { self.new.tree.inactive ≡ self.old.tree.inactive }
        ensures plain { IfOk result (λ h. (f : Forest RenderObjectOf) → Is self.old.tree f
            → Is self.new.tree (put_last parent (tree h (mounted_object number (shared w.now) (option_copied told.entry)) none none) f)) }
        ensures refused { self.old.spent ≡ true → is_err result ≡ true }
        ensures spent { self.new.spent ≡ self.old.spent }
        ensures scale { self.new.scale ≡ self.old.scale }
        ensures err { OnErr result (self.new ≡ self.old) }
    {
        Tree::<RenderObject>::edit_laws();
        let object = prepare_mounted(self.spent, &mut self.users, w, number, told)?;
        let h = self.tree.mount(parent, room, object)?;
        put_user(&mut self.users, &w.kind, h);
        Ok(h)
    }

    // Makes a new node the last of the inactive tops.
    pub(crate) fn insert_loose_unmarked(
        &mut self,
        w: &Rc<Widget>,
        number: u64,
    ) -> Result<Handle, TreeFault>
        ensures inserted { IfOk result (λ h. InsertedLoose self.old.tree self.new.tree h (new_object number (shared w.now))) }
        ensures full { self.old.spent ≡ false → ((result ≡ Err fault.Full)
            ↔ (SLOTS_MAX ≤ used_count self.old.tree.nodes + retired_count self.old.tree.nodes)) }
        ensures refused { self.old.spent ≡ true → result ≡ Err fault.OutOfMemory }
        ensures spent { self.new.spent ≡ self.old.spent }
        ensures scale { self.new.scale ≡ self.old.scale }
        ensures err { OnErr result (self.new ≡ self.old) }
    {
        Tree::<RenderObject>::edit_laws();
        let object = prepare(self.spent, &self.tree, &mut self.users, w, number)?;
        match self.tree.insert_loose(object) {
            Ok(h) => {
                put_user(&mut self.users, &w.kind, h);
                Ok(h)
            }
            Err(_) => Err(TreeFault::OutOfMemory),
        }
    }

    /// Gives a node another widget, and marks nothing: that is left to the caller (`mark_layouts`, `mark_paints`). Where the handle isn't
    /// live nothing changes.
    pub fn update_unmarked(&mut self, h: Handle, w: &Rc<Widget>) -> Result<(), AllocError>
        ensures changes { OnOk result (Changes self.old.tree self.new.tree h (with_widget (shared w.now))) }
        ensures refused { self.old.spent ≡ true → is_err result ≡ true }
        ensures spent { self.new.spent ≡ self.old.spent }
        ensures scale { self.new.scale ≡ self.old.scale }
        ensures err { OnErr result (self.new ≡ self.old) }
    {
        if self.spent {
            return Err(AllocError);
        }
        let Some(object) = self.tree.value(h) else {
            return Ok(());
        };
        let was = Rc::clone(&object.widget)?;
        let widget = Rc::clone(w)?;
        reserve_user(&mut self.users, &w.kind)?;
        drop_user(&mut self.users, &was.kind, h);
        put_user(&mut self.users, &w.kind, h);
        write_widget(&mut self.tree, h, widget);
        Ok(())
    }

    // Makes a node that has a parent child number `at` of `parent`.
    pub(crate) fn move_unmarked(
        &mut self,
        h: Handle,
        parent: Handle,
        at: usize,
    ) -> Result<(), AllocError>
        requires { CanMove self.old.tree h parent at }
        ensures moved { OnOk result (Moved self.old.tree self.new.tree h parent at) }
        ensures refused { self.old.spent ≡ true → is_err result ≡ true }
        ensures spent { self.new.spent ≡ self.old.spent }
        ensures scale { self.new.scale ≡ self.old.scale }
        ensures err { OnErr result (self.new ≡ self.old) }
    {
        Tree::<RenderObject>::edit_laws();
        if self.spent {
            return Err(AllocError);
        }
        self.tree.move_to(h, parent, at)
    }

    /// Puts the children of a node into another order, and marks nothing: that is left to the caller (`mark_layouts`,
    /// `mark_paints`). It takes no memory.
    pub fn reorder_unmarked(&mut self, h: Handle, children: Vec<Handle>)
        requires { CanReorder self.old.tree h children.items }
        ensures reordered { Reordered self.old.tree self.new.tree h children.items }
        ensures spent { self.new.spent ≡ self.old.spent }
        ensures scale { self.new.scale ≡ self.old.scale }
    {
        Tree::<RenderObject>::edit_laws();
        self.tree.reorder(h, children);
    }

    // Puts a node last among the inactive subtrees.
    pub(crate) fn detach_unmarked(&mut self, h: Handle) -> Result<(), AllocError>
        requires { CanDetach self.old.tree h }
        ensures detached { OnOk result (Detached self.old.tree self.new.tree h) }
        ensures refused { self.old.spent ≡ true → is_err result ≡ true }
        ensures spent { self.new.spent ≡ self.old.spent }
        ensures scale { self.new.scale ≡ self.old.scale }
        ensures err { OnErr result (self.new ≡ self.old) }
    {
        Tree::<RenderObject>::edit_laws();
        if self.spent {
            return Err(AllocError);
        }
        self.tree.detach(h)
    }

    // Puts an inactive subtree below a parent, or makes it the root's.
    pub(crate) fn attach_unmarked(
        &mut self,
        h: Handle,
        parent: Option<Handle>,
        at: usize,
    ) -> Result<(), AllocError>
        requires top { Among h self.old.tree.inactive }
        requires place { CanHang self.old.tree h parent at }
        ensures attached { OnOk result (Attached self.old.tree self.new.tree h parent at) }
        ensures refused { self.old.spent ≡ true → is_err result ≡ true }
        ensures spent { self.new.spent ≡ self.old.spent }
        ensures scale { self.new.scale ≡ self.old.scale }
        ensures err { OnErr result (self.new ≡ self.old) }
    {
        Tree::<RenderObject>::edit_laws();
        if self.spent {
            return Err(AllocError);
        }
        // Each inactive top is live.
        let _ = self.tree.inactive();
        self.tree.attach(h, parent, at)
    }
}
