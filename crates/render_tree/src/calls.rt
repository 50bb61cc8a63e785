// The calls that put nodes in, move them and take them away. Each marks the nodes whose lists of children it changes.
ghost use Rattle.std.specs.Prelude.{◌≡◌, ◌↔◌, ◌+◌, ◌≤◌, [], ◌∷◌, All, true, false, Ok, Err, Some, IfOk, OnOk, OnErr};
ghost use Rattle.std.specs.Result.{is_err};
ghost use Rattle.fx_handles.specs.declared.TheConstants.{SLOTS_MAX};
ghost use Rattle.fx_handles.specs.Handle.{Among};
ghost use Rattle.fx_handles.specs.Arena.{used_count, retired_count};
ghost use Rattle.node_tree.specs.Tree.{IsNode, parent_at};
ghost use Rattle.node_tree.specs.Edits.{HasPlace, CanMove, CanReorder, CanDetach, CanHang, RemovesBelow};
ghost use Rattle.widget_model.specs.View.{shared};
ghost use Rattle.render_tree.specs.Edits.{Inserted, InsertedLoose, Moved, Reordered, Detached, Attached, new_object};
ghost use Rattle.render_tree.specs.Calls.{Then, MarksList, parent_or};
ghost use Rattle.render_tree.specs.declared.edits.TreeFault.TheVariants as fault;

use crate::RenderTree;
use crate::edits::TreeFault;
use fx_handles::Handle;
use std::alloc::AllocError;
use std::rc::Rc;
use widget_model::Widget;

impl RenderTree {
    // Marks a live node whose list of children changed.
    fn mark_changed_list(&mut self, p: Handle)
        requires { IsNode self.old.tree p }
        ensures list { MarksList (Some p) self.old.tree self.new.tree }
        ensures scale { self.new.scale ≡ self.old.scale }
        ensures spent { self.new.spent ≡ self.old.spent }
    {
        let hs = [p];
        self.mark_layouts(&hs);
        self.mark_paints(&hs);
    }

    // Marks a node whose list of children changed, if there is one.
    fn mark_list(&mut self, parent: Option<Handle>)
        ensures list { MarksList parent self.old.tree self.new.tree }
        ensures scale { self.new.scale ≡ self.old.scale }
        ensures spent { self.new.spent ≡ self.old.spent }
    {
        let Some(p) = parent else {
            return;
        };
        if !self.tree.contains(p) {
            return;
        }
        self.mark_changed_list(p);
    }

    /// Inserts a new node with this number and widget, as child number `at` of its parent, or as the root where no parent is
    /// given. It has no parent data, nothing of a layout is stored for it yet, it is to be laid out and painted, and so may be
    /// what is below it. Its parent is marked.
    ///
    /// `Full` comes exactly where the arena is full, `OutOfMemory` where there is no memory, and always where the tree is spent.
    /// After either nothing has changed.
    pub fn insert(
        &mut self,
        parent: Option<Handle>,
        at: usize,
        w: &Rc<Widget>,
        number: u64,
    ) -> Result<Handle, TreeFault>
        requires { HasPlace self.old.tree parent at }
        ensures inserted { IfOk result (λ h. Then (λ mid. Inserted self.old.tree mid parent at h (new_object number (shared w.now)))
            (λ mid. MarksList parent mid self.new.tree)) }
        ensures full { self.old.spent ≡ false → ((result ≡ Err fault.Full)
            ↔ (SLOTS_MAX ≤ used_count self.old.tree.nodes + retired_count self.old.tree.nodes)) }
        ensures refused { self.old.spent ≡ true → result ≡ Err fault.OutOfMemory }
        ensures spent { self.new.spent ≡ self.old.spent }
        ensures scale { self.new.scale ≡ self.old.scale }
        ensures err { OnErr result (self.new ≡ self.old) }
    {
        let h = self.insert_unmarked(parent, at, w, number)?;
        self.mark_list(parent);
        Ok(h)
    }

    /// Inserts a new node as the last of the inactive tops, with the faults of `insert`.
    pub fn insert_loose(&mut self, w: &Rc<Widget>, number: u64) -> Result<Handle, TreeFault>
        ensures inserted { IfOk result (λ h. InsertedLoose self.old.tree self.new.tree h (new_object number (shared w.now))) }
        ensures full { self.old.spent ≡ false → ((result ≡ Err fault.Full)
            ↔ (SLOTS_MAX ≤ used_count self.old.tree.nodes + retired_count self.old.tree.nodes)) }
        ensures refused { self.old.spent ≡ true → result ≡ Err fault.OutOfMemory }
        ensures spent { self.new.spent ≡ self.old.spent }
        ensures scale { self.new.scale ≡ self.old.scale }
        ensures err { OnErr result (self.new ≡ self.old) }
    {
        self.insert_loose_unmarked(w, number)
    }

    /// Makes a node that has a parent child number `at` of `parent`, counted without the node itself, with all that is below it.
    /// The parent that it had is marked, and then the one that it has. After want of memory, which a spent tree always answers,
    /// nothing has changed.
    pub fn move_to(&mut self, h: Handle, parent: Handle, at: usize) -> Result<(), AllocError>
        requires { CanMove self.old.tree h parent at }
        ensures moved { OnOk result (Then (λ mid. Moved self.old.tree mid h parent at)
            (λ mid. Then (MarksList (parent_at self.old.tree h) mid) (λ more. MarksList (Some parent) more self.new.tree))) }
        ensures refused { self.old.spent ≡ true → is_err result ≡ true }
        ensures spent { self.new.spent ≡ self.old.spent }
        ensures scale { self.new.scale ≡ self.old.scale }
        ensures err { OnErr result (self.new ≡ self.old) }
    {
        let from = self.tree.parent(h);
        self.move_unmarked(h, parent, at)?;
        self.mark_list(from);
        self.mark_list(Some(parent));
        Ok(())
    }

    /// Puts the children of a node into another order, each with all that is below it. The node is marked. It takes no memory.
    pub fn reorder(&mut self, h: Handle, children: Vec<Handle>)
        requires { CanReorder self.old.tree h children.items }
        ensures reordered { Then (λ mid. Reordered self.old.tree mid h children.items) (λ mid. MarksList (Some h) mid self.new.tree) }
        ensures spent { self.new.spent ≡ self.old.spent }
        ensures scale { self.new.scale ≡ self.old.scale }
    {
        self.reorder_unmarked(h, children);
        self.mark_list(Some(h));
    }

    /// Takes a node out of its parent's list, or out of the root's place, with all that is below it, and puts it last among the
    /// inactive subtrees. The parent that it had is marked. After want of memory, which a spent tree always answers, nothing has
    /// changed.
    pub fn detach(&mut self, h: Handle) -> Result<(), AllocError>
        requires { CanDetach self.old.tree h }
        ensures detached { OnOk result (Then (λ mid. Detached self.old.tree mid h)
            (λ mid. MarksList (parent_at self.old.tree h) mid self.new.tree)) }
        ensures refused { self.old.spent ≡ true → is_err result ≡ true }
        ensures spent { self.new.spent ≡ self.old.spent }
        ensures scale { self.new.scale ≡ self.old.scale }
        ensures err { OnErr result (self.new ≡ self.old) }
    {
        let from = self.tree.parent(h);
        self.detach_unmarked(h)?;
        self.mark_list(from);
        Ok(())
    }

    /// Makes the top of an inactive subtree child number `at` of its parent, or the root where no parent is given, with all that
    /// is below it. The parent is marked, and the node itself where it becomes the root. After want of memory, which a spent tree
    /// always answers, nothing has changed.
    pub fn attach(&mut self, h: Handle, parent: Option<Handle>, at: usize) -> Result<(), AllocError>
        requires top { Among h self.old.tree.inactive }
        requires place { CanHang self.old.tree h parent at }
        ensures attached { OnOk result (Then (λ mid. Attached self.old.tree mid h parent at)
            (λ mid. MarksList (parent_or parent h) mid self.new.tree)) }
        ensures refused { self.old.spent ≡ true → is_err result ≡ true }
        ensures spent { self.new.spent ≡ self.old.spent }
        ensures scale { self.new.scale ≡ self.old.scale }
        ensures err { OnErr result (self.new ≡ self.old) }
    {
        self.attach_unmarked(h, parent, at)?;
        self.mark_list(parent_or(parent, h));
        Ok(())
    }

    /// Takes a node away with all that is below it, and gives the number of these nodes: 0 where the handle isn't live, and then
    /// nothing changes. The parent that it had is marked, and no delegate's users have these nodes any more.
    pub fn remove(&mut self, h: Handle) -> u32
        ensures removes { IsNode self.old.tree h → Then (λ mid. RemovesBelow self.old.tree mid h result)
            (λ mid. MarksList (parent_at self.old.tree h) mid self.new.tree) }
        ensures absent { (IsNode self.old.tree h → ⊥) → (result ≡ 0) × (self.new.tree ≡ self.old.tree) }
        ensures spent { self.new.spent ≡ self.old.spent }
        ensures scale { self.new.scale ≡ self.old.scale }
    {
        let from = self.tree.parent(h);
        let count = self.remove_unmarked(h);
        self.mark_list(from);
        count
    }
}

// The parent that is given, or the node itself, which becomes the root.
fn parent_or(parent: Option<Handle>, h: Handle) -> Option<Handle>
    ensures { result ≡ parent_or parent h }
{
    match parent {
        Some(p) => Some(p),
        None => Some(h),
    }
}
