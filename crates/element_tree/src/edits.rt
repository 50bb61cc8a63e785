// Edits of the tree, which keep the index of numbers.
ghost use Rattle.std.specs.Prelude.{◌≡◌, ◌↔◌, ◌+◌, ◌<◌, ◌≤◌, [], ◌∷◌, ◌++◌, Some, None, Ok, Err, true, false, IfOk, OnOk, OnErr, vec_len, vec_capacity};
ghost use Rattle.std.specs.Result.{is_err};
ghost use Rattle.fx_handles.specs.declared.TheConstants.{SLOTS_MAX};
ghost use Rattle.fx_handles.specs.Handle.{Among};
ghost use Rattle.fx_handles.specs.Arena.{used_count, retired_count};
ghost use Rattle.node_tree.specs.Forest.{Forest, size, append, paste, without, tree_of, reorder_under, others_than};
ghost use Rattle.node_tree.specs.Forest.Forest.{none, tree};
ghost use Rattle.node_tree.specs.Tree.{IsNode, parent_at, Is};
ghost use Rattle.node_tree.specs.Edits.{Adds, Hooks, Lifts, Reorders, HasPlace, CanMove, CanReorder, CanDetach, CanHang, RemovesBelow, DropsInactive, root_with, root_lifted};
ghost use Rattle.node_tree.specs.Plan.{IsPlan, IsUpdated, Commits};
ghost use Rattle.widget_model.specs.View.{shared};
ghost use Rattle.element_tree.specs.Element.{Element as ElementOf, element_at, made_count};
ghost use Rattle.element_tree.specs.Fields.{AreDeclared};
ghost use Rattle.element_tree.specs.Edits.{new_element};
ghost use Rattle.element_tree.specs.Renewal.{Renewal as RenewalOf, renewed, FollowsIn};
ghost use Rattle.element_tree.specs.declared.edits.TreeFault.TheVariants as fault;

use crate::ElementTree;
use crate::element::{Element, Renewal};
use crate::numbers::{Numbered, forget_dead, room_for_next, settle};
use fx_expr::Value;
use fx_handles::Handle;
use node_tree::{PlanEntry, Tree};
use std::alloc::AllocError;
use std::rc::Rc;
use thiserror::Error;
use widget_model::Widget;

/// Why an element was not made.
#[derive(Debug, Drop, Error)]
pub enum TreeFault {
    /// So many slots are in use or retired that no more may be.
    #[error("the tree is full")]
    Full,
    /// There was no memory for the element, or 2^64 - 1 elements were made.
    #[error("out of memory")]
    OutOfMemory,
}

// An element that is made just now. It is to be built anew.
fn new_element(number: u64, widget: Rc<Widget>, fields: Vec<Value>) -> Element
    ensures { result ≡ new_element number (shared widget) fields.items }
{
    Element {
        number,
        widget,
        fields,
        index: 0,
        dirty: true,
        output: None,
        render: None,
    }
}

// Makes room for an element with this number in the index, and gives the number after it.
fn make_room(
    spent: bool,
    tree: &Tree<Element>,
    numbers: &mut Vec<Numbered>,
    number: u64,
) -> Result<u64, TreeFault>
    ensures next { IfOk result (λ next. next ≡ number + 1) }
    ensures room { OnOk result (vec_len numbers.new < vec_capacity numbers.new) }
    ensures full { spent ≡ false → ((result ≡ Err fault.Full)
        ↔ (SLOTS_MAX ≤ used_count tree.now.nodes + retired_count tree.now.nodes)) }
    ensures refused { spent ≡ true → result ≡ Err fault.OutOfMemory }
    ensures items { numbers.new.items ≡ numbers.old.items }
{
    if spent {
        return Err(TreeFault::OutOfMemory);
    }
    if tree.is_full() {
        return Err(TreeFault::Full);
    }
    match room_for_next(numbers, number) {
        Ok(next) => Ok(next),
        Err(_) => Err(TreeFault::OutOfMemory),
    }
}

impl ElementTree {
    /// Makes a new element with the next number, as child number `at` of its parent, or as the root where no parent is given.
    /// Its place among child widgets is 0, it is to be built anew, and nothing else is stored for it yet.
    ///
    /// `Full` comes exactly where the arena is full, `OutOfMemory` where there is no memory, where no number is left, and
    /// always where the tree is spent. After either nothing has changed.
    pub fn insert(
        &mut self,
        parent: Option<Handle>,
        at: usize,
        w: Rc<Widget>,
        fields: Vec<Value>,
    ) -> Result<Handle, TreeFault>
        requires place { HasPlace self.old.tree parent at }
        requires fields { AreDeclared (shared w) fields.items }
        ensures adds { IfOk result (λ h. Adds self.old.tree.nodes self.new.tree.nodes parent at h
            (new_element (made_count self.old.tree + 1) (shared w) fields.items)) }
        ensures root { IfOk result (λ h. self.new.tree.root ≡ root_with parent h self.old.tree.root) }
        ensures inactive { self.new.tree.inactive ≡ self.old.tree.inactive }
        ensures plain { IfOk result (λ h. (f : Forest ElementOf) → Is self.old.tree f → Is self.new.tree
            (paste parent at (tree h (new_element (made_count self.old.tree + 1) (shared w) fields.items) none none) f)) }
        ensures full { self.old.spent ≡ false → ((result ≡ Err fault.Full)
            ↔ (SLOTS_MAX ≤ used_count self.old.tree.nodes + retired_count self.old.tree.nodes)) }
        ensures refused { self.old.spent ≡ true → result ≡ Err fault.OutOfMemory }
        ensures spent { self.new.spent ≡ self.old.spent }
        ensures err { OnErr result (self.new ≡ self.old) }
    {
        Tree::<Element>::edit_laws();
        let next = make_room(self.spent, &self.tree, &mut self.numbers, self.next)?;
        let element = new_element(self.next, w, fields);
        let made = self.tree.insert(parent, at, element);
        let handle = settle(&mut self.numbers, self.next, made)?;
        self.next = next;
        Ok(handle)
    }

    /// Makes a new element with the next number, as the last of the inactive tops, with the faults of `insert`.
    pub fn insert_loose(&mut self, w: Rc<Widget>, fields: Vec<Value>) -> Result<Handle, TreeFault>
        requires { AreDeclared (shared w) fields.items }
        ensures adds { IfOk result (λ h. Adds self.old.tree.nodes self.new.tree.nodes None 0 h
            (new_element (made_count self.old.tree + 1) (shared w) fields.items)) }
        ensures root { self.new.tree.root ≡ self.old.tree.root }
        ensures inactive { IfOk result (λ h. self.new.tree.inactive ≡ self.old.tree.inactive ++ h ∷ []) }
        ensures plain { IfOk result (λ h. (f : Forest ElementOf) → Is self.old.tree f → Is self.new.tree
            (append f (tree h (new_element (made_count self.old.tree + 1) (shared w) fields.items) none none))) }
        ensures full { self.old.spent ≡ false → ((result ≡ Err fault.Full)
            ↔ (SLOTS_MAX ≤ used_count self.old.tree.nodes + retired_count self.old.tree.nodes)) }
        ensures refused { self.old.spent ≡ true → result ≡ Err fault.OutOfMemory }
        ensures spent { self.new.spent ≡ self.old.spent }
        ensures err { OnErr result (self.new ≡ self.old) }
    {
        Tree::<Element>::edit_laws();
        let next = make_room(self.spent, &self.tree, &mut self.numbers, self.next)?;
        let element = new_element(self.next, w, fields);
        let made = self.tree.insert_loose(element);
        let handle = settle(&mut self.numbers, self.next, made)?;
        self.next = next;
        Ok(handle)
    }

    /// Makes an element that has a parent child number `at` of `parent`, counted without the element itself, with all that is
    /// below it. After want of memory, which a spent tree always answers, nothing has changed.
    pub fn move_to(&mut self, h: Handle, parent: Handle, at: usize) -> Result<(), AllocError>
        requires { CanMove self.old.tree h parent at }
        ensures hooks { OnOk result (Hooks self.old.tree.nodes self.new.tree.nodes h (Some parent) at) }
        ensures root { self.new.tree.root ≡ self.old.tree.root }
        ensures inactive { self.new.tree.inactive ≡ self.old.tree.inactive }
        ensures plain { OnOk result ((f : Forest ElementOf) → Is self.old.tree f
            → Is self.new.tree (paste (Some parent) at (tree_of h f) (without h f))) }
        ensures refused { self.old.spent ≡ true → is_err result ≡ true }
        ensures spent { self.new.spent ≡ self.old.spent }
        ensures err { OnErr result (self.new ≡ self.old) }
    {
        Tree::<Element>::edit_laws();
        if self.spent {
            return Err(AllocError);
        }
        self.tree.move_to(h, parent, at)
    }

    /// Puts the children of an element into another order, each with all that is below it. Their places among its child widgets
    /// stay what they were set to. It takes no memory.
    pub fn reorder(&mut self, h: Handle, children: Vec<Handle>)
        requires { CanReorder self.old.tree h children.items }
        ensures reorders { Reorders self.old.tree.nodes self.new.tree.nodes h children.items }
        ensures root { self.new.tree.root ≡ self.old.tree.root }
        ensures inactive { self.new.tree.inactive ≡ self.old.tree.inactive }
        ensures plain { (f : Forest ElementOf) → Is self.old.tree f → Is self.new.tree (reorder_under h children.items f) }
        ensures spent { self.new.spent ≡ self.old.spent }
    {
        Tree::<Element>::edit_laws();
        self.tree.reorder(h, children);
    }

    /// Takes an element out of its parent's list, or out of the root's place, with all that is below it, and puts it last
    /// among the inactive subtrees. After want of memory, which a spent tree always answers, nothing has changed.
    pub fn detach(&mut self, h: Handle) -> Result<(), AllocError>
        requires { CanDetach self.old.tree h }
        ensures lifts { OnOk result (Lifts self.old.tree.nodes self.new.tree.nodes h None) }
        ensures root { OnOk result (self.new.tree.root ≡ root_lifted (parent_at self.old.tree h) self.old.tree.root) }
        ensures inactive { OnOk result (self.new.tree.inactive ≡ self.old.tree.inactive ++ h ∷ []) }
        ensures plain { OnOk result ((f : Forest ElementOf) → Is self.old.tree f
            → Is self.new.tree (append (without h f) (tree_of h f))) }
        ensures refused { self.old.spent ≡ true → is_err result ≡ true }
        ensures spent { self.new.spent ≡ self.old.spent }
        ensures err { OnErr result (self.new ≡ self.old) }
    {
        Tree::<Element>::edit_laws();
        if self.spent {
            return Err(AllocError);
        }
        self.tree.detach(h)
    }

    /// Makes the top of an inactive subtree child number `at` of its parent, or the root where no parent is given, with all
    /// that is below it. After want of memory, which a spent tree always answers, nothing has changed.
    pub fn attach(&mut self, h: Handle, parent: Option<Handle>, at: usize) -> Result<(), AllocError>
        requires top { Among h self.old.tree.inactive }
        requires place { CanHang self.old.tree h parent at }
        ensures hooks { OnOk result (Hooks self.old.tree.nodes self.new.tree.nodes h parent at) }
        ensures root { OnOk result (self.new.tree.root ≡ root_with parent h self.old.tree.root) }
        ensures inactive { OnOk result (self.new.tree.inactive ≡ others_than h self.old.tree.inactive) }
        ensures plain { OnOk result ((f : Forest ElementOf) → Is self.old.tree f
            → Is self.new.tree (paste parent at (tree_of h f) (without h f))) }
        ensures refused { self.old.spent ≡ true → is_err result ≡ true }
        ensures spent { self.new.spent ≡ self.old.spent }
        ensures err { OnErr result (self.new ≡ self.old) }
    {
        Tree::<Element>::edit_laws();
        if self.spent {
            return Err(AllocError);
        }
        // Each inactive top is live.
        let _ = self.tree.inactive();
        self.tree.attach(h, parent, at)
    }

    /// Takes an element away with all that is below it, and gives the number of these elements: 0 where the handle isn't live,
    /// and then nothing changes. No element has their numbers any more. It goes over these elements, and over all numbers.
    pub fn remove(&mut self, h: Handle) -> u32
        ensures removes { IsNode self.old.tree h → RemovesBelow self.old.tree self.new.tree h result }
        ensures absent { (IsNode self.old.tree h → ⊥) → (result ≡ 0) × (self.new ≡ self.old) }
        ensures spent { self.new.spent ≡ self.old.spent }
    {
        Tree::<Element>::edit_laws();
        self.tree.count_laws();
        let count = self.tree.remove(h);
        forget_dead(&mut self.numbers, &self.tree);
        count as u32
    }

    /// Takes all inactive subtrees away, and gives the number of their elements. It goes over these elements, and over all
    /// numbers.
    pub fn drop_inactive(&mut self) -> u32
        ensures drops { DropsInactive self.old.tree self.new.tree result }
        ensures spent { self.new.spent ≡ self.old.spent }
    {
        self.tree.count_laws();
        let count = self.tree.drop_inactive();
        forget_dead(&mut self.numbers, &self.tree);
        count as u32
    }

    /// Makes a plan the whole tree, with this root, if there is one: every element that the plan doesn't name is taken away, and
    /// each that it names gets its place there, and is renewed. The plan is empty afterwards. After want of memory, which a spent
    /// tree always answers, nothing has changed, nor has the plan.
    pub fn commit(
        &mut self,
        root: Option<Handle>,
        plan: &mut Vec<PlanEntry<Renewal>>,
    ) -> Result<(), AllocError>
        requires plan { (g : Forest RenewalOf) × IsPlan self.old.tree plan.old.items root [] g }
        requires follows { FollowsIn self.old.tree plan.old.items }
        ensures commits { OnOk result (Commits renewed plan.old.items self.old.tree.nodes self.new.tree.nodes) }
        ensures used { OnOk result ((g : Forest RenewalOf) → IsPlan self.old.tree plan.old.items root [] g
            → used_count self.new.tree.nodes ≡ size g) }
        ensures root { OnOk result (self.new.tree.root ≡ root) }
        ensures inactive { OnOk result (self.new.tree.inactive ≡ []) }
        ensures plain { OnOk result ((g : Forest RenewalOf) (f : Forest ElementOf) → IsPlan self.old.tree plan.old.items root [] g
            → IsUpdated renewed (element_at self.old.tree) g f → Is self.new.tree f) }
        ensures taken { OnOk result (plan.new.items ≡ []) }
        ensures refused { self.old.spent ≡ true → is_err result ≡ true }
        ensures spent { self.new.spent ≡ self.old.spent }
        ensures err { OnErr result ((self.new ≡ self.old) × (plan.new.items ≡ plan.old.items)) }
    {
        if self.spent {
            return Err(AllocError);
        }
        let mut inactive = Vec::new(self.alloc);
        self.tree.commit(root, &mut inactive, plan)?;
        forget_dead(&mut self.numbers, &self.tree);
        Ok(())
    }

    /// Makes the tree spent: from now on each call that takes memory answers that there is none.
    pub fn spend(&mut self)
        ensures { self.new ≡ record self.old { spent = true } }
    {
        self.spent = true;
    }
}
