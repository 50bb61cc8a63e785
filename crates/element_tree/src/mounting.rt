// Elements that are made in their places, one after another, and built at once.
ghost use Rattle.std.specs.Prelude.{◌≡◌, ◌+◌, ◌<◌, length, true, IfOk, OnErr};
ghost use Rattle.std.specs.Result.{is_err};
ghost use Rattle.fx_handles.specs.declared.TheConstants.{SLOTS_MAX};
ghost use Rattle.fx_handles.specs.Arena.{used_count, retired_count};
ghost use Rattle.node_tree.specs.Forest.{Forest};
ghost use Rattle.node_tree.specs.Forest.Forest.{none, tree};
ghost use Rattle.node_tree.specs.Tree.{Is};
ghost use Rattle.node_tree.specs.Edits.{Adds, root_with};
ghost use Rattle.node_tree.specs.Mounting.{CanMount, children_below, put_last};
ghost use Rattle.element_tree.specs.Element.{Element as ElementOf, made_count};
ghost use Rattle.element_tree.specs.Fields.{AreDeclared};
ghost use Rattle.element_tree.specs.Renewal.{mounted};

use crate::ElementTree;
use crate::element::{Element, Renewal};
use crate::numbers::{put_number, room_for_next};
use fx_expr::Value;
use fx_handles::Handle;
use node_tree::Tree;
use std::alloc::AllocError;

// An element that is made just now, and built.
fn mounted(number: u64, fields: Vec<Value>, renewal: Renewal) -> Element
    ensures { result ≡ mounted number fields.items renewal }
{
    let Renewal {
        widget,
        index,
        output,
        render,
    } = renewal;
    Element {
        number,
        widget,
        fields,
        index,
        dirty: false,
        output,
        render,
    }
}

impl ElementTree {
    /// The number of the next element.
    pub fn next_number(&self) -> u64
        ensures { result ≡ made_count self.now.tree + 1 }
    {
        self.next
    }

    /// Makes a new element with the next number, as the last child of its parent, or as the root where no parent is given, with
    /// room for so many children. It has these fields and what the renewal gives, and isn't to be built anew. After want of
    /// memory, which a spent tree always answers, nothing has changed.
    pub fn mount(
        &mut self,
        parent: Option<Handle>,
        room: usize,
        fields: Vec<Value>,
        renewal: Renewal,
    ) -> Result<Handle, AllocError>
        requires place { CanMount self.old.tree parent }
        requires room { used_count self.old.tree.nodes + retired_count self.old.tree.nodes < SLOTS_MAX }
        requires fields { AreDeclared renewal.widget fields.items }
        ensures adds { IfOk result (λ h. Adds self.old.tree.nodes self.new.tree.nodes parent
            (length (children_below self.old.tree parent)) h (mounted (made_count self.old.tree + 1) fields.items renewal)) }
        ensures root { IfOk result (λ h. self.new.tree.root ≡ root_with parent h self.old.tree.root) }
        ensures inactive { self.new.tree.inactive ≡ self.old.tree.inactive }
        ensures plain { IfOk result (λ h. (f : Forest ElementOf) → Is self.old.tree f → Is self.new.tree
            (put_last parent (tree h (mounted (made_count self.old.tree + 1) fields.items renewal) none none) f)) }
        ensures refused { self.old.spent ≡ true → is_err result ≡ true }
        ensures spent { self.new.spent ≡ self.old.spent }
        ensures err { OnErr result (self.new ≡ self.old) }
    {
        Tree::<Element>::edit_laws();
        if self.spent {
            return Err(AllocError);
        }
        let next = room_for_next(&mut self.numbers, self.next)?;
        let element = mounted(self.next, fields, renewal);
        let handle = self.tree.mount(parent, room, element)?;
        put_number(&mut self.numbers, self.next, handle);
        self.next = next;
        Ok(handle)
    }
}
