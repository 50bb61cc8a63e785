// The numbers of the nodes in preorder.
ghost use Rattle.std.specs.Prelude.{◌≡◌, ◌++◌, ℕ, List, Option, IfOk, OnOk};
ghost use Rattle.delegates.specs.Table.{Plug};
ghost use Rattle.node_tree.specs.Tree.{Holds, subtree_at};
ghost use Rattle.plain_tree.specs.PlainNode.{PlainNode};
ghost use Rattle.program_check.specs.Checked.{PlainChecked};
ghost use Rattle.frame_owner.specs.Nodes.{element_numbers, numbers_there};
ghost use Rattle.frame_owner.specs.Standing.{FrameStandsFor};

use crate::owner::FrameOwner;
use element_tree::{Element, ElementTree};
use fx_handles::Handle;
use node_tree::Tree;
use std::alloc::{AllocError, Global};

// Adds the numbers of an element and of those below it.
#[cycle(numbering)]
fn push_numbers(tree: &ElementTree, h: Handle, numbers: &mut Vec<u64>) -> Result<(), AllocError>
    requires { Holds tree.now.tree h }
    ensures { OnOk result (numbers.new.items ≡ numbers.old.items ++ element_numbers (subtree_at tree.now.tree h)) }
{
    Tree::<Element>::child_laws();
    let Some(number) = tree.number(h) else {
        return Ok(());
    };
    numbers.push(number)?;
    let children = tree.children(h);
    for child in children {
        push_numbers(tree, *child, numbers)?;
    }
    Ok(())
}

impl FrameOwner {
    /// The numbers of the nodes, each before those below it; none before the first frame.
    pub fn numbers(&self, alloc: Global) -> Result<Vec<u64>, AllocError>
        ensures { (c : PlainChecked) (delegates : List Plug) (marks : List ℕ) (tree : Option PlainNode) → FrameStandsFor c delegates marks tree self.now
            → IfOk result (λ numbers. numbers.items ≡ numbers_there tree) }
    {
        let mut numbers = Vec::new(alloc);
        if let Some(root) = self.elements.root() {
            push_numbers(&self.elements, root, &mut numbers)?;
        }
        Ok(numbers)
    }
}
