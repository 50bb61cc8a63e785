// The nodes of a tree in preorder.
ghost use Rattle.std.specs.Prelude.{◌≡◌, ◌++◌, IfOk, OnOk, map};
ghost use Rattle.plain_tree.specs.States.{preorder_of, preorder_in, seen};
ghost use Rattle.plain_tree.specs.PlainNode.{nodes_of};

use crate::nodes::Node;
use std::alloc::{AllocError, Global};

impl Node {
    /// This node and all below it, in preorder, lent.
    pub fn preorder(&self, alloc: Global) -> Result<Vec<&Node>, AllocError>
        ensures { IfOk result (λ ns. map seen ns.items ≡ preorder_of self.now) }
    {
        let mut nodes = Vec::new(alloc);
        push_node(self, &mut nodes)?;
        Ok(nodes)
    }
}

// Adds a node and all below it.
#[cycle(preorder)]
fn push_node<'a>(node: &'a Node, nodes: &mut Vec<&'a Node>) -> Result<(), AllocError>
    ensures { OnOk result (map seen nodes.new.items ≡ map seen nodes.old.items ++ preorder_of node.now) }
{
    nodes.push(node)?;
    push_nodes(node.children.as_slice(), nodes)
}

// Adds the nodes in a list and all below them.
#[cycle(preorder)]
fn push_nodes<'a>(below: &'a [Node], nodes: &mut Vec<&'a Node>) -> Result<(), AllocError>
    ensures { OnOk result (map seen nodes.new.items ≡ map seen nodes.old.items ++ preorder_in (nodes_of below.now)) }
{
    for node in below {
        push_node(node, nodes)?;
    }
    Ok(())
}
