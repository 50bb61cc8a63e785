// The node with a number.
ghost use Rattle.std.specs.Prelude.{◌≡◌, Some, None, IfNone, IfSome};
ghost use Rattle.plain_tree.specs.At.{node_at, node_in, laid_at, laid_in};
ghost use Rattle.plain_tree.specs.PlainNode.{nodes_of};
ghost use Rattle.plain_tree.specs.LaidView.{laids_in};

use crate::laid::{LaidChild, LaidNode};
use crate::nodes::Node;

impl Node {
    /// The first node in preorder that has a number, this one or one below it; `None` exactly where there is none. It
    /// takes time in the tree's nodes.
    #[cycle(finding)]
    pub fn find(&self, number: u64) -> Option<&Node>
        ensures found { IfSome result (λ n. node_at number self.now ≡ Some n.now) }
        ensures missing { IfNone result (node_at number self.now ≡ None) }
    {
        if self.number == number {
            return Some(self);
        }
        find_in(self.children.as_slice(), number)
    }
}

// The first node in a list, in preorder, that has a number.
#[cycle(finding)]
fn find_in(nodes: &[Node], number: u64) -> Option<&Node>
    ensures found { IfSome result (λ n. node_in number (nodes_of nodes.now) ≡ Some n.now) }
    ensures missing { IfNone result (node_in number (nodes_of nodes.now) ≡ None) }
{
    for node in nodes {
        match node.find(number) {
            None => continue,
            Some(found) => return Some(found),
        }
    }
    None
}

impl LaidNode {
    /// The first laid node in preorder that has a number, this one or one below it; `None` exactly where there is none.
    /// It takes time in the laid nodes.
    #[cycle(laid_finding)]
    pub fn find(&self, number: u64) -> Option<&LaidNode>
        ensures found { IfSome result (λ l. laid_at number self.now ≡ Some l.now) }
        ensures missing { IfNone result (laid_at number self.now ≡ None) }
    {
        if self.number == number {
            return Some(self);
        }
        find_laid_in(self.children.as_slice(), number)
    }
}

// The first laid node in a list, in preorder, that has a number.
#[cycle(laid_finding)]
fn find_laid_in(children: &[LaidChild], number: u64) -> Option<&LaidNode>
    ensures found { IfSome result (λ l. laid_in number (laids_in children.now) ≡ Some l.now) }
    ensures missing { IfNone result (laid_in number (laids_in children.now) ≡ None) }
{
    for child in children {
        match child.node.find(number) {
            None => continue,
            Some(found) => return Some(found),
        }
    }
    None
}
