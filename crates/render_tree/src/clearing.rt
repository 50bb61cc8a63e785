// Live ranges, which are taken away from all nodes.
ghost use Rattle.std.specs.Prelude.{◌≡◌, true};
ghost use Rattle.std.specs.Option.{option_to_list};
ghost use Rattle.node_tree.specs.Forest.{Forest};
ghost use Rattle.node_tree.specs.Tree.{IsNode, Is, children_at, subtree_at};
ghost use Rattle.render_tree.specs.Object.{RenderObject as RenderObjectOf};
ghost use Rattle.render_tree.specs.Users.{is_in, is_at_or_below};
ghost use Rattle.render_tree.specs.Ranges.{Clears, cleared};

use crate::RenderTree;
use crate::object::RenderObject;
use crate::writes::write_live;
use fx_handles::Handle;
use node_tree::Tree;

// From a live node and all that is below it.
#[cycle(clearing)]
fn clear_at(tree: &mut Tree<RenderObject>, h: Handle)
    requires { IsNode tree.old h }
    ensures { Clears tree.old tree.new (λ k. is_in k (subtree_at tree.old h)) }
{
    Tree::<RenderObject>::walk_laws();
    Tree::<RenderObject>::child_laws();
    // Tells the proof that this is a tree.
    let _ = tree.root();
    write_live(tree, h, None);
    clear_below(tree, h);
}

// From what is below a node.
#[cycle(clearing)]
fn clear_below(tree: &mut Tree<RenderObject>, h: Handle)
    ensures { Clears tree.old tree.new (is_at_or_below tree.old (children_at tree.old h)) }
{
    for i in 0..tree.children(h).len() {
        let child = tree.children(h)[i];
        clear_at(tree, child);
    }
}

// From the root's tree.
fn clear_root(tree: &mut Tree<RenderObject>)
    ensures { Clears tree.old tree.new (is_at_or_below tree.old (option_to_list tree.old.root)) }
{
    if let Some(root) = tree.root() {
        clear_at(tree, root);
    }
}

// From the inactive subtrees.
fn clear_inactive(tree: &mut Tree<RenderObject>)
    ensures { Clears tree.old tree.new (is_at_or_below tree.old tree.old.inactive) }
{
    for i in 0..tree.inactive().len() {
        let top = tree.inactive()[i];
        clear_at(tree, top);
    }
}

impl RenderTree {
    /// Takes the live range of every node away, of those of inactive subtrees too.
    pub fn clear_live(&mut self)
        ensures clears { Clears self.old.tree self.new.tree (λ _. true) }
        ensures plain { (f : Forest RenderObjectOf) → Is self.old.tree f → Is self.new.tree (cleared (λ _. true) f) }
        ensures scale { self.new.scale ≡ self.old.scale }
        ensures spent { self.new.spent ≡ self.old.spent }
    {
        Tree::<RenderObject>::walk_laws();
        Tree::<RenderObject>::child_laws();
        // Tells the proof that this is a tree.
        let _ = self.tree.root();
        clear_root(&mut self.tree);
        clear_inactive(&mut self.tree);
    }
}
