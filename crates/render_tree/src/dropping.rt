// The users of delegates that go with nodes which are taken away.
ghost use Rattle.std.specs.Prelude.{◌≡◌};
ghost use Rattle.fx_handles.specs.Handle.{same};
ghost use Rattle.node_tree.specs.Tree.{IsNode, children_at, subtree_at};
ghost use Rattle.render_tree.specs.Users.{Drops, is_in, is_at_or_below};

use crate::object::RenderObject;
use crate::users::drop_user;
use fx_handles::Handle;
use handle_groups::Groups;
use node_tree::Tree;

// A live node itself.
fn drop_one(users: &mut Groups, tree: &Tree<RenderObject>, h: Handle)
    requires { IsNode tree.now h }
    ensures { Drops tree.now (same h) users.old users.new }
{
    let Some(object) = tree.value(h) else {
        unreachable!()
    };
    drop_user(users, &object.widget.kind, h);
}

// A live node with all that is below it.
#[cycle(dropping)]
pub(crate) fn drop_at(users: &mut Groups, tree: &Tree<RenderObject>, h: Handle)
    requires { IsNode tree.now h }
    ensures { Drops tree.now (λ k. is_in k (subtree_at tree.now h)) users.old users.new }
{
    Tree::<RenderObject>::walk_laws();
    Tree::<RenderObject>::child_laws();
    // Tells the proof that this is a tree.
    let _ = tree.root();
    drop_one(users, tree, h);
    drop_below(users, tree, h);
}

// What is below a node.
#[cycle(dropping)]
fn drop_below(users: &mut Groups, tree: &Tree<RenderObject>, h: Handle)
    ensures { Drops tree.now (is_at_or_below tree.now (children_at tree.now h)) users.old users.new }
{
    for child in tree.children(h) {
        drop_at(users, tree, *child);
    }
}

// All inactive subtrees.
pub(crate) fn drop_inactive_users(users: &mut Groups, tree: &Tree<RenderObject>)
    ensures { Drops tree.now (is_at_or_below tree.now tree.now.inactive) users.old users.new }
{
    for top in tree.inactive() {
        drop_at(users, tree, *top);
    }
}
