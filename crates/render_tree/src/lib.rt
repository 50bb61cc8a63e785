//! The tree that is laid out and painted: render nodes in an arena, with what the last layout stored at each, and with their
//! marks (`RenderObject`, `PipelineOwner`).
//!
//! Lengths are whole numbers of u, 1/64 of a logical pixel, or 1/256 in version 3 of a program.
#![tactic(auto)]

ghost use Rattle.std.specs.Prelude.{◌≡◌, ◌<◌, ◌↔◌, Some, None, [], true, false, IfSome};
ghost use Rattle.fx_handles.specs.Handle.{Among, AreDistinct};
ghost use Rattle.fx_handles.specs.Arena.{IsNew};
ghost use Rattle.node_tree.specs.Forest.{size};
ghost use Rattle.node_tree.specs.Forest.Forest.{none};
ghost use Rattle.node_tree.specs.Tree.{parent_at, children_at, Is, IsTree, Holds, subtree_at};
ghost use Rattle.render_tree.specs.Remarked.{HasNoNotes};
ghost use Rattle.render_tree.specs.Users.{uses};

mod calls;
mod changes;
mod clearing;
mod commits;
mod dropping;
mod edits;
mod frames;
mod kinds;
mod laws;
mod layout_state;
mod marks;
mod object;
mod parts;
mod readers;
mod reads;
mod setters;
mod updates;
mod users;
mod writes;

pub use edits::TreeFault;
use fx_geom::Scale;
use fx_handles::Handle;
use handle_groups::Groups;
pub use laws::{layouts_settle, render_marks_are_marks};
pub use layout_state::LayoutState;
use node_tree::Tree;
pub use object::{Redraw, RenderObject};
use std::alloc::Global;
use std::marker::Model;

/// Render nodes by their handles: the root's tree, and beside it inactive subtrees.
#[derive(Drop)]
pub struct RenderTree {
    pub(crate) tree: Tree<RenderObject>,
    // The nodes that use a delegate, by its name.
    pub(crate) users: Groups,
    pub(crate) scale: Scale,
    pub(crate) spent: bool,
    // Whether something may have been remarked of a node.
    pub(crate) remarked: bool,
    pub(crate) alloc: Global,
}

impl Model for RenderTree {
    ghost use Rattle.render_tree.specs.Tree.{RenderTree as RenderTreeOf, render_tree_code};

    ghost Value = { RenderTreeOf };

    ghost coded = { render_tree_code };

    ghost view = { λ t. record { tree = t.tree; scale = t.scale; spent = t.spent } };

    ghost use Rattle.render_tree.specs.Users.{AreUsers};
    ghost use Rattle.render_tree.specs.Remarked.{IsQuietUnless};

    ghost invariant = { λ t. AreUsers t.users t.tree × IsQuietUnless t.remarked t.tree };
}

impl RenderTree {
    /// A tree without nodes, over this allocator, whose lengths have this scale.
    pub fn new(alloc: Global, scale: Scale) -> RenderTree
        ensures root { result.tree.root ≡ None }
        ensures inactive { result.tree.inactive ≡ [] }
        ensures nodes { IsNew result.tree.nodes }
        ensures plain { Is result.tree none }
        ensures scale { result.scale ≡ scale }
        ensures spent { result.spent ≡ false }
    {
        RenderTree {
            tree: Tree::new(alloc),
            users: Groups::new(alloc),
            scale,
            spent: false,
            remarked: false,
            alloc,
        }
    }

    /// The nodes with their handles, as they stand in the tree.
    pub fn tree(&self) -> &Tree<RenderObject>
        ensures { result.now ≡ self.now.tree }
    {
        &self.tree
    }

    /// The scale of the lengths.
    pub fn scale(&self) -> Scale
        ensures { result ≡ self.now.scale }
    {
        self.scale
    }

    /// Whether something may have been remarked of a node by a layout: where it is `false` nothing is remarked of any.
    pub fn is_remarked(&self) -> bool
        ensures { result ≡ false → HasNoNotes self.now.tree }
    {
        self.remarked
    }

    /// The nodes that use the delegate of a name, in no order that is told; none where no node does.
    pub fn users(&self, name: &str) -> &[Handle]
        ensures users { (h : _) → Among h result.now ↔ (uses self.now.tree name.now h ≡ true) }
        ensures once { AreDistinct result.now }
    {
        self.users.get(name)
    }

    /// The root's handle, or `None` where there is no root, also where inactive subtrees are left.
    pub fn root(&self) -> Option<Handle>
        ensures value { result ≡ self.now.tree.root }
        ensures tree { IsTree self.now.tree }
        ensures holds { IfSome result (λ h. Holds self.now.tree h) }
    {
        self.tree.root()
    }

    /// The parent's handle, or `None` for the root, for the top of an inactive subtree, and where the handle isn't live.
    pub fn parent(&self, h: Handle) -> Option<Handle>
        ensures value { result ≡ parent_at self.now.tree h }
        ensures holds { IfSome result (λ p. Holds self.now.tree p) }
        ensures larger { IfSome result (λ p. size (subtree_at self.now.tree h) < size (subtree_at self.now.tree p)) }
        ensures listed { IfSome result (λ p. Among h (children_at self.now.tree p)) }
    {
        self.tree.parent(h)
    }

    /// The children's handles from first to last; none where the handle isn't live.
    pub fn children(&self, h: Handle) -> &[Handle]
        ensures value { result.now ≡ children_at self.now.tree h }
        ensures holds { (k : _) → Among k result.now → Holds self.now.tree k }
        ensures smaller { (k : _) → Among k result.now
            → size (subtree_at self.now.tree k) < size (subtree_at self.now.tree h) }
        ensures parent { (k : _) → Among k result.now → parent_at self.now.tree k ≡ Some h }
    {
        self.tree.children(h)
    }
}
