// A place in a tree of render nodes.
ghost use Rattle.std.specs.Prelude.{◌≡◌, Some, option_map};
ghost use Rattle.node_tree.specs.Forest.{below};
ghost use Rattle.node_tree.specs.Tree.{IsNode, children_at, subtree_at, Holds};
ghost use Rattle.render_tree.specs.Plain.{frame_or, offset_or};
ghost use Rattle.laid_cursor.specs.Opened.{offset_of};
ghost use Rattle.render_tree.specs.Tree.{object_at};
ghost use Rattle.render_readers.specs.Places.{laid_at, places_in, first_place};
ghost use Rattle.render_readers.specs.Below.{laid_below};

use fx_geom::{Bounds, Offset, Size};
use fx_handles::Handle;
use laid_cursor::LaidCursor;
use node_tree::Tree;
use plain_tree::{Frame, Notes};
use render_tree::{RenderObject, RenderTree};
use widget_model::Kind;

// A node of a tree with what is stored there and the handles of its children, and the nodes below it that are in the window.
#[derive(Clone, Copy)]
pub(crate) struct ObjectPlace<'t> {
    tree: &'t RenderTree,
    at: Handle,
    object: &'t RenderObject,
    below: &'t [Handle],
    ghost live: { IsNode tree.now.tree at },
    ghost stored: { object_at tree.now.tree at ≡ Some object.now },
    ghost listed: { below.now ≡ children_at tree.now.tree at },
}

impl<'t> ObjectPlace<'t> {
    // The place of a node, where this is stored.
    pub(crate) fn new(tree: &'t RenderTree, at: Handle, object: &'t RenderObject) -> ObjectPlace<'t>
        requires holds { Holds tree.now.tree at }
        requires stored { object_at tree.now.tree at ≡ Some object.now }
        ensures tree { result.tree.now ≡ tree.now }
        ensures at { result.at ≡ at }
    {
        let below = tree.children(at);
        ObjectPlace {
            tree,
            at,
            object,
            below,
        }
    }
}

// A live node stands in its tree. It does nothing.
fn stands(tree: &RenderTree, h: Handle)
    requires { IsNode tree.now.tree h }
    ensures { Holds tree.now.tree h }
{
    tree.tree().count_laws();
    Tree::<RenderObject>::walk_laws();
}

// A frame; a node that was never laid out counts as a box without extent.
fn frame_or(frame: Option<Frame>) -> Frame
    ensures { result ≡ frame_or frame }
{
    match frame {
        Some(frame) => frame,
        None => Frame::Boxed {
            bounds: Bounds::tight(Size::ZERO),
            size: Size::ZERO,
        },
    }
}

// An offset; a node that was never put anywhere stands at its parent's start.
fn offset_or(offset: Option<Offset>) -> Offset
    ensures { result ≡ offset_or offset }
{
    match offset {
        Some(offset) => offset,
        None => Offset::ZERO,
    }
}

// The place of a child and its offset, if it is in the window.
fn child_place(tree: &RenderTree, h: Handle) -> Option<(Offset, ObjectPlace<'_>)>
    requires { Holds tree.now.tree h }
    ensures { option_map (λ p. record { at = p.0; child = laid_at p.1.tree.now.tree p.1.at }) result ≡ first_place (subtree_at tree.now.tree h) }
{
    let Some(object) = tree.object(h) else {
        unreachable!()
    };
    if !object.shown() {
        return None;
    }
    let at = offset_or(object.offset());
    Some((at, ObjectPlace::new(tree, h, object)))
}

// The offset of a child, if it is in the window.
fn child_offset(tree: &RenderTree, h: Handle) -> Option<Offset>
    requires { Holds tree.now.tree h }
    ensures { result ≡ option_map offset_of (first_place (subtree_at tree.now.tree h)) }
{
    let Some(object) = tree.object(h) else {
        unreachable!()
    };
    if !object.shown() {
        return None;
    }
    Some(offset_or(object.offset()))
}

impl<'t> LaidCursor for ObjectPlace<'t> {
    ghost stands = { λ p. laid_at p.tree.now.tree p.at };

    ghost places = { λ p. places_in (below (subtree_at p.tree.now.tree p.at)) };

    fn number(&self) -> u64 {
        stands(self.tree, self.at);
        self.object.number()
    }

    fn kind(&self) -> &Kind {
        stands(self.tree, self.at);
        &self.object.widget().kind
    }

    fn frame(&self) -> Frame {
        stands(self.tree, self.at);
        frame_or(self.object.frame())
    }

    fn notes(&self) -> Notes {
        stands(self.tree, self.at);
        self.object.notes()
    }

    fn plugged(&self) -> bool {
        stands(self.tree, self.at);
        self.object.has_delegate()
    }

    fn len(&self) -> usize {
        stands(self.tree, self.at);
        Tree::<RenderObject>::child_laws();
        self.below.len()
    }

    fn child(&self, i: usize) -> Option<(Offset, ObjectPlace<'t>)> {
        stands(self.tree, self.at);
        Tree::<RenderObject>::child_laws();
        let below = self.below;
        if i >= below.len() {
            return None;
        }
        child_place(self.tree, below[i])
    }

    fn child_offset(&self, i: usize) -> Option<Offset> {
        stands(self.tree, self.at);
        Tree::<RenderObject>::child_laws();
        let below = self.below;
        if i >= below.len() {
            return None;
        }
        child_offset(self.tree, below[i])
    }

    ghost below = { λ p. laid_below (subtree_at p.tree.now.tree p.at) };
}
