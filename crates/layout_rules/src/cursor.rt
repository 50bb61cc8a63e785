// A place in a tree of render nodes.
ghost use Rattle.std.specs.Prelude.{◌≡◌};
ghost use Rattle.node_tree.specs.Tree.{IsNode};
ghost use Rattle.widget_model.specs.View.{look_in};
ghost use Rattle.plain_tree.specs.Render.{lazy_count};
ghost use Rattle.plain_tree.specs.RenderRole.{render_role_of};
ghost use Rattle.layout_rules.specs.Places.{render_at};

use fx_handles::Handle;
use kind_rules::Cursor;
use node_tree::Tree;
use plain_tree::ParentData;
use render_tree::{RenderObject, RenderTree};
use widget_model::{Kind, Widget};

// A live node of a tree, from which the rules read what is there and below it.
#[derive(Clone, Copy)]
pub(crate) struct RenderCursor<'a> {
    tree: &'a RenderTree,
    at: Handle,
    ghost live: { IsNode tree.now.tree at },
}

impl<'a> RenderCursor<'a> {
    // The place of a live node.
    pub(crate) fn new(tree: &'a RenderTree, at: Handle) -> RenderCursor<'a>
        requires { IsNode tree.now.tree at }
        ensures tree { result.tree.now ≡ tree.now }
        ensures at { result.at ≡ at }
    {
        RenderCursor { tree, at }
    }
}

impl<'a> Cursor for RenderCursor<'a> {
    ghost stands = { λ c. render_at c.tree.now.tree c.at };

    fn kind(&self) -> &Kind {
        self.tree.tree().count_laws();
        Tree::<RenderObject>::walk_laws();
        Tree::<RenderObject>::child_laws();
        let Some(widget) = self.tree.widget(self.at) else {
            unreachable!()
        };
        &widget.kind
    }

    fn count(&self) -> u64 {
        self.tree.tree().count_laws();
        Tree::<RenderObject>::walk_laws();
        Tree::<RenderObject>::child_laws();
        let Some(widget) = self.tree.widget(self.at) else {
            unreachable!()
        };
        lazy_count(widget)
    }

    fn told(&self) -> ParentData {
        self.tree.tree().count_laws();
        Tree::<RenderObject>::walk_laws();
        Tree::<RenderObject>::child_laws();
        let Some(told) = self.tree.parent_data(self.at) else {
            unreachable!()
        };
        told
    }

    fn len(&self) -> usize {
        self.tree.tree().count_laws();
        Tree::<RenderObject>::walk_laws();
        Tree::<RenderObject>::child_laws();
        self.tree.children(self.at).len()
    }

    fn child(&self, i: usize) -> RenderCursor<'a> {
        self.tree.tree().count_laws();
        Tree::<RenderObject>::walk_laws();
        Tree::<RenderObject>::child_laws();
        let children = self.tree.children(self.at);
        RenderCursor::new(self.tree, children[i])
    }
}

// The number of child widgets of a lazy list.
fn lazy_count(widget: &Widget) -> u64
    ensures { result ≡ lazy_count (render_role_of (look_in widget.now.kind)) widget.now.children }
{
    match &widget.kind {
        Kind::SliverLazy { .. } => widget.children.get().len() as u64,
        Kind::SizedBox { .. }
        | Kind::ConstrainedBox { .. }
        | Kind::Padding { .. }
        | Kind::Align { .. }
        | Kind::ColoredBox { .. }
        | Kind::Text { .. }
        | Kind::Row { .. }
        | Kind::Column { .. }
        | Kind::Wrap { .. }
        | Kind::Table { .. }
        | Kind::Stack { .. }
        | Kind::Flexible { .. }
        | Kind::Positioned { .. }
        | Kind::Opacity { .. }
        | Kind::ClipRect
        | Kind::RepaintBoundary
        | Kind::MergeSemantics
        | Kind::IntrinsicWidth
        | Kind::IntrinsicHeight
        | Kind::Offstage { .. }
        | Kind::IgnorePointer { .. }
        | Kind::AbsorbPointer { .. }
        | Kind::Detector { .. }
        | Kind::Semantics { .. }
        | Kind::ExcludeSemantics { .. }
        | Kind::CustomPaint { .. }
        | Kind::CustomLayout { .. }
        | Kind::Viewport { .. }
        | Kind::SliverToBox
        | Kind::SliverPadding { .. }
        | Kind::SliverFixed { .. }
        | Kind::Keep { .. }
        | Kind::Inherit { .. }
        | Kind::Use { .. } => 0,
    }
}
