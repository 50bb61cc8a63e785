// A plain tree of render nodes, read from a place in it.
ghost use Rattle.std.specs.Prelude.{◌≡◌, length, slice_index_or};
ghost use Rattle.plain_tree.specs.Render.{lazy_count};
ghost use Rattle.plain_tree.specs.RenderRole.{render_role_of};
ghost use Rattle.widget_model.specs.View.{look_in};

use crate::opened::children_of;
use kind_rules::Cursor;
use plain_tree::{ParentData, RenderNode};
use widget_model::{Kind, Widget};

/// A node of a plain tree.
#[derive(Clone, Copy)]
pub(crate) struct RenderPlace<'t> {
    pub node: &'t RenderNode,
}

impl<'t> Cursor for RenderPlace<'t> {
    ghost stands = { λ p. p.node.now };

    fn kind(&self) -> &Kind {
        let node = self.node;
        &node.widget.kind
    }

    fn count(&self) -> u64 {
        let node = self.node;
        lazy_count(&node.widget)
    }

    fn told(&self) -> ParentData {
        let node = self.node;
        node.parent_data
    }

    fn len(&self) -> usize {
        let node = self.node;
        children_of(node).len()
    }

    fn child(&self, i: usize) -> Self {
        let node = self.node;
        let children = children_of(node);
        RenderPlace { node: &children[i] }
    }
}

// The number of child widgets of a lazy list.
pub(crate) fn lazy_count(widget: &Widget) -> u64
    ensures { result ≡ lazy_count (render_role_of (look_in widget.now.kind)) widget.now.children }
{
    match &widget.kind {
        Kind::SliverLazy { .. } => widget.children.get().len() as u64,
        Kind::SizedBox { .. }
        | Kind::ConstrainedBox { .. }
        | Kind::Padding { .. }
        | Kind::Align { .. }
        | Kind::ColoredBox { .. }
        | Kind::Text { .. }
        | Kind::Row { .. }
        | Kind::Column { .. }
        | Kind::Wrap { .. }
        | Kind::Table { .. }
        | Kind::Stack { .. }
        | Kind::Flexible { .. }
        | Kind::Positioned { .. }
        | Kind::Opacity { .. }
        | Kind::ClipRect
        | Kind::RepaintBoundary
        | Kind::MergeSemantics
        | Kind::IntrinsicWidth
        | Kind::IntrinsicHeight
        | Kind::Offstage { .. }
        | Kind::IgnorePointer { .. }
        | Kind::AbsorbPointer { .. }
        | Kind::Detector { .. }
        | Kind::Semantics { .. }
        | Kind::ExcludeSemantics { .. }
        | Kind::CustomPaint { .. }
        | Kind::CustomLayout { .. }
        | Kind::Viewport { .. }
        | Kind::SliverToBox
        | Kind::SliverPadding { .. }
        | Kind::SliverFixed { .. }
        | Kind::Keep { .. }
        | Kind::Inherit { .. }
        | Kind::Use { .. } => 0,
    }
}
