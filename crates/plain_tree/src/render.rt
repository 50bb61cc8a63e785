// What of a tree is laid out.
use fx_geom::Placed;
use std::marker::Model;
use std::rc::Rc;
use widget_model::Widget;

/// What a render node's parent takes from the widgets between them (`ParentData`): its share of the free room and
/// whether it fills it, which count below a Row or Column; where it is placed, which counts below a Stack; and its place
/// among the child widgets, which counts below a SliverLazy. Where they don't count they are 0, false, None and 0.
#[derive(Clone, Copy, Default)]
pub struct ParentData {
    pub flex: u64,
    pub tight: bool,
    pub placed: Option<Placed>,
    pub index: u64,
}

/// A node that is laid out (`RenderObject`): its number, its widget, of which only the kind with its members counts and
/// for a SliverLazy the number of its child widgets, what its parent takes from the widgets between them, how far it is
/// scrolled in u, and the nodes below it.
#[derive(Drop)]
pub struct RenderNode {
    pub number: u64,
    pub widget: Rc<Widget>,
    pub parent_data: ParentData,
    pub scroll: u64,
    pub children: Vec<RenderNode>,
}

impl Model for RenderNode {
    ghost use Rattle.plain_tree.specs.Render.{Render};
    ghost use Rattle.plain_tree.specs.RenderCode.{coded_render};

    ghost Value = { Render };

    ghost coded = { coded_render };

    ghost use Rattle.widget_model.specs.View.{look_in};
    ghost use Rattle.plain_tree.specs.RenderRole.{render_role_of};
    ghost use Rattle.plain_tree.specs.Render.{render, renders_of, count_of, lazy_count};
    ghost use Rattle.plain_tree.specs.RenderLighter.{lighter};

    ghost view = { λ n. render n.number (look_in n.widget.value.kind) n.parent_data n.scroll (lazy_count (render_role_of (look_in n.widget.value.kind)) n.widget.value.children) (renders_of n.children.items) };

    ghost size = { count_of };

    ghost size_decreases = { λ n h. lighter n.number (look_in n.widget.value.kind) n.parent_data n.scroll (lazy_count (render_role_of (look_in n.widget.value.kind)) n.widget.value.children) n.children.items };
}
