// The tree that a build makes.
use fx_expr::ValueList;
use std::marker::Model;
use std::rc::Rc;
use widget_model::Widget;

/// A node of the tree that a build makes (`Element`): its number, its widget, the values of its fields, how far it is
/// scrolled in u, its place among its parent's child widgets, 0 at the root, and its children. Only a component has
/// fields, and only a Viewport is scrolled.
#[derive(Drop)]
pub struct Node {
    pub number: u64,
    pub widget: Rc<Widget>,
    pub fields: ValueList,
    pub scroll: u64,
    pub index: u64,
    pub children: Vec<Node>,
}

impl Model for Node {
    ghost use Rattle.plain_tree.specs.PlainNode.{PlainNode};
    ghost use Rattle.plain_tree.specs.PlainNodeCode.{coded_node};

    ghost Value = { PlainNode };

    ghost coded = { coded_node };

    ghost use Rattle.widget_model.specs.View.{plain_of};
    ghost use Rattle.plain_tree.specs.PlainNode.{node, nodes_of, count_of};
    ghost use Rattle.plain_tree.specs.PlainNodeLighter.{lighter};

    ghost view = { λ n. node n.number (plain_of n.widget.value) n.fields n.scroll n.index (nodes_of n.children.items) };

    ghost size = { count_of };

    ghost size_decreases = { λ n h. lighter n.number (plain_of n.widget.value) n.fields n.scroll n.index n.children.items };
}
