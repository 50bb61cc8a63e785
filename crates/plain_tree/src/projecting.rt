// Which nodes of a tree are laid out (`RenderObjectElement`).
ghost use Rattle.plain_tree.specs.Laws.{VanishAlone};
ghost use Rattle.std.specs.Prelude.{[], ◌∷◌, ◌≡◌, ◌++◌, OnOk, IfOk, IfSome, IfNone};
ghost use Rattle.plain_tree.specs.Projection.{projected, projected_all, render_of, told_at, told_by, first_told, scroll_in};
ghost use Rattle.plain_tree.specs.PlainNode.{nodes_of};

use crate::nodes::Node;
use crate::render::{ParentData, RenderNode};
use crate::role::{RenderRole, render_role_of};
use std::alloc::{AllocError, Global};
use std::rc::Rc;

// What a node right below a render node is told before any widget between them speaks.
fn first_told(above: RenderRole, index: u64) -> ParentData
    ensures { result ≡ first_told above index }
{
    match above {
        RenderRole::Lazy => ParentData {
            index,
            ..ParentData::default()
        },
        _ => ParentData::default(),
    }
}

/// What is told below a widget between two render nodes, after what was told above it.
pub fn told_by(above: RenderRole, role: RenderRole, told: ParentData) -> ParentData
    ensures { result ≡ told_by above role told }
{
    match (above, role) {
        (RenderRole::Line, RenderRole::Shares { flex, tight }) => ParentData {
            flex,
            tight,
            ..told
        },
        (RenderRole::Pile, RenderRole::Places(placed)) => ParentData {
            placed: Some(placed),
            ..told
        },
        _ => told,
    }
}

/// What a node is told that stands at a place among its parent's child widgets: what was told above it, or what the
/// parent alone tells (`index` is the place, from 0).
pub fn told_at(above: RenderRole, told: Option<ParentData>, index: u64) -> ParentData
    ensures { result ≡ told_at above told index }
{
    match told {
        Some(told) => told,
        None => first_told(above, index),
    }
}

// How far a render node is scrolled.
fn scroll_in(role: RenderRole, scroll: u64) -> u64
    ensures { result ≡ scroll_in role scroll }
{
    match role {
        RenderRole::Window => scroll,
        _ => 0,
    }
}

// Adds the render nodes that a node gives.
#[cycle(projection)]
fn project_node(
    alloc: Global,
    above: RenderRole,
    told: Option<ParentData>,
    node: &Node,
    renders: &mut Vec<RenderNode>,
) -> Result<(), AllocError>
    ensures { OnOk result (renders.new.items ≡ renders.old.items ++ projected above told node.now) }
{
    let role = render_role_of(&node.widget.kind);
    let parent_data = told_at(above, told, node.index);
    if role.vanishes() {
        let told = told_by(above, role, parent_data);
        return project_nodes(alloc, above, Some(told), node.children.as_slice(), renders);
    }
    let mut below = Vec::new(alloc);
    project_nodes(alloc, role, None, node.children.as_slice(), &mut below)?;
    renders.push(RenderNode {
        number: node.number,
        widget: Rc::clone(&node.widget)?,
        parent_data,
        scroll: scroll_in(role, node.scroll),
        children: below,
    })?;
    Ok(())
}

// Adds the render nodes that the nodes of a list give.
#[cycle(projection)]
fn project_nodes(
    alloc: Global,
    above: RenderRole,
    told: Option<ParentData>,
    nodes: &[Node],
    renders: &mut Vec<RenderNode>,
) -> Result<(), AllocError>
    ensures { OnOk result (renders.new.items ≡ renders.old.items ++ projected_all above told (nodes_of nodes.now)) }
{
    for node in nodes {
        project_node(alloc, above, told, node, renders)?;
    }
    Ok(())
}

/// The render nodes of a tree: one for a root whose vanishing widgets have one child each. It takes time in the tree's nodes.
pub fn project(alloc: Global, root: &Node) -> Result<Vec<RenderNode>, AllocError>
    ensures { IfOk result (λ rs. rs.items ≡ render_of root.now) }
{
    let mut renders = Vec::new(alloc);
    project_node(alloc, RenderRole::Plain, None, root, &mut renders)?;
    Ok(renders)
}

/// The one render node of a tree in which each node without a render node has one child. It takes time in the tree's
/// nodes.
pub fn project_root(alloc: Global, root: &Node) -> Result<RenderNode, AllocError>
    requires { VanishAlone root.now }
    ensures { IfOk result (λ r. render_of root.now ≡ r ∷ []) }
{
    let mut renders = project(alloc, root)?;
    match renders.pop() {
        Some(render) => Ok(render),
        None => unreachable!(),
    }
}
