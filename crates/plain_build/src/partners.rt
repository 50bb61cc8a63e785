// What each child widget goes on from (`Element.updateChildren`).
ghost use Rattle.std.specs.Prelude.{◌≡◌, ◌<◌, ℕ, None, length, IfOk, IfSome, map, slice_index_or};
ghost use Rattle.widget_model.specs.View.{plain_of, shared};
ghost use Rattle.reconcile.specs.Keys.{NoKeyRepeats};
ghost use Rattle.plain_tree.specs.PlainNode.{PlainNode, children_of, widget_of};
ghost use Rattle.build_form.specs.Partner.{widgets_below, nodes_had, widgets_had, node_at, node_at_any, arrival, arrivals, beside_root, root_arrival};
ghost use Rattle.build_form.specs.Lent.{lent};
ghost use Rattle.plain_build.specs.PartnerView.{plain_arrival, node_of};

use build_form::build_role_of;
use plain_tree::Node;
use reconcile::match_children;
use std::alloc::{AllocError, Global};
use std::rc::Rc;
use widget_model::{Widget, can_update};

/// A widget that is to be entered: its place among its parent's child widgets, and the node that it is matched to among
/// the child widgets that the parent had.
#[derive(Drop)]
pub(crate) struct Arrival<'a> {
    pub(crate) widget: Rc<Widget>,
    pub(crate) place: u64,
    pub(crate) beside: Option<&'a Node>,
}

/// The same widgets, shared once more.
pub(crate) fn copies(alloc: Global, widgets: &[Rc<Widget>]) -> Result<Vec<Rc<Widget>>, AllocError>
    ensures { IfOk result (λ ws. map shared ws.items ≡ map shared widgets.now) }
{
    let mut copies = Vec::with_capacity(alloc, widgets.len())?;
    for widget in widgets {
        copies.push(Rc::clone(widget)?)?;
    }
    Ok(copies)
}

// The widgets of nodes.
fn widgets_of(alloc: Global, nodes: &[Node]) -> Result<Vec<Rc<Widget>>, AllocError>
    ensures { IfOk result (λ ws. map shared ws.items ≡ map widget_of nodes.now) }
{
    let mut widgets = Vec::with_capacity(alloc, nodes.len())?;
    for node in nodes {
        widgets.push(Rc::clone(&node.widget)?)?;
    }
    Ok(widgets)
}

// The whole list of child widgets that a node had: of a lazy list also those that were no nodes.
fn widgets_below(alloc: Global, node: &Node) -> Result<Vec<Rc<Widget>>, AllocError>
    ensures { IfOk result (λ ws. map shared ws.items ≡ widgets_below node.now) }
{
    if build_role_of(&node.widget.kind).is_lazy() {
        return copies(alloc, node.widget.children.get());
    }
    widgets_of(alloc, node.children.as_slice())
}

// For each place of a list of so many child widgets, which of the nodes stood there, if one did.
fn nodes_by_place(
    alloc: Global,
    nodes: &[Node],
    count: usize,
) -> Result<Vec<Option<usize>>, AllocError>
    ensures len { IfOk result (λ ks. length ks.items ≡ count) }
    ensures nodes { IfOk result (λ ks. (j : ℕ) → j < count → node_of nodes.now (slice_index_or ks.items j None) ≡ node_at nodes.now j) }
{
    let mut by_place = nothing_by_place(alloc, count)?;
    for k in (0..nodes.len()).rev() {
        let node = &nodes[k];
        let place = node.index;
        if place < count as u64 {
            by_place[place as usize] = Some(k);
        }
    }
    Ok(by_place)
}

// No node at any of so many places.
fn nothing_by_place(alloc: Global, count: usize) -> Result<Vec<Option<usize>>, AllocError>
    ensures len { IfOk result (λ ks. length ks.items ≡ count) }
    ensures nothing { IfOk result (λ ks. (j : ℕ) → slice_index_or ks.items j None ≡ None) }
{
    let mut by_place = Vec::with_capacity(alloc, count)?;
    for _ in 0..count {
        by_place.push(None)?;
    }
    Ok(by_place)
}

// The nodes below the old node that a node goes on from, and their whole list of child widgets; a new node has none.
fn nodes_had(partner: Option<&Node>) -> &[Node]
    ensures { result.now ≡ nodes_had (lent partner.entry) }
{
    match partner {
        None => &[],
        Some(node) => node.children.as_slice(),
    }
}

fn widgets_had(alloc: Global, partner: Option<&Node>) -> Result<Vec<Rc<Widget>>, AllocError>
    ensures { IfOk result (λ ws. map shared ws.items ≡ widgets_had (lent partner.entry)) }
{
    match partner {
        None => Ok(Vec::new(alloc)),
        Some(node) => widgets_below(alloc, node),
    }
}

// The node at the old place that a widget is matched to, if it is matched and one stood there.
fn beside_at<'a>(
    nodes: &'a [Node],
    by_place: &[Option<usize>],
    matched: Option<usize>,
) -> Option<&'a Node>
    requires within { IfSome matched (λ j. j < length by_place.now) }
    requires by_place { (j : ℕ) → j < length by_place.now → node_of nodes.now (slice_index_or by_place.now j None) ≡ node_at nodes.now j }
    ensures { lent result ≡ node_at_any nodes.now matched }
{
    let place = matched?;
    let index = by_place[place]?;
    nodes.get(index)
}

// A widget at a place, with the node that it is matched to.
fn arrives<'a>(
    widget: &Rc<Widget>,
    place: u64,
    beside: Option<&'a Node>,
) -> Result<Arrival<'a>, AllocError>
    ensures { IfOk result (λ a. plain_arrival a ≡ arrival (shared widget.now) place (lent beside.entry)) }
{
    Ok(Arrival {
        widget: Rc::clone(widget)?,
        place,
        beside,
    })
}

/// The same arrival once more, its widget shared.
pub(crate) fn same_arrival<'a>(arrival: &Arrival<'a>) -> Result<Arrival<'a>, AllocError>
    ensures { IfOk result (λ a. plain_arrival a ≡ plain_arrival arrival.now) }
{
    arrives(&arrival.widget, arrival.place, arrival.beside)
}

/// The child widgets of a node, in order, each with what it is matched to among those that the old node had from which
/// the node goes on. No key may repeat among these.
pub(crate) fn arrivals<'a>(
    alloc: Global,
    partner: Option<&'a Node>,
    widgets: &[Rc<Widget>],
) -> Result<Vec<Arrival<'a>>, AllocError>
    requires { NoKeyRepeats (widgets_had (lent partner)) }
    ensures { IfOk result (λ v. map plain_arrival v.items ≡ arrivals (lent partner.entry) (map shared widgets.now)) }
{
    let nodes = nodes_had(partner);
    let had = widgets_had(alloc, partner)?;
    let mut matched = Vec::new(alloc);
    match_children(alloc, had.as_slice(), widgets, &mut matched)?;
    let by_place = nodes_by_place(alloc, nodes, had.len())?;
    let mut arrivals = Vec::with_capacity(alloc, widgets.len())?;
    for i in 0..widgets.len() {
        let beside = beside_at(nodes, by_place.as_slice(), matched[i]);
        arrivals.push(arrives(&widgets[i], i as u64, beside)?)?;
    }
    Ok(arrivals)
}

/// The root of a tree, which is matched as a list of one against the old root.
pub(crate) fn root_arrival<'a>(
    old: Option<&'a Node>,
    widget: &Rc<Widget>,
) -> Result<Arrival<'a>, AllocError>
    ensures { IfOk result (λ a. plain_arrival a ≡ root_arrival (lent old.entry) (shared widget.now)) }
{
    arrives(widget, 0, beside_root(old, widget))
}

// The old root, where the new one can take its place.
fn beside_root<'a>(old: Option<&'a Node>, widget: &Widget) -> Option<&'a Node>
    ensures { lent result ≡ beside_root (lent old.entry) (plain_of widget.now) }
{
    let node = old?;
    if can_update(&node.widget, widget) {
        return Some(node);
    }
    None
}
