// What each child widget goes on from among the old elements (`Element.updateChildren`).
ghost use Rattle.std.specs.Prelude.{◌≡◌, ◌↔◌, ◌<◌, ℕ, List, Some, None, IsTrue, length, IfOk, IfSome, map, slice_index_or};
ghost use Rattle.std.specs.List.{All};
ghost use Rattle.fx_handles.specs.Handle.{Among};
ghost use Rattle.node_tree.specs.Tree.{IsNode};
ghost use Rattle.widget_model.specs.Update.{CanUpdate};
ghost use Rattle.widget_model.specs.View.{plain_of, shared};
ghost use Rattle.reconcile.specs.Keys.{NoKeyRepeats};
ghost use Rattle.plain_tree.specs.PlainNode.{PlainNode};
ghost use Rattle.build_form.specs.Numbered.{StandAt};
ghost use Rattle.build_form.specs.Partner.{widgets_had, nodes_had, node_at, arrivals};
ghost use Rattle.build_walk.specs.Kept.{plain_at, plain_at_any};
ghost use Rattle.build_owner.specs.ArrivalView.{widget_at, children_had, arrives_in, arrived, coming, coming_from, coming_anew, lone_coming, IsPair, ArePaired};

use build_form::build_role_of;
use build_walk::kept_elements_are_known;
use element_tree::{Element, ElementTree};
use fx_handles::Handle;
use node_tree::Tree;
use reconcile::match_children;
use std::alloc::{AllocError, Global};
use std::rc::Rc;
use std::slice::from_ref;
use widget_model::{Widget, can_update};

/// A widget that is to be entered: its place among its parent's child widgets, and the old element that it is matched to among the child
/// widgets that the parent had.
#[derive(Drop)]
pub(crate) struct Arrival {
    pub(crate) widget: Rc<Widget>,
    pub(crate) place: u64,
    pub(crate) beside: Option<Handle>,
}

/// The same widgets, shared once more.
pub(crate) fn copies(alloc: Global, widgets: &[Rc<Widget>]) -> Result<Vec<Rc<Widget>>, AllocError>
    ensures { IfOk result (λ ws. map shared ws.items ≡ map shared widgets.now) }
{
    let mut copies = Vec::with_capacity(alloc, widgets.len())?;
    for widget in widgets {
        copies.push(Rc::clone(widget)?)?;
    }
    Ok(copies)
}

// The widgets of elements.
fn widgets_at(
    alloc: Global,
    t: &ElementTree,
    handles: &[Handle],
) -> Result<Vec<Rc<Widget>>, AllocError>
    requires { (k : _) → Among k handles.now → IsNode t.now.tree k }
    ensures { IfOk result (λ ws. map Some (map shared ws.items) ≡ map (widget_at t.now.tree) handles.now) }
{
    let mut widgets = Vec::with_capacity(alloc, handles.len())?;
    for i in 0..handles.len() {
        let Some(widget) = t.widget(handles[i]) else {
            unreachable!()
        };
        widgets.push(Rc::clone(widget)?)?;
    }
    Ok(widgets)
}

// The elements right below the old one from which an element goes on; a new one has none.
fn children_had(t: &ElementTree, partner: Option<Handle>) -> &[Handle]
    ensures value { result.now ≡ children_had t.now.tree partner }
    ensures live { (k : _) → Among k result.now → IsNode t.now.tree k }
{
    kept_elements_are_known();
    match partner {
        None => &[],
        Some(h) => t.children(h),
    }
}

// The whole list of child widgets that it had: of a lazy list also those that were no elements.
fn widgets_had(
    alloc: Global,
    t: &ElementTree,
    partner: Option<Handle>,
) -> Result<Vec<Rc<Widget>>, AllocError>
    requires { IfSome partner (IsNode t.now.tree) }
    ensures { IfOk result (λ ws. (scrolled : ℕ → ℕ) → map shared ws.items ≡ widgets_had (plain_at_any scrolled t.now.tree partner)) }
{
    Tree::<Element>::walk_laws();
    kept_elements_are_known();
    // Tells the proof that this is a tree.
    let _ = t.root();
    let Some(h) = partner else {
        return Ok(Vec::new(alloc));
    };
    let Some(widget) = t.widget(h) else {
        unreachable!()
    };
    if build_role_of(&widget.kind).is_lazy() {
        return copies(alloc, widget.children.get());
    }
    widgets_at(alloc, t, t.children(h))
}

// No element at any of so many places.
fn nothing_by_place(alloc: Global, count: usize) -> Result<Vec<Option<Handle>>, AllocError>
    ensures len { IfOk result (λ hs. length hs.items ≡ count) }
    ensures nothing { IfOk result (λ hs. (j : ℕ) → slice_index_or hs.items j None ≡ None) }
{
    let mut by_place = Vec::with_capacity(alloc, count)?;
    for _ in 0..count {
        by_place.push(None)?;
    }
    Ok(by_place)
}

// For each place of a list of so many child widgets, which of the elements stood there, if one did.
fn elements_by_place(
    alloc: Global,
    t: &ElementTree,
    handles: &[Handle],
    count: usize,
) -> Result<Vec<Option<Handle>>, AllocError>
    requires { (k : _) → Among k handles.now → IsNode t.now.tree k }
    ensures len { IfOk result (λ hs. length hs.items ≡ count) }
    ensures nodes { IfOk result (λ hs. (scrolled : ℕ → ℕ) (nodes : List PlainNode) → map (plain_at scrolled t.now.tree) handles.now ≡ map Some nodes
        → (j : ℕ) → j < count → plain_at_any scrolled t.now.tree (slice_index_or hs.items j None) ≡ node_at nodes j) }
    ensures among { IfOk result (λ hs. All (λ o. IfSome o (λ k. Among k handles.now)) hs.items) }
{
    Tree::<Element>::walk_laws();
    kept_elements_are_known();
    // Tells the proof that this is a tree.
    let _ = t.root();
    let mut by_place = nothing_by_place(alloc, count)?;
    for k in (0..handles.len()).rev() {
        let handle = handles[k];
        if let Some(place) = t.place(handle) {
            if place < count as u64 {
                by_place[place as usize] = Some(handle);
            }
        }
    }
    Ok(by_place)
}

// The old element at the place that a widget is matched to, if it is matched and one stood there.
fn beside_at(by_place: &[Option<Handle>], matched: Option<usize>) -> Option<Handle>
    requires { IfSome matched (λ j. j < length by_place.now) }
    ensures none { matched ≡ None → result ≡ None }
    ensures some { IfSome matched (λ j. result ≡ slice_index_or by_place.now j None) }
{
    by_place[matched?]
}

/// A widget at a place, with the old element that it is matched to.
pub(crate) fn arrives(
    widget: &Rc<Widget>,
    place: u64,
    beside: Option<Handle>,
) -> Result<Arrival, AllocError>
    ensures widget { IfOk result (λ a. shared a.widget ≡ shared widget.now) }
    ensures place { IfOk result (λ a. a.place ≡ place) }
    ensures beside { IfOk result (λ a. a.beside ≡ beside) }
{
    Ok(Arrival {
        widget: Rc::clone(widget)?,
        place,
        beside,
    })
}

// Whether an element has this place, and a widget that can update to another one.
fn is_pair(t: &ElementTree, h: Handle, place: u64, widget: &Widget) -> bool
    ensures { IsTrue result ↔ IsPair t.now.tree place h (plain_of widget.now) }
{
    if t.place(h) != Some(place) {
        return false;
    }
    match t.widget(h) {
        None => false,
        Some(old) => can_update(old, widget),
    }
}

// Whether the elements are as many as the widgets, each stands at the place of one of them, in order, and its widget can update to that one.
fn are_paired(t: &ElementTree, handles: &[Handle], widgets: &[Rc<Widget>]) -> bool
    ensures { IsTrue result ↔ ArePaired t.now.tree handles.now (map shared widgets.now) }
{
    if handles.len() != widgets.len() {
        return false;
    }
    for i in 0..handles.len() {
        if !is_pair(t, handles[i], i as u64, &widgets[i]) {
            return false;
        }
    }
    true
}

/// Widgets that arrive: one, or any number of them.
#[derive(Drop)]
pub(crate) enum ArrivingWidgets {
    One(Arrival),
    Many(Vec<Arrival>),
}

/// The widgets that arrive, in order.
pub(crate) fn arrived(all: &ArrivingWidgets) -> &[Arrival]
    ensures { result.now ≡ arrived all.now }
{
    match all {
        ArrivingWidgets::One(arrival) => from_ref(arrival),
        ArrivingWidgets::Many(many) => many.as_slice(),
    }
}

// A widget alone, with what it is matched to.
fn lone_arrival(widget: &Rc<Widget>, beside: Option<Handle>) -> Result<ArrivingWidgets, AllocError>
    ensures { IfOk result (λ v. map coming (arrived v) ≡ lone_coming (shared widget.now) beside) }
{
    Ok(ArrivingWidgets::One(arrives(widget, 0, beside)?))
}

// Widgets, each at its place with the element there.
fn paired_list(
    alloc: Global,
    handles: &[Handle],
    widgets: &[Rc<Widget>],
) -> Result<Vec<Arrival>, AllocError>
    requires { length handles.now ≡ length widgets.now }
    ensures { IfOk result (λ v. map coming v.items ≡ coming_from 0 handles.now (map shared widgets.now)) }
{
    let mut arrivals = Vec::with_capacity(alloc, widgets.len())?;
    for i in 0..widgets.len() {
        arrivals.push(arrives(&widgets[i], i as u64, Some(handles[i]))?)?;
    }
    Ok(arrivals)
}

// The same, without a list where it is one.
fn paired_arrivals(
    alloc: Global,
    handles: &[Handle],
    widgets: &[Rc<Widget>],
) -> Result<ArrivingWidgets, AllocError>
    requires { length handles.now ≡ length widgets.now }
    ensures { IfOk result (λ v. map coming (arrived v) ≡ coming_from 0 handles.now (map shared widgets.now)) }
{
    if widgets.len() == 1 {
        return lone_arrival(&widgets[0], Some(handles[0]));
    }
    let arrivals = paired_list(alloc, handles, widgets)?;
    Ok(ArrivingWidgets::Many(arrivals))
}

// Widgets, each at its place with no element there.
fn fresh_list(alloc: Global, widgets: &[Rc<Widget>]) -> Result<Vec<Arrival>, AllocError>
    ensures { IfOk result (λ v. map coming v.items ≡ coming_anew 0 (map shared widgets.now)) }
{
    let mut arrivals = Vec::with_capacity(alloc, widgets.len())?;
    for i in 0..widgets.len() {
        arrivals.push(arrives(&widgets[i], i as u64, None)?)?;
    }
    Ok(arrivals)
}

// The same, without a list where it is one.
fn fresh_arrivals(alloc: Global, widgets: &[Rc<Widget>]) -> Result<ArrivingWidgets, AllocError>
    ensures { IfOk result (λ v. map coming (arrived v) ≡ coming_anew 0 (map shared widgets.now)) }
{
    if widgets.len() == 1 {
        return lone_arrival(&widgets[0], None);
    }
    let arrivals = fresh_list(alloc, widgets)?;
    Ok(ArrivingWidgets::Many(arrivals))
}

// The child widgets of an element, in order, each with what it is matched to by place and key.
fn matched_arrivals(
    alloc: Global,
    t: &ElementTree,
    partner: Option<Handle>,
    widgets: &[Rc<Widget>],
) -> Result<Vec<Arrival>, AllocError>
    requires live { IfSome partner (IsNode t.now.tree) }
    requires apart { NoKeyRepeats (widgets_had (plain_at_any (λ _. 0) t.now.tree partner)) }
    requires placed { StandAt (widgets_had (plain_at_any (λ _. 0) t.now.tree partner)) (nodes_had (plain_at_any (λ _. 0) t.now.tree partner)) }
    ensures arrivals { IfOk result (λ v. (scrolled : ℕ → ℕ) → map (arrives_in scrolled t.now.tree) v.items ≡ arrivals (plain_at_any scrolled t.now.tree partner) (map shared widgets.now)) }
    ensures beside { IfOk result (λ v. All (λ a. IfSome a.beside (λ k. Among k (children_had t.now.tree partner) × IsNode t.now.tree k)) v.items) }
    ensures matched { IfOk result (λ v. All (λ a. IfSome a.beside (λ k. IfSome (widget_at t.now.tree k) (λ old. CanUpdate old (shared a.widget)))) v.items) }
{
    kept_elements_are_known();
    Tree::<Element>::walk_laws();
    // Tells the proof that this is a tree.
    let _ = t.root();
    let handles = children_had(t, partner);
    let had = widgets_had(alloc, t, partner)?;
    let mut matched = Vec::new(alloc);
    match_children(alloc, had.as_slice(), widgets, &mut matched)?;
    let by_place = elements_by_place(alloc, t, handles, had.len())?;
    let mut arrivals = Vec::with_capacity(alloc, widgets.len())?;
    for i in 0..widgets.len() {
        let beside = beside_at(by_place.as_slice(), matched[i]);
        arrivals.push(arrives(&widgets[i], i as u64, beside)?)?;
    }
    Ok(arrivals)
}

/// The child widgets of an element, in order, each with what it is matched to among those that the old element had from which the
/// element goes on. No key may repeat among these, and each of its elements has the widget that stands at the element's place.
pub(crate) fn arrivals(
    alloc: Global,
    t: &ElementTree,
    partner: Option<Handle>,
    widgets: &[Rc<Widget>],
) -> Result<ArrivingWidgets, AllocError>
    requires live { IfSome partner (IsNode t.now.tree) }
    requires apart { NoKeyRepeats (widgets_had (plain_at_any (λ _. 0) t.now.tree partner)) }
    requires placed { StandAt (widgets_had (plain_at_any (λ _. 0) t.now.tree partner)) (nodes_had (plain_at_any (λ _. 0) t.now.tree partner)) }
    ensures arrivals { IfOk result (λ v. (scrolled : ℕ → ℕ) → map (arrives_in scrolled t.now.tree) (arrived v) ≡ arrivals (plain_at_any scrolled t.now.tree partner) (map shared widgets.now)) }
    ensures beside { IfOk result (λ v. All (λ a. IfSome a.beside (λ k. Among k (children_had t.now.tree partner) × IsNode t.now.tree k)) (arrived v)) }
    ensures matched { IfOk result (λ v. All (λ a. IfSome a.beside (λ k. IfSome (widget_at t.now.tree k) (λ old. CanUpdate old (shared a.widget)))) (arrived v)) }
{
    kept_elements_are_known();
    Tree::<Element>::walk_laws();
    // Tells the proof that this is a tree.
    let _ = t.root();
    let handles = children_had(t, partner);
    if handles.len() == 0 {
        return fresh_arrivals(alloc, widgets);
    }
    if are_paired(t, handles, widgets) {
        return paired_arrivals(alloc, handles, widgets);
    }
    let matched = matched_arrivals(alloc, t, partner, widgets)?;
    Ok(ArrivingWidgets::Many(matched))
}
