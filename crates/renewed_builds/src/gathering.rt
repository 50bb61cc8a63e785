// What changes where elements take widgets in place: it is gathered before anything is written.
ghost use Rattle.std.specs.Prelude.{◌≡◌, ◌<◌, ◌++◌, true, false, Bool, List, Some, None, Ok, is_some, map, option_map, length, IfOk, OnOk, IfSome};
ghost use Rattle.std.specs.List.{All, list_all};
ghost use Rattle.node_tree.specs.Forest.{below};
ghost use Rattle.node_tree.specs.Tree.{Holds, children_at, subtree_at};
ghost use Rattle.widget_model.specs.Plain.{PlainWidget};
ghost use Rattle.widget_model.specs.View.{look_in, shared};
ghost use Rattle.element_tree.specs.Element.{Element as ElementOf, element_at};
ghost use Rattle.reconcile.specs.Keys.{NoKeyRepeats};
ghost use Rattle.settled_builds.specs.Retaken.{all_asked, are_apart, can_follow_all, gathered};
ghost use Rattle.renewed_builds.specs.Renewing.{widgets_in, are_in_order, draws_its_own, each_can_take, each_changing, each_moving, moved_to, order_of};
ghost use Rattle.renewed_builds.specs.Taking.{can_take_first, changes_first, moves_first, FollowAt, HaveTheirOwn};

use crate::following::{place_of_one, places_by_number};
use crate::taking::{Change, Moved};
use build_owner::is_same;
use element_tree::{Element, ElementTree};
use fx_handles::Handle;
use node_tree::Tree;
use plain_build::keys_of;
use reconcile::match_children;
use std::alloc::{AllocError, Global};
use std::rc::Rc;
use widget_keys::first_repeat;
use widget_model::{Kind, Widget, can_update};

// Whether a kind has the children that its widget has, and a render node.
fn draws_its_own(kind: &Kind) -> bool
    ensures { result ≡ draws_its_own (look_in kind.now) }
{
    match kind {
        Kind::Flexible { .. }
        | Kind::Positioned { .. }
        | Kind::SliverLazy { .. }
        | Kind::Keep { .. }
        | Kind::Inherit { .. }
        | Kind::Use { .. } => false,
        _ => true,
    }
}

// Whether no two widgets have one key.
fn are_apart(alloc: Global, widgets: &[Rc<Widget>]) -> Result<bool, AllocError>
    ensures { IfOk result (λ apart. apart ≡ are_apart (map shared widgets.now)) }
{
    let keys = keys_of(alloc, widgets)?;
    Ok(first_repeat(alloc, keys.as_slice())?.is_none())
}

// The places of some matches, if each is there.
fn found(alloc: Global, matches: &[Option<usize>]) -> Result<Option<Vec<usize>>, AllocError>
    ensures some { IfOk result (λ o. IfSome o (λ places. map (λ j. Some j) places.items ≡ matches.now)) }
    ensures none { result ≡ Ok None → list_all (λ m. is_some m) matches.now ≡ false }
{
    let mut places = Vec::with_capacity(alloc, matches.len())?;
    for place in matches {
        let Some(place) = place else {
            return Ok(None);
        };
        places.push(*place)?;
    }
    Ok(Some(places))
}

// The places from which widgets go on among those that they follow, if they can: they are as many, no two have one key, and each is matched.
fn places_among(
    alloc: Global,
    was: &[Rc<Widget>],
    now: &[Rc<Widget>],
) -> Result<Option<Vec<usize>>, AllocError>
    requires { NoKeyRepeats (map shared was.now) }
    ensures some { IfOk result (λ o. IfSome o (λ places. FollowAt (map shared was.now) (map shared now.now) places.items)) }
    ensures none { result ≡ Ok None → (cans : List (PlainWidget → Bool)) → can_follow_all (map shared was.now) (map shared now.now) cans ≡ false }
{
    if was.len() != now.len() {
        return Ok(None);
    }
    if now.len() <= 1 {
        return place_of_one(alloc, was, now);
    }
    if let Some(places) = places_by_number(alloc, was, now)? {
        return Ok(Some(places));
    }
    if !are_apart(alloc, now)? {
        return Ok(None);
    }
    let mut matches = Vec::new(alloc);
    match_children(alloc, was, now, &mut matches)?;
    found(alloc, matches.as_slice())
}

// Whether each place is its own.
fn are_in_order(places: &[usize]) -> bool
    ensures { result ≡ are_in_order 0 places.now }
{
    for i in 0..places.len() {
        if places[i] != i {
            return false;
        }
    }
    true
}

// The old places of children, where these stand in another order now.
fn order_of(places: &Vec<usize>) -> Result<Option<Vec<usize>>, AllocError>
    ensures { IfOk result (λ o. option_map (λ v. v.items) o ≡ order_of places.now.items) }
{
    if are_in_order(places.as_slice()) {
        return Ok(None);
    }
    Ok(Some(places.clone()?))
}

// Adds an element that stands at another place now.
fn add_move(
    moves: &mut Vec<Moved>,
    element: Handle,
    old: usize,
    place: usize,
) -> Result<(), AllocError>
    ensures { OnOk result (moves.new.items ≡ moves.old.items ++ moved_to element old place) }
{
    if old != place {
        moves.push(Moved {
            element,
            place: place as u64,
        })?;
    }
    Ok(())
}

// Adds the changes of an element of this widget that takes another, and what changes below it; `false` where they can't take it.
#[cycle(gathering)]
fn gather_from(
    alloc: Global,
    t: &ElementTree,
    h: Handle,
    was: &Rc<Widget>,
    widget: &Rc<Widget>,
    changes: &mut Vec<Change>,
    moves: &mut Vec<Moved>,
) -> Result<bool, AllocError>
    requires holds { Holds t.now.tree h }
    requires own { HaveTheirOwn (subtree_at t.now.tree h) }
    requires was { option_map (λ (e : ElementOf). e.widget) (element_at t.now.tree h) ≡ Some (shared was.now) }
    ensures can { IfOk result (λ can. can ≡ can_take_first (subtree_at t.now.tree h) (shared widget.now)) }
    ensures changes { result ≡ Ok true → changes.new.items ≡ changes.old.items ++ changes_first (subtree_at t.now.tree h) (shared widget.now) }
    ensures moves { result ≡ Ok true → moves.new.items ≡ moves.old.items ++ moves_first (subtree_at t.now.tree h) (shared widget.now) }
{
    Tree::<Element>::child_laws();
    if is_same(was, widget) {
        return Ok(true);
    }
    if !can_update(was, widget) || !draws_its_own(&was.kind) || !draws_its_own(&widget.kind) {
        return Ok(false);
    }
    let Some(at) = t.render(h) else {
        return Ok(false);
    };
    let Some(places) = places_among(alloc, was.children.get(), widget.children.get())? else {
        return Ok(false);
    };
    let order = order_of(&places)?;
    changes.push(Change {
        element: h,
        at,
        widget: Rc::clone(widget)?,
        order,
    })?;
    gather_below(
        alloc,
        t,
        h,
        was.children.get(),
        widget.children.get(),
        places.as_slice(),
        changes,
        moves,
    )
}

// Adds what changes below an element, where those at these places, which have these widgets, take other ones; `false` where they can't take them.
#[cycle(gathering)]
fn gather_below(
    alloc: Global,
    t: &ElementTree,
    h: Handle,
    had: &[Rc<Widget>],
    widgets: &[Rc<Widget>],
    places: &[usize],
    changes: &mut Vec<Change>,
    moves: &mut Vec<Moved>,
) -> Result<bool, AllocError>
    requires holds { Holds t.now.tree h }
    requires own { HaveTheirOwn (below (subtree_at t.now.tree h)) }
    requires had { widgets_in (below (subtree_at t.now.tree h)) ≡ map shared had.now }
    requires as_many { length had.now ≡ length (children_at t.now.tree h) }
    requires many { length places.now ≡ length widgets.now }
    requires within { All (λ j. j < length (children_at t.now.tree h)) places.now }
    ensures can { IfOk result (λ can. can ≡ all_asked (each_can_take (below (subtree_at t.now.tree h))) (map shared widgets.now) (map (λ j. Some j) places.now)) }
    ensures changes { result ≡ Ok true → changes.new.items ≡ changes.old.items
        ++ gathered (each_changing (below (subtree_at t.now.tree h))) 0 (map shared widgets.now) (map (λ j. Some j) places.now) }
    ensures moves { result ≡ Ok true → moves.new.items ≡ moves.old.items
        ++ gathered (each_moving 0 (below (subtree_at t.now.tree h))) 0 (map shared widgets.now) (map (λ j. Some j) places.now) }
{
    Tree::<Element>::child_laws();
    let children = t.children(h);
    for i in 0..widgets.len() {
        let place = places[i];
        let child = children[place];
        add_move(moves, child, place, i)?;
        if !gather_from(alloc, t, child, &had[place], &widgets[i], changes, moves)? {
            return Ok(false);
        }
    }
    Ok(true)
}

/// Adds the changes of an element that takes a widget, and what changes below it; `false` where they can't take it.
pub(crate) fn gather(
    alloc: Global,
    t: &ElementTree,
    h: Handle,
    widget: &Rc<Widget>,
    changes: &mut Vec<Change>,
    moves: &mut Vec<Moved>,
) -> Result<bool, AllocError>
    requires holds { Holds t.now.tree h }
    requires own { HaveTheirOwn (subtree_at t.now.tree h) }
    ensures can { IfOk result (λ can. can ≡ can_take_first (subtree_at t.now.tree h) (shared widget.now)) }
    ensures changes { result ≡ Ok true → changes.new.items ≡ changes.old.items ++ changes_first (subtree_at t.now.tree h) (shared widget.now) }
    ensures moves { result ≡ Ok true → moves.new.items ≡ moves.old.items ++ moves_first (subtree_at t.now.tree h) (shared widget.now) }
{
    let Some(was) = t.widget(h) else {
        return Ok(false);
    };
    gather_from(alloc, t, h, was, widget, changes, moves)
}
