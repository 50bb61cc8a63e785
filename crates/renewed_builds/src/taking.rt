// What is below a component takes the widgets that its body gave, each element where it is matched (`Element.update`, `updateChildren`).
ghost use Rattle.std.specs.Prelude.{◌≡◌, ◌<◌, ◌∷◌, [], true, false, None, Ok, map, length, option_copied, IfOk, OnOk, IfSome};
ghost use Rattle.std.specs.List.{All};
ghost use Rattle.fx_handles.specs.declared.Handle.{Handle as AnyHandle};
ghost use Rattle.fx_handles.specs.Handle.{AreDistinct};
ghost use Rattle.node_tree.specs.Edits.{KeepsHandles};
ghost use Rattle.node_tree.specs.Forest.{Forest, below};
ghost use Rattle.node_tree.specs.Tree.{Is, IsNode, subtree_at};
ghost use Rattle.widget_model.specs.View.{shared};
ghost use Rattle.element_tree.specs.Element.{Element as ElementOf, number_at};
ghost use Rattle.global_keys.specs.Holders.{Registry as RegistryOf};
ghost use Rattle.global_keys.specs.Named.{NamesExactly};
ghost use Rattle.renewed_builds.specs.Renewing.{can_take_at, changes_at, taken_at};
ghost use Rattle.renewed_builds.specs.Taking.{CanOrder, FollowsChange, HaveTheirOwn, OrdersAll, StandInTurn, WritesAll, after_changes, after_moves, handles_at};

use crate::gathering::gather;
use element_tree::{Element, ElementTree, edits_keep_numbers};
use fx_handles::Handle;
use global_keys::edits_keep_names;
use node_tree::Tree;
use std::alloc::{AllocError, Global};
use std::marker::Model;
use std::rc::Rc;
use widget_model::Widget;

/// An element that takes a widget in its place, and its render node, which is to take it too.
#[derive(Drop)]
pub struct Change {
    pub(crate) element: Handle,
    pub(crate) at: Handle,
    pub(crate) widget: Rc<Widget>,
    pub(crate) order: Option<Vec<usize>>,
}

impl Model for Change {
    ghost use Rattle.std.specs.Prelude.{option_map};
    ghost use Rattle.widget_model.specs.View.{shared};
    ghost use Rattle.renewed_builds.specs.Renewing.{Change as ChangeOf, change_code};

    ghost Value = { ChangeOf };

    ghost coded = { change_code };

    ghost view = { λ c. record { element = c.element; at = c.at; widget = shared c.widget; order = option_map (λ v. v.items) c.order } };
}

impl Change {
    /// The render node.
    pub fn at(&self) -> Handle
        ensures { result ≡ self.now.at }
    {
        self.at
    }

    /// The widget that it takes.
    pub fn widget(&self) -> &Rc<Widget>
        ensures { shared result.now ≡ self.now.widget }
    {
        &self.widget
    }

    /// The old places of its children, in their new order, where that is another one.
    pub fn order(&self) -> Option<&[usize]>
        ensures { option_copied result ≡ self.now.order }
    {
        let places = self.order.as_ref()?;
        Some(places.as_slice())
    }
}

// An element that stands at another place now.
#[derive(Clone, Copy)]
pub(crate) struct Moved {
    pub(crate) element: Handle,
    pub(crate) place: u64,
}

/// Each element of some changes takes its widget.
pub(crate) fn write_changes(t: &mut ElementTree, changes: &[Change]) -> Result<(), AllocError>
    requires { All (FollowsChange t.old.tree) changes.now }
    ensures { OnOk result (WritesAll (after_changes changes.now) t.old.tree t.new.tree) }
{
    edits_keep_names();
    for change in changes {
        t.update(change.element, Rc::clone(&change.widget)?);
    }
    Ok(())
}

// Each element that moved is told its place.
fn write_places(t: &mut ElementTree, moves: &[Moved])
    ensures { WritesAll (after_moves moves.now) t.old.tree t.new.tree }
{
    edits_keep_names();
    for moved in moves {
        t.set_place(moved.element, moved.place);
    }
}

// The handles at some places.
fn handles_at(
    alloc: Global,
    handles: &[Handle],
    places: &[usize],
) -> Result<Vec<Handle>, AllocError>
    requires { All (λ i. i < length handles.now) places.now }
    ensures { IfOk result (λ hs. hs.items ≡ handles_at handles.now places.now) }
{
    let mut all = Vec::with_capacity(alloc, places.len())?;
    for place in places {
        all.push(handles[*place])?;
    }
    Ok(all)
}

// The children of each element of some changes come into their order.
fn write_orders(alloc: Global, t: &mut ElementTree, changes: &[Change]) -> Result<(), AllocError>
    requires orders { All (CanOrder t.old.tree) changes.now }
    requires differ { AreDistinct (map (λ c. c.element) changes.now) }
    ensures { OnOk result (OrdersAll changes.now t.old.tree t.new.tree) }
{
    edits_keep_names();
    edits_keep_numbers();
    Tree::<Element>::edit_laws();
    Tree::<Element>::order_laws();
    for change in changes {
        if let Some(places) = &change.order {
            let children = handles_at(alloc, t.children(change.element), places.as_slice())?;
            t.reorder(change.element, children);
        }
    }
    Ok(())
}

/// What is below an element takes this widget, where it can: then these are the changes. Where it can't nothing has changed. It goes over the
/// elements alone that take other widgets than they had, and those right below them.
pub(crate) fn take_below(
    alloc: Global,
    t: &mut ElementTree,
    h: Handle,
    given: &Rc<Widget>,
) -> Result<Option<Vec<Change>>, AllocError>
    requires live { IsNode t.old.tree h }
    requires own { HaveTheirOwn (below (subtree_at t.old.tree h)) }
    requires order { StandInTurn 0 (below (subtree_at t.old.tree h)) }
    ensures taken { IfOk result (λ o. IfSome o (λ cs. (f : Forest ElementOf) → Is t.old.tree f
        → (can_take_at h (shared given.now ∷ []) f ≡ true) × (cs.items ≡ changes_at h (shared given.now ∷ []) f) × Is t.new.tree (taken_at h (shared given.now ∷ []) f))) }
    ensures refused { result ≡ Ok None → (t.new ≡ t.old) × ((f : Forest ElementOf) → Is t.old.tree f → can_take_at h (shared given.now ∷ []) f ≡ false) }
    ensures root { OnOk result (t.new.tree.root ≡ t.old.tree.root) }
    ensures handles { OnOk result (KeepsHandles t.old.tree.nodes t.new.tree.nodes) }
    ensures numbers { OnOk result ((k : AnyHandle) → number_at t.new.tree k ≡ number_at t.old.tree k) }
    ensures names { OnOk result ((g : RegistryOf) → NamesExactly g t.old.tree → NamesExactly g t.new.tree) }
{
    Tree::<Element>::walk_laws();
    Tree::<Element>::keep_laws();
    Tree::<Element>::child_laws();
    Tree::<Element>::order_laws();
    // Tells the proof that this is a tree.
    let _ = t.root();
    let children = t.children(h);
    if children.len() != 1 {
        return Ok(None);
    }
    let child = children[0];
    let mut changes = Vec::new(alloc);
    let mut moves = Vec::new(alloc);
    if !gather(alloc, t, child, given, &mut changes, &mut moves)? {
        return Ok(None);
    }
    write_changes(t, changes.as_slice())?;
    write_places(t, moves.as_slice());
    write_orders(alloc, t, changes.as_slice())?;
    Ok(Some(changes))
}
