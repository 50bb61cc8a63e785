// The lazy lists that are laid out, and their live ranges.
ghost use Rattle.std.specs.Prelude.{◌≡◌, ◌++◌, Some, IsSome, true, OnOk, OnErr};
ghost use Rattle.node_tree.specs.Forest.{below};
ghost use Rattle.node_tree.specs.Tree.{Holds, subtree_at};
ghost use Rattle.render_tree.specs.Object.{RenderObject as RenderObjectOf};
ghost use Rattle.render_tree.specs.Edits.{Changes};
ghost use Rattle.render_tree.specs.Plain.{root_tree};
ghost use Rattle.render_tree.specs.Tree.{object_at};
ghost use Rattle.widget_model.specs.View.{look_in};
ghost use Rattle.layout_walk.specs.Rules.{lazy_extent};
ghost use Rattle.layout_owner.specs.Ranges.{range_in, range_of, ranged_one, ranged, lists_items, lists_in_window, OnlyValues};

use fx_handles::Handle;
use node_tree::Tree;
use render_tree::{RenderObject, RenderTree};
use sliver_layout::{SliverBounds, Window, live};
use std::alloc::{AllocError, Global};
use widget_model::Kind;

// The extent of the items of a lazy list; any other kind has none.
fn list_extent(kind: &Kind) -> Option<u64>
    ensures { result ≡ lazy_extent (look_in kind.now) }
{
    match kind {
        Kind::SliverLazy { extent } => Some(*extent),
        _ => None,
    }
}

// The live range of a list of so many children of one extent that was laid out in a view.
fn range_in(view: Option<SliverBounds>, extent: u64, count: u64, widen: u64) -> Window
    ensures { result ≡ range_in view extent count widen }
{
    if extent == 0 {
        return Window { first: 0, end: 0 };
    }
    match view {
        None => Window { first: 0, end: 0 },
        Some(view) => live(view, extent, count, widen),
    }
}

// Whether a node is a lazy list.
fn is_list(r: &RenderTree, h: Handle) -> bool
    ensures { (o : RenderObjectOf) → object_at r.now.tree h ≡ Some o → result ≡ lists_items o }
{
    match r.widget(h) {
        None => false,
        Some(widget) => list_extent(&widget.kind).is_some(),
    }
}

// The live range of a lazy list, by its last layout.
fn range_of(r: &RenderTree, h: Handle) -> Option<Window>
    ensures { (o : RenderObjectOf) → object_at r.now.tree h ≡ Some o → result ≡ range_of r.now.scale.widen o }
{
    let widget = r.widget(h)?;
    let extent = list_extent(&widget.kind)?;
    let count = widget.children.get().len() as u64;
    Some(range_in(r.sliver(h), extent, count, r.scale().widen))
}

// The lists in the window below a node, after those that were found.
#[cycle(listing)]
fn list_below(r: &RenderTree, h: Handle, lists: &mut Vec<Handle>) -> Result<(), AllocError>
    requires { Holds r.now.tree h }
    ensures { OnOk result (lists.new.items ≡ lists.old.items ++ lists_in_window (below (subtree_at r.now.tree h))) }
{
    Tree::<RenderObject>::child_laws();
    let children = r.children(h);
    for child in children {
        list_at(r, *child, lists)?;
    }
    Ok(())
}

// The lists in the window at and below a node, after those that were found.
#[cycle(listing)]
fn list_at(r: &RenderTree, h: Handle, lists: &mut Vec<Handle>) -> Result<(), AllocError>
    requires { Holds r.now.tree h }
    ensures { OnOk result (lists.new.items ≡ lists.old.items ++ lists_in_window (subtree_at r.now.tree h)) }
{
    Tree::<RenderObject>::child_laws();
    if !r.shown(h) {
        return Ok(());
    }
    if is_list(r, h) {
        lists.push(h)?;
        return Ok(());
    }
    list_below(r, h, lists)
}

// Stores the live range of a list.
fn set_range(r: &mut RenderTree, h: Handle)
    ensures sets { Changes r.old.tree r.new.tree h (ranged_one r.old.scale.widen) }
    ensures scale { r.new.scale ≡ r.old.scale }
    ensures spent { r.new.spent ≡ r.old.spent }
{
    if let Some(range) = range_of(r, h) {
        r.set_live(h, range);
    }
}

// Stores the live ranges of these lists.
fn set_ranges(r: &mut RenderTree, lists: &[Handle])
    ensures only { OnlyValues (ranged r.old.scale.widen lists.now) r.old.tree r.new.tree }
    ensures scale { r.new.scale ≡ r.old.scale }
    ensures spent { r.new.spent ≡ r.old.spent }
{
    for h in lists {
        set_range(r, *h);
    }
}

// Finds the lists in the window, and stores the live range of each.
pub(crate) fn store_ranges(alloc: Global, r: &mut RenderTree) -> Result<(), AllocError>
    requires { IsSome r.old.tree.root }
    ensures only { OnOk result (OnlyValues (ranged r.old.scale.widen (lists_in_window (root_tree r.old.tree))) r.old.tree r.new.tree) }
    ensures err { OnErr result (r.new.spent ≡ true) }
    ensures scale { r.new.scale ≡ r.old.scale }
    ensures spent { OnOk result (r.new.spent ≡ r.old.spent) }
{
    let Some(root) = r.root() else { unreachable!() };
    let mut lists = Vec::new(alloc);
    match list_at(r, root, &mut lists) {
        Ok(()) => {
            set_ranges(r, lists.as_slice());
            Ok(())
        }
        Err(e) => {
            r.spend();
            Err(e)
        }
    }
}
