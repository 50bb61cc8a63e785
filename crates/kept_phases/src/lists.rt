// The lazy lists of a build's first phase are laid out, so that they have their live ranges.
ghost use Rattle.std.specs.Prelude.{◌≡◌, ◌≤◌, ◌+◌, ◌++◌, ◌∷◌, [], ℕ, true, false, Some, None, IsSome, List, option_map, map, IfSome, OnOk, OnErr};
ghost use Rattle.std.specs.Result.{is_err};
ghost use Rattle.fx_geom.specs.declared.shapes.Size.{Size as SizeOf};
ghost use Rattle.fx_handles.specs.declared.Handle.{Handle as HandleOf};
ghost use Rattle.delegates.specs.Table.{Plug, meant_in};
ghost use Rattle.node_tree.specs.Forest.{below};
ghost use Rattle.node_tree.specs.Tree.{Holds, subtree_at, IsTree};
ghost use Rattle.plain_tree.specs.Render.{Render, no_renders, more_renders};
ghost use Rattle.layout_form.specs.Object.{Setting, setting_of};
ghost use Rattle.layout_walk.specs.Flush.{ticks};
ghost use Rattle.layout_walk.specs.Rules.{parts_of};
ghost use Rattle.layout_walk.specs.Work.{due_count};
ghost use Rattle.layout_owner.specs.Roots.{Good, rooted, view_asks, IsAskedAs};
ghost use Rattle.layout_owner.specs.Views.{NumbersTell};
ghost use Rattle.render_tree.specs.Object.{RenderObject as RenderObjectOf};
ghost use Rattle.render_tree.specs.Plain.{renders_of, root_tree};
ghost use Rattle.kept_layouts.specs.Here.{KeepsLayouts};
ghost use Rattle.kept_layouts.specs.Items.{ListsUnasked};
ghost use Rattle.paint_owner.specs.PaintOwner.{PaintOwner as PaintOwnerOf};
ghost use Rattle.kept_phases.specs.Layers.{KeepsLayers};
ghost use Rattle.kept_phases.specs.Lists.{viewports, ButOffsets, Pending, AreWanted, PutsBack, StaysBuilt, HasRanges, FlushesLists};

use crate::laws::{outer_layouts_keep_all, scrolls_keep_layers};
use delegates::{Delegate, DelegateTable};
use fx_geom::Size;
use fx_handles::Handle;
use fx_outside::Steps;
use kept_layouts::scrolls_keep_layouts;
use layout_owner::{flush_outer, items_have_no_part_in_live_ranges};
use node_tree::Tree;
use render_tree::{RenderObject, RenderTree, render_marks_are_marks};
use std::alloc::{AllocError, Global};
use std::sync::ledger::Ledger;

// The Viewports below a node, after those that were found.
#[cycle(offsets)]
fn offsets_below(
    r: &RenderTree,
    h: Handle,
    offsets: &mut Vec<(Handle, u64)>,
) -> Result<(), AllocError>
    requires { Holds r.now.tree h }
    ensures { OnOk result (offsets.new.items ≡ offsets.old.items ++ viewports (below (subtree_at r.now.tree h))) }
{
    Tree::<RenderObject>::child_laws();
    let children = r.children(h);
    for child in children {
        offsets_at(r, *child, offsets)?;
    }
    Ok(())
}

// The Viewports at and below a node, after those that were found.
#[cycle(offsets)]
fn offsets_at(r: &RenderTree, h: Handle, offsets: &mut Vec<(Handle, u64)>) -> Result<(), AllocError>
    requires { Holds r.now.tree h }
    ensures { OnOk result (offsets.new.items ≡ offsets.old.items ++ viewports (subtree_at r.now.tree h)) }
{
    Tree::<RenderObject>::child_laws();
    match r.scroll(h) {
        Some(scroll) => {
            offsets.push((h, scroll))?;
            offsets_below(r, h, offsets)
        }
        None => offsets_below(r, h, offsets),
    }
}

// A Viewport is scrolled as it was.
fn put_back(r: &mut RenderTree, h: Handle, scroll: u64)
    ensures others { ButOffsets r.old.tree r.new.tree }
    ensures puts { (wanted : HandleOf → ℕ) → wanted h ≡ scroll → PutsBack wanted r.old.tree r.new.tree }
    ensures pending { (wanted : HandleOf → ℕ) (hs : List HandleOf) → wanted h ≡ scroll → Pending wanted (h ∷ hs) r.old.tree → Pending wanted hs r.new.tree }
    ensures layouts { (s : Setting) → KeepsLayouts s r.old.tree → KeepsLayouts s r.new.tree }
    ensures layers { (cell : SizeOf) (delegates : List Plug) (o : PaintOwnerOf) → KeepsLayers cell delegates o r.old.tree → KeepsLayers cell delegates o r.new.tree }
    ensures scale { r.new.scale ≡ r.old.scale }
    ensures spent { r.new.spent ≡ r.old.spent }
{
    scrolls_keep_layouts();
    scrolls_keep_layers();
    render_marks_are_marks();
    // Tells the proof that this is a tree.
    let _ = r.root();
    let Some(now) = r.scroll(h) else {
        return;
    };
    if now == scroll {
        return;
    }
    r.set_scroll(h, scroll);
    let changed = [h];
    r.mark_layouts(&changed);
}

// Each Viewport is scrolled as it was.
fn put_all_back(r: &mut RenderTree, offsets: &[(Handle, u64)])
    ensures others { ButOffsets r.old.tree r.new.tree }
    ensures puts { (wanted : HandleOf → ℕ) → AreWanted wanted offsets.now → PutsBack wanted r.old.tree r.new.tree }
    ensures done { (wanted : HandleOf → ℕ) → AreWanted wanted offsets.now → Pending wanted (map (λ p. p.0) offsets.now) r.old.tree → Pending wanted [] r.new.tree }
    ensures layouts { (s : Setting) → KeepsLayouts s r.old.tree → KeepsLayouts s r.new.tree }
    ensures layers { (cell : SizeOf) (delegates : List Plug) (o : PaintOwnerOf) → KeepsLayers cell delegates o r.old.tree → KeepsLayers cell delegates o r.new.tree }
    ensures scale { r.new.scale ≡ r.old.scale }
    ensures spent { r.new.spent ≡ r.old.spent }
{
    render_marks_are_marks();
    for (h, scroll) in offsets {
        put_back(r, *h, *scroll);
    }
}

/// Lays out the root of a tree in the bounds of the view, in u, as `flush_outer` of `layout_owner` does, so that each lazy list in the
/// window has its live range; but each Viewport stays scrolled as it is, and is marked where that corrects it. So the tree is still the
/// one that was built. The error is want of memory, which a spent tree always answers; after it the tree is spent.
pub fn flush_lists<L: Ledger>(
    alloc: Global,
    r: &mut RenderTree,
    view: Size,
    table: &DelegateTable,
    layouts: &mut Steps<L>,
) -> Result<(), AllocError>
    requires root { IsSome r.old.tree.root }
    requires good { Good (setting_of r.old.scale (meant_in table.now ⟦<dyn Delegate as Delegate>⟧)) (root_tree r.old.tree) }
    // Every node is there, with its number and its widget, and scrolled as it was; none is made.
    ensures built { OnOk result (StaysBuilt r.old.tree r.new.tree) }
    // What isn't due is left alone, and the Viewports that are laid out and corrected are marked.
    ensures flushes { OnOk result (FlushesLists (setting_of r.old.scale (meant_in table.now ⟦<dyn Delegate as Delegate>⟧)) view r.old.tree r.new.tree) }
    // Each list has the live range that full layout of the tree without items gives to its number.
    ensures ranges { OnOk result ((top : Render) → renders_of (root_tree r.old.tree) ≡ more_renders top no_renders → NumbersTell r.old.tree → ListsUnasked false top
        → HasRanges (setting_of r.old.scale (meant_in table.now ⟦<dyn Delegate as Delegate>⟧)) r.old.scale.widen view top r.new.tree) }
    // What is kept of layouts and layers is right, also of nodes beside the root's tree.
    ensures layouts { OnOk result (KeepsLayouts (setting_of r.old.scale (meant_in table.now ⟦<dyn Delegate as Delegate>⟧)) r.old.tree
        → KeepsLayouts (setting_of r.old.scale (meant_in table.now ⟦<dyn Delegate as Delegate>⟧)) r.new.tree) }
    ensures layers { (cell : SizeOf) (delegates : List Plug) (o : PaintOwnerOf) → OnOk result (KeepsLayers cell delegates o r.old.tree → KeepsLayers cell delegates o r.new.tree) }
    // The steps are at most the rules that such a layout runs where a node is flagged or asked in other bounds, and so at most the nodes
    // that are due.
    ensures ticks { OnOk result (layouts.new ≤ layouts.old
        + ticks (parts_of (setting_of r.old.scale (meant_in table.now ⟦<dyn Delegate as Delegate>⟧))) true (view_asks view) (rooted (root_tree r.old.tree))) }
    ensures due { OnOk result (IsAskedAs view (root_tree r.old.tree) → layouts.new ≤ layouts.old + due_count (rooted (root_tree r.old.tree))) }
    ensures scale { r.new.scale ≡ r.old.scale }
    ensures spent { OnErr result (r.new.spent ≡ true) }
    ensures ready { OnOk result (r.new.spent ≡ false) }
    ensures refused { r.old.spent ≡ true → is_err result ≡ true }
{
    items_have_no_part_in_live_ranges();
    outer_layouts_keep_all();
    let Some(root) = r.root() else { unreachable!() };
    let mut offsets = Vec::new(alloc);
    match offsets_at(r, root, &mut offsets) {
        Ok(()) => {}
        Err(error) => {
            r.spend();
            return Err(error);
        }
    }
    flush_outer(alloc, r, view, table, layouts)?;
    // Each of these tells the proof that this is a tree.
    let _ = r.root();
    put_all_back(r, offsets.as_slice());
    let _ = r.root();
    Ok(())
}
