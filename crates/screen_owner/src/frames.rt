// A frame: what a build made is brought into the tree, laid out, and painted.
ghost use Rattle.std.specs.Prelude.{◌≡◌, ◌+◌, ◌≤◌, true, false, Some, None, IsSome, List, [], option_map, OnOk, OnErr};
ghost use Rattle.std.specs.Result.{is_err};
ghost use Rattle.delegates.specs.Meaning.{Meaning};
ghost use Rattle.delegates.specs.Table.{Plug, meant_in};
ghost use Rattle.fx_geom.specs.declared.shapes.Size.{Size as SizeOf};
ghost use Rattle.fx_handles.specs.declared.Handle.{Handle as HandleOf};
ghost use Rattle.fx_handles.specs.Arena.{used_count, retired_count, inserted_count};
ghost use Rattle.node_tree.specs.Edits.{KeepsHandles};
ghost use Rattle.handle_shelf.specs.Shelf.{kept_at};
ghost use Rattle.node_tree.specs.Tree.{Tree, IsNode, IsTree};
ghost use Rattle.plain_tree.specs.Laid.{Laid};
ghost use Rattle.plain_tree.specs.Laws.{render_numbers_of, render_numbers_in, AllDiffer};
ghost use Rattle.plain_tree.specs.Offsets.{offset_at};
ghost use Rattle.plain_tree.specs.Render.{Render, count_of, no_renders, more_renders};
ghost use Rattle.screen_form.specs.Painted.{layer_of};
ghost use Rattle.layout_form.specs.Corrected.{corrected_render, renders_scrolled_by};
ghost use Rattle.layout_form.specs.Fits.{CanBeLaidOut};
ghost use Rattle.layout_form.specs.Layout.{lay_view};
ghost use Rattle.layout_form.specs.Object.{Setting, setting_of};
ghost use Rattle.layout_owner.specs.Roots.{Good, top_render};
ghost use Rattle.layout_rules.specs.Nodes.{layout_nodes};
ghost use Rattle.render_tree.specs.Object.{RenderObject};
ghost use Rattle.render_tree.specs.Plain.{renders_of, root_tree};
ghost use Rattle.render_readers.specs.Shown.{shown_laid};
ghost use Rattle.render_sync.specs.Numbering.{number_at};
ghost use Rattle.render_sync.specs.Renders.{AreScrolledSo};
ghost use Rattle.kept_layouts.specs.Here.{KeepsLayouts};
ghost use Rattle.paint_owner.specs.PaintOwner.{PaintOwner as PaintOwnerOf, IsKept};
ghost use Rattle.screen_owner.specs.Changes.{AreKindsSo};
ghost use Rattle.screen_owner.specs.Last.{GoOn};
ghost use Rattle.screen_owner.specs.Screen.{shown_in, layer_in, IsRight};
ghost use Rattle.screen_owner.specs.Standing.{IsScreenTree};
ghost use Rattle.screen_owner.specs.Steps.{Brings, FrameSteps, StepsOver, StepsInPlace, IsLaidIn};

use crate::owner::ScreenOwner;
use delegates::{Delegate, DelegateTable};
use fx_geom::Size;
use fx_handles::{Handle, SLOTS_MAX};
use fx_outside::Steps;
use kept_layouts::{commits_keep_layouts, paint_marks_keep_layouts};
use layout_form::proxies_pass_their_bounds_on;
use layout_rules::layouts_see_render_nodes;
use paint_owner::{PaintOwner, commits_keep_layers, listed_changes_keep_layers};
use plain_tree::RenderNode;
use render_sync::sync;
use render_tree::{RenderTree, render_marks_are_marks};
use std::alloc::{AllocError, Global};
use std::collections::BTreeMap;
use std::sync::ledger::Ledger;

// Brings the nodes to those of a build.
fn bring(
    alloc: Global,
    tree: &mut RenderTree,
    numbers: &mut BTreeMap<u64, Handle>,
    top: &RenderNode,
) -> Result<(), AllocError>
    requires stands { IsScreenTree numbers.old tree.old.tree }
    requires differ { AllDiffer (render_numbers_of top.now) }
    requires scrolled { AreScrolledSo tree.old.tree top.now }
    requires kinds { AreKindsSo tree.old.tree top.now }
    requires room { used_count tree.old.tree.nodes + retired_count tree.old.tree.nodes + count_of top.now ≤ SLOTS_MAX }
    ensures stands { OnOk result (IsScreenTree numbers.new tree.new.tree) }
    ensures tree { OnOk result (IsTree tree.new.tree) }
    ensures renders { OnOk result (renders_of (root_tree tree.new.tree) ≡ more_renders top.now no_renders) }
    ensures brings { OnOk result (Brings tree.old.tree tree.new.tree top.now) }
    ensures still { (view : SizeOf) → OnOk result (renders_of (root_tree tree.old.tree) ≡ more_renders top.now no_renders → IsLaidIn view tree.old.tree → IsLaidIn view tree.new.tree) }
    ensures same { OnOk result (renders_of (root_tree tree.old.tree) ≡ more_renders top.now no_renders → layout_nodes (root_tree tree.new.tree) ≡ layout_nodes (root_tree tree.old.tree)) }
    ensures layouts { (s : Setting) → OnOk result (KeepsLayouts s tree.old.tree → KeepsLayouts s tree.new.tree) }
    ensures layers { (cell : SizeOf) (delegates : List Plug) (o : PaintOwnerOf) → OnOk result (IsKept cell delegates o (root_tree tree.old.tree) → IsKept cell delegates o (root_tree tree.new.tree)) }
    ensures used { OnOk result (used_count tree.new.tree.nodes ≡ count_of top.now) }
    ensures made { OnOk result (inserted_count tree.new.tree.nodes ≤ inserted_count tree.old.tree.nodes + count_of top.now) }
    ensures scale { tree.new.scale ≡ tree.old.scale }
{
    commits_keep_layouts();
    paint_marks_keep_layouts();
    commits_keep_layers();
    render_marks_are_marks();
    // Tells the proof that this is a tree.
    let _ = tree.root();
    sync(alloc, tree, numbers, top)?;
    Ok(())
}

/// Lays out and paints what the nodes of a tree are now, in a view of this size, in u, and lets go what is kept of layers of nodes that
/// are gone. Each rule of a layout that is run counts as one step, and so does each painted node.
///
/// There is a root, no node is beside its tree, and what is kept of layouts and layers is right but for what is marked. The error is want
/// of memory.
pub fn draw<L: Ledger, P: Ledger>(
    alloc: Global,
    tree: &mut RenderTree,
    layers: &mut PaintOwner,
    view: Size,
    table: &DelegateTable,
    layouts: &mut Steps<L>,
    paints: &mut Steps<P>,
) -> Result<(), AllocError>
    requires root { IsSome tree.old.tree.root }
    requires alone { tree.old.tree.inactive ≡ [] }
    requires good { Good (setting_of tree.old.scale (meant_in table.now ⟦<dyn Delegate as Delegate>⟧)) (root_tree tree.old.tree) }
    requires kept { IsKept tree.old.scale.cell (meant_in table.now ⟦<dyn Delegate as Delegate>⟧) layers.old (root_tree tree.old.tree) }
    ensures shown { OnOk result (shown_laid tree.new.tree ≡ option_map
        (λ x. lay_view (setting_of tree.old.scale (meant_in table.now ⟦<dyn Delegate as Delegate>⟧)) x view) (top_render (renders_of (root_tree tree.old.tree)))) }
    ensures layer { OnOk result (layers.new.root
        ≡ option_map (layer_of tree.old.scale.cell (meant_in table.now ⟦<dyn Delegate as Delegate>⟧)) (shown_laid tree.new.tree)) }
    ensures renders { OnOk result ((l : Laid) → AllDiffer (render_numbers_in (renders_of (root_tree tree.old.tree))) → shown_laid tree.new.tree ≡ Some l
        → renders_of (root_tree tree.new.tree) ≡ renders_scrolled_by (λ n. offset_at n l) (renders_of (root_tree tree.old.tree))) }
    ensures layouts { OnOk result (KeepsLayouts (setting_of tree.old.scale (meant_in table.now ⟦<dyn Delegate as Delegate>⟧)) tree.new.tree) }
    ensures layers { OnOk result (IsKept tree.old.scale.cell (meant_in table.now ⟦<dyn Delegate as Delegate>⟧) layers.new (root_tree tree.new.tree)) }
    ensures dropped { OnOk result ((k : HandleOf) → (IsNode tree.new.tree k → ⊥) → (kept_at layers.new.parts k ≡ None) × (kept_at layers.new.wholes k ≡ None)) }
    ensures steps { OnOk result ((old : Tree RenderObject) (top : Render) → Brings old tree.old.tree top
        → FrameSteps (setting_of tree.old.scale (meant_in table.now ⟦<dyn Delegate as Delegate>⟧)) view old top tree.new.tree layouts.old layouts.new paints.old paints.new) }
    // The nodes are brought to those that are there.
    ensures over { OnOk result ((old : Tree RenderObject) (top : Render) → Brings old tree.old.tree top
        → StepsOver (setting_of tree.old.scale (meant_in table.now ⟦<dyn Delegate as Delegate>⟧)) view old tree.old.tree top tree.new.tree layouts.old layouts.new paints.old paints.new) }
    ensures still { OnOk result (IsLaidIn view tree.old.tree → layouts.new ≤ layouts.old) }
    ensures calm { OnOk result (IsLaidIn view tree.new.tree) }
    ensures numbers { OnOk result ((k : HandleOf) → number_at tree.new.tree k ≡ number_at tree.old.tree k) }
    ensures alone { OnOk result (tree.new.tree.inactive ≡ []) }
    ensures handles { OnOk result (KeepsHandles tree.old.tree.nodes tree.new.tree.nodes) }
    ensures scale { tree.new.scale ≡ tree.old.scale }
{
    listed_changes_keep_layers();
    layouts_see_render_nodes();
    proxies_pass_their_bounds_on();
    // Each of these tells the proof that this is a tree.
    let _ = tree.root();
    layout_owner::flush(alloc, tree, view, table, layouts)?;
    let _ = tree.root();
    layers.flush(tree, table, paints)?;
    layers.drop_dead(tree);
    Ok(())
}

impl ScreenOwner {
    /// Shows a build in a view of this size, in u: its render nodes are laid out and painted, of both only what is marked or changed. Each
    /// rule of a layout that is run counts as one step, and so does each painted node.
    ///
    /// The delegates mean what they meant when they were last marked, its numbers differ, and each render node goes on from the one of the
    /// last frame that had its number: it is scrolled as that one, and is a RepaintBoundary where that one is; others aren't scrolled. What
    /// is kept of nodes that are gone is let go. The error is want of memory, which a spent screen always answers; after it the screen is
    /// spent.
    pub fn show<L: Ledger, P: Ledger>(
        &mut self,
        top: &RenderNode,
        view: Size,
        table: &DelegateTable,
        layouts: &mut Steps<L>,
        paints: &mut Steps<P>,
    ) -> Result<(), AllocError>
        requires right { self.old.spent ≡ false → IsRight (meant_in table.now ⟦<dyn Delegate as Delegate>⟧) self.old }
        requires differ { AllDiffer (render_numbers_of top.now) }
        requires goes_on { self.old.spent ≡ false → GoOn (renders_of (root_tree self.old.nodes)) top.now }
        requires fits { CanBeLaidOut top.now }
        requires room { self.old.spent ≡ false → used_count self.old.nodes.nodes + retired_count self.old.nodes.nodes + count_of top.now ≤ SLOTS_MAX }
        // What is shown is full layout and full painting of the build.
        ensures shown { OnOk result (shown_in self.new ≡ Some (lay_view (setting_of self.old.scale (meant_in table.now ⟦<dyn Delegate as Delegate>⟧)) top.now view)) }
        ensures layer { OnOk result (layer_in self.new ≡ Some (layer_of self.old.scale.cell (meant_in table.now ⟦<dyn Delegate as Delegate>⟧)
            (lay_view (setting_of self.old.scale (meant_in table.now ⟦<dyn Delegate as Delegate>⟧)) top.now view))) }
        ensures right { OnOk result (IsRight (meant_in table.now ⟦<dyn Delegate as Delegate>⟧) self.new) }
        // The nodes are those of the build, and Viewports stand where the layout left them.
        ensures nodes { OnOk result (renders_of (root_tree self.new.nodes)
            ≡ more_renders (corrected_render (lay_view (setting_of self.old.scale (meant_in table.now ⟦<dyn Delegate as Delegate>⟧)) top.now view) top.now) no_renders) }
        // What is kept of layers is of nodes that are there.
        ensures dropped { OnOk result ((k : HandleOf) → (IsNode self.new.nodes k → ⊥)
            → (kept_at self.new.layers.parts k ≡ None) × (kept_at self.new.layers.wholes k ≡ None)) }
        ensures steps { OnOk result (FrameSteps (setting_of self.old.scale (meant_in table.now ⟦<dyn Delegate as Delegate>⟧)) view
            self.old.nodes top.now self.new.nodes layouts.old layouts.new paints.old paints.new) }
        // Where the build gives the render nodes that are there, a layout finds them as they were.
        ensures in_place { OnOk result (self.old.spent ≡ false → renders_of (root_tree self.old.nodes) ≡ more_renders top.now no_renders
            → StepsInPlace (setting_of self.old.scale (meant_in table.now ⟦<dyn Delegate as Delegate>⟧)) view
            self.old.nodes top.now self.new.nodes layouts.old layouts.new paints.old paints.new) }
        // Where the build gives the render nodes that are there, and nothing was marked since the last frame, which had this view, no layout
        // is counted.
        ensures calm { OnOk result (IsLaidIn view self.new.nodes) }
        ensures still { OnOk result (self.old.spent ≡ false → IsLaidIn view self.old.nodes
            → renders_of (root_tree self.old.nodes) ≡ more_renders top.now no_renders → layouts.new ≤ layouts.old) }
        ensures used { OnOk result (used_count self.new.nodes.nodes ≡ count_of top.now) }
        ensures made { OnOk result (inserted_count self.new.nodes.nodes ≤ inserted_count self.old.nodes.nodes + count_of top.now) }
        ensures scale { self.new.scale ≡ self.old.scale }
        ensures spent { OnErr result (self.new.spent ≡ true) }
        ensures ready { OnOk result (self.new.spent ≡ false) }
        ensures refused { self.old.spent ≡ true → is_err result ≡ true }
    {
        if self.spent {
            return Err(AllocError);
        }
        // Tells the proof that this is a tree.
        let _ = self.tree.root();
        self.spent = true;
        bring(self.alloc, &mut self.tree, &mut self.numbers, top)?;
        draw(
            self.alloc,
            &mut self.tree,
            &mut self.layers,
            view,
            table,
            layouts,
            paints,
        )?;
        self.spent = false;
        Ok(())
    }
}
