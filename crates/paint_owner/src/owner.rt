// The layers that are kept from one frame to the next.
ghost use Rattle.std.specs.Prelude.{◌≡◌, ◌+◌, List, map, option_map, option_copied, not, ◌||◌, Some, None, true, false, IfOk, OnOk, OnErr, if◌then◌else◌};
ghost use Rattle.std.specs.Result.{is_err};
ghost use Rattle.fx_geom.specs.declared.shapes.Size.{Size as Cell};
ghost use Rattle.delegates.specs.Table.{Plug, entries_of, meant_in};
ghost use Rattle.handle_shelf.specs.Shelf.{kept_at};
ghost use Rattle.node_tree.specs.Forest.{In};
ghost use Rattle.node_tree.specs.Tree.{IsNode, Holds, subtree_at};
ghost use Rattle.render_tree.specs.Plain.{laid_of, root_tree};
ghost use Rattle.render_tree.specs.Readings.{needs_paint_of, paint_below_of};
ghost use Rattle.render_tree.specs.Tree.{object_at};
ghost use Rattle.screen_form.specs.Painted.{layer_of};
ghost use Rattle.kept_layers.specs.Done.{AgreesAt};
ghost use Rattle.kept_layers.specs.KeptLayers.{IsMarked, filled, or_nil};
ghost use Rattle.kept_layers.specs.Steps.{is_nil, stale, redo_all, painted_count, counted};
ghost use Rattle.kept_layers.specs.Top.{root_parts};
ghost use Rattle.paint_owner.specs.PaintOwner.{kept_of, frame_layer, IsKept};
ghost use Rattle.paint_owner.specs.Settled.{IsRootShown, IsPaintedCalm, Settles};
ghost use Rattle.paint_owner.specs.Finding.{told, cost, root_flag, root_count, flagged, quiet};

use crate::boundary_shelf::BoundaryShelf;
use crate::finding::{DueNodes, find};
use crate::kept_parts::KeptGroup;
use crate::redoing::{redo_all, root_parts, stored};
use crate::settling::{clear_flags, clear_marks};
use delegates::{Delegate, DelegateTable};
use fx_geom::Offset;
use fx_handles::Handle;
use fx_outside::Steps;
use layer_tree::{ItemList, Layer, LayerKind};
use node_tree::Tree;
use render_tree::{RenderObject, RenderTree};
use std::alloc::{AllocError, Global};
use std::marker::Model;
use std::sync::ledger::Ledger;

/// What is kept of the layers of the last frame (`PipelineOwner`).
#[derive(Drop)]
pub struct PaintOwner {
    // The root's own parts.
    top: Option<KeptGroup>,
    // Of each boundary the parts of its group, and the items of its layer.
    parts: BoundaryShelf<KeptGroup>,
    wholes: BoundaryShelf<ItemList>,
    root: Option<Layer>,
    spent: bool,
    alloc: Global,
}

impl Model for PaintOwner {
    ghost use Rattle.paint_owner.specs.PaintOwner.{PaintOwner as PaintOwnerOf, paint_owner_code};

    ghost Value = { PaintOwnerOf };

    ghost coded = { paint_owner_code };

    ghost view = { λ o. record { top = o.top; parts = o.parts; wholes = o.wholes; root = o.root; spent = o.spent } };
}

// Whether a node is flagged, or something below it may be.
fn is_due(tree: &RenderTree, h: Handle) -> bool
    ensures { result ≡ (needs_paint_of (object_at tree.now.tree h) || paint_below_of (object_at tree.now.tree h)) }
{
    tree.needs_paint(h) || tree.paint_below(h)
}

// The layer of a frame with these items.
fn frame_layer(items: ItemList) -> Layer
    ensures { result ≡ frame_layer items }
{
    Layer {
        kind: LayerKind::Offset(Offset::ZERO),
        items,
    }
}

// The items of the root's own parts, which are kept.
fn top_items(
    alloc: Global,
    top: &Option<KeptGroup>,
    wholes: &BoundaryShelf<ItemList>,
) -> Result<ItemList, AllocError>
    ensures { IfOk result (λ l. l ≡ filled (kept_at wholes.now) (or_nil top.now)) }
{
    match top {
        Some(kept) => kept.items(alloc, wholes),
        None => ItemList::of(alloc, Vec::new(alloc)),
    }
}

impl PaintOwner {
    /// One that keeps nothing, over this allocator.
    pub fn new(alloc: Global) -> PaintOwner
        ensures root { result.root ≡ None }
        ensures top { result.top ≡ None }
        ensures boundaries { (k : Handle) → (kept_at result.parts k ≡ None) × (kept_at result.wholes k ≡ None) }
        ensures spent { result.spent ≡ false }
    {
        PaintOwner {
            top: None,
            parts: BoundaryShelf::new(alloc),
            wholes: BoundaryShelf::new(alloc),
            root: None,
            spent: false,
            alloc,
        }
    }

    /// The layer of the last frame; `None` exactly before the first flush.
    pub fn root(&self) -> Option<&Layer>
        ensures { option_copied result ≡ self.now.root }
    {
        self.root.as_ref()
    }

    // The root's own parts, and the layer of the frame: the parts are painted anew where the root is flagged, and the layer is put
    // together anew there and where a boundary was stale.
    fn renew_root<L: Ledger>(
        &mut self,
        tree: &RenderTree,
        root: Handle,
        stale: bool,
        table: &DelegateTable,
        paints: &mut Steps<L>,
    ) -> Result<(), AllocError>
        requires holds { Holds tree.now.tree root }
        requires shown { IsRootShown (subtree_at tree.now.tree root) }
        ensures top { OnOk result (self.new.top ≡ (if root_flag (subtree_at tree.now.tree root)
            then Some (root_parts tree.now.scale.cell (meant_in table.now ⟦<dyn Delegate as Delegate>⟧) (subtree_at tree.now.tree root)) else self.old.top)) }
        ensures root { OnOk result (self.new.root ≡ (if root_flag (subtree_at tree.now.tree root) || stale
            then Some (frame_layer (filled (kept_at self.old.wholes) (or_nil self.new.top))) else self.old.root)) }
        ensures parts { self.new.parts ≡ self.old.parts }
        ensures wholes { self.new.wholes ≡ self.old.wholes }
        ensures spent { self.new.spent ≡ self.old.spent }
        ensures paints { OnOk result (paints.new ≡ paints.old
            + (if root_flag (subtree_at tree.now.tree root) then root_count (subtree_at tree.now.tree root) else 0)) }
        ensures err { OnErr result (self.new.root ≡ self.old.root) }
    {
        Tree::<RenderObject>::child_laws();
        if tree.needs_paint(root) {
            let parts = root_parts(self.alloc, tree, root, table, paints)?;
            let (kept, items) = stored(self.alloc, parts, &self.wholes)?;
            self.top = Some(kept);
            self.root = Some(frame_layer(items));
            return Ok(());
        }
        if !stale {
            return Ok(());
        }
        let items = top_items(self.alloc, &self.top, &self.wholes)?;
        self.root = Some(frame_layer(items));
        Ok(())
    }

    // Paints what is due, and leaves the tree as it is: what is found there is given back.
    fn paint_due<L: Ledger>(
        &mut self,
        tree: &RenderTree,
        root: Handle,
        table: &DelegateTable,
        paints: &mut Steps<L>,
    ) -> Result<DueNodes, AllocError>
        requires holds { Holds tree.now.tree root }
        requires shown { IsRootShown (subtree_at tree.now.tree root) }
        requires marked { IsMarked (subtree_at tree.now.tree root) }
        ensures flagged { IfOk result (λ f. f.flagged.items ≡ flagged (subtree_at tree.now.tree root)) }
        ensures quiet { IfOk result (λ f. f.quiet.items ≡ quiet (subtree_at tree.now.tree root)) }
        ensures kept { OnOk result (kept_of self.new ≡ redo_all (told tree.now.scale.cell (meant_in table.now ⟦<dyn Delegate as Delegate>⟧) tree.now.tree)
            (stale (subtree_at tree.now.tree root)) (kept_of self.old)) }
        ensures top { OnOk result (self.new.top ≡ (if root_flag (subtree_at tree.now.tree root)
            then Some (root_parts tree.now.scale.cell (meant_in table.now ⟦<dyn Delegate as Delegate>⟧) (subtree_at tree.now.tree root)) else self.old.top)) }
        ensures root { OnOk result (self.new.root ≡ (if root_flag (subtree_at tree.now.tree root) || not (is_nil (stale (subtree_at tree.now.tree root)))
            then Some (frame_layer (filled (kept_at self.new.wholes) (or_nil self.new.top))) else self.old.root)) }
        ensures spent { self.new.spent ≡ self.old.spent }
        ensures paints { OnOk result (paints.new ≡ paints.old + counted (cost tree.now.tree) (stale (subtree_at tree.now.tree root))
            + (if root_flag (subtree_at tree.now.tree root) then root_count (subtree_at tree.now.tree root) else 0)) }
        ensures err { OnErr result (self.new.root ≡ self.old.root) }
    {
        Tree::<RenderObject>::walk_laws();
        Tree::<RenderObject>::keep_laws();
        // Tells the proof that this is a tree.
        let _ = tree.root();
        let mut found = DueNodes::new(self.alloc);
        let seen = find(tree, root, &mut found)?;
        redo_all(
            self.alloc,
            tree,
            found.stale.as_slice(),
            table,
            &mut self.parts,
            &mut self.wholes,
            paints,
        )?;
        self.renew_root(tree, root, seen.stale, table, paints)?;
        Ok(found)
    }

    /// Paints a frame: the group of each painted boundary that is flagged, and the root's own parts where it is, are painted anew,
    /// and each layer is put together anew that has a changed one in it. All that is painted loses its flag. A node counts one
    /// step where it is painted anew. Where nothing is marked nothing is done.
    ///
    /// The tree has a root, which is in the window, and what is kept is fresh for it but for what is flagged. An error is want of
    /// memory; after one this is spent, and answers nothing else.
    pub fn flush<L: Ledger>(
        &mut self,
        tree: &mut RenderTree,
        table: &DelegateTable,
        paints: &mut Steps<L>,
    ) -> Result<(), AllocError>
        requires shown { IsRootShown (root_tree tree.old.tree) }
        requires kept { self.old.spent ≡ false → IsKept tree.old.scale.cell (meant_in table.now ⟦<dyn Delegate as Delegate>⟧) self.old (root_tree tree.old.tree) }
        // The layer is that of a full painting.
        ensures layer { OnOk result (self.new.root
            ≡ option_map (layer_of tree.old.scale.cell (meant_in table.now ⟦<dyn Delegate as Delegate>⟧)) (laid_of (root_tree tree.old.tree))) }
        // What is kept is fresh again, now without flags, and what is kept of boundaries elsewhere stays.
        ensures kept { OnOk result (IsKept tree.new.scale.cell (meant_in table.now ⟦<dyn Delegate as Delegate>⟧) self.new (root_tree tree.new.tree)) }
        ensures calm { OnOk result (IsPaintedCalm (root_tree tree.new.tree)) }
        ensures beside { OnOk result ((k : Handle) → IsNode tree.old.tree k → (In k (root_tree tree.old.tree) → ⊥) → AgreesAt (kept_of self.old) (kept_of self.new) k) }
        // The tree loses the flags and marks of what was painted, and nothing else.
        ensures settles { OnOk result (Settles tree.old.tree tree.new.tree) }
        ensures err { OnErr result (tree.new ≡ tree.old) }
        ensures scale { tree.new.scale ≡ tree.old.scale }
        ensures tree_spent { tree.new.spent ≡ tree.old.spent }
        // The steps are the painted nodes whose boundary, or root, was flagged.
        ensures paints { OnOk result (paints.new ≡ paints.old + painted_count (root_flag (root_tree tree.old.tree)) (root_tree tree.old.tree)) }
        ensures root_left { OnErr result (self.new.root ≡ self.old.root) }
        ensures spent { OnErr result (self.new.spent ≡ true) }
        ensures ready { OnOk result (self.new.spent ≡ false) }
        ensures refused { self.old.spent ≡ true → is_err result ≡ true }
    {
        Tree::<RenderObject>::walk_laws();
        Tree::<RenderObject>::child_laws();
        Tree::<RenderObject>::keep_laws();
        let Some(root) = tree.root() else {
            unreachable!()
        };
        if self.spent {
            return Err(AllocError);
        }
        if !is_due(tree, root) {
            return Ok(());
        }
        self.spent = true;
        let found = self.paint_due(tree, root, table, paints)?;
        clear_flags(tree, found.flagged.as_slice());
        clear_marks(tree, found.quiet.as_slice());
        self.spent = false;
        Ok(())
    }

    /// Lets go what is kept of boundaries whose nodes are gone. What is kept of the others stays.
    pub fn drop_dead(&mut self, tree: &RenderTree)
        ensures live { (k : Handle) → IsNode tree.now.tree k → AgreesAt (kept_of self.old) (kept_of self.new) k }
        ensures dead { (k : Handle) → (IsNode tree.now.tree k → ⊥) → (kept_at self.new.parts k ≡ None) × (kept_at self.new.wholes k ≡ None) }
        ensures kept { (cell : Cell) (delegates : List Plug) → IsKept cell delegates self.old (root_tree tree.now.tree)
            → IsKept cell delegates self.new (root_tree tree.now.tree) }
        ensures top { self.new.top ≡ self.old.top }
        ensures root { self.new.root ≡ self.old.root }
        ensures spent { self.new.spent ≡ self.old.spent }
    {
        // Tells the proof that this is a tree.
        let _ = tree.root();
        self.parts.keep_live(tree);
        self.wholes.keep_live(tree);
    }
}
