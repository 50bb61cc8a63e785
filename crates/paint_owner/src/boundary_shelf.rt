// What is kept of boundaries, and a list of them: what is kept of those that are gone is let go without a look at all others.
ghost use Rattle.std.specs.Prelude.{◌≡◌, true, None, OnOk, OnErr, option_copied, is_some, filter};
ghost use Rattle.fx_handles.specs.declared.Handle.{Handle};
ghost use Rattle.handle_shelf.specs.Shelf.{kept_at, with_kept};
ghost use Rattle.node_tree.specs.Tree.{IsNode, node_at};
ghost use Rattle.kept_layers.specs.Steps.{is_listed};
ghost use Rattle.paint_owner.specs.Listed.{AreListed};

use fx_handles::Handle;
use handle_shelf::Shelf;
use render_tree::RenderTree;
use std::alloc::{AllocError, Global};
use std::marker::Model;

// Values by the handles of boundaries. Each handle that has one stands in the list.
#[derive(Drop)]
pub(crate) struct BoundaryShelf<V> {
    shelf: Shelf<V>,
    handles: Vec<Handle>,
}

impl<V> Model for BoundaryShelf<V> {
    ghost use Rattle.handle_shelf.specs.Shelf.{Shelf as ShelfOf, shelf_code};

    ghost Value = { ShelfOf V };

    ghost coded = { shelf_code V.code };

    ghost view = { λ s. s.shelf };

    ghost use Rattle.paint_owner.specs.Listed.{AreListed};

    ghost invariant = { λ s. AreListed s.shelf s.handles.items };
}

// Adds a handle to a list, unless it is known that it stands there.
fn list(handles: &mut Vec<Handle>, h: Handle, known: bool) -> Result<(), AllocError>
    ensures old { (k : Handle) → is_listed k handles.old.items ≡ true → is_listed k handles.new.items ≡ true }
    ensures own { OnOk result ((known ≡ true → is_listed h handles.old.items ≡ true) → is_listed h handles.new.items ≡ true) }
{
    if known {
        return Ok(());
    }
    handles.push(h)?;
    Ok(())
}

// Keeps the value for the handle, which is listed.
fn put_listed<V: Drop>(
    shelf: &mut Shelf<V>,
    handles: &mut Vec<Handle>,
    h: Handle,
    value: V,
) -> Result<(), AllocError>
    requires { AreListed shelf.old handles.old.items }
    ensures ok { OnOk result ((k : Handle) → kept_at shelf.new k ≡ with_kept h value (kept_at shelf.old) k) }
    ensures err { OnErr result ((k : Handle) → kept_at shelf.new k ≡ kept_at shelf.old k) }
    ensures listed { AreListed shelf.new handles.new.items }
{
    let known = shelf.get(h).is_some();
    list(handles, h, known)?;
    shelf.put(h, value)
}

// Lets the values go of those listed handles that aren't live in the tree.
fn drop_gone<V: Drop>(tree: &RenderTree, shelf: &mut Shelf<V>, handles: &[Handle])
    ensures live { (k : Handle) → IsNode tree.now.tree k → kept_at shelf.new k ≡ kept_at shelf.old k }
    ensures gone { (k : Handle) → is_listed k handles.now ≡ true → (IsNode tree.now.tree k → ⊥) → kept_at shelf.new k ≡ None }
    ensures empty { (k : Handle) → kept_at shelf.old k ≡ None → kept_at shelf.new k ≡ None }
{
    for h in handles {
        if tree.tree().contains(*h) {
            continue;
        }
        shelf.remove(*h);
    }
}

// Takes the handles out of a list that aren't live in the tree.
fn list_live(tree: &RenderTree, handles: &mut Vec<Handle>)
    ensures { handles.new.items ≡ filter (λ k. is_some (node_at tree.now.tree k)) handles.old.items }
{
    handles.retain(|h| tree.tree().contains(*h));
}

// Lets the values go of all handles that aren't live in the tree, and takes these handles out of the list.
fn keep_listed<V: Drop>(tree: &RenderTree, shelf: &mut Shelf<V>, handles: &mut Vec<Handle>)
    requires { AreListed shelf.old handles.old.items }
    ensures live { (k : Handle) → IsNode tree.now.tree k → kept_at shelf.new k ≡ kept_at shelf.old k }
    ensures dead { (k : Handle) → (IsNode tree.now.tree k → ⊥) → kept_at shelf.new k ≡ None }
    ensures kept { handles.new.items ≡ filter (λ k. is_some (node_at tree.now.tree k)) handles.old.items }
    ensures listed { AreListed shelf.new handles.new.items }
{
    drop_gone(tree, shelf, handles.as_slice());
    list_live(tree, handles);
}

impl<V> BoundaryShelf<V> {
    // Nothing is kept.
    pub(crate) fn new(alloc: Global) -> BoundaryShelf<V>
        ensures { (k : Handle) → kept_at result k ≡ None }
    {
        BoundaryShelf {
            shelf: Shelf::new(alloc),
            handles: Vec::new(alloc),
        }
    }

    // The value that is kept for the handle, if there is one.
    pub(crate) fn get(&self, h: Handle) -> Option<&V>
        ensures { option_copied result ≡ kept_at self.now h }
    {
        self.shelf.get(h)
    }
}

impl<V: Drop> BoundaryShelf<V> {
    // Keeps the value for the handle. After want of memory each handle has what it had.
    pub(crate) fn put(&mut self, h: Handle, value: V) -> Result<(), AllocError>
        ensures ok { OnOk result ((k : Handle) → kept_at self.new k ≡ with_kept h value (kept_at self.old) k) }
        ensures err { OnErr result ((k : Handle) → kept_at self.new k ≡ kept_at self.old k) }
    {
        put_listed(&mut self.shelf, &mut self.handles, h, value)
    }

    // Lets the values go of all handles that aren't live in the tree. It takes time in the handles with a value alone.
    pub(crate) fn keep_live(&mut self, tree: &RenderTree)
        ensures live { (k : Handle) → IsNode tree.now.tree k → kept_at self.new k ≡ kept_at self.old k }
        ensures dead { (k : Handle) → (IsNode tree.now.tree k → ⊥) → kept_at self.new k ≡ None }
    {
        keep_listed(tree, &mut self.shelf, &mut self.handles);
    }
}
