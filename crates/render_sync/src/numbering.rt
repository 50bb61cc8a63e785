// The index of render nodes by their numbers.
ghost use Rattle.std.specs.Prelude.{◌≡◌, ◌↔◌, ◌==◌, ℕ, Some, OnOk, if◌then◌else◌};
ghost use Rattle.std.specs.BTreeMap.{get};
ghost use Rattle.std.specs.Ordering.{nat_cmp};
ghost use Rattle.fx_handles.specs.declared.Handle.{Handle};
ghost use Rattle.node_tree.specs.Tree.{IsNode};

use fx_handles::Handle;
use render_tree::RenderTree;
use std::alloc::AllocError;
use std::collections::BTreeMap;

// The handle of the node with a number.
pub(crate) fn find(numbers: &BTreeMap<u64, Handle>, number: u64) -> Option<Handle>
    ensures { result ≡ get nat_cmp numbers.now number }
{
    numbers.get(&number).copied()
}

// Puts a handle under a number.
pub(crate) fn put(
    numbers: &mut BTreeMap<u64, Handle>,
    number: u64,
    h: Handle,
) -> Result<(), AllocError>
    ensures { OnOk result ((n : ℕ) → get nat_cmp numbers.new n ≡ (if number == n then Some h else get nat_cmp numbers.old n)) }
{
    numbers.insert(number, h)?;
    Ok(())
}

// Drops the numbers whose node is no more.
pub(crate) fn forget_dead(numbers: &mut BTreeMap<u64, Handle>, tree: &RenderTree)
    ensures { (n : ℕ) (h : Handle) → (get nat_cmp numbers.new n ≡ Some h)
        ↔ ((get nat_cmp numbers.old n ≡ Some h) × IsNode tree.now.tree h) }
{
    let tree = tree.tree();
    numbers.retain(|_, h| tree.contains(*h));
}
