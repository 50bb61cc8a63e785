// The index of elements by their numbers: the handles in the order of the numbers, which is that in which they were made.
ghost use Rattle.std.specs.Prelude.{◌≡◌, ℕ, ◌+◌, ◌<◌, ◌∷◌, [], ◌++◌, Ok, Err, IfOk, OnOk, OnErr, vec_len, vec_capacity};
ghost use Rattle.element_tree.specs.Index.{handle_of, live_ones, Rises};
ghost use Rattle.element_tree.specs.declared.edits.TreeFault.TheVariants as fault;

use crate::edits::TreeFault;
use crate::element::Element;
use fx_handles::{Handle, InsertFault};
use node_tree::Tree;
use std::alloc::AllocError;

// An element's number and its handle.
#[derive(Clone, Copy)]
pub(crate) struct Numbered {
    pub(crate) number: u64,
    pub(crate) at: Handle,
}

// The handle under a number. It takes log n steps for n of them.
pub(crate) fn find(numbers: &[Numbered], number: u64) -> Option<Handle>
    requires { (next : ℕ) × Rises 1 next numbers.now }
    ensures { result ≡ handle_of numbers.now number }
{
    match numbers.binary_search_by_key(&number, |x| x.number) {
        Ok(place) => Some(numbers[place].at),
        Err(_) => None,
    }
}

// Makes room for the handle of an element with this number, and gives the number after it.
pub(crate) fn room_for_next(numbers: &mut Vec<Numbered>, number: u64) -> Result<u64, AllocError>
    ensures next { IfOk result (λ next. next ≡ number + 1) }
    ensures room { OnOk result (vec_len numbers.new < vec_capacity numbers.new) }
    ensures items { numbers.new.items ≡ numbers.old.items }
{
    let Some(next) = number.checked_add(1) else {
        return Err(AllocError);
    };
    numbers.reserve(1)?;
    Ok(next)
}

// Puts a handle last, for which there is room.
pub(crate) fn put_number(numbers: &mut Vec<Numbered>, number: u64, at: Handle)
    requires { vec_len numbers.old < vec_capacity numbers.old }
    ensures { numbers.new.items ≡ numbers.old.items ++ (record { number = number; at = at }) ∷ [] }
{
    match numbers.push(Numbered { number, at }) {
        Ok(()) => {}
        Err(_) => unreachable!(),
    }
}

// Puts the handle of an element that was made last, for which there is room; where it wasn't made nothing changes.
pub(crate) fn settle(
    numbers: &mut Vec<Numbered>,
    number: u64,
    made: Result<Handle, InsertFault<Element>>,
) -> Result<Handle, TreeFault>
    requires { vec_len numbers.old < vec_capacity numbers.old }
    ensures made { IfOk made (λ h. result ≡ Ok h) }
    ensures fault { OnErr made (result ≡ Err fault.OutOfMemory) }
    ensures index { IfOk made (λ h. numbers.new.items ≡ numbers.old.items ++ (record { number = number; at = h }) ∷ []) }
    ensures err { OnErr made (numbers.new.items ≡ numbers.old.items) }
{
    match made {
        Ok(h) => {
            put_number(numbers, number, h);
            Ok(h)
        }
        Err(_) => Err(TreeFault::OutOfMemory),
    }
}

// Drops the numbers whose element is no more.
pub(crate) fn forget_dead(numbers: &mut Vec<Numbered>, tree: &Tree<Element>)
    ensures { numbers.new.items ≡ live_ones tree.now numbers.old.items }
{
    numbers.retain(|x| tree.contains(x.at));
}
