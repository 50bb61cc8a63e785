ghost use Rattle.std.specs.Prelude.{◌≡◌, ℕ, ◌+◌, ◌<◌, ◌≤◌, Some, None, IsSome, IsTrue, OnOk, OnErr, ◌↔◌, length, sum, slice_index, slice_get, option_copied, if◌then◌else◌};
ghost use Rattle.std.specs.Borrow.{sem};
ghost use Rattle.std.specs.Option.Follows.{option_follows_value};
ghost use Rattle.slab.specs.Slab.{get, ContainsKey, HasRoomFor, Updates, with_value};
ghost use Rattle.fx_handles.specs.Arena.{held};

use crate::Handle;
use slab::Slab;
use std::alloc::AllocError;
use std::mem;

// The generation of the slot `index`, which is 0 where the list has none.
pub(crate) fn generation_of(generations: &[u32], index: usize) -> u32
    ensures { result ≡ slice_index generations.now index }
{
    if index < generations.len() {
        generations[index]
    } else {
        0
    }
}

// Whether the handle has the generation of its slot.
pub(crate) fn agrees(generations: &[u32], h: Handle) -> bool
    ensures { IsTrue result ↔ (h.generation ≡ slice_index generations.now h.index) }
{
    generation_of(generations, h.index) == h.generation
}

// Gives the slot `index` a place in the list, with generation 0 where it had none.
fn cover(generations: &mut Vec<u32>, index: usize) -> Result<(), AllocError>
    ensures covered { OnOk result (index < length generations.new.items) }
    ensures grows { length generations.old.items ≤ length generations.new.items }
    ensures same { (k : ℕ) → slice_index generations.new.items k ≡ slice_index generations.old.items k }
    ensures sum { sum generations.new.items ≡ sum generations.old.items }
    ensures err { OnErr result (generations.new.items ≡ generations.old.items) }
{
    if index < generations.len() {
        return Ok(());
    }
    if index == generations.len() {
        generations.push(0)?;
        return Ok(());
    }
    let end = index.checked_add(1).ok_or(AllocError)?;
    generations.reserve(end - generations.len())?;
    generations.resize(end, 0)
}

// The value in the slot `index`, if it has one.
pub(crate) fn value_at<T>(slots: &Slab<Option<T>>, index: usize) -> Option<&T>
    ensures { option_copied result ≡ held (get slots.now index) }
{
    match slots.get(index) {
        Some(Some(value)) => Some(value),
        _ => None,
    }
}

// The value of a slot that has one.
pub(crate) fn value_of<T>(slot: &mut Option<T>) -> &mut T
    requires { IsSome slot.old }
    ensures* lends { sem 𝓛 (option_follows_value T.row slot.entry result) }
    ensures value { slot.old ≡ Some result.now }
{
    match slot {
        Some(value) => value,
        None => unreachable!(),
    }
}

// Makes room for one more value, and for the generation of its slot.
pub(crate) fn make_room<T>(
    slots: &mut Slab<T>,
    generations: &mut Vec<u32>,
) -> Result<(), AllocError>
    ensures slots { slots.new ≡ record slots.old { capacity = slots.new.capacity } }
    ensures room { OnOk result (HasRoomFor slots.new 1) }
    ensures covered { OnOk result (slots.old.vacant_key < length generations.new.items) }
    ensures grows { length generations.old.items ≤ length generations.new.items }
    ensures same { (k : ℕ) → slice_index generations.new.items k ≡ slice_index generations.old.items k }
    ensures sum { sum generations.new.items ≡ sum generations.old.items }
    ensures err { OnErr result (generations.new.items ≡ generations.old.items) }
{
    slots.reserve(1)?;
    cover(generations, slots.vacant_key())
}

// Takes the value of a slot out. A slot that retires stays occupied, so that its key isn't given out.
pub(crate) fn vacate<T>(slots: &mut Slab<Option<T>>, index: usize, retires: bool) -> Option<T>
    requires { ContainsKey slots.old index }
    ensures value { result ≡ held (get slots.old index) }
    ensures updates { Updates slots.old slots.new index (if retires then Some None else None) }
{
    if retires {
        mem::replace(&mut slots[index], None)
    } else {
        slots.try_remove(index).unwrap()
    }
}
