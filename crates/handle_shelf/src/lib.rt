//! Values beside an arena: one for each handle for which one was put there, for as long as the handle is live.
#![tactic(auto)]

ghost use Rattle.std.specs.Prelude.{◌≡◌, ◌≢◌, ℕ, ◌<◌, ◌≤◌, length, slice_index_or, slice_set, Some, None, IsSome, IfSome, IsTrue, IsFalse, OnOk, OnErr, option_copied};
ghost use Rattle.fx_handles.specs.declared.Handle.{Handle};
ghost use Rattle.fx_handles.specs.Arena.{Arena as ArenaOf, IsLive};
ghost use Rattle.handle_shelf.specs.Shelf.{reached, kept_at, with_kept, without_kept};

use fx_handles::{Arena, Handle};
use std::alloc::{AllocError, Global};
use std::marker::Model;

/// Values by handle. A slot of the arena has at most one, that of the handle for which it was last put.
#[derive(Drop)]
pub struct Shelf<V> {
    slots: Vec<Option<(u32, V)>>,
}

impl<V> Model for Shelf<V> {
    ghost use Rattle.handle_shelf.specs.Shelf.{Shelf as ShelfOf, shelf_code};

    ghost Value = { ShelfOf V };

    ghost coded = { shelf_code V.code };

    ghost view = { λ s. record { slots = s.slots.items } };
}

// What the slot has for a handle of this generation.
fn value_in<V>(slot: &Option<(u32, V)>, generation: u32) -> Option<&V>
    ensures { option_copied result ≡ reached generation slot.now }
{
    match slot {
        Some(entry) => {
            if entry.0 == generation {
                Some(&entry.1)
            } else {
                None
            }
        }
        None => None,
    }
}

// What the handle's slot has for it.
fn stored<V>(slots: &[Option<(u32, V)>], h: Handle) -> Option<&V>
    ensures { option_copied result ≡ reached h.generation (slice_index_or slots.now h.index None) }
{
    match slots.get(h.index) {
        Some(slot) => value_in(slot, h.generation),
        None => None,
    }
}

// The handle for which the slot `index` has a value.
fn handle_of<V>(slot: &Option<(u32, V)>, index: usize) -> Option<Handle>
    ensures place { IfSome result (λ h. h.index ≡ index) }
    ensures kept { IfSome result (λ h. IsSome (reached h.generation slot.now)) }
    ensures others { (k : Handle) → k.index ≡ index → (result ≡ Some k → ⊥) → reached k.generation slot.now ≡ None }
{
    match slot {
        Some(entry) => Some(Handle {
            index,
            generation: entry.0,
        }),
        None => None,
    }
}

// The handle of a slot for which a value is kept, if there is one.
fn handle_stored<V>(slots: &[Option<(u32, V)>], index: usize) -> Option<Handle>
    ensures place { IfSome result (λ h. h.index ≡ index) }
    ensures kept { IfSome result (λ h. IsSome (reached h.generation (slice_index_or slots.now index None))) }
    ensures others { (k : Handle) → k.index ≡ index → (result ≡ Some k → ⊥)
        → reached k.generation (slice_index_or slots.now index None) ≡ None }
{
    match slots.get(index) {
        Some(slot) => handle_of(slot, index),
        None => None,
    }
}

// Whether a value is kept for the handle.
fn keeps<V>(slots: &[Option<(u32, V)>], h: Handle) -> bool
    ensures there { IsTrue result → IsSome (reached h.generation (slice_index_or slots.now h.index None)) }
    ensures absent { IsFalse result → reached h.generation (slice_index_or slots.now h.index None) ≡ None }
{
    stored(slots, h).is_some()
}

// Writes one slot.
fn write<V: Drop>(slots: &mut Vec<Option<(u32, V)>>, index: usize, slot: Option<(u32, V)>)
    requires { index < length slots.old.items }
    ensures { slots.new.items ≡ slice_set slots.old.items index slot }
{
    slots[index] = slot;
}

// Gives the slot `index` a place in the list.
fn cover<V: Drop>(slots: &mut Vec<Option<(u32, V)>>, index: usize) -> Result<(), AllocError>
    ensures covered { OnOk result (index < length slots.new.items) }
    ensures same { (i : ℕ) → slice_index_or slots.new.items i None ≡ slice_index_or slots.old.items i None }
{
    while slots.len() <= index {
        slots.push(None)?;
    }
    Ok(())
}

// Whether what the slot `index` has is for a handle that isn't live.
fn is_stale<T, V>(slot: &Option<(u32, V)>, arena: &Arena<T>, index: usize) -> bool
    ensures stale { IsTrue result → (k : Handle) → k.index ≡ index → IsLive arena.now k
        → reached k.generation slot.now ≡ None }
    ensures fresh { IsFalse result → (k : Handle) → k.index ≡ index → (IsLive arena.now k → ⊥)
        → reached k.generation slot.now ≡ None }
{
    match slot {
        Some(entry) => !arena.contains(Handle {
            index,
            generation: entry.0,
        }),
        None => false,
    }
}

impl<V> Shelf<V> {
    ghost use Rattle.handle_shelf.specs.Shelf.{Shelf as ShelfOf};

    /// A shelf without values, over this allocator.
    pub fn new(alloc: Global) -> Shelf<V>
        ensures { (k : Handle) → kept_at result k ≡ None }
    {
        Shelf {
            slots: Vec::new(alloc),
        }
    }

    /// The value that is kept for the handle, if there is one.
    pub fn get(&self, h: Handle) -> Option<&V>
        ensures { option_copied result ≡ kept_at self.now h }
    {
        stored(self.slots.as_slice(), h)
    }

    /// How many slots there are: a handle of any other has no value.
    pub fn slots(&self) -> usize
        ensures { (k : Handle) → result ≤ k.index → kept_at self.now k ≡ None }
    {
        self.slots.len()
    }

    /// The handle of this slot for which a value is kept, if there is one.
    pub fn handle_in(&self, slot: usize) -> Option<Handle>
        ensures place { IfSome result (λ h. h.index ≡ slot) }
        ensures kept { IfSome result (λ h. IsSome (kept_at self.now h)) }
        ensures others { (k : Handle) → k.index ≡ slot → (result ≡ Some k → ⊥) → kept_at self.now k ≡ None }
    {
        handle_stored(self.slots.as_slice(), slot)
    }

    /// What follows for handles of one arena: a value that is put for a live handle changes nothing for another one. It does
    /// nothing.
    pub fn shelf_laws<T>()
        ensures others { (a : ArenaOf T) (s t : ShelfOf V) (h k : Handle) (value : V) → IsLive a h → IsLive a k → k ≢ h
            → kept_at t k ≡ with_kept h value (kept_at s) k → kept_at t k ≡ kept_at s k }
        ensures own { (s t : ShelfOf V) (h : Handle) (value : V)
            → kept_at t h ≡ with_kept h value (kept_at s) h → kept_at t h ≡ Some value }
    {}
}

impl<V: Drop> Shelf<V> {
    /// Keeps the value for the handle, in the place of what its slot had. After want of memory each handle has what it had.
    pub fn put(&mut self, h: Handle, value: V) -> Result<(), AllocError>
        ensures ok { OnOk result ((k : Handle) → kept_at self.new k ≡ with_kept h value (kept_at self.old) k) }
        ensures err { OnErr result ((k : Handle) → kept_at self.new k ≡ kept_at self.old k) }
    {
        cover(&mut self.slots, h.index)?;
        write(&mut self.slots, h.index, Some((h.generation, value)));
        Ok(())
    }

    /// Lets the value go that is kept for the handle.
    pub fn remove(&mut self, h: Handle)
        ensures { (k : Handle) → kept_at self.new k ≡ without_kept h (kept_at self.old) k }
    {
        if !keeps(self.slots.as_slice(), h) {
            return;
        }
        write(&mut self.slots, h.index, None);
    }

    /// Lets the values go of all handles that aren't live in the arena.
    pub fn retain_live<T>(&mut self, arena: &Arena<T>)
        ensures live { (k : Handle) → IsLive arena.now k → kept_at self.new k ≡ kept_at self.old k }
        ensures dead { (k : Handle) → (IsLive arena.now k → ⊥) → kept_at self.new k ≡ None }
    {
        for index in 0..self.slots.len() {
            if !is_stale(&self.slots[index], arena, index) {
                continue;
            }
            write(&mut self.slots, index, None);
        }
    }
}
