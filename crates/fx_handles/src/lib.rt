//! Storage whose handles never reach another value than the one they were given out for.
#![tactic(auto)]

ghost use Rattle.std.specs.Prelude.{◌≡◌, ◌⊎◌, ℕ, ◌+◌, ◌*◌, ◌<◌, ◌≤◌, ◌↔◌, List, length, IsTrue, IfOk, IfErr, IfSome, IfNone, IsNone, OnOk, OnErr, option_copied, vec_len, sum, slice_index};
ghost use Rattle.std.specs.Option.{option_copied_mut};
ghost use Rattle.fx_handles.specs.Handle.{Among, AreDistinct};
ghost use Rattle.std.specs.Borrow.{sem};

mod fault;
pub mod laws;
mod rooms;

pub use fault::InsertFault;
use rooms::{agrees, generation_of, make_room, vacate, value_at, value_of};
use slab::Slab;
use std::alloc::{AllocError, Global};
use std::marker::Model;

/// The greatest number of slots that an arena has in use or retired.
pub const SLOTS_MAX: usize = 4_194_304;

/// The generation at which a slot is retired: it is never given out again.
pub const LAST_GENERATION: u32 = 4_294_967_295;

/// Names one value of an arena: the key of its slot, and how often a value was removed from that slot
/// before.
#[derive(Clone, Copy, Debug, PartialEq, Eq, PartialOrd, Ord, Hash)]
pub struct Handle {
    pub index: usize,
    pub generation: u32,
}

/// Values under handles. Once its value is removed, a handle never reaches a value again, though its slot
/// may be given out under another generation.
#[derive(Drop)]
pub struct Arena<T> {
    // A retired slot keeps `None`, so that the slab never gives its key out again.
    slots: Slab<Option<T>>,
    // The generation of each slot that was ever given out.
    generations: Vec<u32>,
    // How many slots have a value.
    used: usize,
}

impl<T> Model for Arena<T> {
    ghost use Rattle.fx_handles.specs.Arena.{Arena as ArenaOf, arena_code, IsSound};

    ghost Value = { ArenaOf T };

    ghost coded = { arena_code T.code };

    ghost view = { λ a. record { slots = a.slots.slots; generations = a.generations.items } };

    ghost invariant = { λ a. IsSound a.slots.slots a.generations.items a.used };
}

impl<T> Arena<T> {
    ghost use Rattle.fx_handles.specs.Arena.{get, IsLive, IsSpent, used_count, retired_count, generation_sum, slot_count, with_value, IsNew, Inserts, Removes, WritesIn};
    ghost use Rattle.fx_handles.specs.Lends.{lends_get};

    /// An empty arena over this allocator. It allocates nothing until the first `insert`.
    pub fn new(alloc: Global) -> Arena<T>
        ensures { IsNew result }
    {
        Arena {
            slots: Slab::new(alloc),
            generations: Vec::new(alloc),
            used: 0,
        }
    }

    /// How many values the arena has, which is how many handles are live.
    pub fn len(&self) -> usize
        ensures value { result ≡ used_count self.now }
        ensures at_least { (hs : List Handle) → AreDistinct hs
            → ((h : Handle) → Among h hs → IsLive self.now h) → length hs ≤ result }
        ensures at_most { (hs : List Handle) → ((h : Handle) → IsLive self.now h → Among h hs)
            → result ≤ length hs }
        ensures few { result ≤ SLOTS_MAX }
    {
        self.used
    }

    /// Whether the arena has no value.
    pub fn is_empty(&self) -> bool
        ensures { IsTrue result ↔ (used_count self.now ≡ 0) }
    {
        self.used == 0
    }

    /// How many slots are retired. Each stands for `LAST_GENERATION` removals.
    pub fn retired(&self) -> usize
        ensures value { result ≡ retired_count self.now }
        ensures removals { retired_count self.now * LAST_GENERATION ≤ generation_sum self.now }
        ensures few { used_count self.now + retired_count self.now ≤ SLOTS_MAX }
    {
        self.slots.len() - self.used
    }

    /// What holds of the counts of each arena. It does nothing.
    pub fn count_laws(&self)
        ensures removals { retired_count self.now * LAST_GENERATION ≤ generation_sum self.now }
        ensures few { used_count self.now + retired_count self.now ≤ SLOTS_MAX }
    {
        // Tells the proof what the fields keep.
        let _ = &self.slots;
    }

    /// Whether no value can be inserted, since `SLOTS_MAX` slots are in use or retired.
    pub fn is_full(&self) -> bool
        ensures { IsTrue result ↔ (SLOTS_MAX ≤ used_count self.now + retired_count self.now) }
    {
        self.slots.len() >= SLOTS_MAX
    }

    /// Whether the handle is live: its value is here.
    pub fn contains(&self, h: Handle) -> bool
        ensures { IsTrue result ↔ IsLive self.now h }
    {
        self.get(h).is_some()
    }

    /// The handle's value, or `None` where it isn't live.
    pub fn get(&self, h: Handle) -> Option<&T>
        ensures value { option_copied result ≡ get self.now h }
        ensures spent { IsSpent self.now h → IsNone result }
    {
        if !agrees(self.generations.as_slice(), h) {
            return None;
        }
        value_at(&self.slots, h.index)
    }

    /// The handle's value for writing, or `None` where it isn't live.
    pub fn get_mut(&mut self, h: Handle) -> Option<&mut T>
        ensures* writes_back { sem 𝓛 (lends_get T.row self.entry h result) }
        ensures value { option_copied_mut result ≡ get self.old h }
        ensures writes { (w : _) → IsLive self.old h → WritesIn self.old (with_value self.old h w) h w }
    {
        if self.contains(h) {
            Some(value_of(&mut self.slots[h.index]))
        } else {
            None
        }
    }

    /// Stores the value under a handle that was never given out before.
    ///
    /// `Full` comes exactly where `SLOTS_MAX` slots are in use or retired, `OutOfMemory` where there is no
    /// memory. Each hands the value back, and nothing changes.
    pub fn insert(&mut self, value: T) -> Result<Handle, InsertFault<T>>
        ensures inserts { IfOk result (λ h. Inserts self.old self.new h value) }
        ensures full { (result ≡ Err (InsertFault.Full value))
            ↔ (SLOTS_MAX ≤ used_count self.old + retired_count self.old) }
        ensures faults { IfErr result
            (λ e. (e ≡ InsertFault.Full value) ⊎ (e ≡ InsertFault.OutOfMemory value)) }
        ensures err { OnErr result (self.new ≡ self.old) }
    {
        if self.is_full() {
            return Err(InsertFault::Full(value));
        }
        if make_room(&mut self.slots, &mut self.generations).is_err() {
            return Err(InsertFault::OutOfMemory(value));
        }
        let index = self.slots.insert_reserved(Some(value));
        self.used += 1;
        let generation = self.generations[index];
        Ok(Handle { index, generation })
    }

    /// Takes the handle's value out, or gives `None` where it isn't live.
    pub fn remove(&mut self, h: Handle) -> Option<T>
        ensures value { result ≡ get self.old h }
        ensures removes { IfSome result (λ value. Removes self.old self.new h value) }
        ensures absent { IfNone result (self.new ≡ self.old) }
    {
        if !self.contains(h) {
            return None;
        }
        let generation = h.generation + 1;
        self.generations[h.index] = generation;
        self.used -= 1;
        vacate(&mut self.slots, h.index, generation == LAST_GENERATION)
    }

    /// How many slots the arena has a generation for. The index of each live handle is below it.
    pub fn end(&self) -> usize
        ensures value { result ≡ slot_count self.now }
        ensures live { (h : Handle) → IsLive self.now h → h.index < result }
    {
        self.generations.len()
    }

    /// The live handle of the slot `index`, if there is one.
    pub fn handle_at(&self, index: usize) -> Option<Handle>
        ensures live { IfSome result (λ h. (h.index ≡ index) × IsLive self.now h) }
        ensures only { IfNone result ((h : Handle) → h.index ≡ index → IsLive self.now h → ⊥) }
    {
        let generation = generation_of(self.generations.as_slice(), index);
        let h = Handle { index, generation };
        if self.contains(h) { Some(h) } else { None }
    }
}

impl<T: Drop> Arena<T> {
    ghost use Rattle.fx_handles.specs.Arena.{used_count, retired_count, Inserts};

    /// Stores the value under a handle that was never given out before, where fewer than `SLOTS_MAX` slots are in use or retired. The error
    /// is want of memory: nothing has changed then, and the value is let go.
    pub fn add(&mut self, value: T) -> Result<Handle, AllocError>
        requires { used_count self.old + retired_count self.old < SLOTS_MAX }
        ensures inserts { IfOk result (λ h. Inserts self.old self.new h value) }
        ensures err { OnErr result (self.new ≡ self.old) }
    {
        make_room(&mut self.slots, &mut self.generations)?;
        let index = self.slots.insert_reserved(Some(value));
        self.used += 1;
        let generation = self.generations[index];
        Ok(Handle { index, generation })
    }
}
