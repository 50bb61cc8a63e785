// The slots of a component.
ghost use Rattle.std.specs.Prelude.{◌≡◌, ◌∷◌, [], ◌++◌, length, IfOk, OnErr, is_none, if◌then◌else◌};
ghost use Rattle.program_check.specs.Place.{index_of};

use fx_expr::Txt;
use indexmap::IndexSet;
use std::alloc::{AllocError, Global};
use std::marker::Model;

// The most slots of a component: each has its place in 32 bits.
const MAX_SLOTS: usize = 0xffff_ffff;

/// The names of a component's slots, in order, none twice. Contracts see them as that list.
#[derive(Drop)]
pub struct SlotNames {
    names: IndexSet<String>,
}

impl Model for SlotNames {
    ghost use Rattle.std.specs.Prelude.{ℕ, List, length, ◌≤◌};
    ghost use Rattle.program_check.specs.SlotsView.{slots_in};

    ghost Value = { List (List ℕ) };

    ghost view = { λ s. slots_in s.names.keys };

    ghost invariant = { λ s. length s.names.keys ≤ 4294967295 };
}

impl SlotNames {
    /// No slots.
    pub fn new(alloc: Global) -> SlotNames
        ensures { result ≡ [] }
    {
        SlotNames {
            names: IndexSet::new(alloc),
        }
    }

    /// Adds a slot at the end, where none of the name is there yet. False, and nothing added, where one is. After want of
    /// memory, or where there are 2^32 - 1 slots, they are as before.
    pub fn add(&mut self, alloc: Global, name: &Txt) -> Result<bool, AllocError>
        ensures added { IfOk result (λ b. b ≡ is_none (index_of self.old name.now)) }
        ensures names { IfOk result (λ b. self.new ≡ (if b then self.old ++ name.now ∷ [] else self.old)) }
        ensures err { OnErr result (self.new ≡ self.old) }
    {
        if self.names.contains(name.get()) {
            return Ok(false);
        }
        if self.names.len() >= MAX_SLOTS {
            return Err(AllocError);
        }
        let name = String::from_str(alloc, name.get())?;
        self.names.insert(name)?;
        Ok(true)
    }

    /// How many slots there are.
    pub fn len(&self) -> usize
        ensures { result ≡ length self.now }
    {
        self.names.len()
    }

    /// The place of a slot, counted from 0.
    pub fn find(&self, name: &Txt) -> Option<u32>
        ensures { result ≡ index_of self.now name.now }
    {
        let place = self.names.get_index_of(name.get())?;
        Some(place as u32)
    }
}
