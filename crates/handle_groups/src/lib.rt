//! Handles under names: which ones stand under each name, each once.
#![tactic(auto)]

ghost use Rattle.std.specs.Prelude.{◌≡◌, ◌≤◌, ◌<◌, ◌↔◌, ℕ, List, true, false, IfOk, OnOk, OnErr, if◌then◌else◌};
ghost use Rattle.fx_handles.specs.declared.Handle.{Handle};
ghost use Rattle.fx_handles.specs.Handle.{Among, AreDistinct};
ghost use Rattle.fx_handles.specs.Handle.{same};
ghost use Rattle.std.specs.List.{list_any};
ghost use Rattle.indexmap.specs.IndexSet.{spare};
ghost use Rattle.handle_groups.specs.Groups.{groups_of, handles_in, room_in, stands_in, stands_under, with_standing};

use fx_handles::Handle;
use indexmap::{IndexMap, IndexSet};
use std::alloc::{AllocError, Global};
use std::marker::Model;

/// Handles by name. A handle may stand under several names, and under each of them at most once. No call goes over the handles
/// of a name, but for a copy of all of them.
#[derive(Drop)]
pub struct Groups {
    groups: IndexMap<String, IndexSet<Handle>>,
    alloc: Global,
}

impl Model for Groups {
    ghost use Rattle.handle_groups.specs.Groups.{Groups as GroupsOf, groups_of, groups_code};

    ghost Value = { GroupsOf };

    ghost coded = { groups_code };

    ghost view = { λ g. record { groups = groups_of g.groups.entries } };
}

// A group of the name, with no handles, where there is none yet.
fn cover(
    groups: &mut IndexMap<String, IndexSet<Handle>>,
    alloc: Global,
    name: &str,
) -> Result<(), AllocError>
    ensures { (n : List ℕ) → handles_in (groups_of groups.new.entries) n ≡ handles_in (groups_of groups.old.entries) n }
{
    if groups.contains_key(name) {
        return Ok(());
    }
    let key = String::from_str(alloc, name)?;
    groups.insert(key, IndexSet::new(alloc))?;
    Ok(())
}

// Room for one more handle in a group.
fn widen(groups: &mut IndexMap<String, IndexSet<Handle>>, name: &str) -> Result<(), AllocError>
    ensures same { (n : List ℕ) → handles_in (groups_of groups.new.entries) n ≡ handles_in (groups_of groups.old.entries) n }
    ensures room { OnOk result (1 ≤ room_in (groups_of groups.new.entries) name.now) }
{
    match groups.get_mut(name) {
        Some(set) => set.reserve(1),
        None => Err(AllocError),
    }
}

// Puts a handle into a set that has room for it.
fn put_in(set: &mut IndexSet<Handle>, h: Handle)
    requires { 1 ≤ spare set.old }
    ensures { (k : Handle) → list_any (same k) set.new.keys ≡ (if same h k then true else list_any (same k) set.old.keys) }
{
    match set.insert(h) {
        Ok(_) => {}
        Err(_) => unreachable!(),
    }
}

// Takes a handle out of a set, if it is there.
fn take_from(set: &mut IndexSet<Handle>, h: Handle)
    ensures room { spare set.old ≤ spare set.new }
    ensures keys { (k : Handle) → list_any (same k) set.new.keys ≡ (if same h k then false else list_any (same k) set.old.keys) }
{
    set.swap_remove(&h);
}

impl Groups {
    /// No handle under any name, over this allocator.
    pub fn new(alloc: Global) -> Groups
        ensures { (n : List ℕ) (k : Handle) → stands_under result n k ≡ false }
    {
        Groups {
            groups: IndexMap::new(alloc),
            alloc,
        }
    }

    /// The handles under a name, in no order that is told.
    pub fn get(&self, name: &str) -> &[Handle]
        ensures among { (k : Handle) → Among k result.now ↔ (stands_under self.now name.now k ≡ true) }
        ensures once { AreDistinct result.now }
    {
        match self.groups.get(name) {
            Some(set) => set.as_slice(),
            None => &[],
        }
    }

    /// Makes room for one more handle under a name. After want of memory the same handles stand under each name, as they do
    /// after it.
    pub fn reserve(&mut self, name: &str) -> Result<(), AllocError>
        ensures same { (n : List ℕ) (k : Handle) → stands_under self.new n k ≡ stands_under self.old n k }
        ensures room { OnOk result (1 ≤ room_in self.new.groups name.now) }
    {
        cover(&mut self.groups, self.alloc, name)?;
        widen(&mut self.groups, name)
    }

    /// Puts a handle under a name, where there is room for it.
    pub fn put(&mut self, name: &str, h: Handle)
        requires { 1 ≤ room_in self.old.groups name.now }
        ensures { (n : List ℕ) (k : Handle) → stands_under self.new n k ≡ with_standing true name.now h (stands_under self.old) n k }
    {
        match self.groups.get_mut(name) {
            Some(set) => put_in(set, h),
            None => unreachable!(),
        }
    }

    /// Puts a handle under a name. After want of memory the same handles stand under each name.
    pub fn insert(&mut self, name: &str, h: Handle) -> Result<(), AllocError>
        ensures ok { OnOk result ((n : List ℕ) (k : Handle) → stands_under self.new n k ≡ with_standing true name.now h (stands_under self.old) n k) }
        ensures err { OnErr result ((n : List ℕ) (k : Handle) → stands_under self.new n k ≡ stands_under self.old n k) }
    {
        self.reserve(name)?;
        self.put(name, h);
        Ok(())
    }

    /// Takes a handle away from under a name, if it stands there.
    pub fn remove(&mut self, name: &str, h: Handle)
        ensures standing { (n : List ℕ) (k : Handle) → stands_under self.new n k ≡ with_standing false name.now h (stands_under self.old) n k }
        ensures room { (n : List ℕ) → room_in self.old.groups n ≤ room_in self.new.groups n }
    {
        match self.groups.get_mut(name) {
            Some(set) => take_from(set, h),
            None => {}
        }
    }

    /// Another one with the same handles under each name.
    pub fn copied(&self) -> Result<Groups, AllocError>
        ensures { IfOk result (λ g. (n : List ℕ) (k : Handle) → stands_under g n k ≡ stands_under self.now n k) }
    {
        Ok(Groups {
            groups: self.groups.clone()?,
            alloc: self.alloc,
        })
    }
}
