ghost use Rattle.std.specs.Prelude.{◌≡◌, ◌++◌, ◌^◌, pos, neg_ℤ, ◌≤ℤ◌, is_some, option_map, string_bytes, IfOk, OnOk, OnErr};
ghost use Rattle.fx_geom.specs.Size.{HasLengths};
ghost use Rattle.delegates.specs.Answers.{own_size_of, child_bounds_of, place_of, records_of, records_at};
ghost use Rattle.delegates.specs.Table.{each_of, entries_of, first_of_each, if_some, meaning_of, plugged, set_end, unplugged, with_number};
ghost use Rattle.delegates.specs.Meaning.{Meaning, has_field, with_field};

use crate::delegate::Delegate;
use draw_records::Record;
use fx_geom::{Bounds, Offset, Size};
use indexmap::IndexMap;
use std::alloc::{AllocError, Global};

/// A delegate under the name by which programs call it.
#[derive(Drop)]
pub struct Named {
    pub name: String,
    pub delegate: Box<dyn Delegate>,
}

/// How setting a field of a delegate ends.
#[derive(Clone, Copy, Debug, PartialEq, Eq)]
pub enum SetEnd {
    /// The field has the number.
    Done,
    /// No delegate is plugged under the name.
    NoDelegate,
    /// The delegate has no such field.
    NoField,
}

/// Delegates by name, in the order of their declaration. One that was unplugged keeps its place.
#[derive(Drop)]
pub struct DelegateTable {
    pub entries: IndexMap<String, Option<Box<dyn Delegate>>>,
}

// Sets the number of a field. False, and nothing changed, where the delegate has no such field.
fn set_number(delegate: &mut Box<dyn Delegate>, field: &str, n: i64) -> bool
    requires low { neg_ℤ (pos (2 ^ 40)) ≤ℤ n }
    requires high { n ≤ℤ pos (2 ^ 40) }
    ensures value { result ≡ has_field (meaning delegate.old) field.now }
    ensures changed { meaning delegate.new ≡ with_field (meaning delegate.old) field.now n }
{
    delegate.set(field, n)
}

// The size that a delegate takes within bounds.
fn own_size(delegate: &Box<dyn Delegate>, bounds: Bounds) -> Size
    ensures { result ≡ own_size_of (meaning delegate.now) bounds }
{
    delegate.own_size(bounds)
}

// The bounds that its child gets.
fn child_bounds(delegate: &Box<dyn Delegate>, bounds: Bounds) -> Bounds
    ensures { result ≡ child_bounds_of (meaning delegate.now) bounds }
{
    delegate.child_bounds(bounds)
}

// Where its child stands.
fn place(delegate: &Box<dyn Delegate>, size: Size, child: Size) -> Offset
    requires size { HasLengths size }
    requires child { HasLengths child }
    ensures { result ≡ place_of (meaning delegate.now) size child }
{
    delegate.place(size, child)
}

// Appends what it draws at a size.
fn paint(
    delegate: &Box<dyn Delegate>,
    alloc: Global,
    size: Size,
    out: &mut Vec<Record>,
) -> Result<(), AllocError>
    requires { HasLengths size }
    ensures ok { OnOk result (out.new.items ≡ out.old.items ++ records_of (meaning delegate.now) size) }
    ensures err { OnErr result (out.new.items ≡ out.old.items) }
{
    delegate.paint(alloc, size, out)
}

impl DelegateTable {
    /// A table of these delegates. Of equal names the first counts, and the others are dropped.
    pub fn new(alloc: Global, list: Vec<Named>) -> Result<DelegateTable, AllocError>
        ensures { IfOk result (λ t. entries_of t.entries.entries (λ b. meaning b)
            ≡ first_of_each (each_of list.items (λ n. plugged (string_bytes n.name) (meaning n.delegate)))) }
    {
        let mut entries = IndexMap::new(alloc);
        for named in list {
            let Named { name, delegate } = named;
            if !entries.contains_key(name.as_str()) {
                drop(entries.insert(name, Some(delegate))?);
            }
        }
        Ok(DelegateTable { entries })
    }

    /// The delegate of this name, if one is plugged.
    pub fn get(&self, name: &str) -> Option<&Box<dyn Delegate>>
        ensures { if_some result (λ b. meaning b.now) ≡ meaning_of (entries_of self.now.entries.entries (λ b. meaning b)) name.now }
    {
        match self.entries.get(name) {
            Some(slot) => slot.as_ref(),
            None => None,
        }
    }

    /// Whether a delegate of this name is plugged.
    pub fn has(&self, name: &str) -> bool
        ensures { result ≡ is_some (meaning_of (entries_of self.now.entries.entries (λ b. meaning b)) name.now) }
    {
        self.get(name).is_some()
    }

    /// The size, in u, that the delegate of this name takes within these bounds, if one is plugged.
    pub fn own_size(&self, name: &str, bounds: Bounds) -> Option<Size>
        ensures { result ≡ option_map (λ m. own_size_of m bounds) (meaning_of (entries_of self.now.entries.entries (λ b. meaning b)) name.now) }
    {
        match self.get(name) {
            Some(delegate) => Some(own_size(delegate, bounds)),
            None => None,
        }
    }

    /// The bounds that the child of the delegate of this name gets within these bounds, if one is plugged.
    pub fn child_bounds(&self, name: &str, bounds: Bounds) -> Option<Bounds>
        ensures { result ≡ option_map (λ m. child_bounds_of m bounds) (meaning_of (entries_of self.now.entries.entries (λ b. meaning b)) name.now) }
    {
        match self.get(name) {
            Some(delegate) => Some(child_bounds(delegate, bounds)),
            None => None,
        }
    }

    /// Where a child of this size stands in the delegate of this name, which has this size, if one is plugged.
    pub fn place(&self, name: &str, size: Size, child: Size) -> Option<Offset>
        requires size { HasLengths size }
        requires child { HasLengths child }
        ensures { result ≡ option_map (λ m. place_of m size child) (meaning_of (entries_of self.now.entries.entries (λ b. meaning b)) name.now) }
    {
        match self.get(name) {
            Some(delegate) => Some(place(delegate, size, child)),
            None => None,
        }
    }

    /// Appends what the delegate of this name draws at this size, at most 256 records, and nothing where none is plugged.
    /// After want of memory `out` is as before.
    pub fn paint(
        &self,
        alloc: Global,
        name: &str,
        size: Size,
        out: &mut Vec<Record>,
    ) -> Result<(), AllocError>
        requires { HasLengths size }
        ensures ok { OnOk result (out.new.items ≡ out.old.items ++ records_at (meaning_of (entries_of self.now.entries.entries (λ b. meaning b)) name.now) size) }
        ensures err { OnErr result (out.new.items ≡ out.old.items) }
    {
        match self.get(name) {
            Some(delegate) => paint(delegate, alloc, size, out),
            None => Ok(()),
        }
    }

    /// Sets the number of a field of the delegate of this name.
    pub fn set(&mut self, name: &str, field: &str, n: i64) -> SetEnd
        requires low { neg_ℤ (pos (2 ^ 40)) ≤ℤ n }
        requires high { n ≤ℤ pos (2 ^ 40) }
        ensures value { result ≡ set_end (meaning_of (entries_of self.old.entries.entries (λ b. meaning b)) name.now) field.now }
        ensures changed { entries_of self.new.entries.entries (λ b. meaning b) ≡ with_number (entries_of self.old.entries.entries (λ b. meaning b)) name.now field.now n }
    {
        match self.entries.get_mut(name) {
            Some(slot) => match slot.as_mut() {
                Some(delegate) => {
                    if set_number(delegate, field, n) {
                        SetEnd::Done
                    } else {
                        SetEnd::NoField
                    }
                }
                None => SetEnd::NoDelegate,
            },
            None => SetEnd::NoDelegate,
        }
    }

    /// Drops the delegate of this name, whose place stays. False where none is plugged.
    pub fn unplug(&mut self, name: &str) -> bool
        ensures value { result ≡ is_some (meaning_of (entries_of self.old.entries.entries (λ b. meaning b)) name.now) }
        ensures changed { entries_of self.new.entries.entries (λ b. meaning b) ≡ unplugged (entries_of self.old.entries.entries (λ b. meaning b)) name.now }
    {
        match self.entries.get_mut(name) {
            Some(slot) => slot.take().is_some(),
            None => false,
        }
    }
}
