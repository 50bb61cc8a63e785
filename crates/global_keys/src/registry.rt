// Global keys, and the elements that have them.
ghost use Rattle.std.specs.Prelude.{◌≡◌, ◌↔◌, IsTrue, Some, None, true, false, OnOk, OnErr, option_map, if◌then◌else◌};
ghost use Rattle.std.specs.BTreeMap.{BTreeMap};
ghost use Rattle.std.specs.Map.{lookup};
ghost use Rattle.std.specs.Result.{is_err};
ghost use Rattle.fx_handles.specs.declared.Handle.{Handle};
ghost use Rattle.fx_expr.specs.declared.values.Value.{Value as AnyValue};
ghost use Rattle.fx_expr.specs.Value.{value_eq};
ghost use Rattle.widget_model.specs.View.{plain_of};
ghost use Rattle.node_tree.specs.Tree.{IsNode};
ghost use Rattle.element_tree.specs.Element.{element_at};
ghost use Rattle.global_keys.specs.Holders.{recorded, holder_of, unmet, met, Notes};
ghost use Rattle.global_keys.specs.Claims.{is_of_type, claim_of, claimed_by};
ghost use Rattle.global_keys.specs.Named.{NamesExactly, NamesAll};

use element_tree::ElementTree;
use fx_expr::Value;
use fx_handles::Handle;
use std::alloc::{AllocError, Global};
use std::collections::BTreeMap;
use std::marker::Model;
use widget_model::{Widget, same_type};

// The element that has a key, and whether the key was met in this walk.
#[derive(Clone, Copy)]
struct Holder {
    node: Handle,
    met: bool,
}

/// What a claim of a global key comes to.
#[derive(Clone, Copy, Debug, PartialEq, Eq)]
pub enum Claim {
    /// No element of the last frame has the key and is of the widget's type.
    Fresh,
    /// This element of the last frame has the key, and is of the widget's type.
    Taken(Handle),
    /// The key was taken or noted in this walk.
    Repeated,
}

/// Global keys, each with the element that has it.
#[derive(Drop)]
pub struct Registry {
    holders: BTreeMap<Value, Holder>,
    spent: bool,
}

impl Model for Registry {
    ghost use Rattle.global_keys.specs.Holders.{Registry as RegistryOf, registry_code};

    ghost Value = { RegistryOf };

    ghost coded = { registry_code };

    ghost view = { λ r. record { entries = r.holders.entries; spent = r.spent } };
}

// Records that a key was met, where an element is recorded for it.
fn meet(holders: &mut BTreeMap<Value, Holder>, key: &Value)
    ensures { (k : AnyValue) → lookup (λ j. value_eq k j) holders.new.entries
        ≡ (if value_eq k key.now then option_map met (lookup (λ j. value_eq k j) holders.old.entries) else lookup (λ j. value_eq k j) holders.old.entries) }
{
    if let Some(holder) = holders.get_mut(key) {
        holder.met = true;
    }
}

// Whether a handle's element has a widget's type.
fn is_of_type(t: &ElementTree, h: Handle, w: &Widget) -> bool
    ensures { result ≡ is_of_type (element_at t.now.tree h) (plain_of w.now) }
{
    match t.widget(h) {
        Some(widget) => same_type(widget, w),
        None => false,
    }
}

impl Registry {
    /// No key is recorded, over this allocator.
    pub fn new(alloc: Global) -> Registry
        ensures recorded { (k : AnyValue) → recorded result k ≡ None }
        ensures spent { result.spent ≡ false }
    {
        Registry {
            holders: BTreeMap::new(alloc),
            spent: false,
        }
    }

    /// Whether no key is recorded.
    pub fn is_empty(&self) -> bool
        ensures { IsTrue result ↔ ((k : AnyValue) → recorded self.now k ≡ None) }
    {
        self.holders.is_empty()
    }

    /// Starts a walk, in which no key was met yet. It takes as many steps as there are keys.
    pub fn begin(&mut self)
        ensures recorded { (k : AnyValue) → recorded self.new k ≡ option_map unmet (recorded self.old k) }
        ensures spent { self.new.spent ≡ self.old.spent }
    {
        self.holders.retain(|_, holder| {
            holder.met = false;
            true
        });
    }

    /// Claims the element that has a global key for a widget. `Repeated` comes exactly where the key was taken or noted in this
    /// walk; otherwise `Taken` exactly where a live element is recorded for it that is of the widget's type, and then the key is
    /// met; otherwise `Fresh`. It takes no memory, and log n comparisons for n keys.
    pub fn claim(&mut self, t: &ElementTree, key: &Value, w: &Widget) -> Claim
        ensures claim { result ≡ claim_of t.now.tree (recorded self.old key.now) (plain_of w.now) }
        ensures recorded { (k : AnyValue) → recorded self.new k
            ≡ (if value_eq k key.now then option_map (claimed_by result) (recorded self.old k) else recorded self.old k) }
        ensures spent { self.new.spent ≡ self.old.spent }
    {
        let Some(holder) = self.holders.get(key).copied() else {
            return Claim::Fresh;
        };
        if holder.met {
            return Claim::Repeated;
        }
        if !is_of_type(t, holder.node, w) {
            return Claim::Fresh;
        }
        meet(&mut self.holders, key);
        Claim::Taken(holder.node)
    }

    /// Records an element as the holder of a key, which is met by it. After want of memory, which a spent registry always answers,
    /// nothing has changed.
    pub fn note(&mut self, key: Value, h: Handle) -> Result<(), AllocError>
        ensures notes { OnOk result (Notes self.old self.new key h) }
        ensures refused { self.old.spent ≡ true → is_err result ≡ true }
        ensures spent { self.new.spent ≡ self.old.spent }
        ensures err { OnErr result (self.new ≡ self.old) }
    {
        if self.spent {
            return Err(AllocError);
        }
        self.holders.insert(key, Holder { node: h, met: true })?;
        Ok(())
    }

    /// Removes exactly the entries whose element is no more, which ends a walk. Where the registry names each element that has a
    /// global key, and else only elements that are no more, it names exactly those elements afterwards.
    pub fn drop_dead(&mut self, t: &ElementTree)
        ensures live { (k : AnyValue) (h : Handle) → holder_of self.old k ≡ Some h → IsNode t.now.tree h → recorded self.new k ≡ recorded self.old k }
        ensures dead { (k : AnyValue) (h : Handle) → holder_of self.old k ≡ Some h → (IsNode t.now.tree h → ⊥) → recorded self.new k ≡ None }
        ensures absent { (k : AnyValue) → recorded self.old k ≡ None → recorded self.new k ≡ None }
        ensures names { NamesAll self.old t.now.tree → NamesExactly self.new t.now.tree }
        ensures spent { self.new.spent ≡ self.old.spent }
    {
        let tree = t.tree();
        self.holders.retain(|_, holder| tree.contains(holder.node));
    }

    /// Makes the registry spent: from now on `note` answers that there is no memory.
    pub fn spend(&mut self)
        ensures { self.new ≡ record self.old { spent = true } }
    {
        self.spent = true;
    }
}
