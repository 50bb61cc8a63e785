// The values that are provided at a place (`BuildContext.dependOnInheritedWidgetOfExactType`).
ghost use Rattle.std.specs.Prelude.{◌≡◌, ℕ, List, [], ◌∷◌, true, false, OnOk, OnErr, option_copied};
ghost use Rattle.fx_expr.specs.declared.values.Value.{Value as AnyValue};
ghost use Rattle.inherited.specs.Provided.{provided};

use fx_expr::Value;
use std::alloc::{AllocError, Global};
use std::marker::Model;

/// The values that are provided at a place of a tree, each with its name, which is its place in the program's list. Contracts
/// see them as a list, the innermost first.
#[derive(Drop)]
pub struct Providers {
    // The outermost first.
    items: Vec<(u32, Value)>,
}

impl Model for Providers {
    ghost use Rattle.std.specs.Prelude.{ℕ, List, reverse};
    ghost use Rattle.fx_expr.specs.declared.values.Value.{Value as AnyValue};

    ghost Value = { List (ℕ × AnyValue) };

    ghost view = { λ p. reverse p.items.items };
}

impl Providers {
    /// No value is provided, over this allocator.
    pub fn new(alloc: Global) -> Providers
        ensures { result ≡ [] }
    {
        Providers {
            items: Vec::new(alloc),
        }
    }

    /// Provides a value inside those that are provided. After want of memory nothing has changed.
    pub fn push(&mut self, name: u32, v: Value) -> Result<(), AllocError>
        ensures pushed { OnOk result (self.new ≡ (name, v) ∷ self.old) }
        ensures err { OnErr result (self.new ≡ self.old) }
    {
        self.items.push((name, v))?;
        Ok(())
    }

    /// Takes the innermost value away: `false` exactly where none is provided, and then nothing changes.
    pub fn pop(&mut self) -> bool
        ensures some { (p : ℕ × AnyValue) (ps : List (ℕ × AnyValue)) → self.old ≡ p ∷ ps → (result ≡ true) × (self.new ≡ ps) }
        ensures none { self.old ≡ [] → (result ≡ false) × (self.new ≡ []) }
    {
        self.items.pop().is_some()
    }

    /// The innermost value of a name, or `None` where none is provided. It looks at each value that is provided inside it.
    pub fn value(&self, name: u32) -> Option<&Value>
        ensures { option_copied result ≡ provided self.now name }
    {
        for i in (0..self.items.len()).rev() {
            if self.items[i].0 == name {
                return Some(&self.items[i].1);
            }
        }
        None
    }
}
