// What a component declares.
ghost use Rattle.std.specs.Prelude.{◌≡◌};

use fx_expr::{Txt, Ty};
use std::marker::Model;

/// A list of fields, each a name and a type.
#[derive(Drop)]
pub struct FieldList {
    items: Vec<(Txt, Ty)>,
}

impl Model for FieldList {
    ghost use Rattle.std.specs.Prelude.{ℕ, List};
    ghost use Rattle.fx_expr.specs.declared.values.Ty.{Ty};

    ghost Value = { List (List ℕ × Ty) };

    ghost view = { λ l. l.items.items };
}

impl FieldList {
    /// The list that `items` holds.
    pub fn of(items: Vec<(Txt, Ty)>) -> FieldList
        ensures { result ≡ items.items }
    {
        FieldList { items }
    }

    /// The fields, lent.
    pub fn get(&self) -> &[(Txt, Ty)]
        ensures { result.now ≡ self.now }
    {
        self.items.as_slice()
    }
}

/// A list of inherited names, each its place in the program's list.
#[derive(Drop)]
pub struct NameList {
    items: Vec<u32>,
}

impl Model for NameList {
    ghost use Rattle.std.specs.Prelude.{ℕ, List};

    ghost Value = { List ℕ };

    ghost view = { λ l. l.items.items };
}

impl NameList {
    /// The list that `items` holds.
    pub fn of(items: Vec<u32>) -> NameList
        ensures { result ≡ items.items }
    {
        NameList { items }
    }

    /// The names, lent.
    pub fn get(&self) -> &[u32]
        ensures { result.now ≡ self.now }
    {
        self.items.as_slice()
    }
}

/// What a component declares: its name, the names and types of its fields, and the inherited names that stand in its
/// body.
#[derive(Drop)]
pub struct Decl {
    pub name: Txt,
    pub fields: FieldList,
    pub inherited: NameList,
}
