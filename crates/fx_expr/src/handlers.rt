// What a gesture's handler does to the fields of its component.
ghost use Rattle.std.specs.Prelude.{◌≡◌, [], ◌∷◌, map, OnOk, OnErr};
ghost use Rattle.fx_expr.specs.Value.{type_of};
ghost use Rattle.fx_expr.specs.View.{set_of};
ghost use Rattle.fx_expr.specs.Sets.{fields_after, FitFields};

use crate::evaluate::eval;
use crate::exprs::Expr;
use crate::scopes::Scope;
use crate::values::Value;
use std::alloc::{AllocError, Global};
use std::marker::Model;

/// A list of sets: each the place of a field and the closed expression that it is set to.
#[derive(Drop)]
pub struct SetList {
    items: Vec<(u32, Expr)>,
}

impl Model for SetList {
    ghost use Rattle.std.specs.Prelude.{ℕ, List, map};
    ghost use Rattle.fx_expr.specs.Exp.{Exp};
    ghost use Rattle.fx_expr.specs.ExpCode.{coded_sets};
    ghost use Rattle.fx_expr.specs.View.{set_of};

    ghost Value = { List (ℕ × Exp) };

    ghost coded = { coded_sets };

    ghost view = { λ l. map set_of l.items.items };
}

impl SetList {
    /// The list that `items` holds.
    pub fn of(items: Vec<(u32, Expr)>) -> SetList
        ensures { result ≡ map set_of items.items }
    {
        SetList { items }
    }

    /// The items, lent.
    pub fn get(&self) -> &[(u32, Expr)]
        ensures { map set_of result.now ≡ self.now }
    {
        self.items.as_slice()
    }
}

/// A handler: the number of the component node that it belongs to, and its sets. One that stands
/// outside components has the owner 0 and no sets; it sets nothing.
#[derive(Drop)]
pub struct Handler {
    pub owner: u64,
    pub sets: SetList,
}

/// Does a handler's sets in order, each over the fields that the earlier ones left, at an event's
/// movement in u to the right and down. Each set's place is that of a field, and its expression is
/// closed, names fields alone and has the field's type. For want of memory no field is changed.
pub fn run_handler(
    alloc: Global,
    h: &Handler,
    fields: &mut Vec<Value>,
    event: (i64, i64),
) -> Result<(), AllocError>
    requires { FitFields (map type_of fields.old.items) h.now.sets }
    ensures ok { OnOk result (fields.new.items ≡ fields_after h.now.sets fields.old.items event.0 event.1) }
    ensures err { OnErr result (fields.new.items ≡ fields.old.items) }
    ensures types { map type_of fields.new.items ≡ map type_of fields.old.items }
{
    let mut after = fields.clone()?;
    run_sets(alloc, h.sets.get(), &mut after, event)?;
    *fields = after;
    Ok(())
}

// Does the sets, each over the fields that the earlier ones left.
fn run_sets(
    alloc: Global,
    sets: &[(u32, Expr)],
    fields: &mut Vec<Value>,
    event: (i64, i64),
) -> Result<(), AllocError>
    requires { FitFields (map type_of fields.old.items) (map set_of sets.now) }
    ensures { OnOk result (fields.new.items ≡ fields_after (map set_of sets.now) fields.old.items event.0 event.1) }
{
    for set in sets {
        run_set(alloc, set, fields, event)?;
    }
    Ok(())
}

// Does one set.
fn run_set(
    alloc: Global,
    set: &(u32, Expr),
    fields: &mut Vec<Value>,
    event: (i64, i64),
) -> Result<(), AllocError>
    requires { FitFields (map type_of fields.old.items) (set_of set.now ∷ []) }
    ensures { OnOk result (fields.new.items ≡ fields_after (set_of set.now ∷ []) fields.old.items event.0 event.1) }
{
    let (place, e) = set;
    let scope = Scope {
        fields: fields.as_slice(),
        props: &[],
        vars: &[],
        inherited: &[],
        event,
    };
    let value = eval(alloc, e, &scope)?;
    fields[*place as usize] = value;
    Ok(())
}
