// The delegates that a run is handed.
ghost use Rattle.std.specs.Prelude.{◌≡◌, [], ◌∷◌, ◌++◌, codes, string_bytes, IfOk, OnOk};
ghost use Rattle.delegates.specs.Table.{each_of, plugged};

use delegates::{Delegate, Named};
use std::alloc::{AllocError, Global};

// Adds a delegate under a name.
fn add(
    list: &mut Vec<Named>,
    alloc: Global,
    name: &str,
    delegate: Box<dyn Delegate>,
) -> Result<(), AllocError>
    ensures { OnOk result (each_of list.new.items (λ n. plugged (string_bytes n.name) (meaning n.delegate))
        ≡ each_of list.old.items (λ n. plugged (string_bytes n.name) (meaning n.delegate)) ++ plugged name.now (meaning delegate) ∷ []) }
{
    let name = String::from_str(alloc, name)?;
    list.push(Named { name, delegate })?;
    Ok(())
}

// The delegates that every program can call, under their names.
pub(crate) fn listed(
    alloc: Global,
    bars: Box<dyn Delegate>,
    grid: Box<dyn Delegate>,
    corner: Box<dyn Delegate>,
) -> Result<Vec<Named>, AllocError>
    ensures { IfOk result (λ list. each_of list.items (λ n. plugged (string_bytes n.name) (meaning n.delegate))
        ≡ plugged (codes "bars") (meaning bars) ∷ plugged (codes "grid") (meaning grid)
        ∷ plugged (codes "corner") (meaning corner) ∷ []) }
{
    let mut list = Vec::new(alloc);
    add(&mut list, alloc, "bars", bars)?;
    add(&mut list, alloc, "grid", grid)?;
    add(&mut list, alloc, "corner", corner)?;
    Ok(list)
}
