// The lists of a tree, as long as what they hold.
ghost use Rattle.std.specs.Prelude.{◌≡◌, IfOk, OnOk};
ghost use Rattle.serde_json.specs.Data.{put as with_member};
ghost use Rattle.json_tree.specs.View.{view, members_view};

use crate::tree::Json;
use std::alloc::{AllocError, Global};
use std::collections::BTreeMap;

// The most entries of a list that moves to be as long as what it holds.
const MAX_MOVED: usize = 4096;

// The list, without room to spare. A short one moves, so that the room in which it grew is given back whole: what is left
// of it beside a list that shrinks is too small for the next one.
pub(crate) fn fitted<T: Drop>(alloc: Global, mut list: Vec<T>) -> Result<Vec<T>, AllocError>
    ensures { IfOk result (λ fitted. fitted.items ≡ list.items) }
{
    if list.len() > MAX_MOVED {
        list.shrink_to_fit();
        return Ok(list);
    }
    let mut fitted = Vec::with_capacity(alloc, list.len())?;
    fitted.append(&mut list)?;
    Ok(fitted)
}

// An object's members while it is read.
pub(crate) type Members<'a> = BTreeMap<&'a str, Json<'a>>;

// Gives a name a value, in the place of one that it had.
pub(crate) fn put<'a>(
    members: &mut Members<'a>,
    name: &'a str,
    value: Json<'a>,
) -> Result<(), AllocError>
    ensures { OnOk result (members_view members.new.entries
        ≡ with_member name.now (view value.entry) (members_view members.old.entries)) }
{
    drop(members.insert(name, value)?);
    Ok(())
}

// The members in the order of their names.
pub(crate) fn in_order<'a>(
    alloc: Global,
    members: Members<'a>,
) -> Result<Vec<(&'a str, Json<'a>)>, AllocError>
    ensures { IfOk result (λ list. list.items ≡ members.entry.entries) }
{
    let mut list = Vec::with_capacity(alloc, members.len())?;
    for member in members {
        list.push(member)?;
    }
    Ok(list)
}
