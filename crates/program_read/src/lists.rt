// The reading of lists whose entries are all read alike.
ghost use Rattle.std.specs.Prelude.{◌≡◌, map};
ghost use Rattle.serde_json.specs.Data.{Data, object};
ghost use Rattle.json_tree.specs.View.{view, items_view, members_view};
ghost use Rattle.program_read.specs.Answers.{Answers};
ghost use Rattle.program_read.specs.ShapeFault.{ShapeWalk, each};
ghost use Rattle.program_read.specs.Leaves.{walks};
ghost use Rattle.program_read.specs.Objects.{list_of, OthersStay};
ghost use Rattle.program_read.specs.ProgramWalk.{list_at};

use crate::fault::{ReadStop, at_entry, within};
use crate::leaves::{MAX_ENTRIES, read_entries};
use crate::objects::{Members, take};
use json_tree::Json;
use std::alloc::Global;

// How the entries of a list are read.
pub(crate) trait EntryReader {
    // What an entry is read as.
    type Entry: Drop;

    // What that is as plain data, its plain look, and the walk of the value that it is read from.
    ghost Plain: { Type 0 };

    ghost plain: { Self.Entry → Plain };

    ghost walk: { Self → Data → ShapeWalk Plain };

    // The entry that a value is, which may be taken out of its place.
    fn read(&self, alloc: Global, value: &mut Json<'_>) -> Result<Self::Entry, ReadStop>
        ensures { Answers plain result (walk self.now (view value.old)) };
}

// What an entry is, which goes then.
fn read_entry<R: EntryReader>(
    alloc: Global,
    reader: &R,
    mut value: Json<'_>,
) -> Result<R::Entry, ReadStop>
    ensures { Answers R.plain result (R.walk reader.now (view value.entry)) }
{
    reader.read(alloc, &mut value)
}

// What the entries are.
pub(crate) fn read_each<R: EntryReader>(
    alloc: Global,
    reader: &R,
    entries: Vec<Json<'_>>,
) -> Result<Vec<R::Entry>, ReadStop>
    ensures { Answers (λ xs. map R.plain xs.items) result (each 0 (walks (R.walk reader.now) (items_view entries.entry.items))) }
{
    let mut list = Vec::with_capacity(alloc, entries.len())?;
    for value in entries {
        let entry = at_entry(alloc, list.len(), read_entry(alloc, reader, value))?;
        list.push(entry)?;
    }
    Ok(list)
}

// What the entries of the list that a value is are.
pub(crate) fn read_list<R: EntryReader>(
    alloc: Global,
    reader: &R,
    value: Json<'_>,
) -> Result<Vec<R::Entry>, ReadStop>
    ensures { Answers (λ xs. map R.plain xs.items) result (list_of (R.walk reader.now) (view value.entry)) }
{
    read_each(alloc, reader, read_entries(alloc, value, MAX_ENTRIES)?)
}

// Takes and reads a member that is such a list, which may be left out.
pub(crate) fn list_at<R: EntryReader>(
    alloc: Global,
    reader: &R,
    members: &mut Members<'_>,
    name: &str,
) -> Result<Vec<R::Entry>, ReadStop>
    ensures read { Answers (λ xs. map R.plain xs.items) result (list_at (list_of (R.walk reader.now)) name.now (object (members_view members.old.items))) }
    ensures others { OthersStay name.now (object (members_view members.old.items)) (object (members_view members.new.items)) }
{
    match take(members, name) {
        Some(found) => within(alloc, name, read_list(alloc, reader, found)),
        None => Ok(Vec::new(alloc)),
    }
}
