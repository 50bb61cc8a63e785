// What is given at places: whether there is something at each, and each at its own.
ghost use Rattle.std.specs.Prelude.{◌≡◌, ◌==◌, map, set, None, IfOk};
ghost use Rattle.std.specs.List.{list_all, list_any, range_with_len};
ghost use Rattle.expr_check.specs.Check.{Answers, in_order};
ghost use Rattle.expr_check.specs.declared.fault.CheckCode.TheVariants.{OtherDeclared};
ghost use Rattle.program_check.specs.Place.{or_wrong};
ghost use Rattle.program_check.specs.Judged.{all_there, given_at, arranged};

use expr_check::{CheckCode, CheckStop};
use std::alloc::{AllocError, Global};

// Writes at a place of a table, where it has the place.
fn put<T: Drop>(table: &mut Vec<T>, place: usize, value: T)
    ensures { table.new.items ≡ set table.old.items place value }
{
    if place < table.len() {
        table[place] = value;
    }
}

// For each place below a count, whether it is among these.
pub(crate) fn marked(alloc: Global, count: usize, places: &[u32]) -> Result<Vec<bool>, AllocError>
    ensures { IfOk result (λ marks. marks.items ≡ map (λ place. list_any (λ given. given == place) places.now) (range_with_len 0 count)) }
{
    let mut marks = vec![in alloc; false; count]?;
    let mut left = places.len();
    while left > 0 {
        left -= 1;
        put(&mut marks, places[left] as usize, true);
    }
    Ok(marks)
}

// Whether all are marked.
fn all_true(marks: &[bool]) -> bool
    ensures { result ≡ list_all (λ there. there) marks.now }
{
    marks.iter().all(|there| *there)
}

// Whether each place below a count is among these.
pub(crate) fn all_there(alloc: Global, count: usize, places: &[u32]) -> Result<bool, AllocError>
    ensures { IfOk result (λ there. there ≡ all_there count places.now) }
{
    let marks = marked(alloc, count, places)?;
    Ok(all_true(marks.as_slice()))
}

// A table with nothing at each place below a count.
fn blank<T: Drop>(alloc: Global, count: usize) -> Result<Vec<Option<T>>, AllocError>
    ensures { IfOk result (λ table. table.items ≡ map (λ place. None) (range_with_len 0 count)) }
{
    let mut table = Vec::with_capacity(alloc, count)?;
    for _place in 0..count {
        table.push(None)?;
    }
    Ok(table)
}

// What is given at each place below a count, if anything: the first, where there is more.
fn placed<T: Drop>(
    alloc: Global,
    count: usize,
    mut given: Vec<(u32, T)>,
) -> Result<Vec<Option<T>>, AllocError>
    ensures { IfOk result (λ table. table.items ≡ map (given_at given.items) (range_with_len 0 count)) }
{
    let mut table = blank(alloc, count)?;
    while let Some((place, found)) = given.pop() {
        put(&mut table, place as usize, Some(found));
    }
    Ok(table)
}

// All of a table, where nothing is missing.
fn all_of<T: Drop>(alloc: Global, table: Vec<Option<T>>) -> Result<Vec<T>, CheckStop>
    ensures { Answers (λ xs. xs.items) result (in_order (map (or_wrong OtherDeclared) table.items)) }
{
    let mut all = Vec::with_capacity(alloc, table.len())?;
    for entry in table {
        match entry {
            Some(found) => all.push(found)?,
            None => return Err(CheckStop::Bad(CheckCode::OtherDeclared)),
        }
    }
    Ok(all)
}

// What is given at each of so many places, in order.
pub(crate) fn arrange<T: Drop>(
    alloc: Global,
    count: usize,
    given: Vec<(u32, T)>,
) -> Result<Vec<T>, CheckStop>
    ensures { Answers (λ xs. xs.items) result (arranged count given.items) }
{
    let table = placed(alloc, count, given)?;
    all_of(alloc, table)
}
