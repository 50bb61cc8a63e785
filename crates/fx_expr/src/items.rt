// What the forms on lists do to the items of a list, whatever they are.
ghost use Rattle.std.specs.Prelude.{◌≡◌, ◌++◌, IfOk, reverse};
ghost use Rattle.fx_expr.specs.Limit.{cut_list, add_last};
ghost use Rattle.fx_expr.specs.Number.{range_of};
ghost use Rattle.fx_expr.specs.Value.{place_of, without_place};

use std::alloc::{AllocError, Global};

// The most items that a list made by a form has.
const MAX_ITEMS: usize = 4096;

// The items of two lists, one list after the other, cut at the limit. None is copied.
pub(crate) fn joined<T: Drop>(mut left: Vec<T>, mut right: Vec<T>) -> Result<Vec<T>, AllocError>
    ensures { IfOk result (λ v. v.items ≡ cut_list (left.items ++ right.items)) }
{
    left.append(&mut right)?;
    left.truncate(MAX_ITEMS);
    Ok(left)
}

// The items cut at the limit.
pub(crate) fn cut<T: Drop>(mut items: Vec<T>) -> Vec<T>
    ensures { result.items ≡ cut_list items.items }
{
    items.truncate(MAX_ITEMS);
    items
}

// The items with one more, or as they are where there are as many as the limit.
pub(crate) fn pushed<T: Drop>(mut items: Vec<T>, item: T) -> Result<Vec<T>, AllocError>
    ensures { IfOk result (λ v. v.items ≡ add_last items.items item) }
{
    if items.len() < MAX_ITEMS {
        items.push(item)?;
    }
    Ok(items)
}

// The item at a place, taken out of the list, where there is one.
pub(crate) fn taken<T: Drop>(mut items: Vec<T>, index: i64) -> Option<T>
    ensures { result ≡ place_of items.items index }
{
    if index < 0 {
        return None;
    }
    let place = index as usize;
    if place < items.len() {
        Some(items.swap_remove(place))
    } else {
        None
    }
}

// The items without the one at a place, where there is one.
pub(crate) fn without<T: Drop>(mut items: Vec<T>, index: i64) -> Vec<T>
    ensures { result.items ≡ without_place items.items index }
{
    if index < 0 {
        return items;
    }
    let place = index as usize;
    if place < items.len() {
        drop(items.remove(place));
    }
    items
}

// The items from the last to the first.
pub(crate) fn reversed<T>(mut items: Vec<T>) -> Vec<T>
    ensures { result.items ≡ reverse items.items }
{
    items.reverse();
    items
}

// The numbers from 0 to n - 1, at most as many as the limit; none where n is negative.
pub(crate) fn range(alloc: Global, n: i64) -> Result<Vec<i64>, AllocError>
    ensures { IfOk result (λ v. v.items ≡ range_of n) }
{
    let count = n.clamp(0, 4096) as u16;
    let mut numbers = Vec::new(alloc);
    for i in 0..count {
        numbers.push(i64::from(i))?;
    }
    Ok(numbers)
}
