// Which cells changed.
ghost use Rattle.std.specs.Prelude.{◌≡◌, ◌<◌, ◌^◌, Some, None};
ghost use Rattle.cell_raster.specs.Damage.{grown, row_hull, rows_hull, no_damage, damage_in};
ghost use Rattle.cell_raster.specs.View.{rows_in};

use crate::cell::Cell;

/// Which cells of a grid changed: the least rectangle that holds them, in columns and rows, and all zeros where none did.
#[derive(Clone, Copy)]
pub struct Damage {
    pub left: u64,
    pub top: u64,
    pub columns: u64,
    pub rows: u64,
}

// A rectangle of cells, from a column and a row on, up to a column and a row that aren't in it.
#[derive(Clone, Copy)]
pub(crate) struct Hull {
    pub left: u64,
    pub top: u64,
    pub right: u64,
    pub bottom: u64,
}

// The least rectangle that holds another one, if there is one, and a cell.
fn grown(hull: Option<Hull>, column: u64, row: u64) -> Hull
    requires column { column < 2 ^ 63 }
    requires row { row < 2 ^ 63 }
    ensures { result ≡ grown hull column row }
{
    match hull {
        None => Hull {
            left: column,
            top: row,
            right: column + 1,
            bottom: row + 1,
        },
        Some(hull) => Hull {
            left: hull.left.min(column),
            top: hull.top.min(row),
            right: hull.right.max(column + 1),
            bottom: hull.bottom.max(row + 1),
        },
    }
}

// Grows a rectangle by the cells of a row that differ from those before.
fn row_hull(old: &[Cell], new: &[Cell], row: u64, hull: Option<Hull>) -> Option<Hull>
    requires { row < 2 ^ 63 }
    ensures { result ≡ row_hull old.now new.now 0 row hull }
{
    let mut found = hull;
    for column in 0..old.len().min(new.len()) {
        if old[column].differs(&new[column]) {
            found = Some(grown(found, column as u64, row));
        }
    }
    found
}

// The least rectangle that holds each cell that differs from the one before, if one does.
fn rows_hull(old: &[Vec<Cell>], new: &[Vec<Cell>]) -> Option<Hull>
    ensures { result ≡ rows_hull (rows_in old.now) (rows_in new.now) 0 None }
{
    let mut found = None;
    for row in 0..old.len().min(new.len()) {
        found = row_hull(old[row].as_slice(), new[row].as_slice(), row as u64, found);
    }
    found
}

impl Damage {
    // No cell.
    fn none() -> Damage
        ensures { result ≡ no_damage }
    {
        Damage {
            left: 0,
            top: 0,
            columns: 0,
            rows: 0,
        }
    }

    // A rectangle of cells as a damage, if there is one.
    fn of(hull: Option<Hull>) -> Damage
        ensures { result ≡ damage_in hull }
    {
        match hull {
            None => Damage::none(),
            Some(hull) => Damage {
                left: hull.left,
                top: hull.top,
                columns: hull.right.saturating_sub(hull.left),
                rows: hull.bottom.saturating_sub(hull.top),
            },
        }
    }

    // The least rectangle that holds each cell that differs between rows of one size.
    pub(crate) fn between(old: &[Vec<Cell>], new: &[Vec<Cell>]) -> Damage
        ensures { result ≡ damage_in (rows_hull (rows_in old.now) (rows_in new.now) 0 None) }
    {
        Damage::of(rows_hull(old, new))
    }
}
