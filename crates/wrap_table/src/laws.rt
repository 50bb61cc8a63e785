//! Laws over the definitions of runs and of places.
ghost use Rattle.std.specs.Prelude.{◌≡◌, ℕ, ◌/◌, ◌%◌, ◌^◌, ◌<◌, List, [], length, map, slice_index_or, All, AllPairs};
ghost use Rattle.fx_geom.specs.declared.lengths.Len.{Len};
ghost use Rattle.fx_geom.specs.declared.shapes.Size.{Size};
ghost use Rattle.wrap_table.specs.Runs.{IsCut, runs_of, rows_of};
ghost use Rattle.wrap_table.specs.Places.{wrap_places_of, wrap_size_of, table_places_of, table_size_of, boxes_of, IsBefore, KeepsToColumns};

/// The children of a Wrap are cut into runs in exactly one way.
pub fn one_cut()
    ensures exists { (limit : Len) (gap : ℕ) (children : List Size) → IsCut limit gap children (runs_of limit gap children) }
    ensures only { (limit : Len) (gap : ℕ) (children : List Size) (runs : List (List Size))
        → IsCut limit gap children runs → runs ≡ runs_of limit gap children }
{}

/// The children of a Table stand row by row: child i stands in row i / n of n columns, and there in column i mod n.
pub fn row_by_row()
    ensures { (columns : ℕ) (heights : List ℕ) (i : ℕ) → 0 < columns → i < length heights
        → let row = slice_index_or (rows_of columns heights) (i / columns) [] in
        (other : ℕ) → slice_index_or row (i % columns) other ≡ slice_index_or heights i other }
{}

/// Where no sum of a Wrap stops, each child ends left of each later one, or above it: so no two overlap.
pub fn wrap_is_apart()
    ensures { (children : List Size) (limit : Len) (gap run_gap : ℕ)
        → (wrap_size_of children limit gap run_gap).w < 2 ^ 40 → (wrap_size_of children limit gap run_gap).h < 2 ^ 40
        → AllPairs IsBefore (boxes_of (wrap_places_of children limit gap run_gap) children) }
{}

/// Where no sum of a Table stops, the same holds of its children that keep to their column's width.
pub fn table_is_apart()
    ensures { (widths : List ℕ) (children : List Size) → let heights = map (λ child. child.h) children in
        (table_size_of widths heights).w < 2 ^ 40 → (table_size_of widths heights).h < 2 ^ 40
        → All (KeepsToColumns widths) (rows_of (length widths) children)
        → AllPairs IsBefore (boxes_of (table_places_of widths heights) children) }
{}
