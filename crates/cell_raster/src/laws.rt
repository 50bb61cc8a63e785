// Laws of the definitions.
ghost use Rattle.std.specs.Prelude.{◌≡◌, ◌≤◌, ◌<◌, ◌⊎◌, ℕ, true, Some, None};
ghost use Rattle.fx_geom.specs.declared.shapes.Size.{Size};
ghost use Rattle.layer_tree.specs.declared.layers.Layer.{Layer};
ghost use Rattle.cell_raster.specs.declared.damage.Damage.{Damage};
ghost use Rattle.cell_raster.specs.Damage.{same_size, damage_of};
ghost use Rattle.cell_raster.specs.CellGrid.{CellGrid, columns_of, rows_of, grid_of, cell_at};
ghost use Rattle.cell_raster.specs.Laws.{IsWhole, HoldsCell, HoldsChanges};
ghost use Rattle.cell_raster.specs.Shown.{shown_at};
ghost use Rattle.cell_raster.specs.Worked.{Works};

/// The cell in a column and a row of a frame's grid is what the frame's layers show there; outside the grid there is
/// none.
pub fn cells_stand_in_their_places()
    ensures inside { (root : Layer) (view cell : Size) (column row : ℕ) → column < columns_of view cell → row < rows_of view cell
        → cell_at (grid_of root view cell) column row ≡ Some (shown_at cell root column row) }
    ensures beside { (root : Layer) (view cell : Size) (column row : ℕ) → columns_of view cell ≤ column → cell_at (grid_of root view cell) column row ≡ None }
    ensures below { (root : Layer) (view cell : Size) (column row : ℕ) → rows_of view cell ≤ row → cell_at (grid_of root view cell) column row ≡ None }
    ensures whole { (root : Layer) (view cell : Size) → IsWhole (grid_of root view cell) }
{}

/// Between two grids of one size each cell is as before or lies in the damage, and whatever rectangle holds each cell
/// that differs holds the damage.
pub fn damage_is_least()
    ensures kept { (a b : CellGrid) → same_size a b ≡ true → IsWhole a → IsWhole b → (column row : ℕ)
        → (cell_at a column row ≡ cell_at b column row) ⊎ HoldsCell (damage_of a b) column row }
    ensures least { (a b : CellGrid) → same_size a b ≡ true → (d : Damage) → HoldsChanges a b d → (column row : ℕ)
        → HoldsCell (damage_of a b) column row → HoldsCell d column row }
{}

/// What small frames show in cells, and what changes, is as it was worked out by hand.
pub fn worked_cells()
    ensures { Works }
{}
