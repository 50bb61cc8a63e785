//! Laws over lengths and sizes.
ghost use Rattle.std.specs.Prelude.{◌≡◌, ℕ, ℤ, ◌^◌, ◌≤◌, List, ◌∷◌, ◌++◌, [], fold};
ghost use Rattle.fx_geom.specs.declared.boxes.Bounds.{Bounds};
ghost use Rattle.fx_geom.specs.declared.lengths.Len.{Len};
ghost use Rattle.fx_geom.specs.declared.shapes.Axis.{Axis};
ghost use Rattle.fx_geom.specs.declared.shapes.Insets.{Insets};
ghost use Rattle.fx_geom.specs.declared.shapes.Size.{Size};
ghost use Rattle.fx_geom.specs.Along.{size_along, offset_along, place_along, bounds_along, least_along, most_along};
ghost use Rattle.fx_geom.specs.Bounds.{IsWithin, constrain, smallest};
ghost use Rattle.fx_geom.specs.Insets.{along, inflated, extent_of, other_of};
ghost use Rattle.fx_geom.specs.Len.{stopped, raised, length_sum, total_of};
ghost use Rattle.fx_geom.specs.Size.{HasLengths};

/// A sum of lengths stops once, wherever its parts stop: taken up one by one from the first or from the last, or in two
/// parts, it is the stopped sum of all.
pub fn sums_stop_once()
    ensures folded { (lengths : List ℕ) → fold length_sum 0 lengths ≡ total_of lengths }
    ensures first { (n : ℕ) (lengths : List ℕ) → total_of (n ∷ lengths) ≡ length_sum n (total_of lengths) }
    ensures last { (lengths : List ℕ) (n : ℕ) → total_of (lengths ++ n ∷ []) ≡ length_sum (total_of lengths) n }
    ensures parts { (front back : List ℕ) → total_of (front ++ back) ≡ length_sum (total_of front) (total_of back) }
{}

/// Which sizes have lengths as their sides: those in bounds, and what bounds, insets and an axis make of lengths.
pub fn sizes_are_lengths()
    ensures within { (b : Bounds) (s : Size) → IsWithin b s → HasLengths s }
    ensures constrained { (b : Bounds) (s : Size) → HasLengths (constrain b s) }
    ensures smallest { (b : Bounds) → HasLengths (smallest b) }
    ensures inflated { (i : Insets) (s : Size) → HasLengths (inflated i s) }
    ensures turned { (axis : Axis) (m c : ℕ) → m ≤ 2 ^ 40 → c ≤ 2 ^ 40 → HasLengths (size_along axis m c) }
    ensures extent { (s : Size) (axis : Axis) → HasLengths s → extent_of s axis ≤ 2 ^ 40 }
    ensures insets { (i : Insets) (axis : Axis) → along i axis ≤ 2 ^ 40 }
{}

/// What is made by an axis has the given extents along it and across, and is known by them.
pub fn axes_turn_shapes()
    ensures main { (axis : Axis) (m c : ℕ) → extent_of (size_along axis m c) axis ≡ m }
    ensures cross { (axis : Axis) (m c : ℕ) → extent_of (size_along axis m c) (other_of axis) ≡ c }
    ensures size { (axis : Axis) (s : Size) → size_along axis (extent_of s axis) (extent_of s (other_of axis)) ≡ s }
    ensures along { (axis : Axis) (m c : ℤ) → place_along (offset_along axis m c) axis ≡ m }
    ensures across { (axis : Axis) (m c : ℤ) → place_along (offset_along axis m c) (other_of axis) ≡ c }
    ensures least { (axis : Axis) (m : ℕ) (n : Len) (c : ℕ) (d : Len)
        → least_along (bounds_along axis m n c d) axis ≡ stopped m }
    ensures most { (axis : Axis) (m : ℕ) (n : Len) (c : ℕ) (d : Len)
        → most_along (bounds_along axis m n c d) axis ≡ raised m n }
    ensures least_across { (axis : Axis) (m : ℕ) (n : Len) (c : ℕ) (d : Len)
        → least_along (bounds_along axis m n c d) (other_of axis) ≡ stopped c }
    ensures most_across { (axis : Axis) (m : ℕ) (n : Len) (c : ℕ) (d : Len)
        → most_along (bounds_along axis m n c d) (other_of axis) ≡ raised c d }
{}
