ghost use Rattle.std.specs.Prelude.{neg_ℤ, pos, ◌≤ℤ◌, ◌^◌};

/// A point of the view within the range that pointers have.
#[derive(Clone, Copy)]
pub struct PointerPlace {
    pub x: i64,
    pub y: i64,
    pub ghost x_low: { neg_ℤ (pos (2 ^ 30)) ≤ℤ x },
    pub ghost x_high: { x ≤ℤ pos (2 ^ 30) },
    pub ghost y_low: { neg_ℤ (pos (2 ^ 30)) ≤ℤ y },
    pub ghost y_high: { y ≤ℤ pos (2 ^ 30) },
}
