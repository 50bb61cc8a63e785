ghost use Rattle.fx_geom.specs.Size.{HasLengths};
ghost use Rattle.std.specs.Prelude.{◌≡◌, ◌++◌, ◌^◌, pos, neg_ℤ, ◌≤ℤ◌, OnOk, OnErr};
ghost use Rattle.delegates.specs.Meaning.{Meaning, has_field, with_field};
ghost use Rattle.delegates.specs.Answers.{own_size_of, child_bounds_of, place_of, records_of};

use draw_records::Record;
use fx_geom::{Bounds, Offset, Size};
use std::alloc::{AllocError, Global};

/// An own layout and paint (`SingleChildLayoutDelegate`, `CustomPainter`). A delegate means a kind and the numbers of its
/// fields, and each answer is a function of these. Lengths are in u and at most 2^40, and a field's number lies in
/// -2^40..=2^40.
pub trait Delegate: Drop {
    ghost meaning: { Self → Meaning };

    /// The size within these bounds, of a CustomPaint without a child, and of a CustomLayout always.
    fn own_size(&self, bounds: Bounds) -> Size
        ensures { result ≡ own_size_of (meaning self.now) bounds };

    /// The bounds that its child gets within these bounds.
    fn child_bounds(&self, bounds: Bounds) -> Bounds
        ensures { result ≡ child_bounds_of (meaning self.now) bounds };

    /// Where its child of this size stands, from its own left upper corner.
    fn place(&self, size: Size, child: Size) -> Offset
        requires size { HasLengths size }
        requires child { HasLengths child }
        ensures { result ≡ place_of (meaning self.now) size child };

    /// Appends what it draws at this size, at most 256 records. After want of memory `out` is as before.
    fn paint(&self, alloc: Global, size: Size, out: &mut Vec<Record>) -> Result<(), AllocError>
        requires { HasLengths size }
        ensures ok { OnOk result (out.new.items ≡ out.old.items ++ records_of (meaning self.now) size) }
        ensures err { OnErr result (out.new.items ≡ out.old.items) };

    /// Sets the number of a field. False, and nothing changed, where it has no such field.
    fn set(&mut self, field: &str, n: i64) -> bool
        requires low { neg_ℤ (pos (2 ^ 40)) ≤ℤ n }
        requires high { n ≤ℤ pos (2 ^ 40) }
        ensures value { result ≡ has_field (meaning self.old) field.now }
        ensures changed { meaning self.new ≡ with_field (meaning self.old) field.now n };
}
