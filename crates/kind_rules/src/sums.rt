// Sums along an axis.
ghost use Rattle.std.specs.Prelude.{◌≡◌, ◌^◌, ◌<◌, ◌≤◌, sum, pos};
ghost use Rattle.fx_geom.specs.Len.{total_of};
ghost use Rattle.layout_form.specs.FlexRule.{factors_of};
ghost use Rattle.wrap_table.specs.Stretches.{greatest_of};

use crate::family::Family;
use fx_geom::add_lengths;

// A length as a number with a sign.
pub(crate) fn signed(length: u64) -> i64
    requires { length ≤ 2 ^ 40 }
    ensures { result ≡ pos length }
{
    length as i64
}

// The sum of lengths, which stops at the greatest one.
pub(crate) fn total_of(lengths: &[u64]) -> u64
    ensures value { result ≡ total_of lengths.now }
    ensures within { result ≤ 2 ^ 40 }
{
    let mut total = 0;
    for length in lengths {
        total = add_lengths(total, *length);
    }
    total
}

// The greatest of some extents.
pub(crate) fn greatest_of(extents: &[u64]) -> u64
    ensures { result ≡ greatest_of extents.now }
{
    let mut most = 0;
    for extent in extents {
        most = most.max(*extent);
    }
    most
}

// The sum of the factors of children.
pub(crate) fn total_factor<F: Family>(family: F) -> u64
    requires { sum (factors_of (F.told family)) < 2 ^ 64 }
    ensures { result ≡ sum (factors_of (F.told family)) }
{
    let mut total = 0;
    for i in 0..family.len() {
        total += family.told_at(i).flex;
    }
    total
}
