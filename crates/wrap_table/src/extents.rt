// Sums of extents.
ghost use Rattle.std.specs.Prelude.{◌≡◌, take};
ghost use Rattle.fx_geom.specs.Len.{stopped};
ghost use Rattle.wrap_table.specs.Stretches.{spaced_extent};

use fx_geom::add_lengths;

/// The extent of stretches one after another, in u, with a gap between two of them. The sum stops at
/// [`LEN_MAX`](fx_geom::LEN_MAX).
pub fn extent_of(extents: &[u64], gap: u64) -> u64
    ensures { result ≡ stopped (spaced_extent gap extents.now) }
{
    let Some((first, rest)) = extents.split_first() else {
        return 0;
    };
    let mut sum = add_lengths(*first, 0);
    for extent in rest {
        sum = add_lengths(add_lengths(sum, gap), *extent);
    }
    sum
}
