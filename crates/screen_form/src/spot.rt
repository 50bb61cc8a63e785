// Where a detector stands that can have the focus.
ghost use Rattle.std.specs.Prelude.{◌≡◌};
ghost use Rattle.std.proofs.Common.{rules};
ghost use Rattle.std.specs.Cmp.{partial_order_from_own_ties};
ghost use Rattle.std.specs.Cmp.Rules.{comparing};
ghost use Rattle.std.specs.Ordering.{as_partial_cmp};
ghost use Rattle.screen_form.specs.Spot.{spot_cmp};

use std::cmp::Ordering;

/// Where a detector stands in the view, in u from above and from the left, and its number. Spots are ordered as they are
/// read: from above, then from the left, then by number.
#[derive(Clone, Copy, Debug, PartialEq, Eq, PartialOrd, Ord)]
pub struct Spot {
    pub y: i64,
    pub x: i64,
    pub number: u64,
}
