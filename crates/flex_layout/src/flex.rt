ghost use Rattle.std.specs.Prelude.{◌≡◌, ℕ, ◌+◌, ◌-◌, ◌*◌, ◌/◌, ◌^◌, ◌<◌, ◌≤◌, pos, neg_ℤ, ◌+ℤ◌, ◌*ℤ◌, ◌≤ℤ◌, ◌<ℤ◌, List, ◌∷◌, ◌++◌, sum};
ghost use Rattle.flex_layout.specs.Flex.{free_before, share_of, shares_of, AreFactors, flex_extent_of, floor_over, room_of, align_of, cross_of};
ghost use Rattle.flex_layout.specs.Gaps.{gaps_of, lead_of, between_of};

use crate::spacing::Gaps;
use fx_geom::{CrossAlign, LEN_MAX, MainAlign};

/// The share of a child in the free space of a Row or a Column, in u: the child has this factor, the factors before
/// it sum to `before`, and all factors to `total` (`RenderFlex.performLayout`). Only the whole units are shared, so
/// that the shares of all children sum to the free space.
pub fn share(free: u64, before: u64, factor: u64, total: u64) -> u64
    requires some { 0 < total }
    requires among { before + factor ≤ total }
    ensures value { result ≡ share_of free before factor total }

    // It differs from the exact fraction by less than one unit.
    ensures not_above { total * result < free * factor + total }
    ensures not_below { free * factor < total * result + total }
{
    free_before(free, before + factor, total) - free_before(free, before, total)
}

/// How much of the free space lies before a child, where the factors before it sum to `factors`.
fn free_before(free: u64, factors: u64, total: u64) -> u64
    requires some { 0 < total }
    requires among { factors ≤ total }
    ensures value { result ≡ free_before free factors total }
{
    (free as u128 * factors as u128 / total as u128) as u64
}

/// The shares of all children sum to the free space, whatever the factors.
pub fn shares_sum_to_free()
    ensures { (free : ℕ) (factors : List ℕ) → 0 < sum factors → sum (shares_of free factors) ≡ free }
{}

/// The factors of the children of a Row or a Column can be summed in 64 bits, and the sum before a child and its own factor
/// are at most the sum of all: so `share` may be called for each child of a node.
pub fn factors_fit()
    ensures total { (factors : List ℕ) → AreFactors factors → sum factors < 2 ^ 64 }
    ensures among { (front back : List ℕ) (factor : ℕ) → sum front + factor ≤ sum (front ++ factor ∷ back) }
{}

/// The main extent that a Row or a Column needs for a flexible child of this extent, in u, so that its part by this factor
/// among factors with this total is at least the extent (`RenderFlex.computeMaxIntrinsicWidth`). It is rounded up, and
/// stops at `LEN_MAX`.
pub fn flex_extent(extent: u64, factor: u64, total: u64) -> u64
    requires { 0 < factor }
    ensures value { result ≡ flex_extent_of extent factor total }
    ensures within { result ≤ 2 ^ 40 }
    ensures enough { result < 2 ^ 40 → extent * total ≤ result * factor }
    ensures least { (main : ℕ) → extent * total ≤ main * factor → result ≤ main }
{
    let exact = (extent as u128 * total as u128).div_ceil(factor as u128);
    exact.min(LEN_MAX as u128) as u64
}

/// The gaps of `count` children where `rest`, in u, is left on the main axis (`MainAxisAlignment`).
pub fn gaps(align: MainAlign, rest: u64, count: usize) -> Gaps
    ensures value { result ≡ gaps_of align rest count }
    ensures within { result.lead + result.between * (count - 1) ≤ rest }

    // Lead, gaps and children never exceed the main extent where the children fit.
    ensures fits { (main children : ℕ) → children ≤ main → rest ≡ main - children
        → result.lead + result.between * (count - 1) + children ≤ main }
{
    if count == 0 {
        return Gaps {
            lead: 0,
            between: 0,
        };
    }
    Gaps {
        lead: lead(align, rest, count as u64),
        between: between(align, rest, count as u64),
    }
}

/// The gap before the first of some children.
fn lead(align: MainAlign, rest: u64, count: u64) -> u64
    requires { 0 < count }
    ensures { result ≡ lead_of align rest count }
{
    match align {
        MainAlign::Start | MainAlign::Between => 0,
        MainAlign::End => rest,
        MainAlign::Center => rest / 2,
        MainAlign::Around => rest / count / 2,
        MainAlign::Evenly => over_one_more(rest, count),
    }
}

/// The gap between two of some children.
fn between(align: MainAlign, rest: u64, count: u64) -> u64
    requires { 0 < count }
    ensures { result ≡ between_of align rest count }
{
    match align {
        MainAlign::Start | MainAlign::End | MainAlign::Center => 0,
        MainAlign::Between if count == 1 => 0,
        MainAlign::Between => rest / (count - 1),
        MainAlign::Around => rest / count,
        MainAlign::Evenly => over_one_more(rest, count),
    }
}

/// What is left, over one more than the count.
fn over_one_more(rest: u64, count: u64) -> u64
    ensures { result ≡ rest / (count + 1) }
{
    (rest as u128 / (count as u128 + 1)) as u64
}

/// Where a child stands across the main axis of a Row or a Column, in u (`CrossAxisAlignment`). It is negative where
/// the child is longer than the outer extent and isn't at the start.
pub fn cross_at(align: CrossAlign, outer: u64, inner: u64) -> i64
    requires outer_is_length { outer ≤ 2 ^ 40 }
    requires inner_is_length { inner ≤ 2 ^ 40 }
    ensures value { result ≡ cross_of align outer inner }
{
    match align {
        CrossAlign::Start | CrossAlign::Stretch => 0,
        CrossAlign::End => room(outer, inner),
        CrossAlign::Center => room(outer, inner).div_euclid(2),
    }
}

/// Where a child stands in an outer extent, in u, at an alignment from -100, the start, to 100, the end
/// (`Alignment.alongSize`). It is rounded down, and negative where the child is longer than the outer extent and isn't
/// at the start.
pub fn align_at(outer: u64, inner: u64, a: i64) -> i64
    requires outer_is_length { outer ≤ 2 ^ 40 }
    requires inner_is_length { inner ≤ 2 ^ 40 }
    requires from_start { neg_ℤ (pos 100) ≤ℤ a }
    requires to_end { a ≤ℤ pos 100 }
    ensures value { result ≡ align_of outer inner a }

    // It is the exact place, rounded down.
    ensures not_above { (pos 200 *ℤ result) ≤ℤ (room_of outer inner *ℤ (pos 100 +ℤ a)) }
    ensures not_below { (room_of outer inner *ℤ (pos 100 +ℤ a)) <ℤ (pos 200 *ℤ result +ℤ pos 200) }
    ensures same_extent { outer ≡ inner → result ≡ pos 0 }
    ensures start { a ≡ neg_ℤ (pos 100) → result ≡ pos 0 }
    ensures middle { a ≡ pos 0 → result ≡ floor_over (room_of outer inner) 2 }
    ensures end { a ≡ pos 100 → result ≡ room_of outer inner }
{
    scaled(room(outer, inner), a).div_euclid(200)
}

/// What an outer extent leaves beside an inner one, in u.
fn room(outer: u64, inner: u64) -> i64
    requires outer_is_length { outer ≤ 2 ^ 40 }
    requires inner_is_length { inner ≤ 2 ^ 40 }
    ensures value { result ≡ room_of outer inner }
    ensures low { neg_ℤ (pos (2 ^ 40)) ≤ℤ result }
    ensures high { result ≤ℤ pos (2 ^ 40) }
{
    outer as i64 - inner as i64
}

/// 200 times the place of a child at an alignment.
fn scaled(room: i64, a: i64) -> i64
    requires low { neg_ℤ (pos (2 ^ 40)) ≤ℤ room }
    requires high { room ≤ℤ pos (2 ^ 40) }
    requires from_start { neg_ℤ (pos 100) ≤ℤ a }
    requires to_end { a ≤ℤ pos 100 }
    ensures { result ≡ room *ℤ (pos 100 +ℤ a) }
{
    room * (100 + a)
}
