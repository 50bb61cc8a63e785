// A tween, and its value at a time.
ghost use Rattle.std.specs.Prelude.{◌≡◌, ℕ, ◌*◌, ◌^◌, ◌<◌, ◌≤◌, pos, neg_ℤ, ◌+ℤ◌, ◌-ℤ◌, ◌*ℤ◌, ◌≤ℤ◌};
ghost use Rattle.tickers.specs.Tween.{IsInRange, part_of, tween_value_of};

use fx_expr::Txt;

/// How a tween goes from its first value to its last one (`Curve`).
#[derive(Clone, Copy, Debug, PartialEq, Eq)]
pub enum Curve {
    /// As fast all the way (`Curves.linear`).
    Linear,
    /// Faster and faster: by the square of the part of the time that is over.
    EaseIn,
    /// Slower and slower: by the square of the part of the time that is left.
    EaseOut,
}

/// A tween of an integer field of a node (`IntTween`).
#[derive(Debug, Drop)]
pub struct Tween {
    /// The number of the node.
    pub node: u64,
    /// The name of the field.
    pub field: Txt,
    /// The first value, from -2^40 to 2^40.
    pub from: i64,
    /// The last value, from -2^40 to 2^40.
    pub to: i64,
    /// When it starts, in milliseconds.
    pub start: u64,
    /// How long it takes, from 1 to 1,000,000,000 milliseconds.
    pub ms: u64,
    /// How it goes.
    pub curve: Curve,
}

/// The value of a tween at a time, in milliseconds; before its start it is that of the start. It is exact, rounded down.
pub fn value(t: &Tween, now: u64) -> i64
    requires in_range { IsInRange t.now }
    ensures value { result ≡ tween_value_of t.now now }
{
    let ms = t.ms;
    let over = now.saturating_sub(t.start).min(ms);
    let way = difference(t.to, t.from);
    match t.curve {
        Curve::Linear => sum(t.from, part(way, over, ms)),
        Curve::EaseIn => sum(t.from, part(way, square(over), square(ms))),
        Curve::EaseOut => difference(t.to, part(way, square(ms - over), square(ms))),
    }
}

// The square of a number of milliseconds.
fn square(ms: u64) -> u64
    requires { ms ≤ 1000000000 }
    ensures value { result ≡ ms * ms }
    ensures short { result ≤ 1000000000000000000 }
    ensures some { 0 < ms → 0 < result }
    ensures grows { (more : ℕ) → ms ≤ more → result ≤ more * more }
{
    ms * ms
}

// A value and a way from it.
fn sum(from: i64, way: i64) -> i64
    requires from_low { neg_ℤ (pos (2 ^ 41)) ≤ℤ from }
    requires from_high { from ≤ℤ pos (2 ^ 41) }
    requires low { neg_ℤ (pos (2 ^ 41)) ≤ℤ way }
    requires high { way ≤ℤ pos (2 ^ 41) }
    ensures { result ≡ from +ℤ way }
{
    from + way
}

// How far it is from a value to another, or the value that lies so far before another.
fn difference(to: i64, from: i64) -> i64
    requires to_low { neg_ℤ (pos (2 ^ 40)) ≤ℤ to }
    requires to_high { to ≤ℤ pos (2 ^ 40) }
    requires from_low { neg_ℤ (pos (2 ^ 41)) ≤ℤ from }
    requires from_high { from ≤ℤ pos (2 ^ 41) }
    ensures { result ≡ to -ℤ from }
{
    to - from
}

// So much of a way as `part` is of `whole`, rounded down.
fn part(way: i64, part: u64, whole: u64) -> i64
    requires low { neg_ℤ (pos (2 ^ 41)) ≤ℤ way }
    requires high { way ≤ℤ pos (2 ^ 41) }
    requires some { 0 < whole }
    requires within { part ≤ whole }
    requires short { whole ≤ 1000000000000000000 }
    ensures value { result ≡ part_of way part whole }
    ensures low { neg_ℤ (pos (2 ^ 41)) ≤ℤ result }
    ensures high { result ≤ℤ pos (2 ^ 41) }
{
    product(way, part).div_euclid(whole as i128) as i64
}

// A way so many times.
fn product(way: i64, times: u64) -> i128
    requires low { neg_ℤ (pos (2 ^ 41)) ≤ℤ way }
    requires high { way ≤ℤ pos (2 ^ 41) }
    requires short { times ≤ 1000000000000000000 }
    ensures { result ≡ way *ℤ pos times }
{
    way as i128 * times as i128
}
