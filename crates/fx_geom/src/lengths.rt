ghost use Rattle.std.specs.Prelude.{◌≡◌, ℕ, ◌+◌, ◌^◌, ◌≤◌, min};
ghost use Rattle.std.specs.Prelude.{◌↔◌, IsTrue};
ghost use Rattle.fx_geom.specs.Len.{limit_of, length_sum, len_sum, len_of, finite_or, is_bounded, IsFinite};

/// The greatest length, in u: sums of lengths stop there.
pub const LEN_MAX: u64 = 1 << 40;

/// A length in u, or no limit. A finite length is at most [`LEN_MAX`].
#[derive(Clone, Copy, Debug, PartialEq, Eq)]
pub enum Len {
    Finite(u64),
    Unbounded,
}

impl Len {
    /// The length that is given, in u, or no limit where there is none.
    pub fn of(length: Option<u64>) -> Len
        ensures { result ≡ len_of length }
    {
        match length {
            Some(length) => Len::Finite(length),
            None => Len::Unbounded,
        }
    }

    /// The length itself where it is finite, else this other one, in u.
    pub fn finite_or(self, other: u64) -> u64
        ensures { result ≡ finite_or self other }
    {
        match self {
            Len::Finite(length) => length,
            Len::Unbounded => other,
        }
    }

    /// Whether there is a limit.
    pub fn is_bounded(self) -> bool
        ensures value { result ≡ is_bounded self }
        ensures finite { IsTrue result ↔ IsFinite self }
    {
        self != Len::Unbounded
    }

    /// The greatest length that fits under this one, in u: a finite length itself, and [`LEN_MAX`] where there is no
    /// limit.
    pub fn limit(self) -> u64
        ensures { result ≡ limit_of self }
    {
        match self {
            Len::Finite(length) => length,
            Len::Unbounded => LEN_MAX,
        }
    }

    /// The sum of two lengths, which stops at [`LEN_MAX`]. A sum with no limit has none.
    pub fn plus(self, other: Len) -> Len
        ensures { result ≡ len_sum self other }
    {
        match (self, other) {
            (Len::Finite(a), Len::Finite(b)) => Len::Finite(add_lengths(a, b)),
            _ => Len::Unbounded,
        }
    }
}

/// The sum of two lengths in u, which stops at [`LEN_MAX`].
pub fn add_lengths(a: u64, b: u64) -> u64
    ensures value { result ≡ length_sum a b }
    ensures within { result ≤ 2 ^ 40 }

    // Where the first of two sums stops makes no difference to the second.
    ensures stops_once { (c : ℕ) → length_sum result c ≡ min (a + b + c) (2 ^ 40) }
{
    a.saturating_add(b).min(LEN_MAX)
}
