// Quotients of whole numbers of 64 bits, rounded down.
ghost use Rattle.std.specs.Prelude.{◌≡◌};
ghost use Rattle.fx_expr.specs.Number.{saturated, floor_div, floor_mod};

// a / b rounded towards minus infinity, stopping at the ends of 64 bits; 0 where b is 0.
pub(crate) fn quotient(a: i64, b: i64) -> i64
    ensures { result ≡ saturated (floor_div a b) }
{
    if b == 0 || a == 0 {
        0
    } else if b > 0 {
        a.div_euclid(b)
    } else if a < 0 {
        a.saturating_div(b)
    } else {
        (a - 1).saturating_div(b).saturating_sub(1)
    }
}

// What that quotient leaves of a before it stops: a number of b's sign, nearer to 0 than b; 0 where
// b is 0.
pub(crate) fn remainder(a: i64, b: i64) -> i64
    ensures { result ≡ floor_mod a b }
{
    if b == 0 {
        0
    } else if b > 0 {
        a.rem_euclid(b)
    } else if a <= 0 {
        a.wrapping_rem(b)
    } else {
        (a - 1).wrapping_rem(b) + (b + 1)
    }
}
