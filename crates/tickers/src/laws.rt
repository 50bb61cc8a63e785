//! Laws of the value of a tween, and of the tweens that run.
ghost use Rattle.std.specs.Prelude.{◌≡◌, ℕ, ◌+◌, ◌≤◌, false, List, [], ◌∷◌, ◌++◌, All};
ghost use Rattle.tickers.specs.Running.{AreApart, is_on, started, cancelled, without_at, unfinished};
ghost use Rattle.tickers.specs.Tween.{IsInRange, LiesFrom, tween_value_of};
ghost use Rattle.tickers.specs.declared.tween.Tween.{Tween};

/// A tween has its first value at its start and its last one from its end on, and lies between them in between.
pub fn tweens_reach_their_ends()
    ensures first { (t : Tween) → IsInRange t → tween_value_of t t.start ≡ t.from }
    ensures last { (t : Tween) (now : ℕ) → IsInRange t → t.start + t.ms ≤ now → tween_value_of t now ≡ t.to }
    ensures between { (t : Tween) (now : ℕ) → IsInRange t → t.start ≤ now → LiesFrom t.from t.to (tween_value_of t now) }
{}

/// Of tweens that run no two have one node and field: so it is at first, and starting, dropping and finishing tweens keep it so.
/// Then none of those before and after a tween is on its field.
pub fn tweens_stay_apart()
    ensures none { AreApart [] }
    ensures started { (t : Tween) (ts : List Tween) → AreApart ts → AreApart (started t ts) }
    ensures cancelled { (node : ℕ) (field : List ℕ) (ts : List Tween) → AreApart ts → AreApart (cancelled node field ts) }
    ensures without_at { (i : ℕ) (ts : List Tween) → AreApart ts → AreApart (without_at i ts) }
    ensures unfinished { (now : ℕ) (ts : List Tween) → AreApart ts → AreApart (unfinished now ts) }
    ensures before { (front back : List Tween) (t : Tween) → AreApart (front ++ t ∷ back) → All (λ u. is_on t.node t.field u ≡ false) front }
    ensures after { (front back : List Tween) (t : Tween) → AreApart (front ++ t ∷ back) → All (λ u. is_on t.node t.field u ≡ false) back }
{}
