//! Laws over the definition of quoted texts.
ghost use Rattle.std.specs.Prelude.{◌≡◌, ◌==◌, false, ℕ, List};
ghost use Rattle.std.specs.List.{list_any};
ghost use Rattle.draw_records.specs.Quoted.{quoted};

/// Two texts with one quoted form are one text.
pub fn quoted_is_injective()
    ensures { (s t : List ℕ) → quoted s ≡ quoted t → s ≡ t }
{}

/// A quoted text has no U+000A, so a reader can split what is printed into lines.
pub fn quoted_is_one_line()
    ensures { (s : List ℕ) → list_any (λ b. b == 10) (quoted s) ≡ false }
{}
