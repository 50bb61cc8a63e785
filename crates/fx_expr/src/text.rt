// A text of a program. Contracts see it as its bytes.
ghost use Rattle.std.specs.Prelude.{◌≡◌, ℕ, List, ◌++◌, IfOk, IsUtf8};
ghost use Rattle.std.proofs.Common.{rules};
ghost use Rattle.std.specs.Cmp.{partial_order_from_own_ties};
ghost use Rattle.std.specs.Cmp.Lexicographic.{slice_cmp};
ghost use Rattle.std.specs.Cmp.Rules.{comparing};
ghost use Rattle.std.specs.Ordering.{nat_cmp, as_partial_cmp};
ghost use Rattle.std.specs.Bool.{◌==◌};
ghost use Rattle.std.specs.String.{string_bytes};
ghost use Rattle.std.specs.Fmt.{signed_decimal};
ghost use Rattle.fx_expr.specs.Limit.{cut_text};
ghost use lib.Pointwise.{pointwise};

use std::alloc::{AllocError, Global};
use std::cmp::Ordering;
use std::marker::Model;

// The most bytes that a text made by a form has.
const MAX_BYTES: usize = 1024;

/// A text, which is valid UTF-8. Texts are equal where their bytes are, and are ordered byte by byte.
#[derive(Debug, Drop)]
pub struct Txt {
    text: String,
}

impl Model for Txt {
    ghost Value = { List ℕ };

    ghost view = { λ t. string_bytes t.text };

    ghost invariant = { λ t. IsUtf8 (string_bytes t.text) };
}

impl Txt {
    /// The text that `text` holds.
    pub fn of(text: String) -> Txt
        ensures { result ≡ string_bytes text }
    {
        let _ = text.as_str();
        Txt { text }
    }

    /// The text, lent.
    pub fn get(&self) -> &str
        ensures bytes { result.now ≡ self.now }
        ensures utf8 { IsUtf8 self.now }
    {
        self.text.as_str()
    }

    // The text and another after it, cut at the last character boundary within the limit.
    pub(crate) fn joined(self, other: &Txt) -> Result<Txt, AllocError>
        ensures { IfOk result (λ t. t ≡ cut_text (self ++ other.now)) }
    {
        let mut text = self.text;
        text.push_str(other.text.as_str())?;
        let kept = text.as_str().floor_char_boundary(MAX_BYTES);
        text.truncate(kept);
        let _ = text.as_str();
        Ok(Txt { text })
    }

    // The number in decimal.
    pub(crate) fn shown(alloc: Global, n: i64) -> Result<Txt, AllocError>
        ensures { IfOk result (λ t. t ≡ signed_decimal n) }
    {
        let text = n.to_string(alloc)?;
        let _ = text.as_str();
        Ok(Txt { text })
    }
}

impl Clone for Txt {
    ghost is_clone = { λ a b. b ≡ a };

    fn clone(&self) -> Result<Txt, AllocError> {
        Ok(Txt {
            text: self.text.clone()?,
        })
    }
}

impl PartialEq for Txt {
    ghost eq = { pointwise ◌==◌ };

    ghost laws = { Prim.search (comparing, rules) };

    fn eq(&self, other: &Txt) -> bool {
        self.text == other.text
    }
}

impl Eq for Txt {
    ghost laws = { Prim.search (comparing, rules) };
}

impl PartialOrd for Txt {
    ghost partial_cmp = { as_partial_cmp (slice_cmp nat_cmp) };

    ghost laws = { partial_order_from_own_ties (Prim.search (comparing, rules)) (Prim.search (comparing, rules)) };

    fn partial_cmp(&self, other: &Txt) -> Option<Ordering> {
        Some(self.cmp(other))
    }
}

impl Ord for Txt {
    ghost cmp = { slice_cmp nat_cmp };

    ghost total = { Prim.search (comparing, rules) };

    ghost matches_partial_cmp = { Prim.search (comparing, rules) };

    ghost matches_eq = { Prim.search (comparing, rules) };

    fn cmp(&self, other: &Txt) -> Ordering {
        self.text.cmp(&other.text)
    }
}
