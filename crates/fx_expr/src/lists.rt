// The lists that a program's values hold. Contracts see each as its list.
ghost use Rattle.std.specs.Prelude.{◌≡◌, ℕ, ℤ, List};
ghost use Rattle.std.proofs.Common.{rules, refl};
ghost use Rattle.std.specs.Cmp.{partial_order_from_own_ties};
ghost use Rattle.std.specs.Cmp.Lexicographic.{slice_cmp, lists_ties, texts_ties};
ghost use Rattle.std.specs.Cmp.Rules.{comparing};
ghost use Rattle.std.specs.Ordering.{nat_cmp, int_cmp, int_eq, as_partial_cmp};
ghost use Rattle.std.specs.Bool.{◌==◌};
ghost use lib.Pointwise.{pointwise};

use crate::text::Txt;
use std::alloc::AllocError;
use std::cmp::Ordering;
use std::marker::Model;

/// A list of integers.
#[derive(Debug, Drop)]
pub struct IntList {
    items: Vec<i64>,
}

impl Model for IntList {
    ghost Value = { List ℤ };

    ghost view = { λ l. l.items.items };
}

impl IntList {
    /// The list that `items` holds.
    pub fn of(items: Vec<i64>) -> IntList
        ensures { result ≡ items.items }
    {
        IntList { items }
    }

    /// The items, lent.
    pub fn get(&self) -> &[i64]
        ensures { result.now ≡ self.now }
    {
        self.items.as_slice()
    }

    // The items, given up.
    pub(crate) fn into_items(self) -> Vec<i64>
        ensures { result.items ≡ self }
    {
        self.items
    }
}

impl Clone for IntList {
    ghost is_clone = { λ a b. b ≡ a };

    fn clone(&self) -> Result<IntList, AllocError> {
        Ok(IntList {
            items: self.items.clone()?,
        })
    }
}

impl PartialEq for IntList {
    ghost eq = { pointwise int_eq };

    ghost laws = { Prim.search (comparing, rules) };

    fn eq(&self, other: &IntList) -> bool {
        self.items == other.items
    }
}

impl Eq for IntList {
    ghost laws = { Prim.search (comparing, rules) };
}

/// A list of texts.
#[derive(Debug, Drop)]
pub struct TextList {
    items: Vec<Txt>,
}

impl Model for TextList {
    ghost Value = { List (List ℕ) };

    ghost view = { λ l. l.items.items };
}

impl TextList {
    /// The list that `items` holds.
    pub fn of(items: Vec<Txt>) -> TextList
        ensures { result ≡ items.items }
    {
        TextList { items }
    }

    /// The items, lent.
    pub fn get(&self) -> &[Txt]
        ensures { result.now ≡ self.now }
    {
        self.items.as_slice()
    }

    // The items, given up.
    pub(crate) fn into_items(self) -> Vec<Txt>
        ensures { result.items ≡ self }
    {
        self.items
    }
}

impl Clone for TextList {
    ghost is_clone = { λ a b. b ≡ a };

    fn clone(&self) -> Result<TextList, AllocError> {
        Ok(TextList {
            items: self.items.clone()?,
        })
    }
}

impl PartialEq for TextList {
    ghost eq = { pointwise (pointwise ◌==◌) };

    ghost laws = { Prim.search (comparing, rules) };

    fn eq(&self, other: &TextList) -> bool {
        self.items == other.items
    }
}

impl Eq for TextList {
    ghost laws = { Prim.search (comparing, rules) };
}

impl PartialOrd for IntList {
    ghost partial_cmp = { as_partial_cmp (slice_cmp int_cmp) };

    ghost laws = { partial_order_from_own_ties (Prim.search (comparing, rules)) (lists_ties int_cmp (λ _ _. refl)) };

    fn partial_cmp(&self, other: &IntList) -> Option<Ordering> {
        Some(self.cmp(other))
    }
}

impl Ord for IntList {
    ghost cmp = { slice_cmp int_cmp };

    ghost total = { Prim.search (comparing, rules) };

    ghost matches_partial_cmp = { Prim.search (comparing, rules) };

    ghost matches_eq = { lists_ties int_cmp (λ _ _. refl) };

    fn cmp(&self, other: &IntList) -> Ordering {
        self.items.cmp(&other.items)
    }
}

impl PartialOrd for TextList {
    ghost partial_cmp = { as_partial_cmp (slice_cmp (slice_cmp nat_cmp)) };

    ghost laws = { partial_order_from_own_ties (Prim.search (comparing, rules)) (lists_ties (slice_cmp nat_cmp) texts_ties) };

    fn partial_cmp(&self, other: &TextList) -> Option<Ordering> {
        Some(self.cmp(other))
    }
}

impl Ord for TextList {
    ghost cmp = { slice_cmp (slice_cmp nat_cmp) };

    ghost total = { Prim.search (comparing, rules) };

    ghost matches_partial_cmp = { Prim.search (comparing, rules) };

    ghost matches_eq = { lists_ties (slice_cmp nat_cmp) texts_ties };

    fn cmp(&self, other: &TextList) -> Ordering {
        self.items.cmp(&other.items)
    }
}
