ghost use Rattle.std.specs.Prelude.{◌≡◌, ℕ, ◌+◌, ◌<◌, min};

use std::marker::Model;
use std::sync::ledger::{Blank, Book, Ledger, Share};

/// How many steps were taken. Contracts see the whole number, and `told` gives it to the program. Only `tick` changes it.
#[derive(Drop)]
pub struct Steps<L: Ledger> {
    book: Book<L>,
    share: Share<L>,
    told: u64,
}

impl<L: Ledger> Model for Steps<L> {
    ghost Value = { ℕ };

    ghost view = { λ s. s.book.total };

    ghost invariant = { λ s. (0 < s.share.parts) × (s.told ≡ min s.book.total 0xffff_ffff_ffff_ffff) };
}

impl<L: Ledger> Steps<L> {
    /// A counter at 0, on a ledger that nothing else counts on.
    pub fn at_zero(blank: Blank) -> Steps<L>
        requires name { blank.name ≡ L.name }
        requires parts { blank.parts ≡ L.parts }
        requires some { 0 < L.parts }
        ensures { result ≡ 0 }
    {
        let (book, share) = blank.open();
        Steps {
            book,
            share,
            told: 0,
        }
    }

    /// Adds one step.
    pub fn tick(&mut self)
        ensures { self.new ≡ self.old + 1 }
    {
        self.book.add(&mut self.share, 1);
        self.told = self.told.saturating_add(1);
    }

    /// How many steps were taken, or `u64::MAX` where they were more.
    pub fn told(&self) -> u64
        ensures { result ≡ min self.now 0xffff_ffff_ffff_ffff }
    {
        self.told
    }
}
