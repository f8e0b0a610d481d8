//! The count of steps that searches and walks take.
ghost use Rattle.std.specs.Prelude.{◌≡◌, ◌+◌, ◌<◌};

use std::marker::Model;
use std::sync::ledger::{Blank, Book, Ledger, Share};

/// How many steps were taken. It takes no bytes, and only `tick` changes it.
#[derive(Drop)]
pub struct Steps<L: Ledger> {
    book: Book<L>,
    share: Share<L>,
}

impl<L: Ledger> Model for Steps<L> {
    ghost use Rattle.std.specs.Prelude.{ℕ, ◌<◌};

    ghost Value = { ℕ };

    ghost view = { λ s. s.book.total };

    ghost invariant = { λ s. 0 < s.share.parts };
}

/// A counter that no ledger stands for yet. `Steps::open` makes it one at zero.
pub fn new_counter() -> Blank
    ensures { 0 < result.parts }
{
    Blank::new(1)
}

impl<L: Ledger> Steps<L> {
    /// A counter at zero. The ledger is picked where a function over any `L` is called at `Brand`.
    pub fn open(counter: Blank) -> Steps<L>
        requires name { counter.name ≡ L.name }
        requires parts { counter.parts ≡ L.parts }
        requires shared { 0 < counter.parts }
        ensures { result ≡ 0 }
    {
        let (book, share) = counter.open();
        Steps { book, share }
    }

    /// Counts one step.
    pub fn tick(&mut self)
        ensures { self.new ≡ self.old + 1 }
    {
        self.book.add(&mut self.share, 1);
    }
}
