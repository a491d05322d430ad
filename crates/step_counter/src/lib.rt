//! A counter of steps that exists for contracts alone.
//!
//! A call whose work is bounded takes `steps: &mut Steps<L>` last, and its contract says by how much the
//! count rises. [`Steps`] takes no bytes, and [`Steps::tick`] does nothing at run time: the count is a token of
//! the ledger `L` (`std::sync::ledger`), which no code can copy, reset or lower.
//!
//! **Model.** A counter is seen as the number of steps that were taken.
//!
//! **Contract.** A new counter stands at 0, and each tick adds 1. What a tick stands for is said by the crate that ticks.
//!
//! A caller that promises nothing on steps makes a counter of its own within its call: it passes
//! `Blank::new(1)` and the marker type `Brand` to a function that is generic in the ledger and begins with
//! [`Steps::new`], and names that blank's ledger in its proof.

#![tactic(auto)]

ghost use Rattle.std.specs.Prelude.{◌≡◌, ◌+◌, ◌<◌};

use std::marker::Model;
use std::sync::ledger::{Blank, Book, Ledger, Share};

/// How many steps were taken, as a number that only contracts see.
#[derive(Drop)]
pub struct Steps<L: Ledger> {
    book: Book<L>,
    share: Share<L>,
}

impl<L: Ledger> Model for Steps<L> {
    ghost use Rattle.std.specs.Prelude.{ℕ, ◌<◌};

    ghost Value = { ℕ };

    ghost view = { λ s. s.book.total };

    ghost invariant = { λ s. 0 < s.share.parts };
}

impl<L: Ledger> Steps<L> {
    /// A counter that stands at 0, on the ledger that `blank` opens.
    pub fn new(blank: Blank) -> Self
        requires name { blank.name ≡ L.name }
        requires parts { blank.parts ≡ L.parts }
        requires some { 0 < blank.parts }
        ensures { result ≡ 0 }
    {
        let (book, share) = blank.open::<L>();
        Steps { book, share }
    }

    /// Counts one step.
    pub fn tick(&mut self)
        ensures { self.new ≡ self.old + 1 }
    {
        self.book.add(&mut self.share, 1);
    }
}
