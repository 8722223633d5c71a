//! A count of steps that takes no memory and no time: what a contract says of how much work is
//! done.
//!
//! Whoever works out a delegation is lent a [`Steps`] and calls [`Steps::tick`] once for each turn
//! of its loop and each look into a table. A clause then bounds the work by what the count has
//! risen by, and says that a path which was found in a cache made none at all. The count is a
//! ghost: it is a share of a ledger, and the program that runs has neither a number nor an addition
//! for it.
//!
//! # What is proved
//! [`Steps::tick`] adds one, and nothing else moves the count.
//!
//! It has no tests: nothing of it runs.
//!
//! # Example
//! ```
//! let mut steps = Steps::<L>::start(blank);
//! steps.tick();
//! ```
#![tactic(auto)]

ghost use Rattle.std.specs.Prelude.{◌≡◌, ◌+◌, ◌<◌, ℕ};

use std::marker::Model;
use std::sync::ledger::{Blank, Book, Ledger, Share};

/// How many steps were taken. It takes no bytes and no time, and only [`Steps::tick`] changes it.
pub struct Steps<L: Ledger> {
    book: Book<L>,
    share: Share<L>,
}

impl<L: Ledger> Drop for Steps<L> {
    fn drop(self) {
        let Steps { book, share } = self;
        drop(book);
        drop(share);
    }
}

impl<L: Ledger> Model for Steps<L> {
    ghost Value = { ℕ };

    ghost view = { λ s. s.book.total };

    ghost invariant = { λ s. 0 < s.share.parts };
}

impl<L: Ledger> Steps<L> {
    /// Steps over a new ledger, at 0.
    pub fn start(blank: Blank) -> Steps<L>
        requires name { blank.name ≡ L.name }
        requires parts { blank.parts ≡ L.parts }
        requires some { 0 < blank.parts }
        ensures { result ≡ 0 }
    {
        let (book, share) = blank.open::<L>();
        Steps { book, share }
    }

    /// Counts one step more.
    pub fn tick(&mut self)
        ensures { self.new ≡ self.old + 1 }
    {
        self.book.add(&mut self.share, 1);
    }
}
