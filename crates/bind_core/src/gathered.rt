//! What the branches of a union come to together.
ghost use Rattle.std.specs.Prelude.{◌≡◌, OnOk};

use crate::Mem;
use crate::outcome::Outcome;
use addr_book::{Bound, BoundItem, BoundList};
use std::alloc::Global;

/// What the branches of a union came to that were evaluated. Negative ones leave nothing here.
pub(crate) struct Gathered {
    /// The bound ones, in order.
    found: Vec<BoundItem>,
    /// Whether one fails.
    failing: bool,
    /// Whether one has no replica.
    empty: bool,
}

impl Drop for Gathered {
    fn drop(self) {
        let Gathered {
            found,
            failing: _,
            empty: _,
        } = self;
        drop(found);
    }
}

impl Gathered {
    ghost use Rattle.bind_core.specs.Outcome.{ending_of};
    ghost use Rattle.bind_core.specs.Kept.{kept_of, kept_with, kept_ending, nothing_kept};

    /// Of no branch. It takes no memory.
    pub(crate) fn new(alloc: Global) -> Gathered
        ensures { kept_of result ≡ nothing_kept }
    {
        Gathered {
            found: Vec::new(alloc),
            failing: false,
            empty: false,
        }
    }

    /// Adds what a branch with this weight came to, which is neither too deep nor too wide.
    pub(crate) fn add(&mut self, weight: u64, outcome: Outcome) -> Mem<()>
        ensures { OnOk result (kept_of self.new
            ≡ kept_with (kept_of self.old) weight (ending_of outcome)) }
    {
        match outcome {
            Outcome::Fail => self.failing = true,
            Outcome::Empty => self.empty = true,
            Outcome::Bound(bound) => self.found.push(BoundItem { weight, bound })?,
            Outcome::Neg | Outcome::TooDeep | Outcome::TooWide => {}
        }
        Ok(())
    }

    /// What a union with these branches comes to: bound to the bound ones, if there are any; else
    /// failing if one fails, else empty if one is, else negative.
    pub(crate) fn into_outcome(self) -> Outcome
        ensures { ending_of result ≡ kept_ending (kept_of self) }
    {
        let Gathered {
            found,
            failing,
            empty,
        } = self;
        if !found.is_empty() {
            return Outcome::Bound(Bound::Many(BoundList::of(found)));
        }
        drop(found);
        if failing {
            return Outcome::Fail;
        }
        if empty {
            return Outcome::Empty;
        }
        Outcome::Neg
    }
}
