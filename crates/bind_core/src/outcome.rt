//! Outcomes of delegations.
ghost use Rattle.std.specs.Prelude.{◌≡◌};

use crate::trace::{PathList, Trace};
use addr_book::Bound;

/// What a path comes to in a table.
#[derive(Debug, Drop)]
pub enum Outcome {
    /// Nothing is there: neither the table nor the path itself names anything.
    Neg,
    /// `!` was reached: the request fails.
    Fail,
    /// `$` was reached: there is no replica.
    Empty,
    /// A path was reached after 100 lookups in its chain, or its canonical text is longer than
    /// 2,048 bytes.
    TooDeep,
    /// There would be more than 10,000 lookups.
    TooWide,
    /// Replicas were found.
    Bound(Bound),
}

/// Which list a delegation gives beside its outcome and its cost.
#[derive(Debug, Clone, Copy, PartialEq, Eq, Drop)]
pub enum Wanted {
    /// None.
    Neither,
    /// The paths that were looked up.
    Asked,
    /// Each lookup with its depth and how it ended.
    Trace,
}

/// An outcome, and what it took.
pub struct Delegated {
    /// What the path comes to.
    pub outcome: Outcome,
    /// How many lookups were made, at most 10,000; or 10,001, exactly where there would be more.
    pub cost: u32,
    /// Where they were wanted and there are at most 256: the paths that were looked up, in the
    /// order in which their lookups began.
    pub asked: PathList,
    /// Where it was wanted and the outcome isn't too wide: each lookup, in the order in which they
    /// began.
    pub trace: Trace,
}

impl Drop for Delegated {
    fn drop(self) {
        let Delegated {
            outcome,
            cost: _,
            asked,
            trace,
        } = self;
        drop(outcome);
        drop(asked);
        drop(trace);
    }
}

impl Delegated {
    /// Its outcome, the paths that were looked up, and the lookups.
    pub fn into_parts(self) -> (Outcome, PathList, Trace)
        ensures outcome { result.0 ≡ self.outcome }
        ensures asked { result.1 ≡ self.asked }
        ensures trace { result.2 ≡ self.trace }
    {
        let Delegated {
            outcome,
            cost: _,
            asked,
            trace,
        } = self;
        (outcome, asked, trace)
    }
}

impl Outcome {
    ghost use Rattle.bind_core.specs.Outcome.{ending_of};
    ghost use Rattle.bind_core.specs.Stack.{ends_all};

    /// Whether this ends the whole delegation at once, whatever is left to try.
    pub(crate) fn ends_all(&self) -> bool
        ensures { result ≡ ends_all (ending_of self.now) }
    {
        match self {
            Outcome::TooDeep | Outcome::TooWide => true,
            Outcome::Neg | Outcome::Fail | Outcome::Empty | Outcome::Bound(_) => false,
        }
    }
}
