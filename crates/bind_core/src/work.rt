//! What a delegation goes by, what it has done, and what it does next.
ghost use Rattle.std.specs.Prelude.{◌≡◌, []};

use crate::frame::Frame;
use crate::outcome::Outcome;
use crate::rewritten::Rewritten;
use crate::tables::Tables;
use crate::visits::Visits;
use addr_book::Book;
use std::alloc::Global;

/// What a delegation goes by.
#[derive(Clone, Copy)]
pub(crate) struct Scene<'a> {
    /// The tables.
    pub(crate) tables: &'a Tables<'a>,
    /// The book of services.
    pub(crate) book: &'a Book,
}

/// What a delegation has done, and what it has left for later.
pub(crate) struct Work<'a> {
    /// What is left of lookups, alternations and unions that have not ended, the innermost last.
    pub(crate) stack: Vec<Frame<'a>>,
    /// How many lookups were made.
    pub(crate) count: u32,
    /// Those lookups, as far as they are kept.
    pub(crate) visits: Visits,
}

impl Drop for Work<'_> {
    fn drop(self) {
        let Work {
            stack,
            count: _,
            visits,
        } = self;
        drop(stack);
        drop(visits);
    }
}

impl<'a> Work<'a> {
    ghost use Rattle.bind_core.specs.Stack.{Fits};

    /// Nothing was done, and so many lookups are kept at most. It takes no memory.
    pub(crate) fn new(alloc: Global, most: u32) -> Work<'a>
        ensures stack { result.stack.items ≡ [] }
        ensures fits { Fits most [] result }
    {
        Work {
            stack: Vec::new(alloc),
            count: 0,
            visits: Visits::new(alloc, most),
        }
    }

    /// The lookups that were kept. What was left for later goes.
    pub(crate) fn into_visits(self) -> Visits
        ensures { result ≡ self.entry.visits }
    {
        let Work {
            stack,
            count: _,
            visits,
        } = self;
        drop(stack);
        visits
    }
}

/// What a delegation does next.
#[derive(Drop)]
pub(crate) enum Task<'a> {
    /// It tries a tree, with so many lookups left in the chain for its leaves.
    Try(Rewritten<'a>, u32),
    /// It tells an outcome to the last frame.
    Tell(Outcome),
}
