//! The lookups that a delegation keeps while it goes on.
ghost use Rattle.std.specs.Prelude.{◌≡◌, map, IfOk, OnOk};

use crate::Mem;
use crate::outcome::Outcome;
use crate::trace::{LookupEnd, PathList, Trace, TraceItem};
use name_tree::Path;
use std::alloc::Global;

/// The lookups that were made, in the order in which they began, while there are no more than so
/// many; none of them otherwise.
pub(crate) struct Visits {
    items: Vec<TraceItem>,
    most: u32,
}

impl Drop for Visits {
    fn drop(self) {
        let Visits { items, most: _ } = self;
        drop(items);
    }
}

impl Visits {
    ghost use Rattle.std.specs.Prelude.{[], nat_lt};
    ghost use Rattle.bind_core.specs.declared.trace.LookupEnd.TheVariants.{TooDeep};
    ghost use Rattle.bind_core.specs.Outcome.{ending_of, ended_as};
    ghost use Rattle.bind_core.specs.Stack.{with_item, end_items};

    /// No lookup was made, and so many are kept at most. It takes no memory.
    pub(crate) fn new(alloc: Global, most: u32) -> Visits
        ensures items { result.items.items ≡ [] }
        ensures most { result.most ≡ most }
    {
        Visits {
            items: Vec::new(alloc),
            most,
        }
    }

    /// Whether any are kept.
    pub(crate) fn are_kept(&self) -> bool
        ensures { result ≡ nat_lt 0 self.now.most }
    {
        self.most > 0
    }

    /// A lookup begins behind so many. Where it is kept, it shares the path. Until it ends it
    /// counts as too deep, since it never ends where something is that.
    pub(crate) fn begin(&mut self, alloc: Global, count: u32, depth: u32, path: &Path) -> Mem<()>
        ensures items { OnOk result (self.new.items.items
            ≡ with_item self.old.most count
            (record { depth = depth; path = path.now; ended = TooDeep }) self.old.items.items) }
        ensures most { self.new.most ≡ self.old.most }
    {
        if count >= self.most {
            self.items.clear();
            return Ok(());
        }
        let path = path.part(alloc, 0, path.len())?;
        self.items.push(TraceItem {
            depth,
            path,
            ended: LookupEnd::TooDeep,
        })?;
        Ok(())
    }

    /// The lookup at a place, counted from 0, ends with an outcome, if it is kept.
    pub(crate) fn end(&mut self, visit: Option<u32>, outcome: &Outcome)
        ensures items { self.new.items.items
            ≡ end_items visit (ended_as (ending_of outcome.now)) self.old.items.items }
        ensures most { self.new.most ≡ self.old.most }
    {
        let Some(at) = visit else {
            return;
        };
        let at = at as usize;
        if at < self.items.len() {
            self.items[at].ended = LookupEnd::of(outcome);
        }
    }

    /// Lets all of them go.
    pub(crate) fn clear(&mut self)
        ensures items { self.new.items.items ≡ [] }
        ensures most { self.new.most ≡ self.old.most }
    {
        self.items.clear();
    }

    /// The lookups that are kept. It takes no memory.
    pub(crate) fn into_trace(self) -> Trace
        ensures { result ≡ self.items.items }
    {
        let Visits { items, most: _ } = self;
        Trace::of(items)
    }

    /// Their paths.
    pub(crate) fn into_paths(self) -> Mem<PathList>
        ensures { IfOk result (λ paths. paths ≡ map (λ i. i.path) self.items.items) }
    {
        let Visits { items, most: _ } = self;
        let mut paths = Vec::with_capacity(*items.allocator(), items.len())?;
        for item in items {
            paths.push(item.into_path())?;
        }
        Ok(PathList::of(paths))
    }
}
