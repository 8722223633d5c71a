//! The lookups that a delegation makes.
ghost use Rattle.std.specs.Prelude.{◌≡◌};

use crate::outcome::Outcome;
use name_tree::Path;
use std::marker::Model;

/// How a lookup ended.
#[derive(Debug, Clone, Copy, PartialEq, Eq, Drop)]
pub enum LookupEnd {
    /// The path named nothing.
    Negative,
    /// `!` was reached.
    Failing,
    /// `$` was reached.
    Empty,
    /// It was too deep, or it had not ended when something else was.
    TooDeep,
    /// It was bound.
    Bound,
}

impl LookupEnd {
    ghost use Rattle.bind_core.specs.Outcome.{ending_of, ended_as};

    /// As a lookup with this outcome. None is too wide by itself.
    pub(crate) fn of(outcome: &Outcome) -> LookupEnd
        ensures { result ≡ ended_as (ending_of outcome.now) }
    {
        match outcome {
            Outcome::Neg => LookupEnd::Negative,
            Outcome::Fail => LookupEnd::Failing,
            Outcome::Empty => LookupEnd::Empty,
            Outcome::TooDeep | Outcome::TooWide => LookupEnd::TooDeep,
            Outcome::Bound(_) => LookupEnd::Bound,
        }
    }
}

/// A lookup that a delegation made.
pub struct TraceItem {
    /// How many lookups came before it in its chain: 0 for the path that was asked for.
    pub depth: u32,
    /// The path that was looked up.
    pub path: Path,
    /// How it ended.
    pub ended: LookupEnd,
}

impl Drop for TraceItem {
    fn drop(self) {
        let TraceItem {
            depth: _,
            path,
            ended: _,
        } = self;
        drop(path);
    }
}

impl TraceItem {
    /// The path that was looked up.
    pub(crate) fn into_path(self) -> Path
        ensures { result ≡ self.path }
    {
        let TraceItem {
            depth: _,
            path,
            ended: _,
        } = self;
        path
    }
}

/// The lookups of a delegation, in the order in which they began. Contracts see the list of them.
pub struct Trace {
    items: Vec<TraceItem>,
}

impl Drop for Trace {
    fn drop(self) {
        let Trace { items } = self;
        drop(items);
    }
}

impl Model for Trace {
    ghost use Rattle.std.specs.Prelude.{List};
    ghost use Rattle.bind_core.specs.declared.trace.TraceItem.{TraceItem};

    ghost Value = { List TraceItem };

    ghost view = { λ t. t.items.items };
}

impl Trace {
    /// These lookups, in their order. It takes no memory.
    pub fn of(items: Vec<TraceItem>) -> Trace
        ensures { result ≡ items.items }
    {
        Trace { items }
    }

    /// The lookups, in order.
    pub fn items(&self) -> &[TraceItem]
        ensures { result.now ≡ self.now }
    {
        self.items.as_slice()
    }
}

/// Some paths, in order. Contracts see the list of them.
pub struct PathList {
    items: Vec<Path>,
}

impl Drop for PathList {
    fn drop(self) {
        let PathList { items } = self;
        drop(items);
    }
}

impl Model for PathList {
    ghost use Rattle.std.specs.Prelude.{List, ℕ};

    ghost Value = { List (List (List ℕ)) };

    ghost view = { λ l. l.items.items };
}

impl PathList {
    /// These paths, in their order. It takes no memory.
    pub fn of(items: Vec<Path>) -> PathList
        ensures { result ≡ items.items }
    {
        PathList { items }
    }

    /// The paths, in order.
    pub fn items(&self) -> &[Path]
        ensures { result.now ≡ self.now }
    {
        self.items.as_slice()
    }
}
