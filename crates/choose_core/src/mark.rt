//! Marks of addresses: how often in a row a replica failed, and until when it is left out.
ghost use Rattle.std.specs.Prelude.{◌≡◌, ◌≤◌, ◌==◌};
ghost use Rattle.choose_core.specs.Mark.{no_mark, marked, is_dead_mark};

/// When a replica is left out for its failures.
#[derive(Clone, Copy, Debug, PartialEq, Eq)]
pub struct Limits {
    /// How many failures in a row leave it out, at least 1.
    pub failures: u32,
    /// For how long, from the last of these failures on, in the unit of moments.
    pub backoff: u64,
}

/// The mark of an address: its failures in a row, and the moment at which it is tried again.
#[derive(Clone, Copy, Debug, PartialEq, Eq)]
pub struct Mark {
    /// Failures since the last success, counted up to [`Limits::failures`].
    pub count: u32,
    /// The address is dead before this moment, where the count stands at [`Limits::failures`].
    pub until: u64,
}

impl Mark {
    /// The mark of an address that did not fail, or not since its last success.
    pub const NONE: Mark = Mark { count: 0, until: 0 };

    /// The mark that a report leaves: none after a success; after a failure one failure more, up to
    /// the limit, and once it is reached the moment plus the backoff, at most 2^64 - 1.
    pub fn after(self, good: bool, moment: u64, limits: Limits) -> Mark
        requires { 1 ≤ limits.failures }
        ensures { result ≡ marked self good moment limits }
    {
        if good {
            return Mark::NONE;
        }
        let count = self.count.saturating_add(1).min(limits.failures);
        let until = if count == limits.failures {
            moment.saturating_add(limits.backoff)
        } else {
            self.until
        };
        Mark { count, until }
    }

    /// Whether an address with this mark is dead at a moment.
    pub fn is_dead(self, moment: u64, limits: Limits) -> bool
        ensures { result ≡ is_dead_mark self moment limits }
    {
        self.count == limits.failures && moment < self.until
    }

    /// Whether this is the mark of an address without failures.
    pub(crate) fn is_none(self) -> bool
        ensures { result ≡ (self.count == 0) }
    {
        self.count == 0
    }
}
