//! What whole lines are appended to.
ghost use Rattle.std.specs.Prelude.{◌≡◌};

/// How many lines a journal was given. Each count stands still at the last value of a `u64`.
#[derive(Clone, Copy, Debug, PartialEq, Eq)]
pub struct LineCounts {
    /// Those that were written.
    pub written: u64,
    /// Those that were lost.
    pub lost: u64,
}

/// What whole lines are appended to. What it could not write it counts, and never says so to its
/// caller.
pub trait Journal {
    ghost use Rattle.line_log.specs.Logged.{IsAppended, IsLost, Logged, counts_in};

    /// What it tells of itself: its path, the lines that it holds, where it tells them, and its
    /// counts.
    ghost log: { Self → Logged };

    /// Appends a line, which ends in its line feed, or loses it. The moment of the call, in
    /// milliseconds since 1970, says when what it writes to is due to be opened anew.
    fn append(&mut self, line: &[u8], moment: u64)
        ensures { IsAppended (log self.old) line.now (log self.new) };

    /// Counts a line as lost that there was no memory for.
    fn lose(&mut self)
        ensures { IsLost (log self.old) (log self.new) };

    /// Its counts.
    fn counts(&self) -> LineCounts
        ensures { result ≡ counts_in (log self.now) };
}
