//! What ends a job's listener, and what is told of each request.
ghost use Rattle.std.specs.Prelude.{◌≡◌, ℕ};
ghost use Rattle.line_base.specs.Counts.{raised};

/// What makes the listeners answer that they are closed.
pub trait Stop {
    /// How often it was called. A new one was not. The number stands still at the last value of a
    /// `u64`.
    ghost calls: { Self → ℕ };

    /// Closes the listeners.
    fn stop(&mut self)
        ensures { calls self.new ≡ raised (calls self.old) };
}

/// What a session tells of each request, by the number of its worker: tests hold one request here
/// until another is done.
pub trait Gate {
    /// A request begins.
    fn begin(&self, worker: u32);

    /// It is answered.
    fn done(&self, worker: u32);
}
