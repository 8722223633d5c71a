//! What tells the moment.
ghost use Rattle.std.specs.Prelude.{◌≡◌, List, ℕ, Option};
ghost use Rattle.line_base.specs.Clocks.{Begins, Tells};

/// What tells the moment, in milliseconds.
pub trait Clock {
    /// The moments to come, where they are told; the last one then stays.
    ghost to_come: { Self → Option (List ℕ) };

    /// The moments that a fork has to come, where they are told.
    ghost of_fork: { Self → Option (List ℕ) };

    /// The moment of this call.
    fn now(&mut self) -> u64
        ensures tells { Tells (to_come self.old) (to_come self.new) result }
        ensures fork { of_fork self.new ≡ of_fork self.old };

    /// Another clock over the same time. It takes no memory. Where it tells its moments, it begins
    /// with the first.
    fn fork(&self) -> Self
        ensures { Begins (of_fork self.now) (to_come result)
            × Begins (of_fork self.now) (of_fork result) };
}
