//! The time between two looks.
ghost use Rattle.std.specs.Prelude.{◌≡◌, ℕ};
ghost use Rattle.signal_watch.specs.Watching.{heard_after};

/// What lies between two looks at what may ask for a stop.
pub trait Pause {
    /// How often it said that nothing is left to stop. The number never falls, and stands still at
    /// the last value of a `u64`.
    ghost heard: { Self → ℕ };

    /// Waits for a while, and says whether nothing is left to stop, so that no further look is
    /// needed.
    fn pause(&mut self) -> bool
        ensures { heard self.new ≡ heard_after result (heard self.old) };
}
