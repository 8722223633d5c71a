//! A stop that is counted.
ghost use Rattle.std.specs.Prelude.{◌≡◌};

use line_base::Stop;
use std::marker::Model;

/// A stop that closes nothing. Contracts see how often it was called.
#[derive(Drop)]
pub struct MemStop {
    calls: u64,
}

impl Model for MemStop {
    ghost use Rattle.std.specs.Prelude.{ℕ};

    ghost Value = { ℕ };

    ghost view = { λ s. s.calls };
}

impl MemStop {
    /// It was not called yet.
    pub fn new() -> MemStop
        ensures { result ≡ 0 }
    {
        MemStop { calls: 0 }
    }

    /// How often it was called.
    pub fn calls(&self) -> u64
        ensures { result ≡ self.now }
    {
        self.calls
    }
}

impl Stop for MemStop {
    ghost calls = { λ s. s };

    fn stop(&mut self) {
        self.calls = self.calls.saturating_add(1);
    }
}
