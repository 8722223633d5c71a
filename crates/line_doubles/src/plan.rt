//! Which calls on an object in memory fail, and how many bytes the others move.
ghost use Rattle.std.specs.Prelude.{◌≡◌, ◌≤◌, ◌^◌, ◌-◌, ◌<◌, ◌↔◌, IsErr, IfOk};
ghost use Rattle.line_doubles.specs.Memory.{called, piece_of, FailsNext};

use line_base::Failed;
use std::marker::Model;

/// The calls that are to fail, by their numbers from 0, and the most bytes of each.
pub(crate) struct CallPlan {
    sizes: Vec<usize>,
    failing: Vec<u64>,
    calls: u64,
}

impl Drop for CallPlan {
    fn drop(self) {
        let CallPlan {
            sizes,
            failing,
            calls: _,
        } = self;
        drop(sizes);
        drop(failing);
    }
}

impl Model for CallPlan {
    ghost use Rattle.line_doubles.specs.Memory.{Plan};

    ghost Value = { Plan };

    ghost view = { λ p. record {
      sizes = p.sizes.items;
      failing = p.failing.items;
      calls = p.calls;
    } };
}

impl CallPlan {
    /// No call was made yet.
    pub(crate) fn of(sizes: Vec<usize>, failing: Vec<u64>) -> CallPlan
        ensures { result ≡ record { sizes = sizes.items; failing = failing.items; calls = 0 } }
    {
        CallPlan {
            sizes,
            failing,
            calls: 0,
        }
    }

    /// The number of the next call.
    pub(crate) fn next(&self) -> u64
        ensures { result ≡ self.now.calls }
    {
        self.calls
    }

    /// Counts a call, and gives the most bytes that it may move, at least 1; or it is one of those
    /// that fail.
    pub(crate) fn call(&mut self) -> Result<usize, Failed>
        ensures called { self.new ≡ called self.old }
        ensures fails { IsErr result ↔ FailsNext self.old }
        ensures size { IfOk result (λ n. (n ≡ piece_of self.old) × (1 ≤ n)) }
    {
        let call = self.calls;
        self.calls = call.saturating_add(1);
        if self.failing.contains(&call) {
            return Err(Failed);
        }
        let size = self.sizes.get(call as usize).copied();
        Ok(size.unwrap_or(usize::MAX).max(1))
    }
}
