//! A clock in memory.
ghost use Rattle.std.specs.Prelude.{◌≡◌, Some, IfOk};

use line_base::{Clock, Mem};
use std::alloc::Global;
use std::marker::Model;
use std::sync::Arc;

/// A clock that gives the moments of a list, and then its last one again and again; 0 where the
/// list has none.
///
/// Its forks share the list. Of more than 2^63 of them the further ones give 0 and tell nothing.
pub struct MemClock {
    moments: Option<Arc<Vec<u64>>>,
    at: usize,
}

impl Drop for MemClock {
    fn drop(self) {
        let MemClock { moments, at: _ } = self;
        drop(moments);
    }
}

impl Model for MemClock {
    ghost use Rattle.std.specs.Prelude.{Vec, ℕ, drop, option_map};
    ghost use Rattle.std.specs.Global.{Global};
    ghost use Rattle.std.specs.declared.sync.Arc.{Arc};
    ghost use Rattle.std.specs.Arc.{arc_value};
    ghost use Rattle.line_doubles.specs.Memory.{Timing};

    ghost Value = { Timing };

    ghost view = { λ c. record {
      all = option_map
          (λ (m : Arc (Vec ℕ Global) Global). (arc_value m).items) c.moments;
      to_come = option_map (λ (m : Arc (Vec ℕ Global) Global). drop c.at (arc_value m).items)
          c.moments;
    } };
}

impl MemClock {
    /// A clock that begins with the first of these moments.
    pub fn of(alloc: Global, moments: Vec<u64>) -> Mem<MemClock>
        ensures { IfOk result
            (λ c. c ≡ record { all = Some moments.items; to_come = Some moments.items }) }
    {
        let moments = Arc::new(alloc, moments)?;
        Ok(MemClock {
            moments: Some(moments),
            at: 0,
        })
    }
}

impl Clock for MemClock {
    ghost to_come = { λ c. c.to_come };

    ghost of_fork = { λ c. c.all };

    fn now(&mut self) -> u64 {
        let Some(moments) = &self.moments else {
            return 0;
        };
        let count = moments.len();
        let Some(moment) = moments.get(self.at).copied() else {
            return 0;
        };
        if self.at + 1 < count {
            self.at += 1;
        }
        moment
    }

    fn fork(&self) -> MemClock {
        let moments = match &self.moments {
            Some(moments) => Arc::try_clone(moments).ok(),
            None => None,
        };
        MemClock { moments, at: 0 }
    }
}
