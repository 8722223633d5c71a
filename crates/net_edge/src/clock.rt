//! The machine's clock in milliseconds.
ghost use Rattle.std.specs.Prelude.{None};

use line_base::Clock;
use std::rt;
use std::time::{Duration, Instant, SystemTime, UNIX_EPOCH};

/// The clock of the machine, in milliseconds since 1970. It never goes back: it asks for the date
/// once, and then counts on from there.
///
/// A moment at which the machine's clock can't be read is the last one that was told.
#[derive(Drop)]
pub struct SystemClock<'a, R> {
    rt: &'a R,
    begin: Option<Instant>,
    first: u64,
    last: u64,
}

/// Its milliseconds, or the most that there are.
fn milliseconds(duration: Duration) -> u64 {
    u64::try_from(duration.as_millis()).unwrap_or(u64::MAX)
}

/// The date in milliseconds, 0 where it can't be told.
fn date<R: rt::Clock>(rt: &R) -> u64 {
    let Ok(now) = SystemTime::now(rt) else {
        return 0;
    };
    match now.duration_since(UNIX_EPOCH) {
        Ok(since) => milliseconds(since),
        Err(_) => 0,
    }
}

impl<'a, R: rt::Clock> SystemClock<'a, R> {
    /// The clock that is reached by `rt`.
    pub fn of(rt: &'a R) -> SystemClock<'a, R> {
        let first = date(rt);
        SystemClock {
            rt,
            begin: Instant::now(rt).ok(),
            first,
            last: first,
        }
    }
}

impl<R: rt::Clock> Clock for SystemClock<'_, R> {
    ghost to_come = { λ _. None };

    ghost of_fork = { λ _. None };

    fn now(&mut self) -> u64 {
        let Some(begin) = self.begin else {
            return self.last;
        };
        if let Ok(since) = begin.elapsed(self.rt) {
            let moment = self.first.saturating_add(milliseconds(since));
            self.last = self.last.max(moment);
        }
        self.last
    }

    fn fork(&self) -> Self {
        SystemClock {
            rt: self.rt,
            begin: self.begin,
            first: self.first,
            last: self.last,
        }
    }
}
