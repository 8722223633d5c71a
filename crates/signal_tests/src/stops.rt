//! Stops that are asked for from outside.
use line_base::Stop;
use signal_watch::{RemoteStop, StopCell};
use std::alloc::AllocGlobal;
use std::sync::Wait;
use std::sync::atomic::{AtomicU64, Ordering};
use std::test::Fail;

/// A stop that adds its number to a sum.
#[derive(Drop)]
struct Summed<'a> {
    sum: &'a AtomicU64,
    number: u64,
    calls: u64,
}

impl Stop for Summed<'_> {
    ghost calls = { λ s. s.calls };

    fn stop(&mut self) {
        self.calls = self.calls.saturating_add(1);
        self.sum.fetch_add(self.number, Ordering::SeqCst);
    }
}

/// A stop of this number, which was not called yet.
fn stop_of(sum: &AtomicU64, number: u64) -> Summed<'_> {
    Summed {
        sum,
        number,
        calls: 0,
    }
}

/// What the stops add up to that are called where the first of two is asked for before any is
/// there, or behind so many.
fn called<R: AllocGlobal + Wait>(rt: &R, there: u32) -> Result<u64, Fail> {
    let sum = AtomicU64::new(0);
    let cell = StopCell::new(rt.alloc())?;
    let mut remote = RemoteStop::of(rt, cell.share()?);
    if there == 0 {
        remote.stop();
    }
    cell.leave(rt, stop_of(&sum, 1));
    if there == 1 {
        remote.stop();
    }
    cell.leave(rt, stop_of(&sum, 10));
    if there == 2 {
        remote.stop();
    }
    Ok(sum.load(Ordering::SeqCst))
}

/// An end that was asked for calls the stop that is there, and each that comes later.
#[test]
fn a_remote_stop_calls_those_that_are_left(rt: HostRuntime) -> Result<(), Fail> {
    for (there, sum) in [(0, 11), (1, 11), (2, 10), (3, 0)] {
        assert_eq!(rt; called(&rt, there)?, sum);
    }
    Ok(())
}
