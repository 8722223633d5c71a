//! Moments are those of the system.
use line_base::Clock;
use net_edge::SystemClock;
use std::test::Fail;
use std::time::Duration;
use std::{rt, thread};

/// Two moments, and a pause between them; and then a moment of a fork of the clock.
fn moments<C: Clock + Drop, R: rt::Clock>(rt: &R, clock: &mut C, pause: u64) -> [u64; 3] {
    let first = clock.now();
    thread::sleep(rt, Duration::from_millis(pause));
    let then = clock.now();
    let mut fork = clock.fork();
    let forked = fork.now();
    drop(fork);
    [first, then, forked]
}

/// Moments are milliseconds since 1970, which was long ago. Those of a fork don't fall behind.
#[test]
fn moments_are_milliseconds(rt: HostRuntime) -> Result<(), Fail> {
    let [first, then, forked] = moments(&rt, &mut SystemClock::of(&rt), 50);
    let waited = then.saturating_sub(first);
    assert!(rt; first > 1_700_000_000_000 && waited >= 50 && waited < 10_000 && then <= forked);
    Ok(())
}
