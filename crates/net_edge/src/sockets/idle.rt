//! A connection that is kept.
ghost use Rattle.std.specs.Prelude.{◌≡◌, true};

use super::upstream::Upstream;
use std::rt::Clock;
use std::time::{Duration, Instant};

/// A connection that is kept, and since when.
#[derive(Drop)]
pub(crate) struct IdleUpstream {
    pub(crate) upstream: Upstream,
    pub(crate) since: Instant,
}

impl IdleUpstream {
    /// Whether it leads there.
    pub(crate) fn is_to(&self, ip: u32, port: u16) -> bool
        ensures { result ≡ true
            → (self.now.upstream.ip ≡ ip) × (self.now.upstream.port ≡ port) }
    {
        self.upstream.ip == ip && self.upstream.port == port
    }

    /// Whether it was put aside more than so many milliseconds ago, or nobody can tell.
    pub(crate) fn is_idle<R: Clock>(&self, rt: &R, milliseconds: u32) -> bool {
        match self.since.elapsed(rt) {
            Ok(elapsed) => elapsed > Duration::from_millis(u64::from(milliseconds)),
            Err(_) => true,
        }
    }
}
