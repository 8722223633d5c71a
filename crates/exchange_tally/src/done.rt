//! One exchange, once it has ended.
ghost use Rattle.std.specs.Prelude.{◌≡◌};
ghost use Rattle.exchange_tally.specs.Worth.{lasted};

use access_log::{Answer, Break};
use addr_book::Addr;

/// What one exchange was, in numbers. It owns nothing, so it may be kept after its head is gone.
#[derive(Clone, Copy, Debug)]
pub struct Done {
    /// What the client was answered.
    pub answer: Answer,
    /// The address of the replica that was tried last, if one was.
    pub replica: Option<Addr>,
    /// How often a replica was tried.
    pub tries: u64,
    /// How many failures of replicas were reported.
    pub failures: u64,
    /// How many bytes of the request's content went on to the replica that was tried last.
    pub request_bytes: u64,
    /// How many bytes of the reply's content went back to the client: of a reply of the router's
    /// own the whole content, also where its write failed.
    pub reply_bytes: u64,
    /// How many of its asks for a replica found a delegation that was kept.
    pub hits: u64,
    /// How many did not.
    pub misses: u64,
    /// What cut the exchange off, if something did.
    pub broken: Option<Break>,
}

/// An exchange, and when it was.
#[derive(Clone, Copy)]
pub struct Timed {
    /// What it was.
    pub done: Done,
    /// When its request's head had been read, in milliseconds since 1970.
    pub begun: u64,
    /// When its reply had ended.
    pub ended: u64,
}

impl Timed {
    /// How many milliseconds it took: none where the clock went back.
    pub fn lasted(&self) -> u64
        ensures { result ≡ lasted self.now }
    {
        self.ended.saturating_sub(self.begun)
    }
}
