//! Clients that are to be served beside one another.
ghost use Rattle.std.specs.Prelude.{None};

use line_base::{Failed, Next, Peer, SocketAddress};
use line_doubles::MemPeer;
use std::sync::atomic::{AtomicBool, Ordering};
use std::thread;

/// How often a client looks whether the other one is there.
const LOOKS: u32 = 100_000_000;

/// How many looks there are from one that lets other threads go on to the next.
const LOOKS_A_YIELD: u32 = 16;

/// A client that asks only once another one is being read too. Where that one does not come, its
/// reads fail. It may have nothing to say at first.
///
/// It tells no content.
pub(crate) struct Paired<'a> {
    /// Raised at its first read.
    here: &'a AtomicBool,
    /// Raised at the first read of the other one.
    there: &'a AtomicBool,
    /// What it asks, and what it is answered.
    client: MemPeer,
    /// Whether it has nothing to say when it is next asked for a request.
    pauses: bool,
    read_faults: u64,
    quiets: u64,
}

impl Drop for Paired<'_> {
    fn drop(self) {
        let Paired {
            here: _,
            there: _,
            client,
            pauses: _,
            read_faults: _,
            quiets: _,
        } = self;
        drop(client);
    }
}

impl<'a> Paired<'a> {
    /// A client that has yet to be read.
    pub(crate) fn of(here: &'a AtomicBool, there: &'a AtomicBool, client: MemPeer) -> Paired<'a> {
        Paired {
            here,
            there,
            client,
            pauses: false,
            read_faults: 0,
            quiets: 0,
        }
    }

    /// Such a client, which has nothing to say at first.
    pub(crate) fn pausing(
        here: &'a AtomicBool,
        there: &'a AtomicBool,
        client: MemPeer,
    ) -> Paired<'a> {
        Paired {
            here,
            there,
            client,
            pauses: true,
            read_faults: 0,
            quiets: 0,
        }
    }

    /// What it asks, and what it is answered.
    pub(crate) fn client(&self) -> &MemPeer {
        &self.client
    }
}

/// Whether a flag is raised, now or within many looks.
pub(crate) fn comes_up(flag: &AtomicBool) -> bool {
    for look in 0..LOOKS {
        if flag.load(Ordering::SeqCst) {
            return true;
        }
        if look % LOOKS_A_YIELD == 0 {
            thread::yield_now();
        }
    }
    false
}

impl Peer for Paired<'_> {
    ghost line = { λ p. record {
      left = None;
      given = None;
      read_faults = p.read_faults;
      write_faults = p.client.sink.faults;
      ends = p.client.source.ends;
      closings = p.client.notice.told;
      quiets = p.quiets;
    } };

    ghost address = { λ p. p.client.address };

    fn address(&self) -> Option<SocketAddress> {
        self.client.address()
    }

    fn read(&mut self, into: &mut [u8]) -> Result<usize, Failed> {
        if into.is_empty() {
            return Ok(0);
        }
        self.here.store(true, Ordering::SeqCst);
        if !comes_up(self.there) {
            self.read_faults = self.read_faults.saturating_add(1);
            return Err(Failed);
        }
        let read = self.client.read(into);
        if read.is_err() {
            self.read_faults = self.read_faults.saturating_add(1);
        }
        read
    }

    fn read_next(&mut self, into: &mut [u8]) -> Result<Next, Failed> {
        if self.pauses {
            self.pauses = false;
            self.quiets = self.quiets.saturating_add(1);
            return Ok(Next::Quiet);
        }
        match self.read(into)? {
            0 => Ok(Next::End),
            count => Ok(Next::Bytes(count)),
        }
    }

    fn is_closing(&mut self) -> bool {
        self.client.is_closing()
    }

    fn write(&mut self, bytes: &[u8]) -> Result<usize, Failed> {
        self.client.write(bytes)
    }
}
