//! The body of a reply, gathered in memory.
ghost use Rattle.std.specs.Prelude.{◌≡◌, []};

use line_base::{Failed, Next, Peer, SocketAddress};
use std::alloc::Global;

/// Gathers the bytes that are written to it, and gives none: the peer behind a reply that is read
/// rather than passed on. A write fails where there is no memory for it.
pub(crate) struct Gathered {
    pub(crate) bytes: Vec<u8>,
    faults: u64,
    ends: u64,
}

impl Drop for Gathered {
    fn drop(self) {
        let Gathered {
            bytes,
            faults: _,
            ends: _,
        } = self;
        drop(bytes);
    }
}

impl Gathered {
    /// Nothing yet.
    pub(crate) fn new(alloc: Global) -> Gathered
        ensures { result.bytes.items ≡ [] }
    {
        Gathered {
            bytes: Vec::new(alloc),
            faults: 0,
            ends: 0,
        }
    }
}

impl Peer for Gathered {
    ghost use Rattle.std.specs.Prelude.{None, Some};

    ghost line = { λ g. record {
      left = None;
      given = Some g.bytes.items;
      read_faults = 0;
      write_faults = g.faults;
      ends = g.ends;
      closings = 0;
      quiets = 0;
    } };

    ghost address = { λ g. None };

    fn address(&self) -> Option<SocketAddress> {
        None
    }

    fn read(&mut self, into: &mut [u8]) -> Result<usize, Failed> {
        if !into.is_empty() {
            self.ends = self.ends.saturating_add(1);
        }
        Ok(0)
    }

    fn read_next(&mut self, _into: &mut [u8]) -> Result<Next, Failed> {
        self.ends = self.ends.saturating_add(1);
        Ok(Next::End)
    }

    fn is_closing(&mut self) -> bool {
        false
    }

    fn write(&mut self, bytes: &[u8]) -> Result<usize, Failed> {
        match self.bytes.extend_from_slice(bytes) {
            Ok(()) => Ok(bytes.len()),
            Err(_) => {
                self.faults = self.faults.saturating_add(1);
                Err(Failed)
            }
        }
    }
}
