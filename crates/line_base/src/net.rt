//! What makes listeners, dialers and stops, and takes them back.
ghost use Rattle.std.specs.Prelude.{◌≡◌, ◌≤◌, ◌↔◌, ℕ, [], length, None, IsErr, IfOk};
ghost use Rattle.std.specs.Prelude.{if◌then◌else◌};
ghost use Rattle.line_base.specs.Counts.{HasCause, raised};

use crate::dialer::{ConnectionPool, Dialer};
use crate::listener::{Listener, Listeners};
use crate::outside::Failed;
use crate::signals::Stop;

/// Why a net made no listeners.
#[derive(Clone, Copy, Debug, PartialEq, Eq)]
pub enum NetFault {
    /// The address can't be listened on. The net's count of faults rose.
    Failed,
    /// There was no memory for the listeners.
    OutOfMemory,
}

/// How many waits for an event in a row have failed when a listener counts as broken.
pub const BROKEN_RUN: u64 = 100;

/// How many listeners have come back clean, behind one more that was or was not: what a net counts
/// where it takes a listener back ([`Net::end`]). The count stands still at the last value of a
/// `u64`.
pub fn count_clean(clean: u64, is_clean: bool) -> u64
    ensures { result ≡ (if is_clean then raised clean else clean) }
{
    if is_clean {
        clean.saturating_add(1)
    } else {
        clean
    }
}

/// What makes listeners for addresses, dialers, and stops that close the listeners; and takes them
/// back.
pub trait Net {
    ghost use Rattle.line_base.specs.Nets.{AreNew, HasNetCause, IsNewLog, Networking, after_end};
    ghost use Rattle.line_base.specs.Nets.{after_listen, after_stopper, log_of};

    /// Its listeners.
    type L: Listener + Drop + Send;

    /// Its dialers.
    type D: Dialer + Drop + Send;

    /// Its stops.
    type S: Stop + Drop + Send;

    /// What came back, where it tells it; and, always, how many listeners came back clean, how many
    /// peers they handed out and took back, how many stops it handed out, and how many came back.
    ghost state: { Self → Networking Self.L.P };

    /// How often a call failed. The count never falls, and stands still at the last value of a
    /// `u64`.
    ghost faults: { Self → ℕ };

    /// So many listeners for an IPv4 address, whose first byte is the highest, and a port. Beside
    /// each of them the process will want room for a dialer with so many kept connections.
    fn listen(
        &mut self,
        ip: u32,
        port: u16,
        copies: u32,
        kept: u32,
    ) -> Result<Listeners<Self::L>, NetFault>
        ensures count { IfOk result (λ ls. length ls ≡ copies) }
        ensures new { IfOk result (AreNew Self.L.state (state self.old).told ip port) }
        ensures state { state self.new ≡ after_listen (state self.old) copies result }
        ensures cause { HasNetCause (faults self.old) (faults self.new) result };

    /// How many connections of the listeners may wait beside those that are served, at most `most`:
    /// so many the process has room for, beside what `listen` was promised. It is asked for behind
    /// the last `listen`.
    fn waiting_room(&mut self, most: u32) -> u32
        ensures most { result ≤ most }
        ensures kept { (state self.new ≡ state self.old) × (faults self.new ≡ faults self.old) };

    /// A new dialer, which keeps connections in such a pool. Where the pool has no room for any, it
    /// keeps none.
    fn dialer(&mut self, pool: ConnectionPool) -> Self::D
        ensures closed { (Self.D.upstream result).open_to ≡ None }
        ensures none_kept { (Self.D.upstream result).kept ≡ [] }
        ensures pool { (Self.D.upstream result).pool ≡ pool }
        ensures log { IsNewLog (state self.old).told (Self.D.upstream result).log }
        ensures kept { (state self.new ≡ state self.old) × (faults self.new ≡ faults self.old) };

    /// A new stop, which closes all listeners of this net.
    fn stopper(&mut self) -> Self::S
        ensures calls { Self.S.calls result ≡ 0 }
        ensures state { state self.new ≡ after_stopper (state self.old) }
        ensures kept { faults self.new ≡ faults self.old };

    /// Takes a listener back, with the stop of its job, and with the dialer if the job has one. It
    /// fails exactly where the listener's last waits failed [`BROKEN_RUN`] times in a row, or
    /// more.
    fn end(
        &mut self,
        listener: Self::L,
        dialer: Option<Self::D>,
        stop: Self::S,
    ) -> Result<(), Failed>
        ensures state { state self.new ≡ after_end (state self.old) (record {
          listener = Self.L.state listener;
          log = log_of Self.D.upstream dialer;
          stops = Self.S.calls stop;
        }) }
        ensures broken { IsErr result ↔ (BROKEN_RUN ≤ (Self.L.state listener).run) }
        ensures cause { HasCause (faults self.old) (faults self.new) result };
}
