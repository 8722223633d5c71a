//! What opens connections, one at a time, and may keep them.
ghost use Rattle.std.specs.Prelude.{◌≡◌, ◌<◌, length, false, None, IsSome, IsTrue, IfOk, OnOk};
ghost use Rattle.std.specs.Io.{ReadsAtMost, WritesAtMost};
ghost use Rattle.std.specs.Io.KnownBytes.{Keeps, ReadConsumes};
ghost use Rattle.line_base.specs.Counts.{HasCause, MovesNothing};

use crate::outside::Failed;
use crate::piece::Piece;

/// What a dialer did.
#[derive(Drop)]
pub enum DialEvent {
    /// It opened a connection to this IPv4 address, whose first byte is the highest, and this port.
    Dialed(u32, u16),
    /// It took up a connection again that it had kept, to this address and this port.
    Resumed(u32, u16),
    /// It sent these bytes, one or more.
    Sent(Piece),
    /// It received these bytes. None of them is the end.
    Got(Piece),
    /// It ended the connection.
    Hung,
    /// It put the connection aside, to be resumed.
    Kept,
}

/// How many connections a dialer may keep, and for how long.
#[derive(Clone, Copy, Debug, PartialEq, Eq)]
pub struct ConnectionPool {
    /// The most connections that it keeps. Where this is 0, it keeps none.
    pub max_size: u32,
    /// For how many milliseconds it keeps one that is not resumed.
    pub idle_ms: u32,
}

impl ConnectionPool {
    /// No connection is kept: each dial opens one of its own.
    pub const NONE: ConnectionPool = ConnectionPool {
        max_size: 0,
        idle_ms: 0,
    };
}

/// What opens connections to addresses, one at a time, and may keep them to be resumed.
///
/// `send`, `recv`, `hang` and `keep` speak of the open connection: the last one that was dialed or
/// resumed. Keep a connection only where nothing is to come over it that was asked for. What comes
/// over it nevertheless while it is kept makes it unfit, so no resumed connection begins with bytes
/// that belong to an earlier request.
pub trait Dialer {
    ghost use Rattle.line_base.specs.Dials.{Upstream, AreSomeOf, HasSameLinks, Logs, LogsDial};
    ghost use Rattle.line_base.specs.Dials.{LogsHang, LogsReceive, LogsResume, LogsSend};
    ghost use Rattle.line_base.specs.Dials.{KeepsLog, PutsAside, TakesOut, dialed_to, has_room};
    ghost use Rattle.line_base.specs.Dials.{resumed_to};
    ghost use Rattle.line_base.specs.declared.dialer.DialEvent.TheVariants.{Kept};

    /// What it tells of itself, as `Upstream` has it. A new one did nothing, has no connection, and
    /// keeps none so far.
    ghost upstream: { Self → Upstream };

    /// Whether it keeps connections that are put aside.
    fn keeps(&self) -> bool
        ensures { result ≡ has_room (upstream self.now).pool };

    /// Whether the last send or receive failed because it waited for too long.
    fn is_late(&self) -> bool
        ensures { result ≡ (upstream self.now).late };

    /// Opens a connection to an IPv4 address, whose first byte is the highest, and a port.
    fn dial(&mut self, ip: u32, port: u16) -> Result<(), Failed>
        ensures opens { (upstream self.new).open_to ≡ dialed_to result (ip, port) }
        ensures log { LogsDial (upstream self.old).log (upstream self.new).log ip port result }
        ensures cause { HasCause (upstream self.old).faults (upstream self.new).faults result }
        ensures others { ((upstream self.new).kept ≡ (upstream self.old).kept)
            × ((upstream self.new).pool ≡ (upstream self.old).pool) };

    /// Takes up a connection again that is kept to just this address and port, where one is over
    /// which nothing has come since: no byte, no end and no fault. It says whether there was one.
    /// Where there was none, no connection is open. It never waits, and is no call that can fail.
    fn resume(&mut self, ip: u32, port: u16) -> bool
        ensures opens { (upstream self.new).open_to ≡ resumed_to result (ip, port) }
        ensures log { LogsResume (upstream self.old).log (upstream self.new).log ip port result }
        ensures faults { (upstream self.new).faults ≡ (upstream self.old).faults }
        ensures others { TakesOut result (ip, port) (upstream self.old).kept
            (upstream self.new).kept }
        ensures pool { (upstream self.new).pool ≡ (upstream self.old).pool };

    /// Takes some bytes off the front of `bytes`, and gives their number: at least one, where there
    /// is one.
    fn send(&mut self, bytes: &[u8]) -> Result<usize, Failed>
        requires { IsSome (upstream self.old).open_to }
        ensures bound { WritesAtMost result bytes.now }
        ensures moves { IfOk result (λ n. 0 < length bytes.now → 0 < n) }
        ensures log { LogsSend (upstream self.old).log (upstream self.new).log result bytes.now }
        ensures stays { HasSameLinks (upstream self.old) (upstream self.new)
            × Keeps (upstream self.old).left (upstream self.new).left }
        ensures cause { HasCause (upstream self.old).faults (upstream self.new).faults result }
        ensures prompt { OnOk result ((upstream self.new).late ≡ false) }
        ensures nothing { MovesNothing (upstream self.old).faults (upstream self.new).faults result
            (length bytes.now) };

    /// Receives some bytes to the front of `into`, and gives their number. 0 is the end, where
    /// `into` has room.
    fn recv(&mut self, into: &mut [u8]) -> Result<usize, Failed>
        requires { IsSome (upstream self.old).open_to }
        ensures bound { ReadsAtMost result into.new }
        ensures bytes { ReadConsumes (upstream self.old).left (upstream self.new).left result
            into.new }
        ensures log { LogsReceive (upstream self.old).log (upstream self.new).log result into.new }
        ensures stays { HasSameLinks (upstream self.old) (upstream self.new) }
        ensures cause { HasCause (upstream self.old).faults (upstream self.new).faults result }
        ensures prompt { OnOk result ((upstream self.new).late ≡ false) }
        ensures nothing { MovesNothing (upstream self.old).faults (upstream self.new).faults result
            (length into.new) };

    /// Ends the connection, if one is open.
    fn hang(&mut self)
        ensures closes { (upstream self.new).open_to ≡ None }
        ensures log { LogsHang (upstream self.old).open_to (upstream self.old).log
            (upstream self.new).log }
        ensures kept { (upstream self.new).faults ≡ (upstream self.old).faults }
        ensures others { ((upstream self.new).kept ≡ (upstream self.old).kept)
            × ((upstream self.new).pool ≡ (upstream self.old).pool)
            × ((upstream self.new).late ≡ (upstream self.old).late) };

    /// Puts the connection aside, to be resumed, in place of ending it. It, and others that are
    /// kept, may be ended then or later.
    fn keep(&mut self)
        requires open_ { IsSome (upstream self.old).open_to }
        requires keeps { IsTrue (has_room (upstream self.old).pool) }
        ensures closes { (upstream self.new).open_to ≡ None }
        ensures log { Logs (upstream self.old).log (upstream self.new).log Kept }
        ensures kept { (upstream self.new).faults ≡ (upstream self.old).faults }
        ensures others { PutsAside (upstream self.old).open_to (upstream self.old).kept
            (upstream self.new).kept }
        ensures pool { ((upstream self.new).pool ≡ (upstream self.old).pool)
            × ((upstream self.new).late ≡ (upstream self.old).late) };

    /// Ends what was kept for too long. Call it before a long wait.
    fn end_idle(&mut self)
        ensures opens { (upstream self.new).open_to ≡ (upstream self.old).open_to }
        ensures log { KeepsLog (upstream self.old).log (upstream self.new).log }
        ensures kept { (upstream self.new).faults ≡ (upstream self.old).faults }
        ensures others { AreSomeOf (upstream self.new).kept (upstream self.old).kept }
        ensures pool { (upstream self.new).pool ≡ (upstream self.old).pool };
}
