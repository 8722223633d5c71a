//! What gives bytes and what takes them.
ghost use Rattle.std.specs.Prelude.{◌≡◌, ◌<◌, length, IfOk};
ghost use Rattle.std.specs.Io.{ReadsAtMost, WritesAtMost};
ghost use Rattle.std.specs.Io.KnownBytes.{ReadConsumes, WriteAppends};
ghost use Rattle.line_base.specs.Counts.{HasCause, CountsEnds, MovesNothing};

use crate::socket_address::SocketAddress;

/// A call on the outside failed, and raised that object's count of faults.
#[derive(Clone, Copy, Debug, PartialEq, Eq)]
pub struct Failed;

/// What came of a wait for the next request of a connection.
#[derive(Clone, Copy, Debug, PartialEq, Eq)]
pub enum Next {
    /// So many bytes came, at least one.
    Bytes(usize),
    /// The peer's bytes have ended.
    End,
    /// The listeners are closing, and no byte of a next request has come.
    Closing,
    /// No byte of a next request has come for a short while.
    Quiet,
}

/// What gives bytes: a file, a standard stream, or bytes in memory.
pub trait Source {
    ghost use Rattle.line_base.specs.Streams.{Input};

    /// What it tells of itself: the bytes that it has yet to give, how often a call failed, and how
    /// many reads gave the end.
    ghost input: { Self → Input };

    /// Reads some bytes to the front of `into`, and gives their number. 0 is the end, where `into`
    /// has room.
    fn read(&mut self, into: &mut [u8]) -> Result<usize, Failed>
        ensures bound { ReadsAtMost result into.new }
        ensures bytes { ReadConsumes (input self.old).left (input self.new).left result into.new }
        ensures cause { HasCause (input self.old).faults (input self.new).faults result }
        ensures end { CountsEnds (input self.old).ends (input self.new).ends result
            (length into.new) }
        ensures nothing { MovesNothing (input self.old).faults (input self.new).faults result
            (length into.new) };
}

/// What takes bytes: a file, a standard stream, or a list in memory.
pub trait Sink {
    ghost use Rattle.line_base.specs.Streams.{Output};

    /// What it tells of itself: the bytes that it has taken, and how often a call failed.
    ghost output: { Self → Output };

    /// Takes some bytes off the front of `bytes`, and gives their number: at least one, where there
    /// is one.
    fn write(&mut self, bytes: &[u8]) -> Result<usize, Failed>
        ensures bound { WritesAtMost result bytes.now }
        ensures moves { IfOk result (λ n. 0 < length bytes.now → 0 < n) }
        ensures bytes { WriteAppends (output self.old).held (output self.new).held result
            bytes.now }
        ensures cause { HasCause (output self.old).faults (output self.new).faults result }
        ensures nothing { MovesNothing (output self.old).faults (output self.new).faults result
            (length bytes.now) };
}

/// The other end of a connection, which gives bytes and takes them. It has a count of faults for
/// each direction, one of how often it said that its listeners are closing, and one of how often it
/// said that nothing came for a while.
///
/// What serves requests waits for the next one by [`Peer::read_next`], and asks once a request,
/// by [`Peer::is_closing`], whether it is to be the last. So a shutdown ends connections where a
/// request ends, and loses none that was begun.
pub trait Peer {
    ghost use Rattle.line_base.specs.Lines.{Line, IsUnread, IsUnwritten, WaitsForNext};
    ghost use Rattle.line_base.specs.Lines.{told_closing};
    ghost use Rattle.std.specs.Prelude.{Option};
    ghost use Rattle.line_base.specs.declared.socket_address.SocketAddress.{SocketAddress};

    /// What it tells of itself: the bytes that it has yet to give, those that were given to it, how
    /// often a read and a write failed, how many reads gave the end, how often it said that its
    /// listeners are closing, and how often that nothing came for a while.
    ghost line: { Self → Line };

    /// Where its other end is, where it tells that. No clause says that a call keeps it: what needs
    /// the address later asks for it once, when the peer comes, and keeps the answer.
    ghost address: { Self → Option SocketAddress };

    /// Where its other end is, where it tells that. It waits for nothing.
    fn address(&self) -> Option<SocketAddress>
        ensures { result ≡ address self.now };

    /// Reads some bytes to the front of `into`, and gives their number. 0 is the end, where `into`
    /// has room.
    fn read(&mut self, into: &mut [u8]) -> Result<usize, Failed>
        ensures bound { ReadsAtMost result into.new }
        ensures bytes { ReadConsumes (line self.old).left (line self.new).left result into.new }
        ensures others { IsUnwritten (line self.old) (line self.new) }
        ensures cause { HasCause (line self.old).read_faults (line self.new).read_faults result }
        ensures end { CountsEnds (line self.old).ends (line self.new).ends result
            (length into.new) }
        ensures nothing { MovesNothing (line self.old).read_faults (line self.new).read_faults
            result (length into.new) };

    /// Waits for the next request of a connection, and reads its first bytes as [`Peer::read`]
    /// does; or it is told that the listeners are closing, or that nothing came for a while, where
    /// no byte of it has come. It is called between two requests, while no byte of the next one was
    /// read.
    ///
    /// A while is short where others wait for whoever calls this, and never longer than a
    /// connection may be idle: then it fails.
    fn read_next(&mut self, into: &mut [u8]) -> Result<Next, Failed>
        requires { 0 < length into.old }
        ensures { WaitsForNext (line self.old) (line self.new) into.new result };

    /// Whether the listeners are closing, so that the request whose head was read is the last of
    /// its connection. It waits for nothing.
    fn is_closing(&mut self) -> bool
        ensures { line self.new ≡ told_closing result (line self.old) };

    /// Takes some bytes off the front of `bytes`, and gives their number: at least one, where there
    /// is one.
    fn write(&mut self, bytes: &[u8]) -> Result<usize, Failed>
        ensures bound { WritesAtMost result bytes.now }
        ensures moves { IfOk result (λ n. 0 < length bytes.now → 0 < n) }
        ensures bytes { WriteAppends (line self.old).given (line self.new).given result bytes.now }
        ensures others { IsUnread (line self.old) (line self.new) }
        ensures cause { HasCause (line self.old).write_faults (line self.new).write_faults result }
        ensures nothing { MovesNothing (line self.old).write_faults (line self.new).write_faults
            result (length bytes.now) };
}
