//! A connection that was dialed.
ghost use Rattle.std.specs.Prelude.{◌≡◌, ◌≤◌, length, IfOk, IfSome};
ghost use Rattle.std.specs.Io.{ReadsAtMost, WritesAtMost};

use super::calls::is_quiet;
use super::dial_socket::DialSocket;
use std::io;

/// The most bytes that the first send of a connection takes without waiting: a new connection has
/// room for them, and so has one whose earlier requests were all answered.
const FIRST_SEND: usize = 4_096;

/// What was sent over a connection.
#[derive(Clone, Copy, PartialEq, Eq)]
enum Sent {
    /// Nothing so far.
    Nothing,
    /// One send of at most [`FIRST_SEND`] bytes, which left at once.
    Short,
    /// More, of which the kernel may hold some for long.
    Long,
}

/// A socket that is connected.
#[derive(Drop)]
pub(crate) struct Upstream {
    socket: DialSocket,
    sent: Sent,
    /// Whether the last call received what was asked for, or the end.
    is_heard: bool,
    /// The address and the port that it leads to.
    pub(crate) ip: u32,
    pub(crate) port: u16,
}

impl Upstream {
    /// The connection of a socket to an address; none where that fails.
    pub(crate) fn dial(socket: DialSocket, ip: u32, port: u16) -> Option<Upstream>
        ensures { IfSome result (λ u. (u.ip ≡ ip) × (u.port ≡ port)) }
    {
        let mut socket = socket;
        if !socket.connect(ip, port) {
            drop(socket);
            return None;
        }
        Some(Upstream {
            socket,
            sent: Sent::Nothing,
            is_heard: false,
            ip,
            port,
        })
    }

    /// Sends some bytes. Those of a short first send find room at once; behind them the limit is
    /// that of reads.
    pub(crate) fn send(&mut self, bytes: &[u8]) -> io::Result<usize>
        ensures bound { WritesAtMost result bytes.now }
        ensures stays { (self.new.ip ≡ self.old.ip) × (self.new.port ≡ self.old.port) }
    {
        self.is_heard = false;
        if self.sent == Sent::Nothing && bytes.len() <= FIRST_SEND {
            self.sent = Sent::Short;
        } else {
            self.sent = Sent::Long;
            self.socket.wait_for_writes(true)?;
        }
        self.socket.flow.write(bytes)
    }

    /// Receives some bytes.
    pub(crate) fn receive(&mut self, into: &mut [u8]) -> io::Result<usize>
        ensures bound { ReadsAtMost result into.new }
        ensures stays { (self.new.ip ≡ self.old.ip) × (self.new.port ≡ self.old.port) }
    {
        let received = self.socket.flow.read(into);
        self.is_heard = received.is_ok();
        received
    }

    /// Whether nothing has come over it that was not received: no byte, no end and no fault.
    pub(crate) fn is_quiet(&self) -> bool {
        is_quiet(&self.socket.flow.stream)
    }

    /// The same connection for a further request, where the replies to those before were received.
    pub(crate) fn resumed(self) -> Upstream
        ensures { (result.ip ≡ self.ip) × (result.port ≡ self.port) }
    {
        let sent = match self.sent {
            Sent::Long => Sent::Long,
            Sent::Nothing | Sent::Short => Sent::Nothing,
        };
        Upstream {
            socket: self.socket,
            sent,
            is_heard: false,
            ip: self.ip,
            port: self.port,
        }
    }

    /// Ends the connection at once, and gives its socket for the next one where it can be connected
    /// again. What was sent has arrived, or is not wanted.
    fn dissolve(self) -> Option<DialSocket> {
        let socket = self.socket;
        if socket.dissolve() {
            return Some(socket);
        }
        drop(socket);
        None
    }

    /// Ends the connection, and gives its socket for the next one where it can be connected again.
    ///
    /// Where the other end answered while the kernel may still hold bytes for it, the socket is
    /// closed in the ordinary way: the kernel sends them, then the end. The port is in use for a
    /// minute then, unless the other end ended first. Else the connection is dissolved: what was
    /// sent has arrived, or is not wanted.
    pub(crate) fn hang(self) -> Option<DialSocket> {
        if self.is_heard && self.sent == Sent::Long {
            drop(self);
            return None;
        }
        self.dissolve()
    }
}
