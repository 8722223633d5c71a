//! The bytes of a connection, in both directions.
ghost use Rattle.std.specs.Io.{ReadsAtMost, WritesAtMost};

use super::calls::{await_bytes, read_now, read_some, write_some};
use super::options::give_up_after;
use std::io;
use std::net::TcpStream;
use std::time::Duration;

/// How many seconds a read or a write of a socket may wait. A connection whose other end takes no
/// byte for so long is ended by the kernel.
pub const IDLE_SECONDS: u64 = 60;

/// How many bytes a write has at least that the kernel may hold for the next one. Bodies are passed
/// on in pieces of this size.
const FULL_PIECE: usize = 16_384;

/// The socket of a connection.
///
/// What is written leaves at once, but for a full piece of a body: another one mostly follows it,
/// and together they make fewer packets. The kernel may hold the end of such a piece, at most until
/// the other end has acknowledged what it got before. A shorter write, a read and the connection's
/// end send what is held (RFC 1122, section 4.2.3.4).
#[derive(Drop)]
pub(crate) struct Flow {
    pub(crate) stream: TcpStream,
    /// Whether the kernel may hold what was written last.
    is_gathering: bool,
}

impl Flow {
    /// The bytes of this socket, of which nothing is held. A read may wait for so long as
    /// [`IDLE_SECONDS`] say, and a write for this long.
    pub(crate) fn over(stream: TcpStream, write_limit: Duration) -> io::Result<Flow> {
        Flow::with_limits(stream, Duration::from_secs(IDLE_SECONDS), write_limit)
    }

    /// The bytes of this socket, of which nothing is held. A read and a write may wait for this
    /// long.
    pub(crate) fn with_limits(
        stream: TcpStream,
        read_limit: Duration,
        write_limit: Duration,
    ) -> io::Result<Flow> {
        stream.set_nodelay(true)?;
        stream.set_read_timeout(Some(read_limit))?;
        stream.set_write_timeout(Some(write_limit))?;
        give_up_after(&stream, IDLE_SECONDS)?;
        Ok(Flow {
            stream,
            is_gathering: false,
        })
    }

    /// Reads some bytes.
    pub(crate) fn read(&mut self, into: &mut [u8]) -> io::Result<usize>
        ensures { ReadsAtMost result into.new }
    {
        self.send_held()?;
        read_some(&mut self.stream, into)
    }

    /// Reads some bytes, where some have come. It waits for none.
    pub(crate) fn read_now(&mut self, into: &mut [u8]) -> io::Result<usize>
        ensures { ReadsAtMost result into.new }
    {
        self.send_held()?;
        read_now(&self.stream, into)
    }

    /// Waits for bytes, for at most so many milliseconds.
    pub(crate) fn wait(&self, milliseconds: i32) {
        await_bytes(&self.stream, milliseconds);
    }

    /// Writes some bytes.
    pub(crate) fn write(&mut self, bytes: &[u8]) -> io::Result<usize>
        ensures { WritesAtMost result bytes.now }
    {
        if bytes.len() < FULL_PIECE {
            self.send_held()?;
        } else if !self.is_gathering {
            self.stream.set_nodelay(false)?;
            self.is_gathering = true;
        }
        write_some(&mut self.stream, bytes)
    }

    /// Sends what the kernel may hold.
    fn send_held(&mut self) -> io::Result<()> {
        if self.is_gathering {
            self.stream.set_nodelay(true)?;
            self.is_gathering = false;
        }
        Ok(())
    }
}
