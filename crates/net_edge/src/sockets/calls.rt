//! Calls on sockets that a signal may interrupt.
ghost use Rattle.std.specs.Io.{ReadsAtMost, WritesAtMost};

use super::address::ADDRESS_BYTES;
use libc::net::{self, _SS_SIZE, POLLIN};
use libc::types::pollfd;
use std::io::{self, ErrorKind, Read, Write};
use std::net::TcpStream;
use std::os::fd::AsRawFd;

/// How often a call that a signal interrupted is made again.
const INTERRUPTIONS: u32 = 16;

/// Reads some bytes.
pub(crate) fn read_some(stream: &mut TcpStream, into: &mut [u8]) -> io::Result<usize>
    ensures { ReadsAtMost result into.new }
{
    for _ in 0..INTERRUPTIONS {
        match stream.read(into) {
            Err(error) if error.kind() == ErrorKind::Interrupted => {}
            done => return done,
        }
    }
    Err(io::Error::from(ErrorKind::Interrupted))
}

/// Reads some bytes, where some have come. It waits for none (recv(2), `MSG_DONTWAIT`).
pub(crate) fn read_now(stream: &TcpStream, into: &mut [u8]) -> io::Result<usize>
    ensures { ReadsAtMost result into.new }
{
    for _ in 0..INTERRUPTIONS {
        let count = unsafe { net::recv(stream.as_raw_fd(), into, net::MSG_DONTWAIT) };
        if count >= 0 {
            return Ok(count as usize);
        }
        if os::errno() != libc::EINTR {
            return Err(io::Error::from_raw_os_error(os::errno()));
        }
    }
    Err(io::Error::from(ErrorKind::Interrupted))
}

/// Waits for bytes of a connection, for at most so many milliseconds.
pub(crate) fn await_bytes(stream: &TcpStream, milliseconds: i32) {
    let mut asked = [pollfd {
        fd: stream.as_raw_fd(),
        events: POLLIN,
        revents: 0,
    }];
    net::poll(&mut asked, milliseconds);
}

/// Writes some bytes.
pub(crate) fn write_some(stream: &mut TcpStream, bytes: &[u8]) -> io::Result<usize>
    ensures { WritesAtMost result bytes.now }
{
    for _ in 0..INTERRUPTIONS {
        match stream.write(bytes) {
            Err(error) if error.kind() == ErrorKind::Interrupted => {}
            done => return done,
        }
    }
    Err(io::Error::from(ErrorKind::Interrupted))
}

/// Whether nothing has come over a connection that was not read: no byte, no end and no fault. It
/// looks without waiting, and leaves what is there (recv(2), `MSG_PEEK`).
pub(crate) fn is_quiet(stream: &TcpStream) -> bool {
    let mut one = [0u8; 1];
    let flags = net::MSG_PEEK | net::MSG_DONTWAIT;
    let count = unsafe { net::recv(stream.as_raw_fd(), &mut one, flags) };
    count < 0 && os::errno() == libc::EAGAIN
}

/// Connects a socket to an address, within its limit of writes. A call that a signal interrupted
/// goes on connecting, and the next waits for it.
pub(crate) fn connect(stream: &TcpStream, raw: &[u8; _SS_SIZE]) -> bool {
    for _ in 0..INTERRUPTIONS {
        if unsafe { net::connect(stream.as_raw_fd(), raw, ADDRESS_BYTES) } == 0 {
            return true;
        }
        if os::errno() != libc::EINTR {
            return os::errno() == libc::EISCONN;
        }
    }
    false
}
