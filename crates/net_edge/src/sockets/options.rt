//! Options of sockets that the library has no call for.
use libc::net::{self, IPPROTO_TCP, TCP_USER_TIMEOUT};
use std::io;
use std::net::TcpStream;
use std::os::fd::AsRawFd;

/// The bytes of an option that is an `int`.
const INT_BYTES: u32 = 4;

/// Has the kernel end a connection of this socket whose other end acknowledges nothing, or has room
/// for nothing, for so many seconds (RFC 5482, the user timeout). Without it a peer that reads
/// nothing could take a few bytes a minute, and so hold its connection for long.
pub(crate) fn give_up_after(stream: &TcpStream, seconds: u64) -> io::Result<()> {
    let milliseconds = u32::try_from(seconds.saturating_mul(1_000)).unwrap_or(u32::MAX);
    let mut value = [0u8; 16];
    value[0..4].copy_from_slice(&milliseconds.to_ne_bytes());
    let descriptor = stream.as_raw_fd();
    let set = unsafe {
        net::setsockopt(descriptor, IPPROTO_TCP, TCP_USER_TIMEOUT, &value, INT_BYTES)
    };
    if set < 0 {
        return Err(io::Error::from_raw_os_error(os::errno()));
    }
    Ok(())
}
