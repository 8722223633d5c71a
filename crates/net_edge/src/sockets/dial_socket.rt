//! The socket of a dialer, which is connected to one address after another.
use super::address::{NO_ADDRESS, raw_address};
use super::calls::connect;
use super::flow::{Flow, IDLE_SECONDS};
use libc::net::{self, AF_INET, SOCK_CLOEXEC, SOCK_STREAM};
use os::FromRawFd;
use std::io;
use std::net::{Net, TcpStream};
use std::time::Duration;

/// How many seconds a dial may wait.
pub const DIAL_SECONDS: u64 = 10;

/// A socket with its limits. One that was hung up is connected again, so a request to a replica
/// costs no new socket and no option.
#[derive(Drop)]
pub(crate) struct DialSocket {
    pub(crate) flow: Flow,
    /// Whether its sends may wait as long as reads. Else they may wait as long as a dial.
    is_patient: bool,
}

impl DialSocket {
    /// A new socket, not connected.
    pub(crate) fn open<R: Net>(_net: &R) -> io::Result<DialSocket> {
        let descriptor = unsafe { net::socket(AF_INET, SOCK_STREAM | SOCK_CLOEXEC, 0) };
        if descriptor < 0 {
            return Err(io::Error::from_raw_os_error(os::errno()));
        }
        let stream = unsafe { TcpStream::from_raw_fd(descriptor) };
        Ok(DialSocket {
            flow: Flow::over(stream, Duration::from_secs(DIAL_SECONDS))?,
            is_patient: false,
        })
    }

    /// Connects it to an address, and says whether that address answered in time.
    pub(crate) fn connect(&mut self, ip: u32, port: u16) -> bool {
        self.wait_for_writes(false).is_ok() && connect(&self.flow.stream, &raw_address(ip, port))
    }

    /// Ends its connection at once, and says whether it can be connected again. What the kernel
    /// still had to send is dropped, and the other end is told by a reset: so no port of this
    /// machine waits for the last bytes.
    pub(crate) fn dissolve(&self) -> bool {
        connect(&self.flow.stream, &NO_ADDRESS)
    }

    /// Lets its sends wait as long as reads, or as long as a dial, from now on.
    pub(crate) fn wait_for_writes(&mut self, is_patient: bool) -> io::Result<()> {
        if self.is_patient != is_patient {
            let seconds = if is_patient {
                IDLE_SECONDS
            } else {
                DIAL_SECONDS
            };
            let limit = Duration::from_secs(seconds);
            self.flow.stream.set_write_timeout(Some(limit))?;
            self.is_patient = is_patient;
        }
        Ok(())
    }
}
