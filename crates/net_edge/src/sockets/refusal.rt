//! Why an address can't be listened on.
use std::fmt::{self, Display, Formatter};
use std::io;
use std::net::SocketAddr;

/// Why an address can't be listened on, as operators are told.
pub struct Refusal {
    address: SocketAddr,
    error: io::Error,
    wanted: Option<u64>,
}

impl Drop for Refusal {
    fn drop(self) {
        let Refusal {
            address: _,
            error,
            wanted: _,
        } = self;
        drop(error);
    }
}

impl Refusal {
    /// The refusal of an address by the system's error. Where that is a lack of descriptors, it
    /// names how many the process wants.
    pub(crate) fn of(address: SocketAddr, error: io::Error, descriptors: u64) -> Refusal {
        let wanted = if error.raw_os_error() == Some(libc::EMFILE) {
            Some(descriptors)
        } else {
            None
        };
        Refusal {
            address,
            error,
            wanted,
        }
    }

    /// The address.
    pub fn address(&self) -> SocketAddr {
        self.address
    }

    /// How many descriptors the process wants, where it may not open so many.
    pub fn wanted_descriptors(&self) -> Option<u64> {
        self.wanted
    }
}

impl Display for Refusal {
    fn fmt<W: fmt::Write>(&self, f: &mut Formatter<W>) -> fmt::Result {
        write!(f, "{} can't be listened on: {}", self.address, self.error)?;
        match self.wanted {
            Some(wanted) => write!(f, "; {wanted} descriptors are wanted"),
            None => Ok(()),
        }
    }
}
