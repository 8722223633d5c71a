//! A dialer that lets something else happen while it dials.
use line_base::{Dialer, Failed};

/// What is done at each dial.
pub(crate) trait AtDial {
    /// Does it.
    fn run(&mut self);
}

/// A dialer that has something done at each of its dials, before it makes the connection.
pub(crate) struct Meanwhile<D, S> {
    pub(crate) dialer: D,
    pub(crate) other: S,
}

impl<D: Dialer, S: AtDial> Dialer for Meanwhile<D, S> {
    ghost upstream = { λ m. D.upstream m.dialer };

    fn keeps(&self) -> bool {
        self.dialer.keeps()
    }

    fn is_late(&self) -> bool {
        self.dialer.is_late()
    }

    fn dial(&mut self, ip: u32, port: u16) -> Result<(), Failed> {
        self.other.run();
        self.dialer.dial(ip, port)
    }

    fn resume(&mut self, ip: u32, port: u16) -> bool {
        self.dialer.resume(ip, port)
    }

    fn send(&mut self, bytes: &[u8]) -> Result<usize, Failed> {
        self.dialer.send(bytes)
    }

    fn recv(&mut self, into: &mut [u8]) -> Result<usize, Failed> {
        self.dialer.recv(into)
    }

    fn hang(&mut self) {
        self.dialer.hang();
    }

    fn keep(&mut self) {
        self.dialer.keep();
    }

    fn end_idle(&mut self) {
        self.dialer.end_idle();
    }
}
