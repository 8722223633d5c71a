//! The address of a socket.

/// An IPv4 address with a port: where the other end of a connection is.
#[derive(Clone, Copy, Debug, PartialEq, Eq)]
pub struct SocketAddress {
    /// The IPv4 address, whose first byte is the highest.
    pub ip: u32,
    /// The port.
    pub port: u16,
}
