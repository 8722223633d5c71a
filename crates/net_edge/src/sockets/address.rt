//! Addresses of sockets.
use libc::net::{_SS_SIZE, AF_INET};
use line_base::SocketAddress;
use std::net::{Ipv4Addr, SocketAddr, SocketAddrV4};

/// The bytes of an IPv4 address with its port as the C library has it.
pub(crate) const ADDRESS_BYTES: u32 = 16;

/// An address of no family, which dissolves a connection (connect(2)).
pub(crate) const NO_ADDRESS: [u8; _SS_SIZE] = [0u8; _SS_SIZE];

/// The address of a socket.
pub(crate) fn address(ip: u32, port: u16) -> SocketAddr {
    SocketAddr::V4(SocketAddrV4::new(Ipv4Addr::from_bits(ip), port))
}

/// Where the other end of a socket is, by the address that the system tells of it. Sockets are of
/// IPv4, so it tells no other.
pub(crate) fn place_of(address: SocketAddr) -> Option<SocketAddress> {
    match address {
        SocketAddr::V4(at) => Some(SocketAddress {
            ip: at.ip().to_bits(),
            port: at.port(),
        }),
        SocketAddr::V6(_) => None,
    }
}

/// The address as the C library has it: a `sockaddr_in`.
pub(crate) fn raw_address(ip: u32, port: u16) -> [u8; _SS_SIZE] {
    let mut raw = [0u8; _SS_SIZE];
    raw[0..2].copy_from_slice(&(AF_INET as u16).to_ne_bytes());
    raw[2..4].copy_from_slice(&port.to_be_bytes());
    raw[4..8].copy_from_slice(&ip.to_be_bytes());
    raw
}
