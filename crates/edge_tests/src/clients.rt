//! Clients over loopback.
use line_base::{Event, Listener, Net};
use std::io;
use std::net::{Ipv4Addr, SocketAddr, SocketAddrV4, TcpListener};
use std::test::Fail;

/// The address of loopback, whose first byte is the highest.
pub(crate) const LOOPBACK: u32 = 0x7f00_0001;

/// An address of this machine, with a port.
pub(crate) fn address_of(ip: u32, port: u16) -> SocketAddr {
    SocketAddr::V4(SocketAddrV4::new(Ipv4Addr::from_bits(ip), port))
}

/// A port of loopback.
pub(crate) fn at(port: u16) -> SocketAddr {
    address_of(LOOPBACK, port)
}

/// The port of a listener, which is free once the listener is gone.
pub(crate) fn port_of(listener: io::Result<TcpListener>) -> io::Result<u16> {
    let listener = listener?;
    let address = listener.local_addr();
    drop(listener);
    Ok(address?.port())
}

/// A listener of a net at a port that was free, and the port.
pub(crate) fn listener_of<N: Net>(
    net: &mut N,
    listener: io::Result<TcpListener>,
) -> Result<(N::L, u16), Fail> {
    let port = port_of(listener)?;
    let mut listeners = net.listen(LOOPBACK, port, 1, 0)?.into_items();
    let listener = listeners.pop();
    drop(listeners);
    match listener {
        Some(listener) => Ok((listener, port)),
        None => Err(Fail::from("no listener")),
    }
}

/// The next client of a listener, if one comes.
pub(crate) fn next_client<L: Listener>(listener: &mut L) -> Option<L::P> {
    for _ in 0..1_000 {
        match listener.next_event() {
            Ok(Event::Came(peer)) => return Some(peer),
            Ok(Event::Ready(_)) | Ok(Event::Tick(_)) => {}
            Ok(Event::Closed) | Err(_) => return None,
        }
    }
    None
}

/// How many clients a listener hands out before it is closed.
pub(crate) fn count_clients<L: Listener>(listener: &mut L) -> Option<u32> {
    let mut served = 0u32;
    for _ in 0..100 {
        match listener.next_event() {
            Ok(Event::Came(peer)) => {
                listener.finish(peer);
                served = served.saturating_add(1);
            }
            Ok(Event::Ready(_)) | Ok(Event::Tick(_)) => {}
            Ok(Event::Closed) => return Some(served),
            Err(_) => return None,
        }
    }
    None
}
