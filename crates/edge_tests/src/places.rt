//! A client is told to be where its own end of the connection is.
use crate::clients::next_client;
use libc::net::{self, _SS_SIZE, AF_INET, SOCK_CLOEXEC, SOCK_STREAM};
use line_base::{Listener, Net, Peer, SocketAddress};
use net_edge::SocketNet;
use os::FromRawFd;
use std::io::Write;
use std::net::TcpStream;
use std::test::Fail;

/// Where the listener is: at an address of this machine that no client has.
const LISTENING: (u32, u16) = (0x7f00_0003, 28_993);

/// The bytes of an IPv4 address with its port as the C library has it.
const ADDRESS_BYTES: u32 = 16;

/// An address as the C library has it.
fn raw_address(ip: u32, port: u16) -> [u8; _SS_SIZE] {
    let mut raw = [0u8; _SS_SIZE];
    raw[0..2].copy_from_slice(&(AF_INET as u16).to_ne_bytes());
    raw[2..4].copy_from_slice(&port.to_be_bytes());
    raw[4..8].copy_from_slice(&ip.to_be_bytes());
    raw
}

/// A client at this address of this machine, with a port that was free, which has connected to the
/// listener; none where it can't.
fn client_at(ip: u32) -> Option<TcpStream> {
    let descriptor = unsafe { net::socket(AF_INET, SOCK_STREAM | SOCK_CLOEXEC, 0) };
    if descriptor < 0 {
        return None;
    }
    let stream = unsafe { TcpStream::from_raw_fd(descriptor) };
    let here = raw_address(ip, 0);
    let there = raw_address(LISTENING.0, LISTENING.1);
    if unsafe { net::bind(descriptor, &here, ADDRESS_BYTES) } != 0 {
        return None;
    }
    if unsafe { net::connect(descriptor, &there, ADDRESS_BYTES) } != 0 {
        return None;
    }
    Some(stream)
}

/// Where a client at this address is by its own socket; and where its peer is told to be, at first
/// and behind the first byte that the client says.
fn places_of<P: Peer>(
    peer: &mut P,
    client: &mut TcpStream,
    ip: u32,
) -> Result<[Option<SocketAddress>; 3], Fail> {
    let port = client.local_addr()?.port();
    let first = peer.address();
    client.write(b"a")?;
    let _ = peer.read(&mut [0u8; 1]);
    Ok([Some(SocketAddress { ip, port }), first, peer.address()])
}

/// The same of a client that comes to a listener.
fn places<L: Listener>(listener: &mut L, ip: u32) -> Result<[Option<SocketAddress>; 3], Fail> {
    let Some(mut client) = client_at(ip) else {
        return Err(Fail::from("no client"));
    };
    let Some(peer) = next_client(listener) else {
        return Err(Fail::from("no peer"));
    };
    let mut peer = peer;
    let places = places_of(&mut peer, &mut client, ip);
    drop(client);
    listener.finish(peer);
    places
}

/// Where two clients are, one behind the other, at two addresses: each of them twice by its own
/// socket, and twice as its peer is told.
fn places_of_two<L: Listener>(listener: &mut L) -> Result<[[Option<SocketAddress>; 4]; 2], Fail> {
    let [one, first, then] = places(listener, 0x7f00_0002)?;
    let [other, second, last] = places(listener, 0x7f00_0104)?;
    Ok([[one, one, other, other], [first, then, second, last]])
}

/// The same with a listener of this net.
fn places_over<N: Net>(net: &mut N) -> Result<[[Option<SocketAddress>; 4]; 2], Fail> {
    let mut listeners = net.listen(LISTENING.0, LISTENING.1, 1, 0)?.into_items();
    let told = match listeners.first_mut() {
        Some(listener) => places_of_two(listener),
        None => Err(Fail::from("no listener")),
    };
    drop(listeners);
    told
}

#[test]
fn a_client_is_where_its_own_end_is(rt: HostRuntime) -> Result<(), Fail> {
    let mut net = SocketNet::of(&rt)?;
    let places = places_over(&mut net);
    drop(net);
    let [own, told] = places?;
    assert_eq!(rt; told, own);
    Ok(())
}
