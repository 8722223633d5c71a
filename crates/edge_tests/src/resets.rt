//! A connection that is cut is a fault, and no end.
use crate::clients::{address_of, at, listener_of, next_client};
use crate::dialed::dialed;
use line_base::{ConnectionPool, Dialer, Failed, Listener, Net, Peer};
use net_edge::SocketNet;
use std::io::{self, Write};
use std::net::{TcpListener, TcpStream};
use std::test::Fail;

/// Another address of this machine than loopback's first.
const OTHER: u32 = 0x7f00_0002;

/// How many bytes a call moved.
type Moved = Result<usize, Failed>;

/// What two reads of a client's body give, and two writes behind them, where the client says four
/// bytes and then resets the connection: it ends it with a byte unread.
fn read_cut<L: Listener>(
    listener: &mut L,
    client: io::Result<TcpStream>,
) -> io::Result<[Moved; 4]> {
    let mut client = client?;
    client.write(b"body")?;
    let Some(peer) = next_client(listener) else {
        return Err(io::Error::from(io::ErrorKind::NotConnected));
    };
    let mut peer = peer;
    let mut piece = [0u8; 8];
    let first = peer.read(&mut piece);
    let _ = peer.write(b"x");
    let waited = client.peek(&mut piece);
    drop(client);
    let then = peer.read(&mut piece);
    let behind = peer.write(b"y");
    let last = peer.write(b"z");
    listener.finish(peer);
    waited?;
    Ok([first, then, behind, last])
}

/// What two receives of a reply give, and two sends behind them, where the replica, which is at
/// another address, says four bytes and then resets the connection: it ends it with a request
/// unread.
fn receive_cut<D: Dialer>(dialer: &mut D, replica: &TcpListener) -> io::Result<[Moved; 4]> {
    let (mut stream, _) = dialed(dialer, OTHER, replica)?;
    let mut piece = [0u8; 8];
    let _ = dialer.send(b"ping");
    let waited = stream.peek(&mut piece);
    let _ = stream.write(b"part");
    let first = dialer.recv(&mut piece);
    drop(stream);
    let then = dialer.recv(&mut piece);
    let behind = dialer.send(b"ping");
    let last = dialer.send(b"ping");
    dialer.hang();
    waited?;
    Ok([first, then, behind, last])
}

/// Both over this net: what two reads of the body give and two writes behind them, and two receives
/// of the reply and two sends behind them.
fn cut_over<N: Net>(rt: &HostRuntime, net: &mut N) -> Result<[[Moved; 4]; 2], Fail> {
    let (mut listener, port) = listener_of(net, TcpListener::bind(rt, at(0)))?;
    let body = read_cut(&mut listener, TcpStream::connect(rt, at(port)));
    drop(listener);
    let body = body?;
    let replica = TcpListener::bind(rt, address_of(OTHER, 0))?;
    let mut dialer = net.dialer(ConnectionPool::NONE);
    let reply = receive_cut(&mut dialer, &replica);
    drop(dialer);
    drop(replica);
    Ok([body, reply?])
}

/// A reset in the middle of a body is a fault, and no end. What is written behind it is a fault
/// too, each time.
#[test]
fn resets_are_faults(rt: HostRuntime) -> Result<(), Fail> {
    let mut net = SocketNet::of(&rt)?;
    let told = cut_over(&rt, &mut net);
    drop(net);
    let each = [Ok(4), Err(Failed), Err(Failed), Err(Failed)];
    assert_eq!(rt; told?, [each, each]);
    Ok(())
}
