//! Clients that wait when the listeners are stopped are handed out, and told.
use crate::clients::{at, count_clients, listener_of, next_client};
use line_base::{Failed, Listener, Net, Next, Peer, Stop};
use net_edge::SocketNet;
use std::io::{self, Write};
use std::net::{TcpListener, TcpStream};
use std::test::Fail;

/// Two clients connect to a listener of this net, which is stopped then. Gives whether they could,
/// and how many clients the listener hands out behind that.
fn handed_out_over<N: Net>(
    rt: &HostRuntime,
    net: &mut N,
) -> Result<([bool; 2], Option<u32>), Fail> {
    let (mut listener, port) = listener_of(net, TcpListener::bind(rt, at(0)))?;
    let first = TcpStream::connect(rt, at(port));
    let second = TcpStream::connect(rt, at(port));
    let connected = [first.is_ok(), second.is_ok()];
    let mut stop = net.stopper();
    stop.stop();
    let count = count_clients(&mut listener);
    drop(second);
    drop(first);
    drop(stop);
    drop(listener);
    Ok((connected, count))
}

/// Those who wait in the queue when the listeners are stopped are handed out still.
#[test]
fn a_stop_loses_nobody(rt: HostRuntime) -> Result<(), Fail> {
    let mut net = SocketNet::of(&rt)?;
    let told = handed_out_over(&rt, &mut net);
    drop(net);
    assert_eq!(rt; told?, ([true, true], Some(2)));
    Ok(())
}

/// What three reads of a client for its next request give, how many others a listener handed out
/// before the last of them, and whether the client was told before the first and behind the last
/// that its listeners close.
type Waited = ([Result<Next, Failed>; 3], Option<u32>, [bool; 2]);

/// What a client is told that says something when the listeners are stopped, and then waits.
fn told_while_closing<L: Listener, S: Stop>(
    listener: &mut L,
    stop: &mut S,
    client: io::Result<TcpStream>,
) -> Result<Waited, Fail> {
    let mut client = client?;
    let Some(peer) = next_client(listener) else {
        drop(client);
        return Err(Fail::from("no client"));
    };
    let mut peer = peer;
    let before = peer.is_closing();
    let _ = client.write_all(b"GET");
    stop.stop();
    let mut buffer = [0u8; 16];
    let first = peer.read_next(&mut buffer);
    let second = peer.read_next(&mut buffer);
    let others = count_clients(listener);
    let third = peer.read_next(&mut buffer);
    let behind = peer.is_closing();
    listener.finish(peer);
    drop(client);
    Ok(([first, second, third], others, [before, behind]))
}

/// The same of a client that connects to a listener of this net.
fn told_over<N: Net>(rt: &HostRuntime, net: &mut N) -> Result<Waited, Fail> {
    let (mut listener, port) = listener_of(net, TcpListener::bind(rt, at(0)))?;
    let mut stop = net.stopper();
    let client = TcpStream::connect(rt, at(port));
    let told = told_while_closing(&mut listener, &mut stop, client);
    drop(stop);
    drop(listener);
    told
}

/// Who waits for a next request is heard still while the listeners close, and is told once they are
/// closed.
#[test]
fn who_waits_is_told(rt: HostRuntime) -> Result<(), Fail> {
    let mut net = SocketNet::of(&rt)?;
    let told = told_over(&rt, &mut net);
    drop(net);
    let reads = [Ok(Next::Bytes(3)), Ok(Next::Quiet), Ok(Next::Closing)];
    assert_eq!(rt; told?, (reads, Some(0), [false, true]));
    Ok(())
}
