//! What is written and sent over loopback arrives, also where it is read slowly or not at all.
use crate::bytes::telling;
use crate::clients::{LOOPBACK, at, listener_of, next_client};
use crate::slow::{answer_early, end_place};
use line_base::{ConnectionPool, Dialer, Failed, Listener, Net, Peer};
use net_edge::SocketNet;
use std::alloc::AllocGlobal;
use std::net::{self, TcpListener, TcpStream};
use std::test::Fail;
use std::thread::Threads;
use std::{rt, thread};

/// More bytes than a connection takes at once.
const MANY: usize = 1_048_576;

/// How many bytes a call moved.
type Moved = Result<usize, Failed>;

/// Accepts a client, says all of this to it, and ends; whether all was taken.
fn say_all<L: Listener>(listener: &mut L, bytes: &[u8]) -> bool {
    let Some(peer) = next_client(listener) else {
        return false;
    };
    let mut peer = peer;
    let mut rest = bytes;
    for _ in 0..10_000 {
        match peer.write(rest) {
            Ok(count) => rest = &rest[count..],
            Err(_) => break,
        }
        if rest.is_empty() {
            break;
        }
    }
    listener.finish(peer);
    rest.is_empty()
}

/// Says many bytes to a client that reads slowly. Gives whether all were taken, and how many came
/// as they were said.
fn written<R: Threads + Sync + rt::Clock + AllocGlobal, L: Listener>(
    rt: &R,
    listener: &mut L,
    client: &mut TcpStream,
) -> Result<(bool, usize), Fail> {
    let bytes = telling(rt.alloc(), MANY)?;
    let (count, is_taken) = thread::join(
        rt,
        || end_place(rt, client, 0),
        || say_all(listener, bytes.as_slice()),
    );
    drop(bytes);
    Ok((is_taken, count))
}

/// The same of a client that connects to a listener of this net.
fn written_over<R, N: Net>(rt: &R, net: &mut N) -> Result<(bool, usize), Fail>
where
    R: Threads
        + Sync
        + rt::Clock
        + AllocGlobal
        + net::Net<Listener = TcpListener, Stream = TcpStream>,
{
    let (mut listener, port) = listener_of(net, TcpListener::bind(rt, at(0)))?;
    let mut client = match TcpStream::connect(rt, at(port)) {
        Ok(client) => client,
        Err(error) => {
            drop(listener);
            return Err(Fail::from(error));
        }
    };
    let told = written(rt, &mut listener, &mut client);
    drop(client);
    drop(listener);
    told
}

/// A client that reads slowly gets all that was written for it, in order.
#[test]
fn what_is_written_arrives(rt: HostRuntime) -> Result<(), Fail> {
    let mut net = SocketNet::of(&rt)?;
    let told = written_over(&rt, &mut net);
    drop(net);
    assert_eq!(rt; told?, (true, MANY));
    Ok(())
}

/// How many bytes a connection took in one send, and how many came back, before it was ended.
fn exchange<D: Dialer>(dialer: &mut D, port: u16, bytes: &[u8]) -> [Moved; 2] {
    match dialer.dial(LOOPBACK, port) {
        Ok(()) => {}
        Err(failed) => return [Err(failed), Err(failed)],
    }
    let mut heard = [0u8; 8];
    let sent = dialer.send(bytes);
    let got = dialer.recv(&mut heard);
    dialer.hang();
    [sent, got]
}

/// An exchange with a replica that answers early and reads on slowly. Gives what the dialer is
/// told, and how many bytes the replica got.
fn sent<R: Threads + Sync + rt::Clock, D: Dialer + Send>(
    rt: &R,
    dialer: &mut D,
    replica: &TcpListener,
    port: u16,
    bytes: &[u8],
) -> ([Moved; 2], usize) {
    thread::join(
        rt,
        || exchange(dialer, port, bytes),
        || answer_early(rt, replica),
    )
}

/// Two such exchanges of many bytes, one behind the other.
fn sent_twice<R: Threads + Sync + rt::Clock + AllocGlobal, D: Dialer + Send>(
    rt: &R,
    dialer: &mut D,
    replica: &TcpListener,
) -> Result<[([Moved; 2], usize); 2], Fail> {
    let port = replica.local_addr()?.port();
    let bytes = telling(rt.alloc(), MANY)?;
    let first = sent(rt, dialer, replica, port, bytes.as_slice());
    let second = sent(rt, dialer, replica, port, bytes.as_slice());
    drop(bytes);
    Ok([first, second])
}

/// The same over one dialer of this net.
fn sent_over<R, N: Net>(rt: &R, net: &mut N) -> Result<[([Moved; 2], usize); 2], Fail>
where
    R: Threads
        + Sync
        + rt::Clock
        + AllocGlobal
        + net::Net<Listener = TcpListener, Stream = TcpStream>,
{
    let replica = TcpListener::bind(rt, at(0))?;
    let mut dialer = net.dialer(ConnectionPool::NONE);
    let told = sent_twice(rt, &mut dialer, &replica);
    drop(dialer);
    drop(replica);
    told
}

/// A replica that answers early and reads on slowly gets all that was sent, in order. Then the
/// dialer's next connection is as good.
#[test]
fn what_is_sent_arrives(rt: HostRuntime) -> Result<(), Fail> {
    let mut net = SocketNet::of(&rt)?;
    let told = sent_over(&rt, &mut net);
    drop(net);
    let each = ([Ok(MANY), Ok(5)], MANY);
    assert_eq!(rt; told?, [each, each]);
    Ok(())
}

/// A reply is written for a client of which no byte is read, while the client says many. Gives
/// whether all of the reply was taken, and what the client's dialer is told.
fn replied<R: Threads + AllocGlobal, L: Listener, D: Dialer + Send>(
    rt: &R,
    listener: &mut L,
    dialer: &mut D,
    port: u16,
) -> Result<(bool, [Moved; 2]), Fail> {
    let bytes = telling(rt.alloc(), 5 * MANY)?;
    let (ends, is_taken) = thread::join(
        rt,
        || exchange(dialer, port, bytes.as_slice()),
        || say_all(listener, b"reply"),
    );
    drop(bytes);
    Ok((is_taken, ends))
}

/// The same of a listener and a dialer of this net.
fn replied_over<R, N: Net>(rt: &R, net: &mut N) -> Result<(bool, [Moved; 2]), Fail>
where
    R: Threads
        + Sync
        + rt::Clock
        + AllocGlobal
        + net::Net<Listener = TcpListener, Stream = TcpStream>,
{
    let (mut listener, port) = listener_of(net, TcpListener::bind(rt, at(0)))?;
    let mut dialer = net.dialer(ConnectionPool::NONE);
    let told = replied(rt, &mut listener, &mut dialer, port);
    drop(dialer);
    drop(listener);
    told
}

/// A reply that is written while the client's body is unread arrives.
#[test]
fn a_reply_behind_an_unread_body_arrives(rt: HostRuntime) -> Result<(), Fail> {
    let mut net = SocketNet::of(&rt)?;
    let told = replied_over(&rt, &mut net);
    drop(net);
    assert_eq!(rt; told?, (true, [Ok(5 * MANY), Ok(5)]));
    Ok(())
}
