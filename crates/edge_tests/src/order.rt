//! Bytes come in the order in which they were given, each once.
ghost use Rattle.std.specs.Prelude.{IsSome};

use crate::bytes::{are_from, telling};
use crate::clients::{LOOPBACK, next_client};
use line_base::{ConnectionPool, Dialer, Failed, Listener, Net, Peer};
use net_edge::SocketNet;
use std::alloc::AllocGlobal;
use std::test::Fail;
use std::thread;
use std::thread::Threads;

/// Where the listener is.
const LISTENING: (u32, u16) = (LOOPBACK, 28_990);

/// How many bytes are given: more than a connection takes at once.
const MANY: usize = 1_048_576;

/// How many bytes a client is given at once. It is no part of their number.
const PIECE: usize = 20_000;

/// How many bytes of a client come as they were sent, of so many.
fn read_all<P: Peer>(peer: &mut P, most: usize) -> usize {
    let mut piece = [0u8; 16_384];
    let mut place = 0usize;
    for _ in 0..most {
        let Ok(count) = peer.read(&mut piece) else {
            return place;
        };
        if count == 0 || !are_from(&piece[..count], place) {
            return place;
        }
        place = place.saturating_add(count);
        if place >= most {
            return place;
        }
    }
    place
}

/// Gives a client all of these, a piece at a time; whether all were taken.
fn write_all<P: Peer>(peer: &mut P, bytes: &[u8]) -> bool {
    let mut rest = bytes;
    for _ in 0..bytes.len() {
        if rest.is_empty() {
            return true;
        }
        match peer.write(&rest[..rest.len().min(PIECE)]) {
            Ok(count) => rest = &rest[count..],
            Err(Failed) => return false,
        }
    }
    rest.is_empty()
}

/// Reads as many bytes of the next client as these, and gives it these then. How many came as they
/// were sent, and whether all were taken.
fn answer<L: Listener>(listener: &mut L, bytes: &[u8]) -> (usize, bool) {
    let Some(peer) = next_client(listener) else {
        return (0, false);
    };
    let mut peer = peer;
    let read = read_all(&mut peer, bytes.len());
    let is_taken = write_all(&mut peer, bytes);
    listener.finish(peer);
    (read, is_taken)
}

/// How many bytes of a reply come as they were given, before it ends.
fn receive_all<D: Dialer>(dialer: &mut D) -> usize
    requires { IsSome (D.upstream dialer.old).open_to }
{
    let mut piece = [0u8; 16_384];
    let mut place = 0usize;
    'pieces: for _ in 0..MANY {
        let Ok(count) = dialer.recv(&mut piece) else {
            return 0;
        };
        if count == 0 || !are_from(&piece[..count], place) {
            return place;
        }
        place = place.saturating_add(count);
    }
    place
}

/// Sends these bytes over a connection of its own, and receives what comes. How many were taken,
/// and how many came as they were given.
fn ask<D: Dialer>(dialer: &mut D, bytes: &[u8]) -> (usize, usize) {
    match dialer.dial(LISTENING.0, LISTENING.1) {
        Ok(()) => {}
        Err(Failed) => return (0, 0),
    }
    let sent = dialer.send(bytes).unwrap_or(0);
    let received = receive_all(dialer);
    dialer.hang();
    (sent, received)
}

/// The same while the next client of a listener is answered with the same bytes.
fn ask_and_answer<R: Threads + AllocGlobal, L: Listener, D: Dialer + Send>(
    rt: &R,
    listener: &mut L,
    dialer: &mut D,
) -> Result<((usize, usize), (usize, bool)), Fail> {
    let bytes = telling(rt.alloc(), MANY)?;
    let told = thread::join(
        rt,
        || ask(dialer, bytes.as_slice()),
        || answer(listener, bytes.as_slice()),
    );
    drop(bytes);
    Ok(told)
}

/// The same of a listener and a dialer of this net.
fn told_over<R: Threads + AllocGlobal, N: Net>(
    rt: &R,
    net: &mut N,
) -> Result<((usize, usize), (usize, bool)), Fail> {
    let mut listeners = net.listen(LISTENING.0, LISTENING.1, 1, 0)?.into_items();
    let mut dialer = net.dialer(ConnectionPool::NONE);
    let told = match listeners.first_mut() {
        Some(listener) => ask_and_answer(rt, listener, &mut dialer),
        None => Err(Fail::from("no listener")),
    };
    drop(dialer);
    drop(listeners);
    told
}

/// What a dialer sends is read as it was sent, and what is written for it is received so.
#[test]
fn bytes_come_in_order(rt: HostRuntime) -> Result<(), Fail> {
    let mut net = SocketNet::of(&rt)?;
    let told = told_over(&rt, &mut net);
    drop(net);
    assert_eq!(rt; told?, ((MANY, MANY), (MANY, true)));
    Ok(())
}
