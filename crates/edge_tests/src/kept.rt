//! A kept connection that is not wanted any more is ended, and what was sent over it arrives.
ghost use Rattle.std.specs.Prelude.{IsSome};

use crate::bytes::telling;
use crate::clients::{LOOPBACK, at};
use crate::dialed::dialed;
use crate::slow::answer_early;
use line_base::{ConnectionPool, Dialer, Net};
use net_edge::SocketNet;
use std::alloc::AllocGlobal;
use std::io::{self, ErrorKind, Read};
use std::net::{self, TcpListener, TcpStream};
use std::test::Fail;
use std::thread::Threads;
use std::time::Duration;
use std::{rt, thread};

/// How many bytes are uploaded: more than a connection takes at once.
const MANY: usize = 1_048_576;

/// How long connections are kept, in milliseconds: longer than any test lasts.
const LONG: u32 = 600_000;

/// Keeps a new connection to a replica, and gives the replica's side of it.
fn keep_one<D: Dialer>(dialer: &mut D, replica: &TcpListener) -> io::Result<TcpStream> {
    let (stream, _) = dialed(dialer, LOOPBACK, replica)?;
    if dialer.keeps() {
        dialer.keep();
    }
    Ok(stream)
}

/// Whether the other end ends a connection, over which nothing comes, within some seconds.
fn is_ended(stream: &mut TcpStream) -> io::Result<bool> {
    stream.set_read_timeout(Some(Duration::from_secs(10)))?;
    match stream.read(&mut [0u8; 1]) {
        Ok(count) => Ok(count == 0),
        Err(error) => Ok(error.kind() == ErrorKind::ConnectionReset),
    }
}

/// Keeps a connection to each of two replicas. Whether the first is ended, and whether the second
/// is resumed.
fn ended_for_another<D: Dialer>(
    dialer: &mut D,
    first: &TcpListener,
    second: &TcpListener,
) -> io::Result<[bool; 2]> {
    let port = second.local_addr()?.port();
    let mut earlier = keep_one(dialer, first)?;
    let later = keep_one(dialer, second)?;
    let ended = is_ended(&mut earlier);
    let resumed = dialer.resume(LOOPBACK, port);
    dialer.hang();
    drop(earlier);
    drop(later);
    Ok([ended?, resumed])
}

/// The same of a dialer of this net that keeps so many.
fn ended_over<N: Net>(
    net: &mut N,
    first: &TcpListener,
    second: &TcpListener,
    max_size: u32,
) -> io::Result<[bool; 2]> {
    let mut dialer = net.dialer(ConnectionPool {
        max_size,
        idle_ms: LONG,
    });
    let ended = ended_for_another(&mut dialer, first, second);
    drop(dialer);
    ended
}

/// The same of a dialer that keeps one connection, and of one that keeps two, both to one replica.
fn ended_for_room<N: Net>(rt: &HostRuntime, net: &mut N) -> io::Result<[[bool; 2]; 2]> {
    let first = TcpListener::bind(rt, at(0))?;
    let second = TcpListener::bind(rt, at(0))?;
    let other = ended_over(net, &first, &second, 1);
    let same = ended_over(net, &first, &first, 2);
    drop(second);
    drop(first);
    Ok([other?, same?])
}

/// A kept connection is ended where there is no room for one more, and where one more leads to the
/// same replica.
#[test]
fn kept_connections_make_room(rt: HostRuntime) -> Result<(), Fail> {
    let mut net = SocketNet::of(&rt)?;
    let ended = ended_for_room(&rt, &mut net);
    drop(net);
    assert_eq!(rt; ended?, [[true, true], [true, true]]);
    Ok(())
}

/// Keeps a connection for a moment; whether it is ended once those are that were kept for too long.
fn ended_with_old<R: rt::Clock, D: Dialer>(
    rt: &R,
    dialer: &mut D,
    replica: &TcpListener,
) -> io::Result<bool> {
    let mut stream = keep_one(dialer, replica)?;
    thread::sleep(rt, Duration::from_millis(20));
    dialer.end_idle();
    let ended = is_ended(&mut stream);
    drop(stream);
    ended
}

/// The same of a dialer of this net that may keep connections for no time.
fn ended_with_old_over<N: Net>(rt: &HostRuntime, net: &mut N) -> io::Result<bool> {
    let replica = TcpListener::bind(rt, at(0))?;
    let mut dialer = net.dialer(ConnectionPool {
        max_size: 2,
        idle_ms: 0,
    });
    let ended = ended_with_old(rt, &mut dialer, &replica);
    drop(dialer);
    drop(replica);
    ended
}

/// A connection that was kept for too long is ended, also where nobody asks for it.
#[test]
fn old_connections_are_ended(rt: HostRuntime) -> Result<(), Fail> {
    let mut net = SocketNet::of(&rt)?;
    let ended = ended_with_old_over(&rt, &mut net);
    drop(net);
    assert!(rt; ended?);
    Ok(())
}

/// Puts the open connection of a dialer aside.
fn keep<D: Dialer>(dialer: &mut D)
    requires { IsSome (D.upstream dialer.old).open_to }
{
    if dialer.keeps() {
        dialer.keep();
    } else {
        dialer.hang();
    }
}

/// Uploads these bytes to a replica, receives some, and keeps the connection; and then keeps one to
/// another. How many bytes were taken, and how many came.
fn upload<D: Dialer>(dialer: &mut D, ports: [u16; 2], bytes: &[u8]) -> [usize; 2] {
    let [port, other] = ports;
    let Ok(()) = dialer.dial(LOOPBACK, port) else {
        return [0, 0];
    };
    let sent = dialer.send(bytes).unwrap_or(0);
    let got = dialer.recv(&mut [0u8; 8]).unwrap_or(0);
    keep(dialer);
    if let Ok(()) = dialer.dial(LOOPBACK, other) {
        keep(dialer);
    }
    [sent, got]
}

/// The same with a replica that answers early. What is told of the upload, and how many of its
/// bytes came before the end.
fn uploaded<R: Threads + Sync + rt::Clock + AllocGlobal, D: Dialer + Send>(
    rt: &R,
    dialer: &mut D,
    replica: &TcpListener,
    other: &TcpListener,
) -> Result<([usize; 2], usize), Fail> {
    let ports = [replica.local_addr()?.port(), other.local_addr()?.port()];
    let bytes = telling(rt.alloc(), MANY)?;
    let told = thread::join(
        rt,
        || upload(dialer, ports, bytes.as_slice()),
        || answer_early(rt, replica),
    );
    drop(bytes);
    Ok(told)
}

/// The same of a dialer of this net that keeps one connection. It stays until all is told.
fn uploaded_over<R, N: Net>(rt: &R, net: &mut N) -> Result<([usize; 2], usize), Fail>
where
    R: Threads
        + Sync
        + rt::Clock
        + AllocGlobal
        + net::Net<Listener = TcpListener, Stream = TcpStream>,
{
    let replica = TcpListener::bind(rt, at(0))?;
    let other = TcpListener::bind(rt, at(0))?;
    let mut dialer = net.dialer(ConnectionPool {
        max_size: 1,
        idle_ms: LONG,
    });
    let told = uploaded(rt, &mut dialer, &replica, &other);
    drop(dialer);
    drop(other);
    drop(replica);
    told
}

/// A replica that answered before an upload had come gets all of it, also where its connection,
/// which was kept, is ended meanwhile for want of room.
#[test]
fn a_kept_upload_arrives(rt: HostRuntime) -> Result<(), Fail> {
    let mut net = SocketNet::of(&rt)?;
    let told = uploaded_over(&rt, &mut net);
    drop(net);
    assert_eq!(rt; told?, ([MANY, 5], MANY));
    Ok(())
}
