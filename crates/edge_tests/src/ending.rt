//! The end of a connection waits for what its client has yet to say, for a bounded time.
use crate::clients::{LOOPBACK, at, next_client};
use line_base::{Listener, Net};
use net_edge::SocketNet;
use std::io::{self, Write};
use std::net::{self, TcpListener, TcpStream};
use std::test::Fail;
use std::thread::Threads;
use std::time::{Duration, Instant};
use std::{rt, thread};

const PORT: u16 = 28_988;

/// How often a client says something, 100 milliseconds apart, if nobody ends its connection.
const WORDS: u32 = 200;

/// The next client of a listener is ended; how long that takes.
fn end_next<R: rt::Clock, L: Listener>(rt: &R, listener: &mut L) -> Result<Duration, Fail> {
    let Some(peer) = next_client(listener) else {
        return Err(Fail::from("no client"));
    };
    let begin = Instant::now(rt);
    listener.finish(peer);
    Ok(begin?.elapsed(rt)?)
}

/// A client says a byte at a time, until it can't. Gives the longest time for which it may have
/// been silent, from this moment on.
fn say_slowly<R: rt::Clock>(
    rt: &R,
    client: &mut TcpStream,
    begin: Instant,
) -> io::Result<Duration> {
    let mut last = begin;
    let mut longest = Duration::ZERO;
    for _ in 0..WORDS {
        let now = Instant::now(rt)?;
        let is_said = client.write(b"a").is_ok();
        longest = longest.max(last.elapsed(rt)?);
        if !is_said {
            break;
        }
        last = now;
        thread::sleep(rt, Duration::from_millis(100));
    }
    Ok(longest)
}

/// How long a client's end takes that says nothing.
fn silent_end<R, L: Listener>(rt: &R, listener: &mut L) -> Result<Duration, Fail>
where
    R: rt::Clock + net::Net<Listener = TcpListener, Stream = TcpStream>,
{
    let client = TcpStream::connect(rt, at(PORT))?;
    let took = end_next(rt, listener);
    drop(client);
    took
}

/// How long a client's end takes that says a byte at a time, and the longest time for which it may
/// have been silent.
fn slow_end<R, L: Listener>(rt: &R, listener: &mut L) -> Result<[Duration; 2], Fail>
where
    R: Threads + Sync + rt::Clock + net::Net<Listener = TcpListener, Stream = TcpStream>,
{
    let begin = Instant::now(rt)?;
    let mut client = TcpStream::connect(rt, at(PORT))?;
    let (silence, took) = thread::join(
        rt,
        || say_slowly(rt, &mut client, begin),
        || end_next(rt, listener),
    );
    drop(client);
    Ok([took?, silence?])
}

/// How long the end of a client takes that says nothing, and what is told of one that says a byte
/// at a time.
fn ends<R, L: Listener>(rt: &R, listener: &mut L) -> Result<(Duration, [Duration; 2]), Fail>
where
    R: Threads + Sync + rt::Clock + net::Net<Listener = TcpListener, Stream = TcpStream>,
{
    let silent = silent_end(rt, listener)?;
    let slow = slow_end(rt, listener)?;
    Ok((silent, slow))
}

/// The same of a listener of this net.
fn ends_over<R, N: Net>(rt: &R, net: &mut N) -> Result<(Duration, [Duration; 2]), Fail>
where
    R: Threads + Sync + rt::Clock + net::Net<Listener = TcpListener, Stream = TcpStream>,
{
    let mut listeners = net.listen(LOOPBACK, PORT, 1, 0)?.into_items();
    let told = match listeners.first_mut() {
        Some(listener) => ends(rt, listener),
        None => Err(Fail::from("no listener")),
    };
    drop(listeners);
    told
}

/// A client that is silent is waited for half a second, and one that goes on for two. On a busy
/// machine both may take longer, but no client can hold its listener. One that may have paused is
/// not looked at for how early it was ended.
#[test]
fn ends_are_bounded(rt: HostRuntime) -> Result<(), Fail> {
    let mut net = SocketNet::of(&rt)?;
    let told = ends_over(&rt, &mut net);
    drop(net);
    let (silent, [slow, silence]) = told?;
    let most = Duration::from_secs(10);
    let is_awaited = slow >= Duration::from_millis(1_900) || silence >= Duration::from_millis(400);
    assert!(rt; silent >= Duration::from_millis(400) && silent < most);
    assert!(rt; is_awaited && slow < most);
    Ok(())
}
