//! Clients that have nothing to say for a while.
use crate::outside::{
    ONE_WORKER, TWO_WORKERS, asking, net_of_two, served_by, told, vec_of_one, vec_of_two, visited,
};
use crate::paired::Paired;
use crate::running::assert_told;
use line_base::Event;
use line_doubles::{MemAddress, MemNet, MemPeer};
use std::alloc::{AllocError, AllocGlobal, Global};
use std::sync::Wait;
use std::sync::atomic::AtomicBool;
use std::test::Fail;
use std::thread::Threads;

/// A request that no table routes.
const GET: &str = "GET / HTTP/1.1\r\nHost: web\r\n\r\n";

const HEAD: &str = "HEAD / HTTP/1.1\r\nHost: web\r\n\r\n";

/// What begins the answer to such a request, and is all of it where a head was asked for.
const NEGATIVE: &str = "HTTP/1.1 502 Bad Gateway\r\nContent-Type: text/plain\r\n\
    l5d-err: negative\r\nContent-Length: 9\r\n\r\n";

/// What the router's first listener tells: a client that pauses, and one that asks only once that
/// one is read.
fn told_of_two<'a>(
    alloc: Global,
    paused: &'a AtomicBool,
    first: &'a AtomicBool,
) -> Result<MemAddress<Paired<'a>>, AllocError> {
    let pausing = Paired::pausing(paused, first, asking(alloc, HEAD)?);
    let next = Paired::of(first, paused, asking(alloc, GET)?);
    let events = vec_of_two(alloc, Event::Came(pausing), Event::Came(next))?;
    told(alloc, 4140, events, Vec::new(alloc))
}

/// What its second listener tells: a client that asks only once the last of those is read, and then
/// that the client which pauses has something to say.
fn told_of_one<'a>(
    alloc: Global,
    first: &'a AtomicBool,
    second: &'a AtomicBool,
) -> Result<MemAddress<Paired<'a>>, AllocError> {
    let last = Paired::of(second, first, asking(alloc, GET)?);
    let events = vec_of_two(alloc, Event::Came(last), Event::Ready(0))?;
    told(alloc, 4140, events, Vec::new(alloc))
}

/// A net in which the router's two listeners tell these.
fn net_of_three<'a>(
    alloc: Global,
    paused: &'a AtomicBool,
    first: &'a AtomicBool,
    second: &'a AtomicBool,
) -> Result<MemNet<Paired<'a>>, AllocError> {
    let here = told_of_two(alloc, paused, first)?;
    let there = told_of_one(alloc, first, second)?;
    net_of_two(alloc, here, there)
}

/// What such clients are given, one after another, and the status.
fn three<R: AllocGlobal + Threads + Wait + Sync>(rt: &R) -> Result<(String, u8), AllocError> {
    let (paused, first, second) = (
        AtomicBool::new(false),
        AtomicBool::new(false),
        AtomicBool::new(false),
    );
    let net = net_of_three(rt.alloc(), &paused, &first, &second)?;
    Ok(served_by(rt, TWO_WORKERS, net)?.into_given())
}

/// A client that pauses is left by the worker that it came to, which is then held by the next
/// client, and another worker goes on with it. Its answer comes behind those of the others, since
/// it is given back at the second listener.
#[test]
fn another_worker_goes_on(rt: HostRuntime) -> Result<(), Fail> {
    let answers = "HTTP/1.1 502 Bad Gateway\r\nContent-Type: text/plain\r\n\
        l5d-err: negative\r\nContent-Length: 9\r\n\r\nnegative\n\
        HTTP/1.1 502 Bad Gateway\r\nContent-Type: text/plain\r\n\
        l5d-err: negative\r\nContent-Length: 9\r\n\r\nnegative\n\
        HTTP/1.1 502 Bad Gateway\r\nContent-Type: text/plain\r\n\
        l5d-err: negative\r\nContent-Length: 9\r\n\r\n";
    let told = three(&rt)?;
    assert_told(&rt, told, (answers, 0), &"three clients");
    Ok(())
}

/// A net in which one client comes, to a port, and asks this; it has nothing to say at these
/// questions.
fn net_of_one(
    alloc: Global,
    port: u16,
    asks: &str,
    quiet: &[u64],
) -> Result<MemNet<MemPeer>, AllocError> {
    let quiet = Vec::from_slice(alloc, quiet)?;
    let client = asking(alloc, asks)?.quiet(quiet);
    let address = visited(alloc, port, client)?;
    let addresses = vec_of_one(alloc, address)?;
    Ok(MemNet::of(alloc, addresses, Vec::new(alloc), Vec::new(alloc)))
}

/// What such a client is given, and the status.
fn waited<R: AllocGlobal + Threads + Wait + Sync>(
    rt: &R,
    port: u16,
    asks: &str,
    quiet: &[u64],
) -> Result<(String, u8), AllocError> {
    let net = net_of_one(rt.alloc(), port, asks, quiet)?;
    Ok(served_by(rt, ONE_WORKER, net)?.into_given())
}

/// Whoever waits when the listener closes is served what it has said by then, and ended.
#[test]
fn who_waits_is_served_at_the_end(rt: HostRuntime) -> Result<(), Fail> {
    let caller = "GET /api/1/dtabs HTTP/1.1\r\nHost: n\r\n\r\n";
    let names = "HTTP/1.1 200 OK\r\nContent-Type: application/json\r\nContent-Length: 2\r\n\r\n[]";
    let rows: [(u16, &str, &[u64], &str); 4] = [
        (4140, HEAD, &[0], NEGATIVE),
        (4140, HEAD, &[0, 1], ""),
        (4180, caller, &[0], names),
        (4180, caller, &[0, 1], ""),
    ];
    for (port, asks, quiet, given) in &rows {
        let told = waited(&rt, *port, asks, quiet)?;
        assert_told(&rt, told, (*given, 0), &(*port, *quiet));
    }
    Ok(())
}
