//! A client is waited for behind a reply where it was prompt before, and not where it paused.
use crate::clients::{LOOPBACK, at, next_client};
use line_base::{Event, Listener, Net, Next, Peer, Stop};
use net_edge::SocketNet;
use std::io::Write;
use std::net::{self, TcpListener, TcpStream};
use std::sync::atomic::{AtomicU64, Ordering};
use std::test::Fail;
use std::thread::Threads;
use std::time::{Duration, Instant};
use std::{rt, thread};

const PORT: u16 = 28_995;

/// How long a client pauses, in milliseconds: longer than any is waited for behind a reply.
const PAUSE: u64 = 20;

/// A client that is waited for is so for longer than this, in milliseconds.
const LEAST_WAIT: u64 = 4;

/// How often a client pauses, and how often it does not.
const ROUNDS: u32 = 8;

/// Counts how often a listener is told that a client has something to say, until it is closed. So
/// there is a listener that waits for whoever comes.
fn count_told<L: Listener>(listener: &mut L, told: &AtomicU64) {
    for _ in 0..100_000 {
        match listener.next_event() {
            Ok(Event::Ready(_)) => {
                told.fetch_add(1, Ordering::SeqCst);
            }
            Ok(Event::Came(peer)) => listener.finish(peer),
            Ok(Event::Tick(_)) => {}
            Ok(Event::Closed) | Err(_) => return,
        }
    }
}

/// Whether the listener is told once more than so often, within some seconds.
fn is_told<R: rt::Clock>(rt: &R, told: &AtomicU64, before: u64) -> bool {
    for _ in 0..10_000 {
        if told.load(Ordering::SeqCst) > before {
            return true;
        }
        thread::sleep(rt, Duration::from_millis(1));
    }
    false
}

/// How long it takes until a client that says nothing is found quiet.
fn silence<R: rt::Clock, P: Peer>(rt: &R, peer: &mut P) -> Result<Duration, Fail> {
    let begin = Instant::now(rt)?;
    match peer.read_next(&mut [0u8; 8]) {
        Ok(Next::Quiet) => Ok(begin.elapsed(rt)?),
        _ => Err(Fail::from("not quiet")),
    }
}

/// Leaves a client that was found quiet. It says something behind a pause, and that is read.
fn hear<R: rt::Clock, L: Listener>(
    rt: &R,
    listener: &L,
    peer: &mut L::P,
    client: &mut TcpStream,
    told: &AtomicU64,
    pause: u64,
) -> Result<(), Fail> {
    let before = told.load(Ordering::SeqCst);
    if !listener.watch(peer, 7) {
        return Err(Fail::from("not watched"));
    }
    thread::sleep(rt, Duration::from_millis(pause));
    client.write(b"a")?;
    if !is_told(rt, told, before) {
        return Err(Fail::from("not told"));
    }
    match peer.read_next(&mut [0u8; 8]) {
        Ok(Next::Bytes(_)) => Ok(()),
        _ => Err(Fail::from("not read")),
    }
}

/// In how many rounds a client was waited for behind no pause, and in how many behind one.
fn waits<R: rt::Clock, L: Listener>(
    rt: &R,
    listener: &L,
    peer: &mut L::P,
    client: &mut TcpStream,
    told: &AtomicU64,
) -> Result<(u32, u32), Fail> {
    let least = Duration::from_millis(LEAST_WAIT);
    let mut prompt = 0u32;
    let mut paused = 0u32;
    for _ in 0..ROUNDS {
        if silence(rt, peer)? >= least {
            prompt = prompt.saturating_add(1);
        }
        hear(rt, listener, peer, client, told, PAUSE)?;
        if silence(rt, peer)? >= least {
            paused = paused.saturating_add(1);
        }
        hear(rt, listener, peer, client, told, 0)?;
    }
    Ok((prompt, paused))
}

/// The same while the other listener is asked, until both are stopped.
fn waits_beside<R: rt::Clock + Threads + Sync, L: Listener + Send + Sync, S: Stop + Send>(
    rt: &R,
    first: &L,
    second: &mut L,
    peer: &mut L::P,
    client: &mut TcpStream,
    stop: &mut S,
) -> Result<(u32, u32), Fail>
where
    L::P: Send,
{
    let told = AtomicU64::new(0);
    let (counts, ()) = thread::join(
        rt,
        || {
            let counts = waits(rt, first, peer, client, &told);
            stop.stop();
            counts
        },
        || count_told(second, &told),
    );
    counts
}

/// The same of a client that comes to the first listener, and says a byte.
fn waits_for_next<R: rt::Clock + Threads + Sync, L: Listener + Send + Sync, S: Stop + Send>(
    rt: &R,
    first: &mut L,
    second: &mut L,
    client: &mut TcpStream,
    stop: &mut S,
) -> Result<(u32, u32), Fail>
where
    L::P: Send,
{
    client.write(b"a")?;
    let Some(peer) = next_client(first) else {
        return Err(Fail::from("no client"));
    };
    let mut peer = peer;
    let begun = peer.read(&mut [0u8; 8]);
    let counts = waits_beside(rt, first, second, &mut peer, client, stop);
    first.finish(peer);
    let (prompt, paused) = counts?;
    if begun != Ok(1) {
        return Err(Fail::from("not read"));
    }
    Ok((prompt, paused))
}

/// The same of two listeners.
fn waits_of_two<R: rt::Clock + Threads + Sync, L: Listener + Send + Sync + Drop, S: Stop + Send>(
    rt: &R,
    listeners: &mut Vec<L>,
    client: &mut TcpStream,
    stop: &mut S,
) -> Result<(u32, u32), Fail>
where
    L::P: Send,
{
    let Some(mut first) = listeners.pop() else {
        return Err(Fail::from("no listener"));
    };
    let Some(mut second) = listeners.pop() else {
        return Err(Fail::from("no other listener"));
    };
    waits_for_next(rt, &mut first, &mut second, client, stop)
}

/// The same of two listeners of this net, and of a client that connects to them.
fn waits_over<R, N: Net>(rt: &R, net: &mut N) -> Result<(u32, u32), Fail>
where
    R: rt::Clock + Threads + Sync + net::Net<Listener = TcpListener, Stream = TcpStream>,
    N::L: Sync,
    <N::L as Listener>::P: Send,
{
    let mut listeners = net.listen(LOOPBACK, PORT, 2, 0)?.into_items();
    let mut client = match TcpStream::connect(rt, at(PORT)) {
        Ok(client) => client,
        Err(error) => {
            drop(listeners);
            return Err(Fail::from(error));
        }
    };
    let mut stop = net.stopper();
    let counts = waits_of_two(rt, &mut listeners, &mut client, &mut stop);
    drop(stop);
    drop(client);
    drop(listeners);
    counts
}

/// A client that speaks at once and behind a pause in turn, while another listener is free. One
/// that is waited for is never found quiet sooner. But on a busy machine one that is not may be
/// found so late, and one that speaks at once may be heard late: so not every round has to go as it
/// should.
#[test]
fn only_a_prompt_client_is_waited_for(rt: HostRuntime) -> Result<(), Fail> {
    let mut net = SocketNet::of(&rt)?;
    let counts = waits_over(&rt, &mut net);
    drop(net);
    let (prompt, paused) = counts?;
    assert!(rt; prompt > 1);
    assert!(rt; paused < ROUNDS - 1);
    Ok(())
}
