//! A net over loopback.
use crate::clients::{LOOPBACK, at, port_of};
use line_base::{ConnectionPool, Dialer, Event, Failed, Listener, Net, NetFault, Peer, Stop};
use net_edge::SocketNet;
use std::alloc::AllocGlobal;
use std::net::{self, TcpListener, TcpStream};
use std::sync::atomic::{AtomicU32, Ordering};
use std::test::Fail;
use std::thread;
use std::thread::Threads;

/// What the threads did that answer connections.
#[derive(Drop)]
struct Counts {
    /// How many connections they answered.
    answered: AtomicU32,
    /// How many of their listeners were closed.
    closed: AtomicU32,
}

/// Answers each connection with what it said first, in capitals, until the listener is closed; at
/// most so many. It gives how many it answered, and whether the listener was closed.
fn echo<L: Listener>(listener: &mut L, most: u32) -> (u32, bool) {
    let mut served = 0u32;
    for _ in 0..most {
        let mut peer = match listener.next_event() {
            Ok(Event::Came(peer)) => peer,
            Ok(Event::Closed) => return (served, true),
            Ok(Event::Ready(_)) | Ok(Event::Tick(_)) | Err(_) => continue,
        };
        let mut piece = [0u8; 16];
        if let Ok(count) = peer.read(&mut piece) {
            piece.make_ascii_uppercase();
            let _ = peer.write(&piece[..count]);
            served = served.saturating_add(1);
        }
        listener.finish(peer);
    }
    (served, false)
}

/// Answers the connections of a listener, and counts what was done.
fn answer<L: Listener>(listener: &mut L, counts: &Counts) {
    let (answered, is_closed) = echo(listener, 8);
    counts.answered.fetch_add(answered, Ordering::SeqCst);
    counts
        .closed
        .fetch_add(u32::from(is_closed), Ordering::SeqCst);
}

/// What is heard by who says `ping` on a connection, and how many bytes come behind it.
type Answer = Result<([u8; 4], usize), Failed>;

/// Says `ping` on a connection of its own, and gives what comes back before the end.
fn ask<D: Dialer>(dialer: &mut D, port: u16) -> Answer {
    match dialer.dial(LOOPBACK, port) {
        Ok(()) => {}
        Err(failed) => return Err(failed),
    }
    let mut heard = [0u8; 4];
    let mut rest = [0u8; 4];
    let said = dialer.send(b"ping");
    let got = dialer.recv(&mut heard);
    let end = dialer.recv(&mut rest);
    dialer.hang();
    match (said, got, end) {
        (Ok(4), Ok(4), Ok(more)) => Ok((heard, more)),
        _ => Err(Failed),
    }
}

/// The same with a new dialer of this net.
fn ask_anew<N: Net>(net: &mut N, port: u16) -> Answer {
    let mut dialer = net.dialer(ConnectionPool::NONE);
    let answer = ask(&mut dialer, port);
    drop(dialer);
    answer
}

/// Asks twice at each port, and then calls the stop. It gives how many answers were heard.
fn ask_all<D: Dialer, S: Stop>(dialer: &mut D, stop: &mut S, ports: [u16; 2]) -> u32 {
    let mut heard = 0u32;
    let [one, other] = ports;
    for port in [one, one, other, other] {
        if ask(dialer, port) == Ok((*b"PING", 0)) {
            heard = heard.saturating_add(1);
        }
    }
    stop.stop();
    heard
}

/// Answers the connections of each of three listeners in a thread of its own.
fn answer_each<R: Threads + Sync, L: Listener + Send>(rt: &R, listeners: &mut [L], counts: &Counts)
where
    L::P: Send,
{
    thread::for_each_mut(rt, listeners, 3, &|_, listener| answer(listener, counts));
}

/// Answers at three listeners while a thread more asks. It gives how many connections were
/// answered, how many listeners were closed, and how many answers were heard.
fn answer_and_ask<R: Threads + Sync, L: Listener + Send, D: Dialer + Send, S: Stop + Send>(
    rt: &R,
    listeners: &mut [L],
    dialer: &mut D,
    stop: &mut S,
    ports: [u16; 2],
) -> [u32; 3]
where
    L::P: Send,
{
    let counts = Counts {
        answered: AtomicU32::new(0),
        closed: AtomicU32::new(0),
    };
    let (heard, ()) = thread::join(
        rt,
        || ask_all(dialer, stop, ports),
        || answer_each(rt, listeners, &counts),
    );
    let answered = counts.answered.load(Ordering::SeqCst);
    [answered, counts.closed.load(Ordering::SeqCst), heard]
}

/// Adds so many listeners of a port.
fn listen<N: Net>(
    net: &mut N,
    port: u16,
    copies: u32,
    listeners: &mut Vec<N::L>,
) -> Result<(), Fail> {
    let mut more = net.listen(LOOPBACK, port, copies, 0)?.into_items();
    let added = listeners.append(&mut more);
    drop(more);
    Ok(added?)
}

/// Adds two listeners of a port that was free, and one of another such port. It gives both ports,
/// and why nobody can listen at the first one meanwhile.
fn listen_at_two<R, N: Net>(
    rt: &R,
    net: &mut N,
    listeners: &mut Vec<N::L>,
) -> Result<([u16; 2], Option<NetFault>), Fail>
where
    R: net::Net<Listener = TcpListener, Stream = TcpStream>,
{
    let one = port_of(TcpListener::bind(rt, at(0)))?;
    listen(net, one, 2, listeners)?;
    let fault = net.listen(LOOPBACK, one, 1, 0).err();
    let other = port_of(TcpListener::bind(rt, at(0)))?;
    listen(net, other, 1, listeners)?;
    Ok(([one, other], fault))
}

/// Gives the listeners back, and how many of them came back well.
fn end<N: Net>(net: &mut N, listeners: Vec<N::L>) -> u32 {
    let mut ended = 0u32;
    for listener in listeners {
        let stop = net.stopper();
        if net.end(listener, None, stop).is_ok() {
            ended = ended.saturating_add(1);
        }
    }
    ended
}

/// Why nobody can listen at an address that is in use; how many connections were answered, how many
/// listeners were closed, and how many answers were heard; how many listeners came back well; and
/// what is heard behind that at both addresses.
type Played = (Option<NetFault>, [u32; 3], u32, [Answer; 2]);

/// Listens at two addresses, answers and asks there, and gives the listeners back. It gives the
/// port of the address that was in use meanwhile, and what came of it all.
fn play<R, N: Net>(rt: &R, net: &mut N) -> Result<(u16, Played), Fail>
where
    R: Threads + Sync + AllocGlobal + net::Net<Listener = TcpListener, Stream = TcpStream>,
    <N::L as Listener>::P: Send,
{
    let mut listeners = Vec::new(rt.alloc());
    let (ports, fault) = match listen_at_two(rt, net, &mut listeners) {
        Ok(made) => made,
        Err(fail) => {
            drop(listeners);
            return Err(fail);
        }
    };
    let mut dialer = net.dialer(ConnectionPool::NONE);
    let mut stop = net.stopper();
    let counts = answer_and_ask(rt, listeners.as_mut_slice(), &mut dialer, &mut stop, ports);
    drop(stop);
    drop(dialer);
    let ended = end(net, listeners);
    let [one, other] = ports;
    let behind = [ask_anew(net, one), ask_anew(net, other)];
    Ok((one, (fault, counts, ended, behind)))
}

/// Two threads wait in the queue of an address, which is in use meanwhile, and one at another
/// address. A fourth thread asks, and its stop closes all three listeners: then nobody listens.
#[test]
fn net_over_loopback(rt: HostRuntime) -> Result<(), Fail> {
    let mut net = SocketNet::of(&rt)?;
    let played = play(&rt, &mut net);
    let refused = net.refused().map(|refusal| refusal.address());
    drop(net);
    let (port, played) = played?;
    let silence = [Err(Failed), Err(Failed)];
    assert_eq!(rt; refused, Some(at(port)));
    assert_eq!(rt; played, (Some(NetFault::Failed), [4, 3, 4], 3, silence));
    Ok(())
}
