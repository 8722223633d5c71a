//! What the objects in memory give and take, call by call.
ghost use Rattle.std.specs.Prelude.{◌≡◌, ◌<◌};

use crate::told::assert_told;
use line_base::{
    Clock, ConnectionPool, DialEvent, Dialer, Event, Failed, Listener, Mem, Net, NetFault, Peer,
    Sink,
};
use line_doubles::{
    MemAddress, MemClock, MemDialer, MemDials, MemEnded, MemNet, MemPeer, MemSink, MemSource,
    MemVisits,
};
use std::alloc::Global;
use std::marker::Brand;
use std::sync::ledger::{Blank, Ledger};
use std::test::Fail;
use step_count::Steps;
use text_parts::append_number;

/// A source of these bytes, in pieces of such sizes.
fn source_of(alloc: Global, bytes: &[u8], sizes: &[usize], failing: &[u64]) -> Mem<MemSource> {
    let bytes = Vec::from_slice(alloc, bytes)?;
    let sizes = Vec::from_slice(alloc, sizes)?;
    Ok(MemSource::of(bytes, sizes, Vec::from_slice(alloc, failing)?))
}

/// A sink that takes pieces of such sizes.
fn sink_of(alloc: Global, sizes: &[usize], failing: &[u64]) -> Mem<MemSink> {
    let sizes = Vec::from_slice(alloc, sizes)?;
    Ok(MemSink::of(alloc, sizes, Vec::from_slice(alloc, failing)?))
}

/// What a call gives in a byte: how many bytes it moved, up to nine, or `!` where it failed.
fn digit(gives: Result<usize, Failed>) -> u8 {
    match gives {
        Ok(count) => b'0' + count.min(9) as u8,
        Err(_) => b'!',
    }
}

fn write<K: Sink>(sink: &mut K, bytes: &[u8]) -> u8 {
    digit(sink.write(bytes))
}

/// Bytes that are written, and how many of them are taken.
const WRITES: [(&[u8], u8); 5] = [
    (b"", b'0'),
    (b"abc", b'2'),
    (b"cde", b'1'),
    (b"de", b'!'),
    (b"de", b'2'),
];

/// The first of these writes that gives something else.
fn first_wrong_write(sink: &mut MemSink) -> Option<usize> {
    for (at, (bytes, gives)) in WRITES.iter().enumerate() {
        if write(sink, bytes) != *gives {
            return Some(at);
        }
    }
    None
}

/// Whether a sink holds these bytes, and has failed once.
fn has_taken(sink: &MemSink, bytes: &[u8]) -> bool {
    sink.held() == bytes && sink.faults() == 1
}

#[test]
fn sink_in_pieces(rt: HostRuntime) -> Result<(), Fail> {
    let mut sink = sink_of(rt.alloc(), &[2, 0], &[2])?;
    let wrong = first_wrong_write(&mut sink);
    let has_taken = has_taken(&sink, b"abcde");
    drop(sink);
    assert_eq!(rt; wrong, None);
    assert!(rt; has_taken);
    Ok(())
}

/// A peer that sends these bytes, and whose reads and writes fail as told.
fn peer_of(alloc: Global, bytes: &[u8], failing: &[u64]) -> Mem<MemPeer> {
    let sink = sink_of(alloc, &[], failing)?;
    match source_of(alloc, bytes, &[], failing) {
        Ok(source) => Ok(MemPeer::of(source, sink)),
        Err(error) => {
            drop(sink);
            Err(error)
        }
    }
}

/// What a read of a peer gives, and then a write.
fn exchange<P: Peer>(peer: &mut P, into: &mut [u8], bytes: &[u8]) -> (u8, u8) {
    let got = digit(peer.read(into));
    let put = digit(peer.write(bytes));
    (got, put)
}

/// Bytes that are written behind a read, and what both give.
const EXCHANGES: [(&[u8], (u8, u8)); 3] = [
    (b"out", (b'2', b'3')),
    (b"out", (b'!', b'!')),
    (b"!", (b'0', b'1')),
];

/// The first of these exchanges that gives something else.
fn first_wrong_exchange(peer: &mut MemPeer) -> Option<usize> {
    let mut into = [0u8; 8];
    for (at, (bytes, gives)) in EXCHANGES.iter().enumerate() {
        if exchange(peer, &mut into, bytes) != *gives {
            return Some(at);
        }
    }
    None
}

/// Whether a peer holds these bytes, and has given one end and failed once each way.
fn has_held(peer: &MemPeer, bytes: &[u8]) -> bool {
    let source = peer.source();
    has_taken(peer.sink(), bytes) && source.faults() == 1 && source.ends() == 1
}

#[test]
fn peer_both_ways(rt: HostRuntime) -> Result<(), Fail> {
    let mut peer = peer_of(rt.alloc(), b"in", &[1])?;
    let wrong = first_wrong_exchange(&mut peer);
    let is_held = has_held(&peer, b"out!");
    drop(peer);
    assert_eq!(rt; wrong, None);
    assert!(rt; is_held);
    Ok(())
}

fn tick_twice<L: Ledger>(blank: Blank)
    requires name { blank.name ≡ L.name }
    requires parts { blank.parts ≡ L.parts }
    requires some { 0 < blank.parts }
{
    let mut steps = Steps::<L>::start(blank);
    steps.tick();
    steps.tick();
}

#[test]
fn steps_take_no_memory(rt: HostRuntime) {
    tick_twice::<Brand>(Blank::new(1));
    assert!(rt; size_of::<Steps<Brand>>() == 0);
}

/// One connection: a dial, a send, two receives and a hang. What the last three calls gave, `-` for
/// each where the dial failed.
fn connect_once<D: Dialer>(dialer: &mut D, bytes: &[u8]) -> [u8; 3] {
    if dialer.dial(0x7f00_0001, 9001).is_err() {
        return *b"---";
    }
    let mut into = [0u8; 4];
    let sent = digit(dialer.send(bytes));
    let got = digit(dialer.recv(&mut into));
    let last = digit(dialer.recv(&mut into));
    dialer.hang();
    [sent, got, last]
}

/// A letter for an event.
fn letter(event: &DialEvent) -> u8 {
    match event {
        DialEvent::Dialed(_, _) => b'D',
        DialEvent::Sent(_) => b'S',
        DialEvent::Got(_) => b'G',
        DialEvent::Hung => b'H',
        DialEvent::Resumed(_, _) => b'R',
        DialEvent::Kept => b'K',
    }
}

/// The bytes that an event moved.
fn moved(event: &DialEvent) -> &[u8] {
    match event {
        DialEvent::Sent(piece) => piece.bytes(),
        DialEvent::Got(piece) => piece.bytes(),
        _ => &[],
    }
}

/// Puts an event behind a text: its letter, with the bytes that it moved.
fn put_event(event: &DialEvent, text: &mut Vec<u8>) -> Mem<()> {
    text.push(letter(event))?;
    text.extend_from_slice(moved(event))
}

/// The log of a dialer as text.
fn log_text(alloc: Global, dialer: &MemDialer) -> Result<Vec<u8>, Fail> {
    let mut text = Vec::new(alloc);
    for event in dialer.log() {
        put_event(event, &mut text)?;
    }
    Ok(text)
}

/// Two replies.
fn replies(alloc: Global) -> Mem<Vec<Vec<u8>>> {
    let mut replies = Vec::new(alloc);
    for reply in ["abc", "xyz"] {
        replies.push(reply.as_bytes().to_vec(alloc)?)?;
    }
    Ok(replies)
}

/// A dialer with these replies.
fn dialer_of(alloc: Global, sizes: &[usize], failing: &[u64]) -> Mem<MemDialer> {
    let sizes = Vec::from_slice(alloc, sizes)?;
    let failing = Vec::from_slice(alloc, failing)?;
    let replies = replies(alloc)?;
    Ok(MemDialer::of(alloc, replies, sizes, failing))
}

/// Bytes that a connection sends, what its calls give, and the faults until then.
const CONNECTIONS: [(&[u8], [u8; 3], u64); 4] = [
    (b"hello", *b"221", 0),
    (b"hello", *b"!30", 1),
    (b"hello", *b"---", 2),
    (b"", *b"000", 2),
];

/// The first of these connections that gives something else, or stays open.
fn first_wrong_connection(dialer: &mut MemDialer) -> Option<usize> {
    for (at, (bytes, gives, faults)) in CONNECTIONS.iter().enumerate() {
        let is_given = connect_once(dialer, bytes) == *gives;
        if !is_given || dialer.faults() != *faults || dialer.open_to().is_some() {
            return Some(at);
        }
    }
    None
}

/// Two bytes are sent at call 1 and two received at call 2; the send 5 and the dial 8 fail; a send
/// of nothing is no call and stands in no log, and the end is got as no bytes.
#[test]
fn dialer_keeps_a_log(rt: HostRuntime) -> Result<(), Fail> {
    let mut dialer = dialer_of(rt.alloc(), &[9, 2, 2], &[5, 8])?;
    let wrong = first_wrong_connection(&mut dialer);
    let log = log_text(rt.alloc(), &dialer);
    drop(dialer);
    assert_told(&rt, log, b"DSheGabGcHDGxyzGHDGGH")?;
    assert_eq!(rt; wrong, None);
    Ok(())
}

/// One visit: a connection is resumed, or else dialed; so many bytes are received, four at most;
/// and it is put aside, or ended.
fn visit<D: Dialer>(dialer: &mut D, port: u16, room: usize, keeps: bool) -> u8 {
    if !dialer.resume(7, port) && dialer.dial(7, port).is_err() {
        return b'-';
    }
    let mut into = [0u8; 4];
    let got = digit(dialer.recv(&mut into[..room.min(4)]));
    if keeps && dialer.keeps() {
        dialer.keep();
    } else {
        dialer.hang();
    }
    got
}

/// The port of a visit, its room, whether its connection is put aside, and what it gives.
const VISITS: [(u16, usize, bool, u8); 7] = [
    (1, 4, true, b'3'),
    (1, 2, true, b'2'),
    (1, 4, true, b'0'),
    (2, 4, false, b'0'),
    (1, 4, true, b'0'),
    (1, 4, false, b'0'),
    (1, 4, false, b'!'),
];

/// The first of these visits that gives something else.
fn first_wrong_visit(dialer: &mut MemDialer) -> Option<usize> {
    for (at, (port, room, keeps, gives)) in VISITS.iter().enumerate() {
        if visit(dialer, *port, *room, *keeps) != *gives {
            return Some(at);
        }
    }
    None
}

/// The pool of a dialer that keeps connections.
const POOL: ConnectionPool = ConnectionPool {
    max_size: 1,
    idle_ms: 0,
};

/// A dialer whose calls 11 and 18 fail, the second by waiting.
fn keeping_dialer(alloc: Global) -> Mem<MemDialer> {
    let waiting = vec![in alloc; 18]?;
    match dialer_of(alloc, &[], &[11, 18]) {
        Ok(dialer) => Ok(dialer.keeping(POOL, waiting)),
        Err(error) => Err(error),
    }
}

/// A kept connection is resumed for its own port alone; not where a byte of its last reply is left,
/// and not at the call 11, which fails. The call 18 fails by waiting.
#[test]
fn dialer_keeps_connections(rt: HostRuntime) -> Result<(), Fail> {
    let mut dialer = keeping_dialer(rt.alloc())?;
    let wrong = first_wrong_visit(&mut dialer);
    let log = log_text(rt.alloc(), &dialer);
    let (is_late, faults) = (dialer.is_late(), dialer.faults());
    drop(dialer);
    assert_told(&rt, log, b"DGabcKRGxyKDGKDGHDGKRGHDH")?;
    assert_eq!(rt; wrong, None);
    assert!(rt; is_late && faults == 1);
    Ok(())
}

/// The moment that a clock tells, and the first that a fork of it does.
fn moments<C: Clock + Drop>(clock: &mut C) -> (u64, u64) {
    let moment = clock.now();
    let mut fork = clock.fork();
    let first = fork.now();
    drop(fork);
    (moment, first)
}

/// What a clock and its forks tell, call by call.
type Moments = &'static [(u64, u64)];

/// The first of these moments that a clock tells otherwise.
fn first_wrong_moment(clock: &mut MemClock, want: Moments) -> Option<usize> {
    for (at, gives) in want.iter().enumerate() {
        if moments(clock) != *gives {
            return Some(at);
        }
    }
    None
}

/// The same of the clock that tells these moments.
fn first_wrong_of(alloc: Global, moments: &[u64], want: Moments) -> Mem<Option<usize>> {
    let mut clock = MemClock::of(alloc, Vec::from_slice(alloc, moments)?)?;
    let wrong = first_wrong_moment(&mut clock, want);
    drop(clock);
    Ok(wrong)
}

/// The last moment stays, and a fork begins with the first. Where there is none, 0 is told.
#[test]
fn clock_and_fork(rt: HostRuntime) -> Result<(), Fail> {
    let wrong = first_wrong_of(rt.alloc(), &[5, 3, 9], &[(5, 5), (3, 5), (9, 5), (9, 5)])?;
    assert_eq!(rt; wrong, None);
    assert_eq!(rt; first_wrong_of(rt.alloc(), &[], &[(0, 0)])?, None);
    Ok(())
}

/// The next answer of a listener: `p` for a peer, which goes back at once, `r` for one that was
/// watched, `t` for a tick, `!` for a fault, and `-` where it is closed.
fn answer<L: Listener>(listener: &mut L) -> u8 {
    match listener.next_event() {
        Ok(Event::Came(peer)) => {
            listener.finish(peer);
            b'p'
        }
        Ok(Event::Ready(_)) => b'r',
        Ok(Event::Tick(_)) => b't',
        Ok(Event::Closed) => b'-',
        Err(_) => b'!',
    }
}

/// Five answers of a listener.
fn answers<L: Listener>(listener: &mut L) -> [u8; 5] {
    let mut answers = [b'.'; 5];
    for place in answers.iter_mut() {
        *place = answer(listener);
    }
    answers
}

/// Gives a listener back with a new dialer and a new stop. Whether it was not broken.
fn give_back<N: Net>(net: &mut N, listener: N::L) -> bool {
    let dialer = net.dialer(ConnectionPool::NONE);
    let stop = net.stopper();
    net.end(listener, Some(dialer), stop).is_ok()
}

/// Puts the five answers of a listener behind a text, and gives it back. Whether all went well.
fn answer_and_end<N: Net>(net: &mut N, listener: N::L, told: &mut Vec<u8>) -> bool {
    let mut listener = listener;
    let answers = answers(&mut listener);
    let is_whole = give_back(net, listener);
    told.extend_from_slice(&answers).is_ok() && is_whole
}

/// The same of some listeners, one after the other.
fn answer_all<N: Net>(net: &mut N, listeners: Vec<N::L>, told: &mut Vec<u8>) -> bool {
    let mut is_well = true;
    for listener in listeners {
        is_well &= answer_and_end(net, listener, told);
    }
    is_well
}

/// Listens on port 80 of an address, at two places, and gives each listener back behind its five
/// answers, all in one text.
fn listen_twice<N: Net>(net: &mut N, ip: u32, told: &mut Vec<u8>) -> Result<bool, NetFault> {
    let listeners = net.listen(ip, 80, 2, 0)?;
    Ok(answer_all(net, listeners.into_items(), told))
}

/// Puts the events of a place behind others: so many peers that say nothing come, and then it tells
/// a number and a tick.
fn put_events(alloc: Global, count: u32, events: &mut Vec<Event<MemPeer>>) -> Mem<()> {
    for _peer in 0..count {
        events.push(Event::Came(peer_of(alloc, b"", &[])?))?;
    }
    events.push(Event::Ready(7))?;
    Ok(events.push(Event::Tick(1))?)
}

/// A place with these events, whose calls fail as told.
fn visits(alloc: Global, count: u32, failing: &[u64]) -> Mem<MemVisits<MemPeer>> {
    let failing = Vec::from_slice(alloc, failing)?;
    let mut events = Vec::new(alloc);
    let put = put_events(alloc, count, &mut events);
    let visits = MemVisits { events, failing };
    match put {
        Ok(()) => Ok(visits),
        Err(error) => {
            drop(visits);
            Err(error)
        }
    }
}

/// Port 80 of the address 7, where two peers come at the first place, whose accept 1 fails, and one
/// at the second.
fn address_of_visits(alloc: Global) -> Mem<MemAddress<MemPeer>> {
    let mut places = Vec::with_capacity(alloc, 2)?;
    places.push(visits(alloc, 2, &[1])?)?;
    places.push(visits(alloc, 1, &[])?)?;
    Ok(MemAddress {
        ip: 7,
        port: 80,
        visits: places,
    })
}

/// Dials of one dialer, with no reply.
fn no_replies(alloc: Global) -> MemDials {
    MemDials {
        replies: Vec::new(alloc),
        sizes: Vec::new(alloc),
        failing: Vec::new(alloc),
    }
}

/// A net with that address, whose call 1 fails.
fn net_of_visits(alloc: Global) -> Mem<MemNet<MemPeer>> {
    let failing = vec![in alloc; 1]?;
    let dials = vec![in alloc; no_replies(alloc)]?;
    let addresses = vec![in alloc; address_of_visits(alloc)?]?;
    Ok(MemNet::of(alloc, addresses, dials, failing))
}

/// What is to be told beside the answers of listeners: why there are none, or that one broke.
fn word(heard: Result<bool, NetFault>) -> &'static [u8] {
    match heard {
        Ok(true) => b"",
        Ok(false) => b"broken",
        Err(NetFault::Failed) => b"failed",
        Err(NetFault::OutOfMemory) => b"memory",
    }
}

/// Puts what is heard at an address behind a text, and then how often a call failed and how many
/// listeners came back clean.
fn put_heard(net: &mut MemNet<MemPeer>, ip: u32, text: &mut Vec<u8>) -> Mem<()> {
    let heard = listen_twice(net, ip, text);
    text.extend_from_slice(word(heard))?;
    text.push(b' ')?;
    append_number(net.faults(), text)?;
    text.push(b' ')?;
    append_number(net.clean(), text)?;
    Ok(text.push(b';')?)
}

/// How many peers came back with a listener, `d` where a dialer did too, and how often its stop was
/// called.
fn ended_word(ended: &MemEnded<MemPeer>) -> [u8; 4] {
    let returned = digit(Ok(ended.listener().returned().len()));
    let calls = digit(Ok(ended.stop().calls().min(9) as usize));
    let dialer = match ended.dialer() {
        Some(_) => b'd',
        None => b'-',
    };
    [returned, dialer, calls, b' ']
}

/// What is heard at some addresses, one after the other, and how each listener came back.
fn told_of(alloc: Global, net: &mut MemNet<MemPeer>, ips: &[u32]) -> Result<Vec<u8>, Fail> {
    let mut text = Vec::new(alloc);
    for ip in ips {
        put_heard(net, *ip, &mut text)?;
    }
    for ended in net.ended() {
        text.extend_from_slice(&ended_word(ended))?;
    }
    Ok(text)
}

/// What is heard at four addresses, and the six listeners that came back.
const HEARD: &[u8] = b"p!prtprt-- 0 1;failed 1 1;---------- 1 3;---------- 1 5;\
    2d0 1d0 0d0 0d0 0d0 0d0 ";

/// Two peers come to the first place of an address and one to the second; the accept 1 of the first
/// fails. A later call goes on behind them, the call 1 fails, and to another address nobody comes.
#[test]
fn net_of_listeners(rt: HostRuntime) -> Result<(), Fail> {
    let mut net = net_of_visits(rt.alloc())?;
    let told = told_of(rt.alloc(), &mut net, &[7, 7, 7, 8]);
    let stops = net.stops();
    drop(net);
    assert_told(&rt, told, HEARD)?;
    assert!(rt; stops == (6, 6), "{stops:?}");
    Ok(())
}
