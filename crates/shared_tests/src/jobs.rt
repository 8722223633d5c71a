//! Jobs that need one another, and clients that are served by turns.
ghost use Rattle.std.specs.Prelude.{◌≡◌};

use line_base::{Event, Gate, Next, Peer};
use line_doubles::{MemListener, MemPeer, MemSink, MemSource};
use std::alloc::{AllocError, Global};
use std::marker::Brand;
use std::sync::Wait;
use std::sync::atomic::{AtomicU64, Ordering};
use std::sync::ledger::{Blank, Ledger};
use std::test::Fail;
use std::thread;
use waiting::Lot;
use workers::{Accepting, Job, Serve, Stay, Turned, run_workers, serve_all};

/// How many turns a job waits for the other one.
const TURNS: u64 = 100_000_000;

/// Counts who began.
#[derive(Drop)]
struct Begun {
    count: AtomicU64,
}

impl Gate for Begun {
    fn begin(&self, _worker: u32) {
        self.count.fetch_add(1, Ordering::SeqCst);
    }

    fn done(&self, _worker: u32) {}
}

/// A job that waits at a meeting point until two are there, and ends with its number and whether
/// they were.
#[derive(Drop)]
struct Meeting<'a> {
    number: u32,
    point: &'a Begun,
}

impl Job for Meeting<'_> {
    type End = (u32, bool);

    ghost runs = { λ old new end. end.0 ≡ old.number };

    fn run<R: Wait, G: Gate>(&mut self, _rt: &R, gate: &G) -> (u32, bool) {
        gate.begin(self.number);
        for _ in 0..TURNS {
            if self.point.count.load(Ordering::SeqCst) >= 2 {
                return (self.number, true);
            }
            thread::yield_now();
        }
        (self.number, false)
    }
}

/// What two jobs ended with.
fn ends_of(back: &[(Meeting<'_>, (u32, bool))]) -> Option<[(u32, bool); 2]> {
    match back {
        [one, other] => Some([one.1, other.1]),
        _ => None,
    }
}

/// Two jobs wait for one another: each ends only where both run at once.
#[test]
fn jobs_run_beside_one_another(rt: HostRuntime) -> Result<(), Fail> {
    let begun = Begun {
        count: AtomicU64::new(0),
    };
    let jobs = vec![in rt.alloc();
        Meeting {
            number: 7,
            point: &begun
        },
        Meeting {
            number: 3,
            point: &begun
        },
    ]?;
    let Ok(back) = run_workers(&rt, jobs, &begun) else {
        return Err(Fail::from("memory"));
    };
    let ends = ends_of(back.as_slice());
    drop(back);
    assert_eq!(rt; ends, Some([(7, true), (3, true)]));
    Ok(())
}

/// A client that was heard.
struct Kept<P> {
    peer: P,
}

impl<P> Stay<P> for Kept<P> {
    fn peer(&self) -> &P {
        &self.peer
    }
}

/// Repeats what a client says in each turn, and counts the turns.
#[derive(Drop)]
struct Repeats {
    turns: u32,
}

impl Repeats {
    /// Repeats what a client says next. It can wait where it said something, or nothing yet.
    fn repeat<P: Peer, G: Gate>(&mut self, peer: P, gate: &G, worker: u32) -> Turned<Kept<P>, P> {
        let mut peer = peer;
        let mut piece = [0u8; 8];
        gate.begin(worker);
        self.turns = self.turns.saturating_add(1);
        let heard = peer.read_next(&mut piece);
        gate.done(worker);
        match heard {
            Ok(Next::Bytes(count)) => {
                let _ = peer.write(&piece[..count]);
                Turned::Waits(Kept { peer })
            }
            Ok(Next::Quiet) => Turned::Waits(Kept { peer }),
            Ok(Next::End) | Ok(Next::Closing) | Err(_) => Turned::Ends(peer),
        }
    }
}

impl<P: Peer> Serve<P> for Repeats {
    type Stay = Kept<P>;

    ghost serves = { λ old t new. new ≡ new };

    fn begin<R: Wait, G: Gate>(
        &mut self,
        _rt: &R,
        peer: P,
        gate: &G,
        worker: u32,
    ) -> Turned<Kept<P>, P> {
        self.repeat(peer, gate, worker)
    }

    fn go_on<R: Wait, G: Gate>(
        &mut self,
        _rt: &R,
        stay: Kept<P>,
        gate: &G,
        worker: u32,
    ) -> Turned<Kept<P>, P> {
        let Kept { peer } = stay;
        self.repeat(peer, gate, worker)
    }

    fn end(&mut self, stay: Kept<P>) -> P {
        let Kept { peer } = stay;
        peer
    }
}

/// What a listener is to tell.
enum Told {
    /// A client that says this: so many bytes first, and then the others.
    Client(&'static [u8], usize),
    /// That the client with this number may have something to say.
    Ready(u64),
    /// So many seconds.
    Tick(u64),
}

/// Who waits first is ended by a wait that fails, and the second in the place of the fourth. A
/// stale number finds nobody; the third has one more turn, in which it ends, and the fourth is
/// ended by a tick. One more waits until the listener is closed, and is served then what it has
/// yet to say.
const TOLD: [Told; 8] = [
    Told::Client(b"one", 3),
    Told::Client(b"two", 3),
    Told::Client(b"three", 5),
    Told::Client(b"four", 4),
    Told::Ready(0),
    Told::Ready(2),
    Told::Tick(61),
    Told::Client(b"five!", 4),
];

/// A client that says this: so many bytes first, and then the others.
fn client(alloc: Global, says: &[u8], first: usize) -> Result<MemPeer, AllocError> {
    let source = MemSource::of(says.to_vec(alloc)?, vec![in alloc; first]?, Vec::new(alloc));
    let sink = MemSink::of(alloc, Vec::new(alloc), Vec::new(alloc));
    Ok(MemPeer::of(source, sink))
}

/// The events of a list.
fn events(alloc: Global, told: &[Told]) -> Result<Vec<Event<MemPeer>>, AllocError> {
    let mut events = Vec::new(alloc);
    for one in told {
        let event = match one {
            Told::Client(says, first) => Event::Came(client(alloc, says, *first)?),
            Told::Ready(number) => Event::Ready(*number),
            Told::Tick(count) => Event::Tick(*count),
        };
        events.push(event)?;
    }
    Ok(events)
}

/// A listener that tells the events of a list, and whose call 1 fails.
fn listener_of(alloc: Global, told: &[Told]) -> Result<MemListener<MemPeer>, AllocError> {
    let failing = vec![in alloc; 1]?;
    MemListener::of(alloc, None, events(alloc, told)?, failing, 8)
}

/// What those who came back to a listener had heard, in order.
fn heard_by(alloc: Global, listener: &MemListener<MemPeer>) -> Result<Vec<u8>, AllocError> {
    let mut heard = Vec::new(alloc);
    for peer in listener.returned() {
        heard.extend_from_slice(peer.sink().held())?;
    }
    Ok(heard)
}

/// Serves what a listener tells, with room for two clients that wait, until it is closed. It gives
/// the number of turns, how many clients waited still behind that, and how the serving ended.
fn serve_told<A: Ledger, B: Ledger, R: Wait>(
    rt: &R,
    alloc: Global,
    listener: &mut MemListener<MemPeer>,
    left: Blank,
    taken: Blank,
) -> Result<(u32, u32, Accepting), AllocError>
    requires left { (left.name ≡ A.name) × (left.parts ≡ A.parts) × (A.parts ≡ 1) }
    requires taken { (taken.name ≡ B.name) × (taken.parts ≡ B.parts) × (B.parts ≡ 1) }
{
    let begun = Begun {
        count: AtomicU64::new(0),
    };
    let mut server = Repeats { turns: 0 };
    let (lot, mut hands) = Lot::<Kept<MemPeer>, A, B>::open(alloc, 2, 60, left, taken, 1)?;
    let end = serve_all(rt, &lot, listener, &mut server, &mut hands[0], &begun, 0);
    let mut waiters = lot.close(hands);
    let mut waiting = 0u32;
    while let Some(kept) = waiters.take_oldest() {
        let Kept { peer } = kept;
        drop(peer);
        waiting = waiting.saturating_add(1);
    }
    waiters.end();
    Ok((server.turns, waiting, end))
}

/// Clients wait between their turns, and each comes back once.
#[test]
fn clients_are_served_by_turns(rt: HostRuntime) -> Result<(), Fail> {
    let alloc = rt.alloc();
    let mut listener = listener_of(alloc, &TOLD)?;
    let served = serve_told::<Brand, Brand, HostRuntime>(
        &rt,
        alloc,
        &mut listener,
        Blank::new(1),
        Blank::new(1),
    );
    let heard = heard_by(alloc, &listener);
    let faults = listener.faults();
    drop(listener);
    let heard = heard?;
    assert_eq!(rt; heard.as_slice(), b"onetwothreefourfive!".as_slice());
    drop(heard);
    assert!(rt; served? == (7, 0, Accepting::Closed) && faults == 1);
    Ok(())
}
