//! The job of a worker: to take what comes to an address, and serve it.
ghost use Rattle.std.specs.Prelude.{◌≡◌, ◌≤◌, List};
ghost use Rattle.line_base.specs.Accepts.{after_finish};
ghost use Rattle.line_base.specs.Counts.{Rose};
ghost use Rattle.workers.specs.Ends.{Ends};
ghost use Rattle.workers.specs.Turns.{IsAsOpen, Settles, Turn, Works, end_of, from_stay};
ghost use Rattle.workers.specs.Turns.{given_back, turn};

use crate::serving::{Serve, Stay, Turned};
use line_base::{BROKEN_RUN, Event, Gate, Listener};
use std::sync::Wait;
use std::sync::ledger::Ledger;
use waiting::{Hand, Left, Lot, Watch};

/// Why a worker takes nothing more.
#[derive(Clone, Copy, Debug, PartialEq, Eq)]
pub enum Accepting {
    /// The listener answered that it is closed.
    Closed,
    /// A wait failed, and so did those before it, [`BROKEN_RUN`] in a row.
    Failing,
}

/// The listener of an address watches the connections that are left there.
#[derive_where(Clone, Copy)]
struct Watching<'a, L> {
    listener: &'a L,
}

impl<L: Listener, S: Stay<L::P>> Watch<S> for Watching<'_, L> {
    fn watch(&self, stay: &S, number: u64) -> bool {
        self.listener.watch(stay.peer(), number)
    }
}

/// Ends a connection that waited.
fn end_one<L: Listener, W: Serve<L::P>>(listener: &mut L, server: &mut W, stay: W::Stay)
    ensures ends { (peer : L.P)
        × W.serves server.old (turn (from_stay stay) (given_back peer)) server.new
        × (L.state listener.new ≡ after_finish (L.state listener.old) peer) }
    ensures kept { L.faults listener.new ≡ L.faults listener.old }
{
    let peer = server.end(stay);
    listener.finish(peer);
}

/// Does with a connection what its turn came to: it waits, or it ends. Where all room was taken the
/// one that had waited longest ends in its place, and where it can't wait it ends itself.
fn settle<R: Wait, L: Listener, W: Serve<L::P>, A: Ledger, B: Ledger>(
    rt: &R,
    lot: &Lot<W::Stay, A, B>,
    listener: &mut L,
    server: &mut W,
    hand: &mut Hand<A, B>,
    turned: Turned<W::Stay, L::P>,
)
    ensures settles { (ts : List (Turn L.P W.Stay)) × Settles W.serves (end_of turned) ts server.old
        server.new (L.state listener.old) (L.state listener.new) hand.old hand.new }
    ensures kept { L.faults listener.new ≡ L.faults listener.old }
{
    match turned {
        Turned::Ends(peer) => listener.finish(peer),
        Turned::Waits(stay) => {
            let left = lot.leave(rt, hand, stay, &Watching { listener });
            match left {
                Left::Waits => {}
                Left::Displaced(oldest) => end_one(listener, server, oldest),
                Left::Back(stay) => end_one(listener, server, stay),
            }
        }
    }
}

/// Takes what comes to an address, until the listener is closed or fails too often in a row. A new
/// peer, and a connection that has something to say, is served until it waits or ends; one that has
/// waited for as long as it may is ended. At each wait that fails the one that has waited longest
/// is ended, since its descriptor may be the one that the listener lacks. Once the listener is
/// closed, those who wait are served what they have said, and ended.
pub fn serve_all<R: Wait, L: Listener, W: Serve<L::P>, A: Ledger, B: Ledger, G: Gate>(
    rt: &R,
    lot: &Lot<W::Stay, A, B>,
    listener: &mut L,
    server: &mut W,
    hand: &mut Hand<A, B>,
    gate: &G,
    worker: u32,
) -> Accepting
    ensures works { (ts : List (Turn L.P W.Stay)) × Works W.serves ts server.old server.new
        (L.state listener.old) (L.state listener.new) hand.old hand.new }
    ensures ends { Ends result (L.state listener.old) (L.state listener.new) }
    ensures failing { result ≡ Accepting.Failing
        → Rose (L.faults listener.old) (L.faults listener.new) }
    ensures later { L.faults listener.old ≤ L.faults listener.new }
{
    let mut failed = 0;
    'serving: for _ in rt.forever() {
        match listener.next_event() {
            Ok(Event::Came(peer)) => {
                failed = 0;
                let turned = server.begin(rt, peer, gate, worker);
                settle(rt, lot, listener, server, hand, turned);
            }
            Ok(Event::Ready(number)) => {
                failed = 0;
                if let Some(stay) = lot.take(rt, hand, number) {
                    let turned = server.go_on(rt, stay, gate, worker);
                    settle(rt, lot, listener, server, hand, turned);
                }
            }
            Ok(Event::Tick(tick)) => {
                failed = 0;
                end_older(rt, lot, listener, server, hand, tick);
            }
            Ok(Event::Closed) => {
                drain(rt, lot, listener, server, hand, gate, worker);
                return Accepting::Closed;
            }
            Err(_) => {
                end_oldest(rt, lot, listener, server, hand);
                failed += 1;
                if failed >= BROKEN_RUN {
                    return Accepting::Failing;
                }
            }
        }
    }
    unreachable!()
}

/// Ends the connection that has waited longest, if one waits.
fn end_oldest<R: Wait, L: Listener, W: Serve<L::P>, A: Ledger, B: Ledger>(
    rt: &R,
    lot: &Lot<W::Stay, A, B>,
    listener: &mut L,
    server: &mut W,
    hand: &mut Hand<A, B>,
)
    ensures works { (ts : List (Turn L.P W.Stay)) × Works W.serves ts server.old server.new
        (L.state listener.old) (L.state listener.new) hand.old hand.new }
    ensures still { IsAsOpen (L.state listener.old) (L.state listener.new) }
    ensures kept { L.faults listener.new ≡ L.faults listener.old }
{
    if let Some(stay) = lot.take_oldest(rt, hand) {
        end_one(listener, server, stay);
    }
}

/// Ends those who have waited for as long as they may at this tick, the oldest first.
fn end_older<R: Wait, L: Listener, W: Serve<L::P>, A: Ledger, B: Ledger>(
    rt: &R,
    lot: &Lot<W::Stay, A, B>,
    listener: &mut L,
    server: &mut W,
    hand: &mut Hand<A, B>,
    tick: u64,
)
    ensures works { (ts : List (Turn L.P W.Stay)) × Works W.serves ts server.old server.new
        (L.state listener.old) (L.state listener.new) hand.old hand.new }
    ensures still { IsAsOpen (L.state listener.old) (L.state listener.new) }
    ensures kept { L.faults listener.new ≡ L.faults listener.old }
{
    'ending: for _ in rt.forever() {
        match lot.take_older(rt, hand, tick) {
            Some(stay) => end_one(listener, server, stay),
            None => return,
        }
    }
    unreachable!()
}

/// Serves those who wait what they have said, and ends them, the oldest first.
fn drain<R: Wait, L: Listener, W: Serve<L::P>, A: Ledger, B: Ledger, G: Gate>(
    rt: &R,
    lot: &Lot<W::Stay, A, B>,
    listener: &mut L,
    server: &mut W,
    hand: &mut Hand<A, B>,
    gate: &G,
    worker: u32,
)
    ensures works { (ts : List (Turn L.P W.Stay)) × Works W.serves ts server.old server.new
        (L.state listener.old) (L.state listener.new) hand.old hand.new }
    ensures still { IsAsOpen (L.state listener.old) (L.state listener.new) }
    ensures kept { L.faults listener.new ≡ L.faults listener.old }
{
    'draining: for _ in rt.forever() {
        let Some(stay) = lot.take_oldest(rt, hand) else {
            return;
        };
        match server.go_on(rt, stay, gate, worker) {
            Turned::Ends(peer) => listener.finish(peer),
            Turned::Waits(stay) => end_one(listener, server, stay),
        }
    }
    unreachable!()
}
