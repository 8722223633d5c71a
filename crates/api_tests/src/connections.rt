//! Connections to the interfaces of one router, served one after the other, each by two workers in
//! turns.
ghost use Rattle.std.specs.Prelude.{◌≡◌};
ghost use Rattle.router.specs.Opening.{IsNamedBy, beginning_of};

use crate::wanted::Wanted;
use addr_book::{Addr, Name};
use api_sessions::{ApiWorker, Context, IdleCaller, Stayed, Which};
use choose_core::Limits;
use dtab_table::Dtab;
use http_wire::Ended;
use line_doubles::{MemClock, MemPeer, MemSink, MemSource, MemStop};
use machine::{Change, Settings};
use router::{Naming, Opened, Pass, Router, open};
use scrape::NoWords;
use std::alloc::{AllocError, Global};
use std::marker::Brand;
use std::process::Abort;
use std::sync::Wait;
use std::test::Fail;

/// A value, unless there was no memory for it.
pub(crate) type Mem<T> = Result<T, AllocError>;

/// The bytes of a text.
pub(crate) type Bytes = Vec<u8>;

/// A connection: how often a replica fails before it comes; the bytes that come on it, and how many
/// in each of its first reads; which of its reads and which of its writes fails, the first being 0;
/// at which questions nothing comes; from which question on it says that its listeners are closing;
/// and what is to come of it.
#[derive(Drop)]
pub(crate) struct Connection {
    pub(crate) to: Which,
    pub(crate) failures: usize,
    pub(crate) bytes: Bytes,
    pub(crate) sizes: &'static [usize],
    pub(crate) read_fails: Option<u64>,
    pub(crate) write_fails: Option<u64>,
    pub(crate) quiet: &'static [u64],
    pub(crate) closing: Option<u64>,
    pub(crate) wanted: Wanted,
}

impl Connection {
    /// One whose bytes come at once, on which no call fails, and whose listeners stay open.
    pub(crate) fn of(to: Which, bytes: Bytes, wanted: Wanted) -> Connection {
        Connection {
            to,
            failures: 0,
            bytes,
            sizes: &[],
            read_fails: None,
            write_fails: None,
            quiet: &[],
            closing: None,
            wanted,
        }
    }
}

/// What a connection was given, how it ended, unless it still waits, and how often the program was
/// stopped.
#[derive(Drop)]
pub(crate) struct Served {
    pub(crate) given: Bytes,
    pub(crate) ended: Option<Ended>,
    pub(crate) stops: u64,
}

/// The numbers of the calls that fail.
fn failing(alloc: Global, call: Option<u64>) -> Mem<Vec<u64>> {
    let mut calls = Vec::new(alloc);
    if let Some(call) = call {
        calls.push(call)?;
    }
    Ok(calls)
}

/// What comes on a connection.
fn source_of(alloc: Global, connection: &Connection) -> Mem<MemSource> {
    let bytes = Vec::from_slice(alloc, connection.bytes.as_slice())?;
    let sizes = Vec::from_slice(alloc, connection.sizes)?;
    let fails = failing(alloc, connection.read_fails)?;
    Ok(MemSource::of(bytes, sizes, fails))
}

/// Where a connection's replies go.
fn sink_of(alloc: Global, connection: &Connection) -> Mem<MemSink> {
    let fails = failing(alloc, connection.write_fails)?;
    Ok(MemSink::of(alloc, Vec::new(alloc), fails))
}

/// A peer that says from this question on that its listeners are closing, if it does.
fn peer_over(source: MemSource, sink: MemSink, closing: Option<u64>) -> MemPeer {
    match closing {
        Some(question) => MemPeer::closing(source, sink, question),
        None => MemPeer::of(source, sink),
    }
}

/// The peer of a connection.
fn peer_of(alloc: Global, connection: &Connection) -> Mem<MemPeer> {
    let quiet = Vec::from_slice(alloc, connection.quiet)?;
    let sink = sink_of(alloc, connection)?;
    let source = source_of(alloc, connection)?;
    Ok(peer_over(source, sink, connection.closing).quiet(quiet))
}

/// A worker of the interfaces of a program whose own workers count nothing.
type Worker<J> = ApiWorker<J, MemStop, NoWords<MemClock>>;

/// The workers of a router.
#[derive(Drop)]
struct Pair<J: Naming> {
    first: Worker<J>,
    second: Worker<J>,
}

/// A caller whose stay came out so, behind a stay more with this worker, where it waits.
fn go_on<J: Naming, R: Wait>(
    context: &Context<'_, J, R>,
    worker: &mut Worker<J>,
    stayed: Stayed<IdleCaller<MemPeer, J>, MemPeer>,
) -> Stayed<IdleCaller<MemPeer, J>, MemPeer> {
    match stayed {
        Stayed::Waits(caller) => caller.serve(context, worker),
        Stayed::Ends(peer, ended) => Stayed::Ends(peer, ended),
    }
}

/// Serves a peer for three stays at most: by the first worker, the second, and the first again.
fn serve_by_turns<J: Naming, R: Wait>(
    context: &Context<'_, J, R>,
    pair: &mut Pair<J>,
    to: Which,
    peer: MemPeer,
) -> (MemPeer, Option<Ended>) {
    let caller = IdleCaller::came(peer, to, &pair.first);
    let stayed = caller.serve(context, &mut pair.first);
    let stayed = go_on(context, &mut pair.second, stayed);
    match go_on(context, &mut pair.first, stayed) {
        Stayed::Waits(caller) => (caller.end(), None),
        Stayed::Ends(peer, ended) => (peer, Some(ended)),
    }
}

/// Reports, at the moment 1,000, that the replica at 127.0.0.1:2 failed so often.
fn report_failures<J: Naming, R: Wait>(
    context: &Context<'_, J, R>,
    pass: &mut Pass<J>,
    failures: usize,
) -> Mem<()> {
    let replica = Addr {
        ip: 0x7f00_0001,
        port: 2,
    };
    for _failure in 0..failures {
        let change = Change::Report {
            addr: replica,
            good: false,
            moment: 1_000,
        };
        context
            .router
            .change(context.rt, context.alloc, pass, change)?;
    }
    Ok(())
}

/// Serves a connection, behind the failures that come before it.
fn serve<J: Naming, R: Wait>(
    context: &Context<'_, J, R>,
    pair: &mut Pair<J>,
    connection: &Connection,
) -> Mem<Served> {
    report_failures(context, &mut pair.first.pass, connection.failures)?;
    let peer = peer_of(context.alloc, connection)?;
    let before = stops_of(pair);
    let (peer, ended) = serve_by_turns(context, pair, connection.to, peer);
    let stops = stops_of(pair).saturating_sub(before);
    let given = Vec::from_slice(context.alloc, peer.sink().held());
    drop(peer);
    Ok(Served {
        given: given?,
        ended,
        stops,
    })
}

/// How often the workers stopped the program.
fn stops_of<J: Naming>(pair: &Pair<J>) -> u64 {
    pair.first
        .stop
        .calls()
        .saturating_add(pair.second.stop.calls())
}

/// Serves connections one after the other.
fn serve_all<J: Naming, R: Wait>(
    context: &Context<'_, J, R>,
    pair: &mut Pair<J>,
    connections: &[Connection],
) -> Mem<Vec<Served>> {
    let mut all = Vec::new(context.alloc);
    for connection in connections {
        all.push(serve(context, pair, connection)?)?;
    }
    Ok(all)
}

/// A clock whose moments are 5,999, and then 6,000.
fn clock(alloc: Global) -> Mem<MemClock> {
    let moments = Vec::from_slice(alloc, &[5_999, 6_000])?;
    MemClock::of(alloc, moments)
}

/// A clock for each of the two workers.
fn clocks(alloc: Global) -> Mem<(MemClock, MemClock)> {
    let one = clock(alloc)?;
    let other = clock(alloc)?;
    Ok((one, other))
}

/// A worker with this pass and this clock.
fn worker_of<J: Naming>(pass: Pass<J>, clock: MemClock) -> Worker<J> {
    ApiWorker {
        pass,
        stop: MemStop::new(),
        scraper: NoWords::of(clock),
    }
}

/// The workers with the last two passes, the last one for the second, and with these clocks.
fn pair_of<J: Naming, R: Abort>(
    rt: &R,
    passes: &mut Vec<Pass<J>>,
    clocks: (MemClock, MemClock),
) -> Pair<J> {
    let Some(second) = passes.pop() else {
        panic!(rt; "no second pass")
    };
    let Some(first) = passes.pop() else {
        panic!(rt; "no first pass")
    };
    Pair {
        first: worker_of(first, clocks.0),
        second: worker_of(second, clocks.1),
    }
}

/// The passes of the two workers.
fn passes_of<J: Naming>(pair: Pair<J>) -> (Pass<J>, Pass<J>) {
    let Pair { first, second } = pair;
    (first.pass, second.pass)
}

/// Ends a router, whose workers had these passes.
fn close<J: Naming, R: Wait + Abort>(
    rt: &R,
    router: Router<J>,
    room: Vec<Pass<J>>,
    first: Pass<J>,
    second: Pass<J>,
)
    requires { J.parts ≡ J.seats }
{
    let mut passes = room;
    assert!(rt; first.number() < second.number());
    assert!(rt; passes.is_empty() && passes.capacity() >= 2);
    passes.push_reserved(first);
    passes.push_reserved(second);
    match router.close(rt, passes) {
        Ok(_place) => {}
        Err(_back) => panic!(rt; "not closed"),
    }
}

/// Names a router, serves connections with its two passes and these clocks, and ends it.
fn staged<J: Naming, R: Wait + Abort>(
    rt: &R,
    alloc: Global,
    opened: Opened,
    clocks: (MemClock, MemClock),
    connections: &[Connection],
) -> Mem<Vec<Served>>
    requires named { IsNamedBy (beginning_of opened) J.Naming.own J.Ledger.own }
    requires seats { J.seats ≡ 2 }
{
    let (router, mut passes) = match opened.named::<J, R>(rt, alloc) {
        Ok(named) => named,
        Err(want) => {
            drop(clocks);
            return Err(want);
        }
    };
    let mut pair = pair_of(rt, &mut passes, clocks);
    let context = Context {
        rt,
        alloc,
        router: &router,
    };
    let served = serve_all(&context, &mut pair, connections);
    let (first, second) = passes_of(pair);
    close(rt, router, passes, first, second);
    served
}

/// Settings with the namespace `default` and no configured table.
fn settings(alloc: Global) -> Result<Settings, Fail> {
    match Name::of(alloc, b"default") {
        Ok(space) => Ok(Settings {
            space,
            base: Dtab::empty(alloc),
            limits: Limits {
                failures: 5,
                backoff: 5000,
            },
        }),
        Err(fault) => Err(Fail::from(fault)),
    }
}

/// Serves connections one after the other, on a new router.
pub(crate) fn run<R: Wait + Abort>(
    rt: &R,
    alloc: Global,
    connections: &[Connection],
) -> Result<Vec<Served>, Fail> {
    let clocks = clocks(alloc)?;
    let opened = open(rt, alloc, settings(alloc)?, 2)?;
    Ok(staged::<Brand, R>(rt, alloc, opened, clocks, connections)?)
}
