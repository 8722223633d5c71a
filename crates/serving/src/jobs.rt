//! A job for each listener.
ghost use Rattle.std.specs.Prelude.{◌≡◌, ℕ, ◌+◌, ◌≤◌, ◌<◌, ◌^◌, ◌++◌, [], List, Option, length};
ghost use Rattle.std.specs.Prelude.{vec_len, vec_capacity, IfOk};
ghost use Rattle.std.specs.List.{AllZip};
ghost use Rattle.std.specs.Vec.Iter.{into_iter_items};
ghost use Rattle.serving.specs.declared.policy.Policy.{Policy};
ghost use Rattle.linker_config.specs.declared.config.Port.{Port};
ghost use Rattle.serving.specs.Jobs.{IsPosted, passes_of_jobs, recorders_of_jobs};
ghost use Rattle.serving.specs.Jobs.{scrapers_of_jobs};
ghost use Rattle.serving.specs.Hands.{AreNewHands};
ghost use Rattle.serving.specs.Passes.{AreFree};
ghost use Rattle.serving.specs.Policies.{IsHandledBy};
ghost use Rattle.serving.specs.Posts.{Post, client_post, feed_jobs, feed_posts, interface_post};
ghost use Rattle.serving.specs.Posts.{jobs_of, posts_at, posts_of};
ghost use Rattle.serving.specs.Returning.{with_stops};
ghost use Rattle.serving.specs.Running.{AreNewFeed, AreNewFrom, Listens};
ghost use Rattle.serving.specs.Supplying.{AreSupplied};

use crate::bound::Bound;
use crate::instruments::Instruments;
use crate::interface::ApiServer;
use crate::job::{ApiJob, ProxyJob, ServingJob};
use crate::lots::{Hands, Lots};
use crate::next::take_next;
use crate::pool::pool_by;
use crate::proxy::ProxyServer;
use crate::site::Site;
use api_sessions::{ApiWorker, Which};
use client_stays::Handling;
use line_base::{Clock, Listener, Net, Peer};
use proxy_session::{Mem, Parts, Room, Server};
use rand_core::SeedableRng;
use rand_pcg::Pcg64;
use router::{Pass, Router};
use std::alloc::Global;
use std::sync::ledger::Ledger;
use std::vec::IntoIter;
use waiting::Hand;

/// A job of one of a net's listeners, dialers and stops.
pub(crate) type NetJob<'a, J, N, C, K, X, A, B, E, F> = ServingJob<
    ProxyJob<
        'a,
        <<N as Net>::L as Listener>::P,
        J,
        <N as Net>::L,
        <N as Net>::D,
        C,
        K,
        <N as Net>::S,
        A,
        B,
    >,
    ApiJob<'a, <<N as Net>::L as Listener>::P, J, <N as Net>::L, <N as Net>::S, X, E, F>,
>;

/// Jobs of a net.
pub(crate) type Jobs<'a, J, N, C, K, X, A, B, E, F> = Vec<NetJob<'a, J, N, C, K, X, A, B, E, F>>;

/// What all jobs share: the allocator, the router, where they serve, and where connections wait.
#[derive(Drop)]
pub(crate) struct Setup<'a, P: Peer, J: Handling, A: Ledger, B: Ledger, E: Ledger, F: Ledger> {
    pub(crate) alloc: Global,
    pub(crate) router: &'a Router<J>,
    pub(crate) site: &'a Site,
    pub(crate) lots: &'a Lots<P, J, A, B, E, F>,
}

/// What each worker that serves clients gets besides its listener and its pass: a room for bytes, a
/// recorder, and a hand at the lot.
#[derive(Drop)]
pub(crate) struct Places<K, A: Ledger, B: Ledger> {
    pub(crate) rooms: Vec<Room>,
    pub(crate) recorders: Vec<K>,
    pub(crate) hands: Vec<Hand<A, B>>,
}

/// The listeners of an interface, and which one it is.
struct Interface<L> {
    which: Which,
    listeners: Vec<L>,
}

/// What all jobs get besides their listeners and passes.
#[derive(Drop)]
pub(crate) struct Supplies<K, X, A: Ledger, B: Ledger, E: Ledger, F: Ledger> {
    /// A room for each worker that serves clients.
    pub(crate) rooms: Vec<Room>,
    /// What they record with.
    pub(crate) instruments: Instruments<K, X>,
    /// A hand for each worker.
    pub(crate) hands: Hands<A, B, E, F>,
}

/// So many rooms, one for each server.
pub(crate) fn make_rooms(alloc: Global, count: usize) -> Mem<Vec<Room>>
    ensures { IfOk result (λ rooms. length rooms.items ≡ count) }
{
    let mut rooms = Vec::with_capacity(alloc, count)?;
    'rooms: while rooms.len() < count {
        rooms.push(Room::new(alloc)?)?;
    }
    Ok(rooms)
}

/// A proxy job for each listener of the router, numbered from 0. Each has the next pass, the next
/// room and the next recorder.
fn add_proxy_jobs<
    'a,
    J: Handling,
    N: Net,
    C: Clock,
    K: Drop,
    X,
    A: Ledger,
    B: Ledger,
    E: Ledger,
    F: Ledger,
>(
    setup: &Setup<'a, <N::L as Listener>::P, J, A, B, E, F>,
    net: &mut N,
    clock: &C,
    listeners: Vec<N::L>,
    places: Places<K, A, B>,
    passes: &mut IntoIter<Pass<J>>,
    jobs: &mut Jobs<'a, J, N, C, K, X, A, B, E, F>,
)
    requires handled { IsHandledBy J.rule J.tries setup.now.site.now.policy }
    requires enough { length listeners.items ≤ length (into_iter_items passes.old) }
    requires rooms { length listeners.items ≤ length places.rooms.items }
    requires recorders { length places.recorders.items ≡ length listeners.items }
    requires hands { length listeners.items ≤ length places.hands.items }
    requires new_hands { AreNewHands places.hands.items }
    requires room { vec_len jobs.old + length listeners.items ≤ vec_capacity jobs.old }
    requires free { AreFree (into_iter_items passes.old) }
    requires new { AreNewFrom N.L.state (N.state net.old).told setup.now.site.now.server 0
        listeners.items }
    requires few { length listeners.items < 2 ^ 32 }
    ensures passes { passes_of_jobs jobs.new.items ++ into_iter_items passes.new
        ≡ passes_of_jobs jobs.old.items ++ into_iter_items passes.old }
    ensures count { vec_len jobs.new ≡ vec_len jobs.old + length listeners.items }
    ensures rest { length (into_iter_items passes.new) + length listeners.items
        ≡ length (into_iter_items passes.old) }
    ensures room { vec_capacity jobs.new ≡ vec_capacity jobs.old }
    ensures free { AreFree (into_iter_items passes.new) }
    ensures recorders { recorders_of_jobs jobs.new.items
        ≡ recorders_of_jobs jobs.old.items ++ places.recorders.items }
    ensures scrapers { scrapers_of_jobs jobs.new.items ≡ scrapers_of_jobs jobs.old.items }
    ensures posted { (posts : List Post)
        → AllZip (IsPosted N.L.state N.D.upstream C.to_come N.S.calls setup.now.site.now.policy
        (C.of_fork clock.now)
        (N.state net.old).told) posts jobs.old.items
        → AllZip (IsPosted N.L.state N.D.upstream C.to_come N.S.calls setup.now.site.now.policy
        (C.of_fork clock.now) (N.state net.old).told)
        (posts ++ posts_at (client_post setup.now.site.now) (length listeners.items))
        jobs.new.items }
    ensures stops { N.state net.new ≡ with_stops (length listeners.items) (N.state net.old) }
    ensures kept { N.faults net.new ≡ N.faults net.old }
{
    let site = setup.site;
    let Places {
        rooms,
        recorders,
        hands,
    } = places;
    let mut rooms = rooms.into_iter();
    let mut recorders = recorders.into_iter();
    let mut hands = hands.into_iter();
    let mut number = 0u32;
    for listener in listeners {
        let pass = take_next(passes);
        let room = take_next(&mut rooms);
        let recorder = take_next(&mut recorders);
        let hand = take_next(&mut hands);
        let parts = Parts {
            pass,
            dialer: net.dialer(pool_by(site.policy.pool)),
            clock: clock.fork(),
            words: Pcg64::seed_from_u64(site.seed.wrapping_add(u64::from(number))),
        };
        let server = ProxyServer {
            alloc: setup.alloc,
            router: setup.router,
            policy: &site.policy,
            server: Server::of(room, parts),
            lacked_memory: false,
            recorder,
        };
        jobs.push_reserved(ServingJob::Proxy(ProxyJob {
            number,
            listener,
            server,
            stop: net.stopper(),
            lot: &setup.lots.clients,
            hand,
        }));
        number += 1;
    }
}

/// A job for each listener of an interface. Each has the next pass, the next hand and the next
/// scraper.
fn add_api_jobs<
    'a,
    J: Handling,
    N: Net,
    C: Clock,
    K,
    X: Drop,
    A: Ledger,
    B: Ledger,
    E: Ledger,
    F: Ledger,
>(
    setup: &Setup<'a, <N::L as Listener>::P, J, A, B, E, F>,
    interface: Interface<N::L>,
    net: &mut N,
    passes: &mut IntoIter<Pass<J>>,
    hands: &mut IntoIter<Hand<E, F>>,
    scrapers: &mut IntoIter<X>,
    jobs: &mut Jobs<'a, J, N, C, K, X, A, B, E, F>,
)
    requires enough { length interface.listeners.items ≤ length (into_iter_items passes.old) }
    requires hands { length interface.listeners.items ≤ length (into_iter_items hands.old) }
    requires scrapers { length interface.listeners.items ≤ length (into_iter_items scrapers.old) }
    requires new_hands { AreNewHands (into_iter_items hands.old) }
    requires room { vec_len jobs.old + length interface.listeners.items ≤ vec_capacity jobs.old }
    requires free { AreFree (into_iter_items passes.old) }
    ensures passes { passes_of_jobs jobs.new.items ++ into_iter_items passes.new
        ≡ passes_of_jobs jobs.old.items ++ into_iter_items passes.old }
    ensures count { vec_len jobs.new ≡ vec_len jobs.old + length interface.listeners.items }
    ensures rest { length (into_iter_items passes.new) + length interface.listeners.items
        ≡ length (into_iter_items passes.old) }
    ensures room { vec_capacity jobs.new ≡ vec_capacity jobs.old }
    ensures free { AreFree (into_iter_items passes.new) }
    ensures hands { length (into_iter_items hands.new) + length interface.listeners.items
        ≡ length (into_iter_items hands.old) }
    ensures new_hands { AreNewHands (into_iter_items hands.new) }
    ensures scrapers { length (into_iter_items scrapers.new) + length interface.listeners.items
        ≡ length (into_iter_items scrapers.old) }
    ensures recorders { recorders_of_jobs jobs.new.items ≡ recorders_of_jobs jobs.old.items }
    ensures scraped { scrapers_of_jobs jobs.new.items ++ into_iter_items scrapers.new
        ≡ scrapers_of_jobs jobs.old.items ++ into_iter_items scrapers.old }
    ensures posted { (port : Port) → AreNewFrom N.L.state (N.state net.old).told port 0
        interface.listeners.items → (policy : Policy) → (moments : Option (List ℕ))
        → (posts : List Post) → AllZip
        (IsPosted N.L.state N.D.upstream C.to_come N.S.calls policy moments (N.state net.old).told)
        posts jobs.old.items
        → AllZip (IsPosted N.L.state N.D.upstream C.to_come N.S.calls policy moments
        (N.state net.old).told)
        (posts ++ posts_at (interface_post interface.which port)
        (length interface.listeners.items)) jobs.new.items }
    ensures stops { N.state net.new
        ≡ with_stops (length interface.listeners.items) (N.state net.old) }
    ensures kept { N.faults net.new ≡ N.faults net.old }
{
    let Interface { which, listeners } = interface;
    for listener in listeners {
        let pass = take_next(passes);
        let scraper = take_next(scrapers);
        let hand = take_next(hands);
        let worker = ApiWorker {
            pass,
            stop: net.stopper(),
            scraper,
        };
        let server = ApiServer {
            alloc: setup.alloc,
            router: setup.router,
            which,
            worker,
            lacked_memory: false,
        };
        jobs.push_reserved(ServingJob::Api(ApiJob {
            listener,
            server,
            lot: &setup.lots.callers,
            hand,
        }));
    }
}

/// A job for each listener of the feed, where it is served. Each has the next pass, the next hand
/// and the next scraper.
fn add_feed_jobs<
    'a,
    J: Handling,
    N: Net,
    C: Clock,
    K,
    X: Drop,
    A: Ledger,
    B: Ledger,
    E: Ledger,
    F: Ledger,
>(
    setup: &Setup<'a, <N::L as Listener>::P, J, A, B, E, F>,
    net: &mut N,
    listeners: Vec<N::L>,
    passes: &mut IntoIter<Pass<J>>,
    hands: &mut IntoIter<Hand<E, F>>,
    scrapers: &mut IntoIter<X>,
    jobs: &mut Jobs<'a, J, N, C, K, X, A, B, E, F>,
)
    requires enough { length listeners.items ≤ length (into_iter_items passes.old) }
    requires hands { length listeners.items ≤ length (into_iter_items hands.old) }
    requires scrapers { length listeners.items ≤ length (into_iter_items scrapers.old) }
    requires new_hands { AreNewHands (into_iter_items hands.old) }
    requires room { vec_len jobs.old + length listeners.items ≤ vec_capacity jobs.old }
    requires free { AreFree (into_iter_items passes.old) }
    requires one { length listeners.items ≡ feed_jobs setup.now.site.now.feed }
    requires new { AreNewFeed N.L.state (N.state net.old).told setup.now.site.now.feed
        listeners.items }
    ensures passes { passes_of_jobs jobs.new.items ++ into_iter_items passes.new
        ≡ passes_of_jobs jobs.old.items ++ into_iter_items passes.old }
    ensures count { vec_len jobs.new ≡ vec_len jobs.old + length listeners.items }
    ensures rest { length (into_iter_items passes.new) + length listeners.items
        ≡ length (into_iter_items passes.old) }
    ensures room { vec_capacity jobs.new ≡ vec_capacity jobs.old }
    ensures free { AreFree (into_iter_items passes.new) }
    ensures recorders { recorders_of_jobs jobs.new.items ≡ recorders_of_jobs jobs.old.items }
    ensures scrapers { length (into_iter_items scrapers.new) + length listeners.items
        ≡ length (into_iter_items scrapers.old) }
    ensures scraped { scrapers_of_jobs jobs.new.items ++ into_iter_items scrapers.new
        ≡ scrapers_of_jobs jobs.old.items ++ into_iter_items scrapers.old }
    ensures posted { (policy : Policy) → (moments : Option (List ℕ)) → (posts : List Post)
        → AllZip (IsPosted N.L.state N.D.upstream C.to_come N.S.calls policy moments
        (N.state net.old).told) posts jobs.old.items
        → AllZip (IsPosted N.L.state N.D.upstream C.to_come N.S.calls policy moments
        (N.state net.old).told) (posts ++ feed_posts setup.now.site.now.feed) jobs.new.items }
    ensures stops { N.state net.new ≡ with_stops (length listeners.items) (N.state net.old) }
    ensures kept { N.faults net.new ≡ N.faults net.old }
{
    match setup.site.feed {
        Some(feeding) => {
            let interface = Interface {
                which: Which::Feed { run: feeding.run },
                listeners,
            };
            add_api_jobs(setup, interface, net, passes, hands, scrapers, jobs);
        }
        None => {}
    }
}

/// A job for each listener, with the next of these passes: first the router's, then those of the
/// interface to the namespaces, then the administrator's, and last that of the feed.
pub(crate) fn add_jobs<
    'a,
    J: Handling,
    N: Net,
    C: Clock,
    K: Drop,
    X: Drop,
    A: Ledger,
    B: Ledger,
    E: Ledger,
    F: Ledger,
>(
    setup: &Setup<'a, <N::L as Listener>::P, J, A, B, E, F>,
    net: &mut N,
    clock: &C,
    bound: Bound<N::L>,
    supplies: Supplies<K, X, A, B, E, F>,
    passes: &mut IntoIter<Pass<J>>,
    jobs: &mut Jobs<'a, J, N, C, K, X, A, B, E, F>,
)
    requires handled { IsHandledBy J.rule J.tries setup.now.site.now.policy }
    requires enough { jobs_of setup.now.site.now ≤ length (into_iter_items passes.old) }
    requires room { vec_len jobs.old + jobs_of setup.now.site.now ≤ vec_capacity jobs.old }
    requires free { AreFree (into_iter_items passes.old) }
    requires supplied { AreSupplied setup.now.site.now supplies }
    requires none_yet { jobs.old.items ≡ [] }
    requires listens { Listens N.L.state (N.state net.old).told setup.now.site.now bound }
    ensures passes { passes_of_jobs jobs.new.items ++ into_iter_items passes.new
        ≡ into_iter_items passes.old }
    ensures rest { length (into_iter_items passes.new) + jobs_of setup.now.site.now
        ≡ length (into_iter_items passes.old) }
    ensures count { vec_len jobs.new ≡ jobs_of setup.now.site.now }
    ensures room { vec_capacity jobs.new ≡ vec_capacity jobs.old }
    ensures free { AreFree (into_iter_items passes.new) }
    ensures recorders { recorders_of_jobs jobs.new.items
        ≡ supplies.instruments.recorders.items }
    ensures scrapers { scrapers_of_jobs jobs.new.items
        ≡ supplies.instruments.scrapers.items }
    ensures posted { AllZip
        (IsPosted N.L.state N.D.upstream C.to_come N.S.calls setup.now.site.now.policy
        (C.of_fork clock.now)
        (N.state net.old).told) (posts_of setup.now.site.now) jobs.new.items }
    ensures stops { N.state net.new ≡ with_stops (jobs_of setup.now.site.now)
        (N.state net.old) }
    ensures kept { N.faults net.new ≡ N.faults net.old }
{
    let Bound {
        server,
        namerd,
        admin,
        feed,
    } = bound;
    let Supplies {
        rooms,
        instruments,
        hands,
    } = supplies;
    let Instruments {
        recorders,
        scrapers,
    } = instruments;
    let places = Places {
        rooms,
        recorders,
        hands: hands.clients,
    };
    let mut hands = hands.callers.into_iter();
    let mut scrapers = scrapers.into_iter();
    add_proxy_jobs(setup, net, clock, server, places, passes, jobs);
    let namerd = Interface {
        which: Which::Namerd,
        listeners: namerd,
    };
    add_api_jobs(setup, namerd, net, passes, &mut hands, &mut scrapers, jobs);
    let administers = Which::Admin { ready: true };
    let admin = Interface {
        which: administers,
        listeners: admin,
    };
    add_api_jobs(setup, admin, net, passes, &mut hands, &mut scrapers, jobs);
    add_feed_jobs(setup, net, feed, passes, &mut hands, &mut scrapers, jobs);
}
