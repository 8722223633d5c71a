//! From a router that was opened to its end.
ghost use Rattle.std.specs.Prelude.{◌≡◌, ℕ, ◌+◌, ◌≤◌, ◌<◌, ◌++◌, List, Err, true, false};
ghost use Rattle.std.specs.Prelude.{[], length, map};
ghost use Rattle.std.specs.Prelude.{IfOk, IsOk, OnOk, vec_len, vec_capacity};
ghost use Rattle.line_base.specs.Counts.{Rose};
ghost use Rattle.linker_config.specs.declared.loaded.LoadedItem.{LoadedItem};
ghost use Rattle.one_history.specs.Order.{Distinct};
ghost use Rattle.router.specs.Closing.{IsClosed, numbers_of};
ghost use Rattle.router.specs.Opening.{IsNamedBy, beginning_of};
ghost use Rattle.serving.specs.Ending.{HasServed};
ghost use Rattle.serving.specs.Faults.{TellsFaults};
ghost use Rattle.serving.specs.Jobs.{Runs, passes_of_jobs};
ghost use Rattle.serving.specs.Ledgers.{AreBlanksFor};
ghost use Rattle.serving.specs.Parts.{ComeApart, CountsParts, EndsAll, HasRoom, IsEmpty};
ghost use Rattle.serving.specs.Parts.{any_broken};
ghost use Rattle.serving.specs.Policies.{IsHandledBy};
ghost use Rattle.serving.specs.Supplying.{AreInstrumentsFor, AreSupplied};
ghost use Rattle.serving.specs.Tending.{HasParts, HaveTended};
ghost use Rattle.serving.specs.Services.{BookRefuses, HaveSeen};
ghost use Rattle.serving.specs.Passes.{AreFree};
ghost use Rattle.serving.specs.Posts.{interface_jobs, jobs_of};
ghost use Rattle.serving.specs.Returning.{listened, with_stops};
ghost use Rattle.serving.specs.Running.{HasRun, IsReady, Listens, bound_of, passes_of};
ghost use Rattle.std.specs.Vec.Iter.{into_iter_items};

use crate::bound::{Bound, bind};
use crate::ending::{StillWaiting, end_all};
use crate::gate::NoGate;
use crate::instruments::Instruments;
use crate::jobs::{Jobs, Setup, Supplies, add_jobs, make_rooms};
use crate::loading::{SetFault, set_services};
use crate::lots::{Blanks, LEAST_CLIENTS, Lots, MOST_CLIENTS};
use crate::parts::{Apart, NetApart};
use crate::site::Site;
use crate::taking_back::{take_all_apart, take_unrun_apart};
use client_stays::Handling;
use exchange_record::Recorder;
use line_base::{Clock, Listener, Net, NetFault, Peer};
use linker_config::Loaded;
use proxy_session::{Mem, Room};
use router::{Naming, Opened, Pass, Router};
use scrape::Scrape;
use std::alloc::{AllocError, Global};
use std::marker::Brand;
use std::sync::Wait;
use std::sync::ledger::Ledger;
use std::thread::Threads;
use std::vec::IntoIter;
use workers::{JobsBack, run_workers};

/// Why a router does not serve.
#[derive(Clone, Copy, Debug, PartialEq, Eq)]
pub enum StartFault {
    /// The book has no room for one of its services, behind those before it.
    Book,
    /// One of its addresses can't be listened on. The net's count of faults rose.
    Net,
    /// There was no memory.
    OutOfMemory,
}

/// Why a router that serves came to no good end.
#[derive(Clone, Copy, Debug, PartialEq, Eq)]
pub enum RunFault {
    /// The waits of a listener failed a hundred times in a row. The net's count of faults rose.
    Net,
    /// There was no memory for the jobs. None of them ran.
    OutOfMemory,
}

/// How it was to serve.
#[derive(Clone, Copy, Debug, PartialEq, Eq)]
pub struct Served {
    /// How many changes there were.
    pub place: u64,
    /// Whether a stay of a connection ran out of memory.
    pub lacked_memory: bool,
}

/// A router that has its services, and listens. It ends by [`Serving::run`] or [`Serving::close`].
pub struct Serving<J: Naming, L> {
    router: Router<J>,
    passes: Vec<Pass<J>>,
    bound: Bound<L>,
}

/// Ends a router: how many changes there were.
fn close<J: Naming, R: Wait>(rt: &R, router: Router<J>, passes: Vec<Pass<J>>) -> u64
    requires apart { Distinct (numbers_of passes.items) }
    requires all { J.seats ≤ length passes.items }
    requires parts { J.parts ≡ J.seats }
    ensures { IsClosed result passes.items }
{
    match router.close(rt, passes) {
        Ok(place) => place,
        Err(_back) => unreachable!(),
    }
}

/// Listens on the addresses of a router whose services were set, or were not.
fn listen_behind<N: Net>(
    set: Result<(), SetFault>,
    alloc: Global,
    net: &mut N,
    site: &Site,
) -> Result<Bound<N::L>, StartFault>
    ensures set { OnOk result (IsOk set) }
    ensures listens { IfOk result (λ b. Listens N.L.state (N.state net.new).told site.now b) }
    ensures net { OnOk result (N.state net.new ≡ listened (jobs_of site.now) (N.state net.old)) }
    ensures refused { result ≡ Err StartFault.Book → (set ≡ Err SetFault.Book)
        × (N.state net.new ≡ N.state net.old) }
    ensures broken { result ≡ Err StartFault.Net → Rose (N.faults net.old) (N.faults net.new) }
    ensures kept { (result ≡ Err StartFault.Net → ⊥) → N.faults net.new ≡ N.faults net.old }
{
    match set {
        Ok(()) => {}
        Err(SetFault::Book) => return Err(StartFault::Book),
        Err(SetFault::OutOfMemory) => return Err(StartFault::OutOfMemory),
    }
    match bind(alloc, net, site) {
        Ok(bound) => Ok(bound),
        Err(NetFault::Failed) => Err(StartFault::Net),
        Err(NetFault::OutOfMemory) => Err(StartFault::OutOfMemory),
    }
}

/// Gives a router its services, and listens on its addresses.
///
/// # Errors
/// Why it can't serve: see [`StartFault`]. The router has ended then.
pub fn start<J: Naming, R: Wait, N: Net>(
    rt: &R,
    alloc: Global,
    opened: Opened,
    loaded: Loaded,
    site: &Site,
    net: &mut N,
) -> Result<Serving<J, N::L>, StartFault>
    requires named { IsNamedBy (beginning_of opened) J.Naming.own J.Ledger.own }
    requires seats { J.seats ≡ jobs_of site.now + 1 }
    ensures ready { IfOk result (λ s. IsReady s) }
    ensures listens { IfOk result
        (λ s. Listens N.L.state (N.state net.new).told site.now (bound_of s)) }
    ensures seats { IfOk result (λ s. length (passes_of s) ≡ jobs_of site.now + 1) }
    ensures seen { IfOk result (λ s. HaveSeen loaded (passes_of s)) }
    ensures net { IfOk result (λ _. N.state net.new ≡ listened (jobs_of site.now)
        (N.state net.old)) }
    ensures refused { result ≡ Err StartFault.Book → BookRefuses J.settings loaded
        × (N.state net.new ≡ N.state net.old) }
    ensures broken { result ≡ Err StartFault.Net → Rose (N.faults net.old) (N.faults net.new) }
    ensures kept { (result ≡ Err StartFault.Net → ⊥) → N.faults net.new ≡ N.faults net.old }
{
    let Ok((router, passes)) = opened.named::<J, R>(rt, alloc) else {
        return Err(StartFault::OutOfMemory);
    };
    let Ok(mut met) = Vec::with_capacity(alloc, passes.len()) else {
        close(rt, router, passes);
        return Err(StartFault::OutOfMemory);
    };
    let set = set_services(rt, alloc, &router, passes, loaded.into_items(), &mut met);
    match listen_behind(set, alloc, net, site) {
        Ok(bound) => Ok(Serving {
            router,
            passes: met,
            bound,
        }),
        Err(fault) => {
            close(rt, router, met);
            Err(fault)
        }
    }
}

/// Puts these passes behind others.
fn add_rest<J: Naming>(rest: IntoIter<Pass<J>>, passes: &mut Vec<Pass<J>>)
    requires room { vec_len passes.old + length (into_iter_items rest) ≤ vec_capacity passes.old }
    ensures { passes.new.items ≡ passes.old.items ++ into_iter_items rest }
{
    for pass in rest {
        passes.push_reserved(pass);
    }
}

/// What comes back once the jobs ran, or could not.
#[derive(Drop)]
struct Returned<J: Naming, K> {
    /// Whether there was memory to run them.
    ran: bool,
    tally: Tally,
    passes: Vec<Pass<J>>,
    /// Those of the jobs that ran.
    recorders: Vec<K>,
}

/// What is known once all jobs are back.
#[derive(Clone, Copy)]
struct Tally {
    /// Whether the net failed to take a listener back.
    failed: bool,
    /// Whether a stay of a connection ran out of memory.
    lacked_memory: bool,
}

/// What does not change while a router serves: the allocator, the router, and where it serves.
#[derive(Drop)]
struct Plan<'a, J: Naming> {
    alloc: Global,
    router: &'a Router<J>,
    site: &'a Site,
}

/// Runs these jobs and takes them apart: whether there was memory to run them.
fn run_apart<
    J: Handling + Send + Sync,
    R: Threads + Wait + Sync,
    N: Net + Send,
    C: Clock + Drop + Send,
    K: Recorder + Drop + Send,
    X: Scrape + Drop + Send,
    A: Ledger + Send + Sync,
    B: Ledger + Send + Sync,
    E: Ledger + Send + Sync,
    F: Ledger + Send + Sync,
>(
    rt: &R,
    jobs: Jobs<'_, J, N, C, K, X, A, B, E, F>,
    apart: &mut NetApart<J, N, K, A, B, E, F>,
) -> bool
where
    <N::L as Listener>::P: Send,
    requires room { HasRoom apart.old (length jobs.items) }
    ensures room { (n : ℕ) → HasRoom apart.old (length jobs.entry.items + n)
        → HasRoom apart.new n }
    ensures numbers { numbers_of apart.new.passes.items
        ≡ numbers_of apart.old.passes.items ++ numbers_of (passes_of_jobs jobs.entry.items) }
    ensures counts { CountsParts jobs.entry.items apart.old apart.new }
    ensures came { result ≡ true → ComeApart (Runs N.L.P.line N.L.P.address K.Recorder.own
        N.L.state N.D.upstream C.to_come N.S.calls X.told) N.L.state N.D.upstream N.S.calls
        jobs.entry.items apart.old apart.new }
{
    match run_workers(rt, jobs, &NoGate) {
        Ok(back) => {
            take_all_apart::<J, N, C, K, X, A, B, E, F>(back, apart);
            true
        }
        Err(JobsBack { jobs }) => {
            take_unrun_apart::<J, N, C, K, X, A, B, E, F>(jobs, apart);
            false
        }
    }
}

/// There was no memory to run the jobs.
fn unrun<J: Naming, K>(alloc: Global, passes: Vec<Pass<J>>) -> Returned<J, K>
    ensures { (result.ran ≡ false) × (result.tally.failed ≡ false) × (result.passes ≡ passes) }
{
    Returned {
        ran: false,
        tally: Tally {
            failed: false,
            lacked_memory: false,
        },
        passes,
        recorders: Vec::new(alloc),
    }
}

/// What the jobs of a router need besides its listeners and passes, before the first is posted.
struct Stock<P: Peer, J: Handling, K, X, A: Ledger, B: Ledger, E: Ledger, F: Ledger> {
    /// Where connections wait.
    lots: Lots<P, J, A, B, E, F>,
    /// What each job gets.
    supplies: Supplies<K, X, A, B, E, F>,
}

/// Rooms for bytes, room for jobs of a net, and room for their parts, once they have ended.
type NetMemory<'a, J, N, C, K, X, A, B, E, F> = (
    Vec<Room>,
    Jobs<'a, J, N, C, K, X, A, B, E, F>,
    NetApart<J, N, K, A, B, E, F>,
);

/// The stock of a net's jobs, room for their parts, once they have ended, and room for the jobs.
type NetStock<'a, J, N, C, K, X, A, B, E, F> = (
    Stock<<<N as Net>::L as Listener>::P, J, K, X, A, B, E, F>,
    NetApart<J, N, K, A, B, E, F>,
    Jobs<'a, J, N, C, K, X, A, B, E, F>,
);

/// Takes the memory for so many jobs and for their parts, once they have ended, and a room for
/// bytes for each worker that serves clients.
fn make_memory<
    'a,
    J: Handling,
    N: Net,
    C: Drop,
    K: Drop,
    X: Drop,
    A: Ledger,
    B: Ledger,
    E: Ledger,
    F: Ledger,
>(plan: &Plan<'_, J>, count: usize) -> Mem<NetMemory<'a, J, N, C, K, X, A, B, E, F>>
    ensures rooms { IfOk result (λ m. length m.0.items ≡ plan.now.site.now.workers) }
    ensures jobs { IfOk result (λ m. (m.1.items ≡ []) × (count ≤ vec_capacity m.1)) }
    ensures apart { IfOk result (λ m. IsEmpty m.2 × HasRoom m.2 count) }
{
    let rooms = make_rooms(plan.alloc, plan.site.workers as usize)?;
    let jobs = Vec::with_capacity(plan.alloc, count)?;
    match Apart::with_room(plan.alloc, count) {
        Ok(apart) => Ok((rooms, jobs, apart)),
        Err(failed) => {
            drop(rooms);
            drop(jobs);
            Err(failed)
        }
    }
}

/// Takes all memory that so many jobs need, so that they can be taken apart once they have run:
/// rooms for bytes, lots where as many connections may wait as the net has room for, and room for
/// the jobs and for their parts.
fn make_stock<
    'a,
    J: Handling,
    N: Net,
    C: Drop,
    K: Drop,
    X: Drop,
    A: Ledger,
    B: Ledger,
    E: Ledger,
    F: Ledger,
>(
    plan: &Plan<'_, J>,
    net: &mut N,
    blanks: Blanks,
    count: usize,
    instruments: Instruments<K, X>,
) -> Mem<NetStock<'a, J, N, C, K, X, A, B, E, F>>
    requires blanks { AreBlanksFor A.Ledger.own B.Ledger.own E.Ledger.own F.Ledger.own
        plan.now.site.now.workers (interface_jobs plan.now.site.now) blanks }
    requires equipped { AreInstrumentsFor plan.now.site.now instruments }
    ensures supplies { IfOk result (λ s. AreSupplied plan.now.site.now s.0.supplies) }
    ensures instruments { IfOk result (λ s. s.0.supplies.instruments ≡ instruments) }
    ensures apart { IfOk result (λ s. IsEmpty s.1 × HasRoom s.1 count) }
    ensures jobs { IfOk result (λ s. (s.2.items ≡ []) × (count ≤ vec_capacity s.2)) }
    ensures kept { (N.state net.new ≡ N.state net.old) × (N.faults net.new ≡ N.faults net.old) }
{
    let Ok((rooms, jobs, apart)) = make_memory::<J, N, C, K, X, A, B, E, F>(plan, count) else {
        drop(blanks);
        drop(instruments);
        return Err(AllocError);
    };
    let room = net.waiting_room(MOST_CLIENTS).max(LEAST_CLIENTS);
    let callers = plan.site.interface_jobs();
    match Lots::open(plan.alloc, room, blanks, plan.site.workers, callers) {
        Ok((lots, hands)) => {
            let supplies = Supplies {
                rooms,
                instruments,
                hands,
            };
            Ok((Stock { lots, supplies }, apart, jobs))
        }
        Err(failed) => {
            drop(rooms);
            drop(jobs);
            drop(apart);
            drop(instruments);
            Err(failed)
        }
    }
}

/// What the jobs of a router are made from: its listeners, what else each job gets, and its passes.
struct JobInputs<J: Naming, L, K, X, A: Ledger, B: Ledger, E: Ledger, F: Ledger> {
    bound: Bound<L>,
    supplies: Supplies<K, X, A, B, E, F>,
    passes: Vec<Pass<J>>,
}

/// Makes a job for each listener, runs them, and takes them apart: whether there was memory to run
/// them, and the passes that no job has.
fn post_and_run<
    'a,
    J: Handling + Send + Sync,
    R: Threads + Wait + Sync,
    N: Net + Send,
    C: Clock + Drop + Send,
    K: Recorder + Drop + Send,
    X: Scrape + Drop + Send,
    A: Ledger + Send + Sync,
    B: Ledger + Send + Sync,
    E: Ledger + Send + Sync,
    F: Ledger + Send + Sync,
>(
    rt: &R,
    setup: &Setup<'a, <N::L as Listener>::P, J, A, B, E, F>,
    net: &mut N,
    clock: &C,
    inputs: JobInputs<J, N::L, K, X, A, B, E, F>,
    mut jobs: Jobs<'a, J, N, C, K, X, A, B, E, F>,
    apart: &mut NetApart<J, N, K, A, B, E, F>,
) -> (bool, IntoIter<Pass<J>>)
where
    <N::L as Listener>::P: Send,
    requires handled { IsHandledBy J.rule J.tries setup.now.site.now.policy }
    requires seats { length inputs.passes.items ≡ jobs_of setup.now.site.now + 1 }
    requires free { AreFree inputs.passes.items }
    requires supplied { AreSupplied setup.now.site.now inputs.supplies }
    requires listens { Listens N.L.state (N.state net.old).told setup.now.site.now inputs.bound }
    requires none_yet { jobs.items ≡ [] }
    requires job_room { jobs_of setup.now.site.now ≤ vec_capacity jobs }
    requires nothing { IsEmpty apart.old }
    requires room { HasRoom apart.old (jobs_of setup.now.site.now + 1) }
    ensures rest { length (into_iter_items result.1) ≡ 1 }
    ensures room { HasRoom apart.new 1 }
    ensures parts { HasParts setup.now.site.now apart.new }
    ensures numbers { numbers_of (apart.new.passes.items ++ into_iter_items result.1)
        ≡ numbers_of inputs.passes.items }
    ensures stops { N.state net.new ≡ with_stops (jobs_of setup.now.site.now) (N.state net.old) }
    ensures kept { N.faults net.new ≡ N.faults net.old }
    ensures tended { result.0 ≡ true
        → any_broken N.L.state N.D.upstream N.S.calls apart.new.parts.items ≡ false
        → HaveTended N.L.P.line N.L.P.address K.Recorder.own N.L.state N.D.upstream N.S.calls
        setup.now.site.now (C.of_fork clock.now) (N.state net.old).told inputs.passes.items
        (into_iter_items result.1) inputs.supplies.instruments.recorders.items
        (map X.told inputs.supplies.instruments.scrapers.items) apart.new }
{
    let JobInputs {
        bound,
        supplies,
        passes,
    } = inputs;
    let mut passes = passes.into_iter();
    add_jobs(setup, net, clock, bound, supplies, &mut passes, &mut jobs);
    let ran = run_apart::<J, R, N, C, K, X, A, B, E, F>(rt, jobs, apart);
    (ran, passes)
}

/// Closes the lots, ends who waited still, and gives the listeners back to the net: whether it
/// failed to take one, all passes, these last, and the recorders.
fn close_all<J: Handling, N: Net, K, A: Ledger, B: Ledger, E: Ledger, F: Ledger>(
    net: &mut N,
    lots: Lots<<N::L as Listener>::P, J, A, B, E, F>,
    apart: NetApart<J, N, K, A, B, E, F>,
    rest: IntoIter<Pass<J>>,
) -> (Tally, Vec<Pass<J>>, Vec<K>)
    requires some { 0 < length apart.parts.items }
    requires clients { (A.parts ≤ length apart.client_hands.items)
        × (B.parts ≤ length apart.client_hands.items) }
    requires callers { (E.parts ≤ length apart.caller_hands.items)
        × (F.parts ≤ length apart.caller_hands.items) }
    requires room { HasRoom apart (length (into_iter_items rest)) }
    ensures ends { EndsAll N.L.P.line N.L.state N.D.upstream N.S.calls J.rule J.tries apart
        (N.state net.old) (N.state net.new) }
    ensures broken { result.0.failed
        ≡ any_broken N.L.state N.D.upstream N.S.calls apart.parts.items }
    ensures lacked { result.0.lacked_memory ≡ apart.lacked_memory }
    ensures faults { TellsFaults (N.faults net.old) (N.faults net.new) result.0.failed }
    ensures passes { result.1.items ≡ apart.passes.items ++ into_iter_items rest }
    ensures recorders { result.2.items ≡ apart.recorders.items }
{
    let Apart {
        parts,
        mut passes,
        recorders,
        client_hands,
        caller_hands,
        lacked_memory,
    } = apart;
    let Lots { clients, callers } = lots;
    let still = StillWaiting {
        clients: clients.close(client_hands),
        callers: callers.close(caller_hands),
    };
    let failed = end_all(net, parts, still);
    add_rest(rest, &mut passes);
    let tally = Tally {
        failed,
        lacked_memory,
    };
    (tally, passes, recorders)
}

/// What a router serves with, besides what does not change: its listeners, its passes, and what it
/// records with.
struct Resources<J: Naming, L, K, X> {
    bound: Bound<L>,
    passes: Vec<Pass<J>>,
    instruments: Instruments<K, X>,
}

/// Runs a job for each listener, and takes all back.
fn run_jobs<
    J: Handling + Send + Sync,
    A: Ledger + Send + Sync,
    B: Ledger + Send + Sync,
    E: Ledger + Send + Sync,
    F: Ledger + Send + Sync,
    R: Threads + Wait + Sync,
    N: Net + Send,
    C: Clock + Drop + Send,
    K: Recorder + Drop + Send,
    X: Scrape + Drop + Send,
>(
    rt: &R,
    plan: &Plan<'_, J>,
    net: &mut N,
    clock: &C,
    resources: Resources<J, N::L, K, X>,
    blanks: Blanks,
) -> Returned<J, K>
where
    <N::L as Listener>::P: Send,
    requires blanks { AreBlanksFor A.Ledger.own B.Ledger.own E.Ledger.own F.Ledger.own
        plan.now.site.now.workers (interface_jobs plan.now.site.now) blanks }
    requires handled { IsHandledBy J.rule J.tries plan.now.site.now.policy }
    requires seats { length resources.passes.items ≡ jobs_of plan.now.site.now + 1 }
    requires free { AreFree resources.passes.items }
    requires listens { Listens N.L.state (N.state net.old).told plan.now.site.now
        resources.bound }
    requires equipped { AreInstrumentsFor plan.now.site.now resources.instruments }
    ensures numbers { numbers_of result.passes.items ≡ numbers_of resources.passes.items }
    ensures faults { TellsFaults (N.faults net.old) (N.faults net.new) result.tally.failed }
    ensures served { result.ran ≡ true → result.tally.failed ≡ false
        → HasRun N.L.P.line N.L.P.address K.Recorder.own plan.now.site.now (C.of_fork clock.now)
        resources.passes.items result.passes.items resources.instruments.recorders.items
        result.recorders.items (map X.told resources.instruments.scrapers.items)
        (N.state net.old) (N.state net.new) result.tally.lacked_memory }
{
    let Resources {
        bound,
        passes,
        instruments,
    } = resources;
    let count = passes.len();
    let Ok(made) = make_stock::<J, N, C, K, X, A, B, E, F>(plan, net, blanks, count, instruments)
    else {
        return unrun(plan.alloc, passes);
    };
    let (stock, mut apart, jobs) = made;
    let Stock { lots, supplies } = stock;
    let setup = Setup {
        alloc: plan.alloc,
        router: plan.router,
        site: plan.site,
        lots: &lots,
    };
    let inputs = JobInputs {
        bound,
        supplies,
        passes,
    };
    let (ran, rest) = post_and_run::<J, R, N, C, K, X, A, B, E, F>(
        rt, &setup, net, clock, inputs, jobs, &mut apart,
    );
    let (tally, passes, recorders) = close_all(net, lots, apart, rest);
    Returned {
        ran,
        tally,
        passes,
        recorders,
    }
}

impl<J: Handling + Send + Sync, L: Listener> Serving<J, L> {
    /// Serves until it is stopped, and ends the router: how many changes there were in all, those
    /// that set the services among them, whether a stay of a connection ran out of memory, and the
    /// recorders, each told of what its worker served.
    ///
    /// A connection holds a worker while it is served. Between two of its requests it waits, and
    /// any worker goes on with it. One that has waited for a minute is ended, and so is the one
    /// that has waited longest where there is no room for another. Those that still wait when all
    /// workers have ended are ended then, so that as many are finished as were accepted.
    ///
    /// # Errors
    /// Why it came to no good end: see [`RunFault`]. The router has ended then too, and the
    /// recorders are let go of.
    pub fn run<
        R: Threads + Wait + Sync,
        N: Net<L = L> + Send,
        C: Clock + Drop + Send,
        K: Recorder + Drop + Send,
        X: Scrape + Drop + Send,
    >(
        self,
        rt: &R,
        alloc: Global,
        site: &Site,
        net: &mut N,
        clock: &C,
        instruments: Instruments<K, X>,
    ) -> Result<(Served, Vec<K>), RunFault>
    where
        L::P: Send,
        requires ready { IsReady self }
        requires listens { Listens L.state (N.state net.old).told site.now (bound_of self) }
        requires seats { length (passes_of self) ≡ jobs_of site.now + 1 }
        requires parts { J.parts ≡ J.seats }
        requires handled { IsHandledBy J.rule J.tries site.now.policy }
        requires equipped { AreInstrumentsFor site.now instruments }
        ensures broken { result ≡ Err RunFault.Net → Rose (N.faults net.old) (N.faults net.new) }
        ensures kept { (result ≡ Err RunFault.Net → ⊥) → N.faults net.new ≡ N.faults net.old }
        ensures served { IfOk result
            (λ ran. (loaded : List LoadedItem) → HaveSeen loaded (passes_of self)
            → HasServed L.P.line L.P.address K.Recorder.own site.now (C.of_fork clock.now) loaded
            (passes_of self) instruments.recorders.items ran.1.items
            (map X.told instruments.scrapers.items) (N.state net.old) (N.state net.new)
            ran.0) }
    {
        let Serving {
            router,
            passes,
            bound,
        } = self;
        let plan = Plan {
            alloc,
            router: &router,
            site,
        };
        let blanks = Blanks::new(site.workers, site.interface_jobs());
        let resources = Resources {
            bound,
            passes,
            instruments,
        };
        let Returned {
            ran,
            tally,
            passes,
            recorders,
        } = run_jobs::<J, Brand, Brand, Brand, Brand, R, N, C, K, X>(
            rt, &plan, net, clock, resources, blanks,
        );
        let place = close(rt, router, passes);
        if tally.failed {
            return Err(RunFault::Net);
        }
        if !ran {
            return Err(RunFault::OutOfMemory);
        }
        let served = Served {
            place,
            lacked_memory: tally.lacked_memory,
        };
        Ok((served, recorders))
    }
}

impl<J: Naming, L: Drop> Serving<J, L> {
    /// Ends the router without serving.
    pub fn close<R: Wait>(self, rt: &R)
        requires ready { IsReady self }
        requires parts { J.parts ≡ J.seats }
    {
        let Serving {
            router,
            passes,
            bound: _,
        } = self;
        close(rt, router, passes);
    }
}
