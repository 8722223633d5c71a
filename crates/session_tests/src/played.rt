//! Sessions that are played, and what they came to.
ghost use Rattle.std.specs.Prelude.{◌≡◌, ◌<◌, None};
ghost use Rattle.machine.specs.Code.{change_of};
ghost use Rattle.machine.specs.State.{IsSoundChange};
ghost use Rattle.router.specs.Opening.{IsNamedBy, beginning_of};
ghost use Rattle.router.specs.Passes.{slot_in};

use crate::recorded::Keeper;
use crate::row::text_of;
use crate::scene::{
    Bytes, Mem, Scene, addresses, by_host, client, clock, settings, spelling, upstreams,
};
use addr_book::Addr;
use http_wire::{Ended, Paused};
use identifier::Rule;
use line_base::{DialEvent, Gate};
use line_doubles::{MemClock, MemDialer, MemPeer};
use machine::{Change, Reply};
use proxy_session::{Connection, Context, Parts, Room, Server};
use rand_core::SeedableRng;
use rand_pcg::Pcg64;
use router::{Naming, Opened, Pass, Router, open};
use std::alloc::Global;
use std::marker::Brand;
use std::process::Abort;
use std::sync::Wait;
use std::test::Fail;

/// A gate that nobody asks.
pub(crate) struct Free;

impl Gate for Free {
    fn begin(&self, _worker: u32) {}

    fn done(&self, _worker: u32) {}
}

/// What a session came to.
pub(crate) struct Played {
    /// What the client was given, spelt.
    pub(crate) written: String,
    /// What the dialers did: what was sent over a connection, spelt, stands behind `<` or `(`,
    /// where it was opened or resumed, and before `>` or `)`, where it was ended or kept. One to
    /// another port than 9001 begins with `?` or `!`.
    pub(crate) sent: String,
    /// How many calls of the dialers failed.
    pub(crate) failed: u64,
    /// How the connection ended; `None` where it waits.
    pub(crate) ended: Option<Ended>,
    /// How often the replica at port 9001 has failed since it last did well. It had failed once.
    pub(crate) failures: u32,
    /// What was told of its exchanges.
    pub(crate) told: String,
}

impl Drop for Played {
    fn drop(self) {
        let Played {
            written,
            sent,
            failed: _,
            ended: _,
            failures: _,
            told,
        } = self;
        drop(written);
        drop(sent);
        drop(told);
    }
}

impl Played {
    /// What came of the session, as one text.
    pub(crate) fn text(&self, alloc: Global) -> Mem<String> {
        let (written, sent) = (self.written.as_str(), self.sent.as_str());
        text_of(alloc, written, sent, self.ended, self.failures)
    }

    /// How the session ended, what the client was given, and what was sent.
    pub(crate) fn seen(&self) -> (Option<Ended>, &str, &str) {
        (self.ended, self.written.as_str(), self.sent.as_str())
    }

    /// What the client was given.
    pub(crate) fn into_written(self) -> String {
        let Played {
            written,
            sent,
            failed: _,
            ended: _,
            failures: _,
            told,
        } = self;
        drop(sent);
        drop(told);
        written
    }
}

/// Puts what the tries of a dialer sent behind the rest.
pub(crate) fn put_sent(log: &[DialEvent], sent: &mut Bytes) -> Mem<()> {
    for event in log {
        match event {
            DialEvent::Dialed(0x7f000001, 9001) => sent.push(b'<')?,
            DialEvent::Dialed(_, _) => sent.push(b'?')?,
            DialEvent::Sent(piece) => sent.extend_from_slice(piece.bytes())?,
            DialEvent::Got(_) => {}
            DialEvent::Hung => sent.push(b'>')?,
            DialEvent::Resumed(0x7f000001, 9001) => sent.push(b'(')?,
            DialEvent::Resumed(_, _) => sent.push(b'!')?,
            DialEvent::Kept => sent.push(b')')?,
        }
    }
    Ok(())
}

/// What two dialers did, as text.
fn sent_by(alloc: Global, first: &MemDialer, second: &MemDialer) -> Mem<String> {
    let mut sent = Vec::new(alloc);
    put_sent(first.log(), &mut sent)?;
    put_sent(second.log(), &mut sent)?;
    spelling(alloc, sent.as_slice())
}

/// A client that was served.
struct ServedClient {
    /// What it was given.
    peer: MemPeer,
    /// What was told of its exchanges.
    keeper: Keeper,
    /// How its connection ended; `None` where it waits.
    ended: Option<Ended>,
}

impl Drop for ServedClient {
    fn drop(self) {
        let ServedClient {
            peer,
            keeper,
            ended: _,
        } = self;
        drop(peer);
        drop(keeper);
    }
}

/// What the outside was told of a session with this client over these dialers.
fn told(
    alloc: Global,
    client: &ServedClient,
    first: &MemDialer,
    second: &MemDialer,
) -> Mem<Played> {
    let sent = sent_by(alloc, first, second)?;
    let written = spelling(alloc, client.peer.sink().held())?;
    let told = String::from_str(alloc, client.keeper.text())?;
    Ok(Played {
        written,
        sent,
        failed: first.faults().saturating_add(second.faults()),
        ended: client.ended,
        failures: 0,
        told,
    })
}

/// The same, with how often the replica has failed then: once less than behind one more report.
fn with_failures(played: Mem<Played>, count: u32) -> Mem<Played> {
    let mut played = played?;
    played.failures = count.saturating_sub(1);
    Ok(played)
}

/// The report that the replica at port 9001 failed.
fn report() -> Change
    ensures { IsSoundChange (change_of result) }
{
    Change::Report {
        addr: Addr {
            ip: 0x7f000001,
            port: 9001,
        },
        good: false,
        moment: 1000,
    }
}

/// The change that gives the service `web` the addresses of a scene.
fn new_addresses<R: Abort>(rt: &R, alloc: Global, scene: &Scene<'_>) -> Change
    ensures { IsSoundChange (change_of result) }
{
    match addresses(alloc, scene) {
        Ok(change) => change,
        Err(_why) => panic!(rt; "no addresses"),
    }
}

/// Makes a change. Where it is a report, it says how often the replica then has failed since it
/// last did well.
fn count_behind<J: Naming, R: Wait + Abort>(
    rt: &R,
    alloc: Global,
    router: &Router<J>,
    pass: &mut Pass<J>,
    change: Change,
) -> u32
    requires { IsSoundChange (change_of change) }
{
    match router.change(rt, alloc, pass, change) {
        Ok(reply) => match reply {
            Reply::Marked(mark, ..) => mark.count,
            _ => 0,
        },
        Err(_want) => panic!(rt; "no memory for a change"),
    }
}

/// Room for a server.
fn room<R: Abort>(rt: &R, alloc: Global) -> Room {
    match Room::new(alloc) {
        Ok(room) => room,
        Err(_want) => panic!(rt; "no memory for a server"),
    }
}

/// The clock of a server, which stands still.
pub(crate) fn server_clock<R: Abort>(rt: &R, alloc: Global) -> MemClock {
    match clock(alloc) {
        Ok(clock) => clock,
        Err(_want) => panic!(rt; "no memory for a clock"),
    }
}

/// A server with this pass, which has to hold no slot, and with this dialer and this clock.
pub(crate) fn server<J: Naming, R: Abort, D, C>(
    rt: &R,
    alloc: Global,
    pass: Pass<J>,
    dialer: D,
    clock: C,
) -> Server<J, D, C>
    ensures { slot_in result.pass ≡ None }
{
    let None = pass.holds() else {
        panic!(rt; "the pass holds a slot")
    };
    let room = room(rt, alloc);
    let parts = Parts {
        pass,
        dialer,
        clock,
        words: Pcg64::seed_from_u64(7),
    };
    Server::of(room, parts)
}

/// The pass and the dialer of a server.
pub(crate) fn parts_of<J: Naming, D>(server: Server<J, D, MemClock>) -> (Pass<J>, D) {
    let Parts {
        pass,
        dialer,
        clock,
        words: _,
    } = server.into_parts();
    drop(clock);
    (pass, dialer)
}

/// The dialer of a scene.
pub(crate) fn dialer<R: Abort>(rt: &R, alloc: Global, scene: &Scene<'_>) -> MemDialer {
    match upstreams(alloc, scene) {
        Ok(dialer) => dialer,
        Err(_want) => panic!(rt; "no memory for a dialer"),
    }
}

/// The client of a scene.
pub(crate) fn peer<R: Abort>(rt: &R, alloc: Global, scene: &Scene<'_>) -> MemPeer {
    match client(alloc, scene) {
        Ok(peer) => peer,
        Err(_want) => panic!(rt; "no memory for a client"),
    }
}

/// Serves the client's requests until its connection ends. Where it waits, the second server goes
/// on with it, once that has learnt what the first one had seen. `None` where it waits once more.
fn serve_stays<J: Naming, R: Wait>(
    context: &Context<'_, J, R>,
    first: &mut Server<J, MemDialer, MemClock>,
    second: &mut Server<J, MemDialer, MemClock>,
    connection: &mut Connection<MemPeer>,
    keeper: &mut Keeper,
) -> Option<Ended>
    requires first { slot_in first.old.pass ≡ None }
    requires second { slot_in second.old.pass ≡ None }
    requires few { connection.old.served < 10000 }
{
    match first.serve_stay(context, connection, &Free, 0, keeper) {
        Paused::Ended(ended) => Some(ended),
        Paused::Quiet => {
            second.learn(first.ticket());
            match second.serve_stay(context, connection, &Free, 1, keeper) {
                Paused::Ended(ended) => Some(ended),
                Paused::Quiet => None,
            }
        }
    }
}

/// Serves the client of a scene with a server of each pass, and gives the passes back.
fn serve<J: Naming, R: Wait + Abort>(
    context: &Context<'_, J, R>,
    first: Pass<J>,
    second: Pass<J>,
    scene: &Scene<'_>,
) -> (Pass<J>, Pass<J>, Mem<Played>) {
    let Context { rt, alloc, .. } = *context;
    let clock = server_clock(rt, alloc);
    let mut first = server(rt, alloc, first, dialer(rt, alloc, scene), clock);
    let clock = server_clock(rt, alloc);
    let mut second = server(rt, alloc, second, dialer(rt, alloc, scene), clock);
    let mut connection = scene.connection(peer(rt, alloc, scene));
    let mut keeper = Keeper::new(alloc);
    let ended = serve_stays(
        context,
        &mut first,
        &mut second,
        &mut connection,
        &mut keeper,
    );
    let client = ServedClient {
        peer: connection.into_peer(),
        keeper,
        ended,
    };
    let (first, dialer) = parts_of(first);
    let (second, other) = parts_of(second);
    let played = told(alloc, &client, &dialer, &other);
    drop(client);
    drop(dialer);
    drop(other);
    (first, second, played)
}

/// Ends a router of two passes.
pub(crate) fn close<J: Naming, R: Wait + Abort>(
    rt: &R,
    alloc: Global,
    router: Router<J>,
    first: Pass<J>,
    second: Pass<J>,
)
    requires { J.parts ≡ J.seats }
{
    assert!(rt; first.number() < second.number());
    let passes = match vec![in alloc; first, second] {
        Ok(passes) => passes,
        Err(_back) => panic!(rt; "no memory for the passes"),
    };
    match router.close(rt, passes) {
        Ok(_place) => {}
        Err(_back) => panic!(rt; "not closed"),
    }
}

/// Names a router of two passes, in which the service `web` has the addresses of a scene.
pub(crate) fn named<J: Naming, R: Wait + Abort>(
    rt: &R,
    alloc: Global,
    opened: Opened,
    scene: &Scene<'_>,
) -> Mem<(Router<J>, Pass<J>, Pass<J>)>
    requires { IsNamedBy (beginning_of opened) J.Naming.own J.Ledger.own }
{
    let (router, mut passes) = opened.named::<J, R>(rt, alloc)?;
    let second = match passes.pop() {
        Some(pass) => pass,
        None => panic!(rt; "a pass is missing"),
    };
    let mut first = match passes.pop() {
        Some(pass) => pass,
        None => panic!(rt; "both passes are missing"),
    };
    drop(passes);
    let change = new_addresses(rt, alloc, scene);
    let _count = count_behind(rt, alloc, &router, &mut first, change);
    Ok((router, first, second))
}

/// Names a router of two passes, plays a scene over it and ends it.
fn play_named<J: Naming, R: Wait + Abort>(
    rt: &R,
    alloc: Global,
    opened: Opened,
    rule: &Rule,
    scene: &Scene<'_>,
) -> Mem<Played>
    requires named { IsNamedBy (beginning_of opened) J.Naming.own J.Ledger.own }
{
    let (router, mut first, second) = named::<J, R>(rt, alloc, opened, scene)?;
    let context = Context {
        rt,
        alloc,
        router: &router,
        rule,
    };
    let _once = count_behind(rt, alloc, &router, &mut first, report());
    let (mut first, second, played) = serve(&context, first, second, scene);
    let count = count_behind(rt, alloc, &router, &mut first, report());
    close(rt, alloc, router, first, second);
    with_failures(played, count)
}

/// Plays a scene, and gives what came of it as one text.
pub(crate) fn play_text<R: Wait + Abort>(
    rt: &R,
    alloc: Global,
    scene: &Scene<'_>,
) -> Result<String, Fail> {
    let played = play(rt, alloc, scene)?;
    let text = played.text(alloc);
    drop(played);
    Ok(text?)
}

/// Plays a scene over a router of its own, in which the service `web` has its addresses.
pub(crate) fn play<R: Wait + Abort>(
    rt: &R,
    alloc: Global,
    scene: &Scene<'_>,
) -> Result<Played, Fail> {
    let rule = by_host(alloc)?;
    let played = play_by(rt, alloc, &rule, scene);
    drop(rule);
    played
}

/// The same, with requests named by this rule.
fn play_by<R: Wait + Abort>(
    rt: &R,
    alloc: Global,
    rule: &Rule,
    scene: &Scene<'_>,
) -> Result<Played, Fail> {
    let settings = settings(alloc, scene)?;
    let opened = open(rt, alloc, settings, 2)?;
    Ok(play_named::<Brand, R>(rt, alloc, opened, rule, scene)?)
}
