//! Two clients that are served at once over one router, each by a server and a pass of its own:
//! while the replica of the one's request is being dialled, the other one's request is answered.
//! One thread does both: the first one's dialer serves the second.
ghost use Rattle.router.specs.Opening.{IsNamedBy, beginning_of};

use crate::meanwhile::{AtDial, Meanwhile};
use crate::played::{Free, close, dialer, named, parts_of, peer, put_sent, server, server_clock};
use crate::scene::{BOOK, Mem, Scene, by_host, settings, spelling};
use crate::texts::{GET, REPLY, WRITTEN};
use dtab_table::Dtab;
use exchange_record::NoRecorder;
use identifier::Rule;
use line_base::Dialer;
use line_doubles::{MemDialer, MemPeer};
use machine::Ask;
use name_tree::read_path;
use proxy_session::{Connection, Context};
use router::{Names, Naming, Opened, Pass, Peek, Router, open};
use std::alloc::Global;
use std::marker::Brand;
use std::process::Abort;
use std::sync::Wait;
use std::test::Fail;

/// The loads of the two replicas of `web`.
type Loads = (u64, u64);

/// What came of a client.
struct Outcome {
    /// What it was given.
    written: String,
    /// What the dialer of its worker did, as in `Played`.
    sent: String,
}

impl Drop for Outcome {
    fn drop(self) {
        let Outcome { written, sent } = self;
        drop(written);
        drop(sent);
    }
}

/// What came of both clients.
struct Outcomes {
    first: Option<Outcome>,
    second: Option<Outcome>,
    /// The loads while the first one's replica was being dialled.
    loads: Option<Loads>,
}

impl Drop for Outcomes {
    fn drop(self) {
        let Outcomes {
            first,
            second,
            loads: _,
        } = self;
        drop(first);
        drop(second);
    }
}

/// The second client, and the pass of its worker.
struct Second<'a, J: Naming, R> {
    context: Context<'a, J, R>,
    scene: &'a Scene<'a>,
    pass: Option<Pass<J>>,
    /// The loads when it was served.
    loads: Option<Loads>,
    /// What came of it.
    outcome: Option<Outcome>,
}

impl<J: Naming, R: Wait + Abort> AtDial for Second<'_, J, R> {
    /// Looks at the loads, and serves the client, during whose dials nothing else happens.
    fn run(&mut self) {
        let Some(mut pass) = self.pass.take() else {
            return;
        };
        let (context, scene) = (self.context, self.scene);
        self.loads = loads(context.alloc, context.router, &mut pass);
        let dialer = dialer(context.rt, context.alloc, scene);
        let (pass, dialer, peer) = serve(&context, pass, dialer, scene);
        self.pass = Some(pass);
        self.outcome = outcome_of(context.alloc, &peer, &dialer).ok();
        drop(peer);
        drop(dialer);
    }
}

/// An ask for `web`, whose two replicas are in their order.
fn ask(alloc: Global) -> Option<Ask> {
    Some(Ask {
        path: read_path(alloc, b"/svc/web").ok()?,
        local: Dtab::empty(alloc),
        moment: 0,
        words: [0, 0, 0],
    })
}

/// The same, and room for the names of a replica.
fn ask_and_names(alloc: Global) -> Option<(Ask, Names)> {
    let names = Names::room(alloc).ok()?;
    match ask(alloc) {
        Some(ask) => Some((ask, names)),
        None => {
            drop(names);
            None
        }
    }
}

/// The loads of the replicas of `web`, as a pass sees them, where a delegation is kept for it.
fn loads<J: Naming>(alloc: Global, router: &Router<J>, pass: &mut Pass<J>) -> Option<Loads> {
    let (ask, mut names) = ask_and_names(alloc)?;
    let peek = router.peek(pass, &ask, &mut names);
    drop(ask);
    drop(names);
    match peek {
        Peek::Hit(choice) => Some((choice.first, choice.second)),
        _ => None,
    }
}

/// Serves the client of a scene over a dialer, until it ends.
fn serve<J: Naming, R: Wait + Abort, D: Dialer>(
    context: &Context<'_, J, R>,
    pass: Pass<J>,
    dialer: D,
    scene: &Scene<'_>,
) -> (Pass<J>, D, MemPeer) {
    let Context { rt, alloc, .. } = *context;
    let mut server = server(rt, alloc, pass, dialer, server_clock(rt, alloc));
    let mut connection = Connection::of(peer(rt, alloc, scene));
    let _paused = server.serve_stay(context, &mut connection, &Free, 0, &mut NoRecorder);
    let (pass, dialer) = parts_of(server);
    (pass, dialer, connection.into_peer())
}

/// What came of a client, whose worker had this dialer.
fn outcome_of(alloc: Global, peer: &MemPeer, dialer: &MemDialer) -> Mem<Outcome> {
    let mut sent = Vec::new(alloc);
    put_sent(dialer.log(), &mut sent)?;
    Ok(Outcome {
        written: spelling(alloc, peer.sink().held())?,
        sent: spelling(alloc, sent.as_slice())?,
    })
}

/// Serves two clients of a scene, each with one of these passes: the second one while the replica
/// of the first one's request is being dialled.
fn serve_both<J: Naming, R: Wait + Abort>(
    context: &Context<'_, J, R>,
    first: Pass<J>,
    second: Pass<J>,
    scene: &Scene<'_>,
) -> (Pass<J>, Pass<J>, Outcomes) {
    let meanwhile = Meanwhile {
        dialer: dialer(context.rt, context.alloc, scene),
        other: Second {
            context: *context,
            scene,
            pass: Some(second),
            loads: None,
            outcome: None,
        },
    };
    let (first, meanwhile, peer) = serve(context, first, meanwhile, scene);
    let Meanwhile { dialer, other } = meanwhile;
    let outcome = outcome_of(context.alloc, &peer, &dialer).ok();
    drop(peer);
    drop(dialer);
    let Second {
        context: _,
        scene: _,
        pass,
        loads,
        outcome: other,
    } = other;
    let Some(second) = pass else {
        panic!(context.rt; "a pass is missing")
    };
    let outcomes = Outcomes {
        first: outcome,
        second: other,
        loads,
    };
    (first, second, outcomes)
}

/// Names a router of two passes, serves two clients of a scene over it, and ends it.
fn serve_named<J: Naming, R: Wait + Abort>(
    rt: &R,
    alloc: Global,
    opened: Opened,
    rule: &Rule,
    scene: &Scene<'_>,
) -> Mem<Outcomes>
    requires { IsNamedBy (beginning_of opened) J.Naming.own J.Ledger.own }
{
    let (router, first, second) = named::<J, R>(rt, alloc, opened, scene)?;
    let context = Context {
        rt,
        alloc,
        router: &router,
        rule,
    };
    let (first, second, outcomes) = serve_both(&context, first, second, scene);
    close(rt, alloc, router, first, second);
    Ok(outcomes)
}

/// What comes of two clients of a scene, over one router.
fn meet<R: Wait + Abort>(rt: &R, alloc: Global, scene: &Scene<'_>) -> Result<Outcomes, Fail> {
    let rule = by_host(alloc)?;
    let outcomes = meet_by(rt, alloc, &rule, scene);
    drop(rule);
    outcomes
}

/// The same, with requests named by this rule.
fn meet_by<R: Wait + Abort>(
    rt: &R,
    alloc: Global,
    rule: &Rule,
    scene: &Scene<'_>,
) -> Result<Outcomes, Fail> {
    let settings = settings(alloc, scene)?;
    let opened = open(rt, alloc, settings, 2)?;
    Ok(serve_named::<Brand, R>(rt, alloc, opened, rule, scene)?)
}

/// A client has to be answered by the replica that has this sign.
fn assert_answered<R: Abort>(rt: &R, outcome: Option<&Outcome>, sign: &str) {
    let Some(outcome) = outcome else {
        panic!(rt; "nothing came of a client")
    };
    assert_eq!(rt; outcome.written.as_str(), WRITTEN);
    assert!(rt; outcome.sent.starts_with(sign), "{}", outcome.sent);
}

/// The loads have to be these, and each client has to be answered by a replica of its own.
fn assert_met<R: Abort>(rt: &R, outcomes: &Outcomes) {
    assert_eq!(rt; outcomes.loads, Some((1, 0)));
    assert_answered(rt, outcomes.first.as_ref(), "<");
    assert_answered(rt, outcomes.second.as_ref(), "?");
}

/// While the first client's replica is being dialled, its load is 1. So the second client's request
/// goes to the other replica, though the same words are drawn for it; and it is answered.
#[test]
fn a_client_is_served_while_a_replica_is_dialled(rt: HostRuntime) -> Result<(), Fail> {
    let alloc = rt.alloc();
    let scene = Scene {
        addresses: "127.0.0.1 9001~127.0.0.1 9002~",
        ..Scene::of(BOOK, GET, &[REPLY])
    };
    let outcomes = meet(&rt, alloc, &scene)?;
    assert_met(&rt, &outcomes);
    drop(outcomes);
    Ok(())
}
