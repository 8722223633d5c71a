//! When a recorder is told of an exchange, by the clock of the server that tells it.
ghost use Rattle.router.specs.Opening.{IsNamedBy, beginning_of};

use crate::played::{Free, close, dialer, named, peer, server};
use crate::scene::{FIXED, Mem, Scene, by_host, settings};
use crate::texts::{GET, REPLY};
use exchange_record::{ConnectionStep, Exchange, Recorder};
use identifier::Rule;
use line_base::Clock;
use proxy_session::{Connection, Context, Parts};
use router::{Naming, Opened, Pass, open};
use std::alloc::Global;
use std::marker::Brand;
use std::process::Abort;
use std::sync::Wait;
use std::sync::atomic::{AtomicU64, Ordering};
use std::test::Fail;

/// A clock that counts how often it is looked at, by all who have it.
#[derive(Clone, Copy)]
struct Looks<'a> {
    count: &'a AtomicU64,
}

impl Looks<'_> {
    /// How many looks there were before this one.
    fn look(&self) -> u64 {
        self.count.fetch_add(1, Ordering::SeqCst)
    }
}

impl Clock for Looks<'_> {
    ghost use Rattle.std.specs.Prelude.{None};

    ghost to_come = { λ looks. None };

    ghost of_fork = { λ looks. None };

    fn now(&mut self) -> u64 {
        self.look()
    }

    fn fork(&self) -> Self {
        *self
    }
}

/// The moments at which the last exchange was told of: that it begins, and that it has ended.
type Moments = (Option<u64>, Option<u64>);

/// Keeps these moments, by a clock.
struct Hearing<'a> {
    clock: Looks<'a>,
    moments: Moments,
}

impl Recorder for Hearing<'_> {
    ghost use Rattle.std.specs.Prelude.{◌≡◌};

    ghost begins = { λ old new. new ≡ new };

    ghost ends = { λ old told new. new ≡ new };

    ghost steps = { λ old step new. new ≡ new };

    fn begin(&mut self) {
        self.moments.0 = Some(self.clock.look());
    }

    fn end(&mut self, _exchange: &Exchange<'_>) {
        self.moments.1 = Some(self.clock.look());
    }

    fn step(&mut self, _step: ConnectionStep) {}
}

/// Serves the client of a scene by a clock that a recorder looks at too.
fn serve<J: Naming, R: Wait + Abort>(
    context: &Context<'_, J, R>,
    pass: Pass<J>,
    scene: &Scene<'_>,
    clock: Looks<'_>,
) -> (Pass<J>, Moments) {
    let Context { rt, alloc, .. } = *context;
    let mut hearing = Hearing {
        clock,
        moments: (None, None),
    };
    let mut server = server(rt, alloc, pass, dialer(rt, alloc, scene), clock);
    let mut connection = Connection::of(peer(rt, alloc, scene));
    let _paused = server.serve_stay(context, &mut connection, &Free, 0, &mut hearing);
    let Parts {
        pass,
        dialer,
        clock: _,
        words: _,
    } = server.into_parts();
    drop(dialer);
    drop(connection.into_peer());
    let Hearing { clock: _, moments } = hearing;
    (pass, moments)
}

/// Names a router of two passes, serves the client of a scene over it, and ends it.
fn serve_named<J: Naming, R: Wait + Abort>(
    rt: &R,
    alloc: Global,
    opened: Opened,
    rule: &Rule,
    scene: &Scene<'_>,
    clock: Looks<'_>,
) -> Mem<Moments>
    requires { IsNamedBy (beginning_of opened) J.Naming.own J.Ledger.own }
{
    let (router, first, second) = named::<J, R>(rt, alloc, opened, scene)?;
    let context = Context {
        rt,
        alloc,
        router: &router,
        rule,
    };
    let (first, moments) = serve(&context, first, scene, clock);
    close(rt, alloc, router, first, second);
    Ok(moments)
}

/// The moments at which a recorder is told of the request of a scene, over a router of its own, in
/// which requests are named by this rule.
fn moments_by<R: Wait + Abort>(
    rt: &R,
    alloc: Global,
    rule: &Rule,
    scene: &Scene<'_>,
    clock: Looks<'_>,
) -> Result<Moments, Fail> {
    let settings = settings(alloc, scene)?;
    let opened = open(rt, alloc, settings, 2)?;
    Ok(serve_named::<Brand, R>(rt, alloc, opened, rule, scene, clock)?)
}

/// A recorder is told of a request before that is served, and of its end behind its reply. So it
/// has the first look at the clock, and the last one. Between them, where the request is passed on,
/// are the two of the server: as it asks for a replica, and as it reports how that did.
#[test]
fn a_request_is_told_of_before_it_is_served(rt: HostRuntime) -> Result<(), Fail> {
    let alloc = rt.alloc();
    let rule = by_host(alloc)?;
    let scene = Scene::of(FIXED, GET, &[REPLY]);
    let count = AtomicU64::new(0);
    let moments = moments_by(&rt, alloc, &rule, &scene, Looks { count: &count });
    drop(rule);
    assert_eq!(rt; moments?, (Some(0), Some(3)));
    Ok(())
}
