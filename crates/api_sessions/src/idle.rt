//! The connection of a caller between two of its requests.
ghost use Rattle.std.specs.Prelude.{◌≡◌};
ghost use Rattle.router.specs.Passes.{number_in, seen_in};
ghost use Rattle.api_sessions.specs.Stays.{CameTo, came};
ghost use Rattle.api_sessions.specs.Workers.{HasStayed, worker_value};

use crate::context::Context;
use crate::serving::serve_stay;
use crate::stayed::Stayed;
use crate::which::Which;
use crate::worker::ApiWorker;
use http_wire::Paused;
use line_base::{Peer, Stop};
use router::{Naming, Ticket};
use scrape::Scrape;
use std::marker::Model;
use std::snapshot::Snapshot;
use std::sync::Wait;
use workers::Stay;

/// The connection of a caller that has nothing to say for now, with a ticket of what was seen for
/// it. Any worker of the router's interfaces may serve it further.
///
/// Contracts see what its peer told when it came and what it tells now, which interface answers it,
/// its count of requests, and what was seen for it. Its type keeps that some stays led to it from a
/// caller that came, each of which went on with what the one before it left, since nothing else is
/// known of what comes out of a lock. It costs its socket and some hundred bytes, and keeps no byte
/// of a request.
pub struct IdleCaller<P: Peer, J: Naming> {
    peer: P,
    which: Which,
    served: u32,
    ticket: Ticket<J>,
    first: Snapshot<P>,
}

impl<P: Peer, J: Naming> Model for IdleCaller<P, J> {
    ghost use Rattle.router.specs.Tickets.{told_in};
    ghost use Rattle.api_sessions.specs.Codes.{coded_idle};
    ghost use Rattle.api_sessions.specs.Stays.{Idle, IsWaiting, idle_by};

    ghost Value = { Idle };

    ghost coded = { coded_idle };

    ghost view = { λ c. idle_by (P.line c.first.value) (P.line c.peer) c.which c.served
        (told_in c.ticket) };

    ghost invariant = { λ c. IsWaiting J.Naming (idle_by (P.line c.first.value) (P.line c.peer)
        c.which c.served (told_in c.ticket)) };
}

impl<P: Peer, J: Naming> IdleCaller<P, J> {
    /// A caller that came to this worker at a listener of this interface, before its first request.
    pub fn came<S, X>(peer: P, which: Which, worker: &ApiWorker<J, S, X>) -> IdleCaller<P, J>
        ensures { result ≡ came which (P.line peer) (seen_in worker.now.pass) }
    {
        let first = Snapshot::of(&peer);
        IdleCaller {
            peer,
            which,
            served: 0,
            ticket: worker.pass.ticket(),
            first,
        }
    }

    /// Serves it for a stay: its requests, one after another, until it ends, one closes it, or no
    /// byte of a next one has come for a while. The worker learns first what was seen for it. Over
    /// all its stays a connection has at most 10,000 requests.
    ///
    /// Behind the reply to a request that the program stop, the worker stops it. Once the listeners
    /// are closing, the request that is served is the connection's last, and a connection that
    /// waits for its next request ends: both with `Drained`.
    pub fn serve<R: Wait, S: Stop, X: Scrape>(
        self,
        context: &Context<'_, J, R>,
        worker: &mut ApiWorker<J, S, X>,
    ) -> Stayed<IdleCaller<P, J>, P>
        ensures chain { CameTo J.Naming.own self }
        ensures stays { HasStayed P.line self (worker_value S.calls X.told worker.old)
            (worker_value S.calls X.told worker.new) result }
        ensures number { number_in worker.new.pass ≡ number_in worker.old.pass }
    {
        let IdleCaller {
            mut peer,
            which,
            served,
            ticket,
            first,
        } = self;
        worker.pass.learn(ticket);
        match serve_stay(context, worker, which, served, &mut peer) {
            (served, Paused::Quiet) => Stayed::Waits(IdleCaller {
                peer,
                which,
                served,
                ticket: worker.pass.ticket(),
                first,
            }),
            (_served, Paused::Ended(ended)) => Stayed::Ends(peer, ended),
        }
    }

    /// Ends it while it waits.
    pub fn end(self) -> P
        ensures chain { CameTo J.Naming.own self }
        ensures line { P.line result ≡ self.line }
    {
        let IdleCaller {
            peer,
            which: _,
            served: _,
            ticket: _,
            first: _,
        } = self;
        peer
    }
}

impl<P: Peer, J: Naming> Stay<P> for IdleCaller<P, J> {
    fn peer(&self) -> &P {
        &self.peer
    }
}
