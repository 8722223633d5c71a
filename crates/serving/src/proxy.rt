//! What serves the connections of clients.
ghost use Rattle.std.specs.Prelude.{◌≡◌, None};
ghost use Rattle.std.specs.Coded.{Coded-set, coded_option};
ghost use Rattle.identifier.specs.contracts.rule.Rule as Rule;
ghost use Rattle.retry_budget.specs.contracts.tries.Tries as Tries;
ghost use Rattle.router.specs.Passes.{number_in, slot_in};
ghost use Rattle.serving.specs.Sessions.{lacked_behind};

use crate::policy::Policy;
use client_stays::{Handling, IdleClient, Stayed};
use exchange_record::{ConnectionStep, Recorder};
use http_wire::Ended;
use line_base::{Clock, Dialer, Gate, Peer};
use proxy_session::{Context, Server};
use router::Router;
use std::alloc::Global;
use std::sync::Wait;
use workers::{Serve, Turned};

/// Serves connections of clients a stay at a time, each with what the one before it left, and tells
/// a recorder of each connection and of each exchange.
#[derive(Drop)]
pub struct ProxyServer<'a, J: Handling, D, C, K> {
    pub(crate) alloc: Global,
    pub(crate) router: &'a Router<J>,
    pub(crate) policy: &'a Policy,
    pub(crate) server: Server<J, D, C>,
    pub(crate) lacked_memory: bool,
    pub(crate) recorder: K,
    ghost free: { slot_in server.pass ≡ None },
    ghost rule: { policy.now.rule ≡ J.rule } by { Coded-set Rule.the_row.coded _ _ },
    ghost tries: { policy.now.retries ≡ J.tries } by { Coded-set
        (coded_option Tries.the_row.coded) _ _ },
}

/// Whether a stay that ended so ran out of memory, or one before it.
pub(crate) fn lacked_behind(before: bool, end: Ended) -> bool
    ensures { result ≡ lacked_behind before end }
{
    match end {
        Ended::OutOfMemory => true,
        Ended::PeerEnded => before,
        Ended::Cut => before,
        Ended::Closed => before,
        Ended::Spent => before,
        Ended::Drained => before,
        Ended::ReadFault => before,
        Ended::WriteFault => before,
        Ended::UpstreamCut => before,
    }
}

impl<J: Handling, D: Dialer, C: Clock, K: Recorder> ProxyServer<'_, J, D, C, K> {
    ghost use Rattle.client_stays.specs.Chains.{CameTo};
    ghost use Rattle.serving.specs.Sessions.{IsServed, going_by};
    ghost use Rattle.workers.specs.Turns.{end_of};

    /// Serves a connection for a stay, and tells the recorder of its exchanges, and of what became
    /// of it. Behind it ends the connections to replicas that were kept for too long, since the
    /// next client may be long in coming.
    fn serve<P: Peer, R: Wait, G: Gate>(
        &mut self,
        rt: &R,
        client: IdleClient<P, J>,
        gate: &G,
        worker: u32,
    ) -> Turned<IdleClient<P, J>, P>
        ensures chain { CameTo J.settings self.old.policy.now.rule self.old.policy.now.retries
            client }
        ensures served { IsServed P.line K.Recorder.own J.settings self.old.policy.now client
            (going_by D.upstream C.to_come self.old.server self.old.lacked_memory
            self.old.recorder) (end_of result)
            (going_by D.upstream C.to_come self.new.server self.new.lacked_memory
            self.new.recorder) }
        ensures policy { self.new.policy ≡ self.old.policy }
        ensures number { number_in self.new.server.pass ≡ number_in self.old.server.pass }
    {
        let context = Context {
            rt,
            alloc: self.alloc,
            router: self.router,
            rule: &self.policy.rule,
        };
        let stayed = client.serve(&mut self.server, &context, gate, worker, &mut self.recorder);
        self.server.end_idle();
        match stayed {
            Stayed::Waits(client) => {
                self.recorder.step(ConnectionStep::Left);
                Turned::Waits(client)
            }
            Stayed::Ends(peer, ended) => {
                self.lacked_memory = lacked_behind(self.lacked_memory, ended);
                self.recorder.step(ConnectionStep::Finished);
                Turned::Ends(peer)
            }
        }
    }
}

impl<P: Peer, J: Handling, D: Dialer, C: Clock, K: Recorder> Serve<P>
    for ProxyServer<'_, J, D, C, K> {
    ghost use Rattle.std.specs.Prelude.{◌≡◌};
    ghost use Rattle.router.specs.Passes.{number_in};
    ghost use Rattle.serving.specs.Sessions.{Attends, going_by};

    type Stay = IdleClient<P, J>;

    ghost serves = { λ old t new.
        Attends P.line P.address K.Recorder.own J.settings old.policy.now
        (going_by D.upstream C.to_come old.server old.lacked_memory old.recorder) t
        (going_by D.upstream C.to_come new.server new.lacked_memory new.recorder)
        × (new.policy ≡ old.policy) × (number_in new.server.pass ≡ number_in old.server.pass) };

    fn begin<R: Wait, G: Gate>(
        &mut self,
        rt: &R,
        peer: P,
        gate: &G,
        worker: u32,
    ) -> Turned<IdleClient<P, J>, P> {
        self.recorder.step(ConnectionStep::Came);
        let client = IdleClient::came(peer, self.policy.retries, &self.server);
        self.serve(rt, client, gate, worker)
    }

    fn go_on<R: Wait, G: Gate>(
        &mut self,
        rt: &R,
        stay: IdleClient<P, J>,
        gate: &G,
        worker: u32,
    ) -> Turned<IdleClient<P, J>, P> {
        self.recorder.step(ConnectionStep::Taken);
        self.serve(rt, stay, gate, worker)
    }

    fn end(&mut self, stay: IdleClient<P, J>) -> P {
        self.recorder.step(ConnectionStep::Taken);
        self.recorder.step(ConnectionStep::Finished);
        stay.end()
    }
}
