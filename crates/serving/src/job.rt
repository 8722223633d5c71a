//! The jobs.
ghost use Rattle.std.specs.Prelude.{◌≡◌};
ghost use Rattle.serving.specs.Jobs.{RunsApi, RunsProxy, stops_behind};

use crate::interface::ApiServer;
use crate::lots::{CallerLot, ClientLot};
use crate::proxy::ProxyServer;
use client_stays::Handling;
use exchange_record::Recorder;
use line_base::{Clock, Dialer, Gate, Listener, Peer, Stop};
use scrape::Scrape;
use std::sync::Wait;
use std::sync::ledger::Ledger;
use waiting::Hand;
use workers::{Accepting, Job, serve_all};

/// Serves connections of clients: those that one listener hands out, and those that wait.
#[derive(Drop)]
pub struct ProxyJob<'a, P: Peer, J: Handling, L, D, C, K, S, A: Ledger, B: Ledger> {
    pub(crate) number: u32,
    pub(crate) listener: L,
    pub(crate) server: ProxyServer<'a, J, D, C, K>,
    pub(crate) stop: S,
    pub(crate) lot: &'a ClientLot<P, J, A, B>,
    pub(crate) hand: Hand<A, B>,
}

/// Serves connections of the interfaces: those that one listener hands out, and those that wait.
#[derive(Drop)]
pub struct ApiJob<'a, P: Peer, J: Handling, L, S, X, E: Ledger, F: Ledger> {
    pub(crate) listener: L,
    pub(crate) server: ApiServer<'a, J, S, X>,
    pub(crate) lot: &'a CallerLot<P, J, E, F>,
    pub(crate) hand: Hand<E, F>,
}

/// What one thread serves: a [`ProxyJob`] or an [`ApiJob`].
#[derive(Drop)]
pub enum ServingJob<M, N> {
    /// Connections of clients.
    Proxy(M),
    /// Connections of the interfaces.
    Api(N),
}

/// Closes all listeners where the one of a worker that ended so failed again and again.
fn stop_if_failing<S: Stop>(stop: &mut S, end: Accepting)
    ensures { S.calls stop.new ≡ stops_behind end (S.calls stop.old) }
{
    match end {
        Accepting::Closed => {}
        Accepting::Failing => stop.stop(),
    }
}

impl<
    J: Handling,
    L: Listener,
    D: Dialer,
    C: Clock,
    K: Recorder,
    S: Stop,
    A: Ledger,
    B: Ledger,
> ProxyJob<'_, L::P, J, L, D, C, K, S, A, B> {
    /// Serves until the listener is closed. Where its waits fail again and again all listeners are
    /// closed.
    fn serve<R: Wait, G: Gate>(&mut self, rt: &R, gate: &G) -> Accepting
        ensures { RunsProxy L.P.line L.P.address K.Recorder.own L.state D.upstream C.to_come S.calls
            self.old self.new result }
    {
        let end = serve_all(
            rt,
            self.lot,
            &mut self.listener,
            &mut self.server,
            &mut self.hand,
            gate,
            self.number,
        );
        stop_if_failing(&mut self.stop, end);
        end
    }
}

impl<J: Handling, L: Listener, S: Stop, X: Scrape, E: Ledger, F: Ledger> ApiJob<
    '_,
    L::P,
    J,
    L,
    S,
    X,
    E,
    F,
> {
    /// Serves until the listener is closed. Where its waits fail again and again all listeners are
    /// closed. The gate is told of clients' requests alone.
    fn serve<R: Wait, G: Gate>(&mut self, rt: &R, gate: &G) -> Accepting
        ensures { RunsApi L.P.line L.state S.calls X.told self.old self.new result }
    {
        let end = serve_all(
            rt,
            self.lot,
            &mut self.listener,
            &mut self.server,
            &mut self.hand,
            gate,
            0,
        );
        stop_if_failing(&mut self.server.worker.stop, end);
        end
    }
}

impl<
    J: Handling,
    L: Listener + Drop,
    D: Dialer + Drop,
    C: Clock + Drop,
    K: Recorder + Drop,
    S: Stop + Drop,
    A: Ledger,
    B: Ledger,
> Job for ProxyJob<'_, L::P, J, L, D, C, K, S, A, B> {
    ghost use Rattle.serving.specs.Jobs.{RunsProxy};

    type End = Accepting;

    ghost runs = { RunsProxy L.P.line L.P.address K.Recorder.own L.state D.upstream C.to_come
        S.calls };

    fn run<R: Wait, G: Gate>(&mut self, rt: &R, gate: &G) -> Accepting {
        self.serve(rt, gate)
    }
}

impl<J: Handling, L: Listener + Drop, S: Stop + Drop, X: Scrape + Drop, E: Ledger, F: Ledger> Job
    for ApiJob<'_, L::P, J, L, S, X, E, F> {
    ghost use Rattle.serving.specs.Jobs.{RunsApi};

    type End = Accepting;

    ghost runs = { RunsApi L.P.line L.state S.calls X.told };

    fn run<R: Wait, G: Gate>(&mut self, rt: &R, gate: &G) -> Accepting {
        self.serve(rt, gate)
    }
}

impl<M: Job<End = Accepting>, N: Job<End = Accepting>> Job for ServingJob<M, N> {
    ghost use Rattle.serving.specs.Jobs.{RunsAs};

    type End = Accepting;

    ghost runs = { RunsAs M.runs N.runs };

    fn run<R: Wait, G: Gate>(&mut self, rt: &R, gate: &G) -> Accepting {
        match self {
            ServingJob::Proxy(job) => job.run(rt, gate),
            ServingJob::Api(job) => job.run(rt, gate),
        }
    }
}
