//! What serves the connections of the interfaces.
ghost use Rattle.std.specs.Prelude.{◌≡◌};
ghost use Rattle.router.specs.Passes.{number_in};

use crate::proxy::lacked_behind;
use api_sessions::{ApiWorker, Context, IdleCaller, Stayed, Which};
use line_base::{Gate, Peer, Stop};
use router::{Naming, Router};
use scrape::Scrape;
use std::alloc::Global;
use std::sync::Wait;
use workers::{Serve, Turned};

/// Serves connections of the interfaces a stay at a time. A shutdown calls its stop.
#[derive(Drop)]
pub struct ApiServer<'a, J: Naming, S, X> {
    pub(crate) alloc: Global,
    pub(crate) router: &'a Router<J>,
    /// Which interface answers those that come to its listener. One that waited is answered by the
    /// interface that it came to.
    pub(crate) which: Which,
    pub(crate) worker: ApiWorker<J, S, X>,
    pub(crate) lacked_memory: bool,
}

impl<J: Naming, S: Stop, X: Scrape> ApiServer<'_, J, S, X> {
    ghost use Rattle.api_sessions.specs.Stays.{CameTo};
    ghost use Rattle.serving.specs.Interfaces.{IsAnswered, desk_of};
    ghost use Rattle.workers.specs.Turns.{end_of};

    /// Serves a connection for a stay.
    fn serve<P: Peer, R: Wait>(
        &mut self,
        rt: &R,
        caller: IdleCaller<P, J>,
    ) -> Turned<IdleCaller<P, J>, P>
        ensures chain { CameTo J.Naming.own caller }
        ensures answered { IsAnswered P.line caller
            (desk_of S.calls X.told self.old.worker self.old.lacked_memory) (end_of result)
            (desk_of S.calls X.told self.new.worker self.new.lacked_memory) }
        ensures which { self.new.which ≡ self.old.which }
        ensures number { number_in self.new.worker.pass ≡ number_in self.old.worker.pass }
    {
        let context = Context {
            rt,
            alloc: self.alloc,
            router: self.router,
        };
        match caller.serve(&context, &mut self.worker) {
            Stayed::Waits(caller) => Turned::Waits(caller),
            Stayed::Ends(peer, ended) => {
                self.lacked_memory = lacked_behind(self.lacked_memory, ended);
                Turned::Ends(peer)
            }
        }
    }
}

impl<P: Peer, J: Naming, S: Stop, X: Scrape> Serve<P> for ApiServer<'_, J, S, X> {
    ghost use Rattle.std.specs.Prelude.{◌≡◌};
    ghost use Rattle.router.specs.Passes.{number_in};
    ghost use Rattle.serving.specs.Interfaces.{AnswersTurn, desk_of};

    type Stay = IdleCaller<P, J>;

    ghost serves = { λ old t new.
        AnswersTurn P.line old.which (desk_of S.calls X.told old.worker old.lacked_memory) t
        (desk_of S.calls X.told new.worker new.lacked_memory)
        × (new.which ≡ old.which) × (number_in new.worker.pass ≡ number_in old.worker.pass) };

    fn begin<R: Wait, G: Gate>(
        &mut self,
        rt: &R,
        peer: P,
        _gate: &G,
        _worker: u32,
    ) -> Turned<IdleCaller<P, J>, P> {
        let caller = IdleCaller::came(peer, self.which, &self.worker);
        self.serve(rt, caller)
    }

    fn go_on<R: Wait, G: Gate>(
        &mut self,
        rt: &R,
        stay: IdleCaller<P, J>,
        _gate: &G,
        _worker: u32,
    ) -> Turned<IdleCaller<P, J>, P> {
        self.serve(rt, stay)
    }

    fn end(&mut self, stay: IdleCaller<P, J>) -> P {
        stay.end()
    }
}
