//! A try of a replica whose slot is held while it runs.
ghost use Rattle.std.specs.Prelude.{◌≡◌, ◌<◌, IfSome, None};
ghost use Rattle.router.specs.Passes.{slot_in};
ghost use Rattle.proxy_session.specs.Callers.{Holds, caller_of};
ghost use Rattle.replica_try.specs.Trying.{Tries};

use crate::context::Context;
use http_wire::Rest;
use line_base::{Dialer, Peer};
use replica_try::{Tried, Try, Way};
use router::{Naming, Pass};
use std::alloc::Global;

/// A try of a replica that the router chose, and the slot by which it counts the replica's load.
#[derive(Clone, Copy)]
pub(crate) struct HeldTry<'a> {
    /// The request, and where it goes.
    pub(crate) to: Try<'a>,
    /// The replica's slot, which is held while it is tried, if it has one.
    pub(crate) slot: Option<u32>,
}

impl HeldTry<'_> {
    /// Tries the replica, and holds its slot while it does.
    pub(crate) fn run<J: Naming, P: Peer, D: Dialer, R>(
        &self,
        context: &Context<'_, J, R>,
        pass: &mut Pass<J>,
        peer: &mut P,
        rest: &mut Rest,
        way: &mut Way<D>,
    ) -> Tried
        requires free { slot_in pass.old ≡ None }
        requires word { IfSome self.now.slot (λ word. word < 8192) }
        ensures holds { Holds (caller_of pass.old) (caller_of pass.new) self.now.slot }
        ensures tries { Tries self.now.to.head.now way.old.out.items self.now.to.framing
            self.now.to.last self.now.to.addr (P.line peer.old) (P.line peer.new) rest.old rest.new
            (D.upstream way.old.dialer) (D.upstream way.new.dialer) result }
    {
        let Some(word) = self.slot else {
            return self.run_holding(context.alloc, pass, peer, rest, way);
        };
        context.router.hold(pass, word);
        let tried = self.run_holding(context.alloc, pass, peer, rest, way);
        context.router.give(pass);
        tried
    }

    /// Tries the replica, whose slot this pass holds.
    fn run_holding<J: Naming, P: Peer, D: Dialer>(
        &self,
        alloc: Global,
        _pass: &Pass<J>,
        peer: &mut P,
        rest: &mut Rest,
        way: &mut Way<D>,
    ) -> Tried
        requires held { slot_in _pass.now ≡ self.now.slot }
        ensures { Tries self.now.to.head.now way.old.out.items self.now.to.framing
            self.now.to.last self.now.to.addr (P.line peer.old) (P.line peer.new) rest.old rest.new
            (D.upstream way.old.dialer) (D.upstream way.new.dialer) result }
    {
        self.to.run(alloc, peer, rest, way)
    }
}
