//! An attempt of a request that is routed: a replica is found for it, and tried.
ghost use Rattle.std.specs.Prelude.{◌≡◌, ◌<◌, None, IfSome};
ghost use Rattle.machine.specs.Code.{ask_of};
ghost use Rattle.router.specs.Passes.{slot_in};
ghost use Rattle.proxy_session.specs.Answering.{own_of_why};
ghost use Rattle.proxy_session.specs.Done.{CountsUpTo};
ghost use Rattle.proxy_session.specs.Sending.{HasWord, IsHeadOf};
ghost use Rattle.proxy_session.specs.Sought.{sought_of};
ghost use Rattle.proxy_session.specs.Standing.{standing};
ghost use Rattle.proxy_session.specs.Ways.{AsksAs, FoundAs, SendsAs};

use crate::asking::{ReplicaPick, Texts, find};
use crate::connection::Connection;
use crate::context::Context;
use crate::done::{stopped, unbound};
use crate::held_try::HeldTry;
use crate::onward::Onward;
use crate::refusing::refuse;
use crate::seeking::SoughtRequest;
use crate::server::Server;
use exchange_tally::Done;
use http_wire::{Ended, Head};
use line_base::{Clock, Dialer, Peer};
use machine::Why;
use own_reply::OwnError;
use replica_try::Try;
use router::{Choice, Naming};
use std::sync::Wait;

/// How an attempt ends.
#[derive(Clone, Copy)]
pub(crate) enum Attempt {
    /// It was the last one of its request, behind which the connection ends so; `None` where it
    /// goes on.
    Last(Option<Ended>),
    /// It failed, and another one follows, for which the budget was charged.
    Failed,
}

/// An attempt that was made.
#[derive(Clone, Copy)]
pub(crate) struct Made {
    /// How it ends.
    pub(crate) how: Attempt,
    /// What it was, in numbers.
    pub(crate) done: Done,
}

impl<J: Naming, D: Dialer, C: Clock> Server<J, D, C> {
    /// Makes one attempt: finds a replica for what was drawn, and tries it. Another one may follow
    /// where the request has `fewer` retries than it may have.
    pub(crate) fn attempt<P: Peer, R: Wait>(
        &mut self,
        context: &Context<'_, J, R>,
        connection: &mut Connection<P>,
        head: &Head,
        last: bool,
        fewer: bool,
        request: &SoughtRequest,
    ) -> Made
        requires free { slot_in self.old.pass ≡ None }
        ensures asks { let at = standing P.line D.upstream C.to_come in AsksAs J.settings head.now
            last (sought_of request.now) (ask_of request.now.ask) fewer connection.old.budget
            connection.new.budget (at connection.old self.old) (at connection.new self.new)
            result.how result.done }
        ensures few { CountsUpTo 1 result.done }
        ensures slot { slot_in self.new.pass ≡ None }
        ensures client { connection.new.client ≡ connection.old.client }
        ensures served { connection.new.served ≡ connection.old.served }
    {
        match find(context, &mut self.pass, &request.ask, &mut self.names) {
            Ok(asked) => {
                let going = Onward {
                    head,
                    last,
                    fewer,
                    framing: request.framing,
                    target: request.target.line.as_slice(),
                    host: request.host.as_slice(),
                    ask: &request.ask,
                    closes: !self.way.dialer.keeps(),
                    hit: asked.hit,
                };
                let made = self.send_found(context, connection, &going, &asked.pick);
                drop(asked);
                made
            }
            Err(_) => {
                let end = Some(Ended::OutOfMemory);
                Made {
                    how: Attempt::Last(end),
                    done: stopped(false, end),
                }
            }
        }
    }

    /// Sends a request to the replica that was picked, if there is one.
    fn send_found<P: Peer, R: Wait>(
        &mut self,
        context: &Context<'_, J, R>,
        connection: &mut Connection<P>,
        going: &Onward<'_>,
        pick: &ReplicaPick,
    ) -> Made
        requires word { HasWord pick.now }
        requires free { slot_in self.old.pass ≡ None }
        ensures sends { let at = standing P.line D.upstream C.to_come in FoundAs J.settings
            going.now self.old.names pick.now connection.old.budget connection.new.budget
            (at connection.old self.old) (at connection.new self.new) result.how result.done }
        ensures few { CountsUpTo 1 result.done }
        ensures slot { slot_in self.new.pass ≡ None }
        ensures words { self.new.words ≡ self.old.words }
        ensures client { connection.new.client ≡ connection.old.client }
        ensures served { connection.new.served ≡ connection.old.served }
    {
        match pick {
            ReplicaPick::None(why) => {
                let err = own_error(*why);
                let end = refuse(
                    context.alloc,
                    going.head,
                    going.last,
                    err,
                    &mut connection.peer,
                );
                Made {
                    how: Attempt::Last(end),
                    done: unbound(going.hit, err, going.head, end),
                }
            }
            ReplicaPick::Replica { choice, texts } => {
                self.send_to(context, connection, going, *choice, texts)
            }
        }
    }

    /// Sends a request to a replica, reports how that went, and answers the client, unless another
    /// attempt follows.
    fn send_to<P: Peer, R: Wait>(
        &mut self,
        context: &Context<'_, J, R>,
        connection: &mut Connection<P>,
        going: &Onward<'_>,
        choice: Choice,
        texts: &Texts,
    ) -> Made
        requires word { IfSome choice.slot (λ word. word < 8192) }
        requires free { slot_in self.old.pass ≡ None }
        ensures sends { let at = standing P.line D.upstream C.to_come in SendsAs J.settings
            going.now choice.addr choice.slot
            (IsHeadOf going.now choice.addr self.old.names texts.now) connection.old.budget
            connection.new.budget (at connection.old self.old) (at connection.new self.new)
            result.how result.done }
        ensures few { CountsUpTo 1 result.done }
        ensures slot { slot_in self.new.pass ≡ None }
        ensures words { self.new.words ≡ self.old.words }
        ensures client { connection.new.client ≡ connection.old.client }
        ensures served { connection.new.served ≡ connection.old.served }
    {
        let written = going.write(
            context.alloc,
            choice.addr,
            texts,
            &self.names,
            &mut self.way.out,
        );
        let Ok(()) = written else {
            let end = Some(Ended::OutOfMemory);
            return Made {
                how: Attempt::Last(end),
                done: stopped(going.hit, end),
            };
        };
        let to = HeldTry {
            to: Try {
                head: going.head,
                last: going.last,
                framing: going.framing,
                addr: choice.addr,
            },
            slot: choice.slot,
        };
        let tried = to.run(
            context,
            &mut self.pass,
            &mut connection.peer,
            &mut self.rest,
            &mut self.way,
        );
        let Ok(()) = to.report_on(context, &mut self.pass, tried, &mut self.clock) else {
            let end = Some(Ended::OutOfMemory);
            return Made {
                how: Attempt::Last(end),
                done: to.done(tried, going.hit, false, end),
            };
        };
        if to.charge_for_another(tried, going.fewer, &mut connection.budget) {
            return Made {
                how: Attempt::Failed,
                done: to.in_vain(tried, going.hit),
            };
        }
        let end = to.answer(context.alloc, tried, &mut connection.peer);
        Made {
            how: Attempt::Last(end),
            done: to.done(tried, going.hit, true, end),
        }
    }
}

/// The refusal where there is no replica.
fn own_error(why: Why) -> OwnError
    ensures { result ≡ own_of_why why }
{
    match why {
        Why::Neg => OwnError::Negative,
        Why::Fail => OwnError::Failing,
        Why::Empty => OwnError::Empty,
        Why::TooDeep => OwnError::TooDeep,
        Why::TooWide => OwnError::TooWide,
    }
}
