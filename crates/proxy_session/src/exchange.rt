//! One request on a connection, from its head on.
ghost use Rattle.std.specs.Prelude.{◌≡◌, ℕ, false, None, Some};
ghost use Rattle.router.specs.Passes.{number_in, slot_in};
ghost use Rattle.proxy_session.specs.Causes.{FitsLast, HasCauseOf};
ghost use Rattle.proxy_session.specs.Sending.{RefusesAs};
ghost use Rattle.proxy_session.specs.Sought.{sought_of};
ghost use Rattle.proxy_session.specs.Standing.{standing};
ghost use Rattle.proxy_session.specs.Ways.{AttemptsAs, RequestsAs, refusal_done};

use crate::asking::draw;
use crate::attempt::Attempt;
use crate::connection::Connection;
use crate::context::Context;
use crate::done::{followed_by, nothing, refused};
use crate::refusing::refuse;
use crate::repeating::{most_retries, pay};
use crate::seeking::{SoughtRequest, seek};
use crate::served::Served;
use crate::server::Server;
use http_wire::{Ended, Head};
use line_base::{Clock, Dialer, Peer};
use own_reply::Refusal;
use router::Naming;
use std::alloc::Global;
use std::sync::Wait;

impl<J: Naming, D: Dialer, C: Clock> Server<J, D, C> {
    /// Serves one request, whose head was read off the connection: it goes on to a replica, and the
    /// reply goes back, or the router answers itself. Where the connection has a budget of retries,
    /// the request pays in, and goes on to another replica where one fails it before a byte of a
    /// reply, as often as the budget grants that.
    ///
    /// It gives how the connection ends after it, `None` where it goes on, the path that it was
    /// identified as, and what it was in numbers. The last request that a connection may carry is
    /// `last`. The end is `Cut`, `ReadFault` and `WriteFault` only where the count of the client's
    /// connection rose that says so, and never `PeerEnded`; at `Cut` a client that tells its bytes
    /// has given them all.
    pub fn proxy_once<P: Peer, R: Wait>(
        &mut self,
        context: &Context<'_, J, R>,
        connection: &mut Connection<P>,
        head: &Head,
        last: bool,
    ) -> Served
        requires { slot_in self.old.pass ≡ None }
        ensures exchange { let at = standing P.line D.upstream C.to_come in (retries : ℕ)
            × RequestsAs J.settings context.now.rule.now head.now last retries
            connection.old.budget connection.new.budget (at connection.old self.old)
            (at connection.new self.new) result.end result.name result.done }
        ensures slot { slot_in self.new.pass ≡ None }
        ensures cause { HasCauseOf result.end (P.line connection.old.peer)
            (P.line connection.new.peer) }
        ensures last { FitsLast last result.end }
        ensures closed { (D.upstream self.old.way.dialer).open_to ≡ None
            → (D.upstream self.new.way.dialer).open_to ≡ None }
        ensures number { number_in self.new.pass ≡ number_in self.old.pass }
        ensures client { connection.new.client ≡ connection.old.client }
        ensures served { connection.new.served ≡ connection.old.served }
    {
        pay(&mut connection.budget);
        match seek(context.alloc, context.rule, head) {
            Ok(request) => self.route(context, connection, head, last, request),
            Err(refusal) => {
                refuse_request(context.alloc, head, last, refusal, &mut connection.peer)
            }
        }
    }

    /// Makes one attempt after the other, each with a draw of its own, until one is the last.
    fn route<P: Peer, R: Wait>(
        &mut self,
        context: &Context<'_, J, R>,
        connection: &mut Connection<P>,
        head: &Head,
        last: bool,
        mut request: SoughtRequest,
    ) -> Served
        requires free { slot_in self.old.pass ≡ None }
        ensures routes { let at = standing P.line D.upstream C.to_come in (retries : ℕ)
            × AttemptsAs J.settings head.now last (sought_of request) retries
            connection.old.budget connection.new.budget (at connection.old self.old)
            (at connection.new self.new) result.end result.done }
        ensures name { result.name ≡ Some (sought_of request).path }
        ensures slot { slot_in self.new.pass ≡ None }
        ensures client { connection.new.client ≡ connection.old.client }
        ensures served { connection.new.served ≡ connection.old.served }
    {
        let mut left = most_retries(&connection.budget);
        let mut so_far = nothing(None);
        'attempts: loop {
            draw(&mut request.ask, &mut self.clock, &mut self.words);
            let made = self.attempt(context, connection, head, last, left > 0, &request);
            so_far = followed_by(&so_far, &made.done);
            match made.how {
                Attempt::Last(end) => {
                    return Served {
                        end,
                        name: Some(request.into_path()),
                        done: so_far,
                    };
                }
                Attempt::Failed => left -= 1,
            }
        }
    }
}

/// Answers a request that is not routed.
fn refuse_request<P: Peer>(
    alloc: Global,
    head: &Head,
    last: bool,
    refusal: Refusal,
    peer: &mut P,
) -> Served
    ensures refuses { RefusesAs refusal head.now last (P.line peer.old) (P.line peer.new)
        result.end }
    ensures name { result.name ≡ None }
    ensures done { result.done ≡ refusal_done refusal head.now result.end }
{
    match refusal {
        Refusal::Own(err) => {
            let end = refuse(alloc, head, last, err, peer);
            Served {
                end,
                name: None,
                done: refused(err, head, end),
            }
        }
        Refusal::OutOfMemory => {
            let end = Some(Ended::OutOfMemory);
            Served {
                end,
                name: None,
                done: nothing(end),
            }
        }
    }
}
