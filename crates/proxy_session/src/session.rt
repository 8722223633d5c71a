//! The requests of a connection, one after another, for a stay.
ghost use Rattle.std.specs.Prelude.{◌≡◌, ◌+◌, ◌<◌, ◌==◌, ◌||◌, ◌∷◌, [], List, ℕ, false, None, Some};
ghost use mathlib.Core.List.{IsPrefix};
ghost use Rattle.exchange_record.specs.Told.{Records, Told};
ghost use Rattle.http_wire.specs.Paused.{IfEnds, quiets_behind};
ghost use Rattle.own_reply.specs.Closing.{most_requests};
ghost use Rattle.router.specs.Passes.{number_in, seen_in, slot_in};
ghost use Rattle.proxy_session.specs.Causes.{CauseOf, IsNoFault, NoneFailed};
ghost use Rattle.proxy_session.specs.Idle.{EndsIdle};
ghost use Rattle.proxy_session.specs.Recorded.{ServesNextAs, StaysToAs, told_by, unread_told};
ghost use Rattle.proxy_session.specs.Recorded.{unread_refusal};
ghost use Rattle.proxy_session.specs.Session.{AnswersEnd, HearsClosing, ReadsNext, Spends};
ghost use Rattle.proxy_session.specs.Session.{StaysTo, ended_of_end, own_of_end};
ghost use Rattle.proxy_session.specs.Standing.{standing};

use crate::connection::Connection;
use crate::context::Context;
use crate::done::unread;
use crate::refusing::write_own;
use crate::served::Served;
use crate::server::Server;
use exchange_record::{Exchange, Recorder};
use http_wire::{
    Ended, Head, HeadEnd, NextHead, Paused, drained, hears_closing, paused_by, read_next_head,
};
use identifier::hear;
use line_base::{Clock, Dialer, Gate, Peer, SocketAddress};
use own_reply::{MOST_REQUESTS, OwnError};
use router::Naming;
use std::alloc::Global;
use std::sync::Wait;

impl<J: Naming, D: Dialer, C: Clock> Server<J, D, C> {
    /// Serves a connection for a stay: its requests, one after another, until it ends, or one
    /// closes it, or no byte of a next one has come for a while and none is kept (`Quiet`). Then it
    /// can wait, and any server of the router may go on with it, once that has learnt the ticket of
    /// this one ([`ticket`](Server::ticket), [`learn`](Server::learn)). A connection has at most
    /// 10,000 requests, over all its stays. The gate is told when each begins and when it is
    /// answered. The recorder is told of each when it begins, and behind its reply what it was; so
    /// it is of bytes that are no head, and are refused.
    ///
    /// Where the rule clears the context of requests, each is served without the fields by which
    /// its client says how it is to be routed: they are neither read nor passed on.
    ///
    /// Once the listeners are closing, the request that is served is the connection's last, and its
    /// reply says so by `Connection: close`; a connection that waits for its next request ends. So
    /// a shutdown loses no request that was begun.
    ///
    /// Where the connection has a budget of retries, it is that of all its requests: over all its
    /// stays the attempts behind the first of each request are at most
    /// `reserve + percent * requests / 100`.
    ///
    /// It ends with `PeerEnded` and `Cut` only where a read gave the end, and a client that tells
    /// its bytes has then given them all; and with `ReadFault` and `WriteFault` only where a read
    /// or a write failed. So where none does, and it ends neither `Quiet` nor `Drained`, every
    /// request that the client's bytes begin with is answered, up to one that closes, unless there
    /// is no memory. `Spent` says that 10,000 were, and `Drained` that the listeners are closing:
    /// it comes only where the client's connection said so. `Quiet` comes where that said that
    /// nothing came for a while, and only there.
    pub fn serve_stay<P: Peer, G: Gate, R: Wait, K: Recorder>(
        &mut self,
        context: &Context<'_, J, R>,
        connection: &mut Connection<P>,
        gate: &G,
        worker: u32,
        recorder: &mut K,
    ) -> Paused
        requires free { slot_in self.old.pass ≡ None }
        requires few { connection.old.served < 10000 }
        ensures stay { let at = standing P.line D.upstream C.to_come in StaysTo J.settings
            context.now.rule.now connection.old.served connection.new.served connection.old.budget
            connection.new.budget (at connection.old self.old) (at connection.new self.new)
            result }
        ensures told { let at = standing P.line D.upstream C.to_come in (told : List Told)
            × StaysToAs J.settings context.now.rule.now connection.old.client
            connection.old.served connection.new.served connection.old.budget
            connection.new.budget (at connection.old self.old) (at connection.new self.new)
            result told × Records K.begins K.ends recorder.old told recorder.new }
        ensures client { connection.new.client ≡ connection.old.client }
        ensures few { result ≡ Paused.Quiet → connection.new.served < 10000 }
        ensures slot { slot_in self.new.pass ≡ None }
        ensures cause { IfEnds result (λ ended. CauseOf ended (P.line connection.old.peer)
            (P.line connection.new.peer)) }
        ensures complete { NoneFailed (P.line connection.old.peer) (P.line connection.new.peer)
            → IfEnds result IsNoFault }
        ensures spent { let at = standing P.line D.upstream C.to_come in
            result ≡ Paused.Ended Ended.Spent → Spends J.settings context.now.rule.now
            connection.old.served connection.old.budget connection.new.budget
            (at connection.old self.old) (at connection.new self.new) }
        ensures drained { let at = standing P.line D.upstream C.to_come in HearsClosing J.settings
            context.now.rule.now connection.old.served connection.old.budget connection.new.budget
            (at connection.old self.old) (at connection.new self.new) result }
        ensures quiet { (P.line connection.new.peer).quiets
            ≡ quiets_behind (Some result) (P.line connection.old.peer).quiets }
        ensures closed { (D.upstream self.old.way.dialer).open_to ≡ None
            → (D.upstream self.new.way.dialer).open_to ≡ None }
        ensures pool { (D.upstream self.new.way.dialer).pool
            ≡ (D.upstream self.old.way.dialer).pool }
        ensures seen { IsPrefix (seen_in self.old.pass) (seen_in self.new.pass) }
        ensures number { number_in self.new.pass ≡ number_in self.old.pass }
    {
        self.rest.clear();
        'requests: loop {
            match self.serve_next(context, connection, gate, worker, recorder) {
                Some(paused) => return paused,
                None => {}
            }
        }
    }

    /// Ends the connections to replicas that were kept for too long. Call it behind each stay,
    /// since the next one may be long in coming.
    pub fn end_idle(&mut self)
        ensures ends { EndsIdle (D.upstream self.old.way.dialer) (D.upstream self.new.way.dialer) }
        ensures pass { self.new.pass ≡ self.old.pass }
        ensures clock { self.new.clock ≡ self.old.clock }
        ensures words { self.new.words ≡ self.old.words }
    {
        self.way.dialer.end_idle();
    }

    /// Waits for a connection's next request, and reads its head: of the bytes that are kept and
    /// those that the client gives behind them; or the listeners are closing, and no byte of it has
    /// come.
    pub fn next_head<P: Peer>(&mut self, alloc: Global, connection: &mut Connection<P>) -> NextHead
        ensures reads { let at = standing P.line D.upstream C.to_come in ReadsNext
            (at connection.old self.old) (at connection.new self.new) result }
        ensures slot { slot_in self.new.pass ≡ slot_in self.old.pass }
        ensures client { connection.new.client ≡ connection.old.client }
        ensures served { connection.new.served ≡ connection.old.served }
        ensures budget { connection.new.budget ≡ connection.old.budget }
    {
        read_next_head(alloc, &mut connection.peer, &mut self.rest)
    }

    /// Serves the next request of a connection, and says how the connection stands behind it, where
    /// it does not go on.
    fn serve_next<P: Peer, G: Gate, R: Wait, K: Recorder>(
        &mut self,
        context: &Context<'_, J, R>,
        connection: &mut Connection<P>,
        gate: &G,
        worker: u32,
        recorder: &mut K,
    ) -> Option<Paused>
        requires free { slot_in self.old.pass ≡ None }
        requires few { connection.old.served < 10000 }
        ensures serves { let at = standing P.line D.upstream C.to_come in (retries : ℕ)
            × (told : List Told) × ServesNextAs J.settings context.now.rule.now
            connection.old.client (connection.old.served + 1 == most_requests) retries
            connection.old.budget connection.new.budget (at connection.old self.old)
            (at connection.new self.new) result told
            × Records K.begins K.ends recorder.old told recorder.new }
        ensures client { connection.new.client ≡ connection.old.client }
        ensures slot { slot_in self.new.pass ≡ None }
        ensures counts { result ≡ None → connection.new.served ≡ connection.old.served + 1 }
        ensures still { result ≡ Some Paused.Quiet
            → connection.new.served ≡ connection.old.served }
    {
        let client = connection.client;
        match self.next_head(context.alloc, connection) {
            NextHead::Head(head) => {
                connection.served += 1;
                let spent = connection.served == MOST_REQUESTS;
                let closing = hears_closing(spent, &mut connection.peer);
                let heard = hear(context.rule, head);
                recorder.begin();
                gate.begin(worker);
                let served = self.proxy_once(context, connection, &heard, is_last(spent, closing));
                gate.done(worker);
                tell(recorder, client, &heard, &served);
                let end = served.end;
                drop(served);
                drop(heard);
                paused_by(drained(closing, end))
            }
            NextHead::Ended(end) => {
                Some(Paused::Ended(end_without_head(
                    context.alloc,
                    end,
                    client,
                    &mut connection.peer,
                    recorder,
                )))
            }
            NextHead::Closing => Some(Paused::Ended(Ended::Drained)),
            NextHead::Quiet => Some(Paused::Quiet),
        }
    }
}

/// Whether a request is its connection's last.
fn is_last(spent: bool, closing: bool) -> bool
    ensures { result ≡ (spent || closing) }
{
    spent || closing
}

/// Tells a recorder of a request that was served, of a client at this address.
fn tell<K: Recorder>(recorder: &mut K, client: Option<SocketAddress>, head: &Head, served: &Served)
    ensures { K.ends recorder.old (told_by client head.now served.now) recorder.new }
{
    recorder.end(&Exchange {
        client,
        head: Some(head),
        name: served.name.as_ref(),
        done: served.done,
    });
}

/// How a session ends that has no further request. Bytes that are no head are refused, and the
/// recorder is told of that.
fn end_without_head<P: Peer, K: Recorder>(
    alloc: Global,
    end: HeadEnd,
    client: Option<SocketAddress>,
    peer: &mut P,
    recorder: &mut K,
) -> Ended
    ensures answers { AnswersEnd (own_of_end end) (P.line peer.old) (P.line peer.new)
        (ended_of_end end) result }
    ensures told { Records K.begins K.ends recorder.old
        (unread_told client (own_of_end end) result) recorder.new }
{
    match end {
        HeadEnd::Ended => Ended::PeerEnded,
        HeadEnd::Cut => Ended::Cut,
        HeadEnd::ReadFault => Ended::ReadFault,
        HeadEnd::OutOfMemory => Ended::OutOfMemory,
        HeadEnd::Bad => refuse_head(alloc, OwnError::BadHead, client, peer, recorder),
        HeadEnd::Version => refuse_head(alloc, OwnError::Version, client, peer, recorder),
        HeadEnd::TooLarge => refuse_head(alloc, OwnError::HeadTooLarge, client, peer, recorder),
    }
}

/// Refuses bytes that are no head, closes the connection, and tells a recorder of that.
fn refuse_head<P: Peer, K: Recorder>(
    alloc: Global,
    err: OwnError,
    client: Option<SocketAddress>,
    peer: &mut P,
    recorder: &mut K,
) -> Ended
    ensures answers { AnswersEnd (Some err) (P.line peer.old) (P.line peer.new) Ended.Closed
        result }
    ensures told { Records K.begins K.ends recorder.old (unread_refusal client err result ∷ [])
        recorder.new }
{
    recorder.begin();
    let end = refuse_bytes(alloc, err, peer);
    tell_unread(recorder, client, err, end);
    end
}

/// Refuses bytes that are no head, and closes the connection.
fn refuse_bytes<P: Peer>(alloc: Global, err: OwnError, peer: &mut P) -> Ended
    ensures { AnswersEnd (Some err) (P.line peer.old) (P.line peer.new) Ended.Closed result }
{
    match write_own(alloc, peer, err, true, true) {
        Ok(()) => Ended::Closed,
        Err(ended) => ended,
    }
}

/// Tells a recorder of bytes that are no head, and were refused.
fn tell_unread<K: Recorder>(
    recorder: &mut K,
    client: Option<SocketAddress>,
    err: OwnError,
    end: Ended,
)
    ensures { K.ends recorder.old (unread_refusal client err end) recorder.new }
{
    recorder.end(&Exchange {
        client,
        head: None,
        name: None,
        done: unread(err, end),
    });
}
