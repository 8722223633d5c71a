//! A stay of a caller's connection, request by request.
ghost use Rattle.std.specs.Prelude.{◌≡◌, ◌<◌, ◌++◌, ◌||◌, Bool, List, ℕ};
ghost use Rattle.std.specs.Io.KnownBytes.{Appends, Consumes};
ghost use Rattle.line_base.specs.Lines.{IsUnread};
ghost use Rattle.http_wire.specs.Paused.{quiets_behind};
ghost use Rattle.own_reply.specs.Closing.{end_of};
ghost use Rattle.router.specs.Passes.{number_in};
ghost use Rattle.api_sessions.specs.Answering.{IsTaken};
ghost use Rattle.api_sessions.specs.Reading.{LeavesNone, is_write_fault, raised_where};
ghost use Rattle.api_sessions.specs.Serving.{Answers, HasCauses, IsDelivered, Turns, calls_after};
ghost use Rattle.api_sessions.specs.Serving.{ended_in};
ghost use Rattle.api_sessions.specs.Stays.{StaysTo, sources_by, standing_by};

use crate::answering::answer;
use crate::context::Context;
use crate::request::{NoRequest, WholeRequest, read_request};
use crate::which::Which;
use crate::worker::ApiWorker;
use crate::writing::refuse;
use api_wire::ApiReply;
use body_wire::write_all;
use http_wire::{Ended, Head, Paused, Rest, drained, hears_closing, paused_by};
use line_base::{Peer, Stop};
use own_reply::{MOST_REQUESTS, asks_to_close, end_of};
use router::Naming;
use scrape::Scrape;
use std::sync::Wait;

/// Serves a connection that has had so many requests for a stay: its next requests, one after
/// another, until it ends, one closes it, or no byte of a next one has come for a while. Gives how
/// many it has had then, but for one that ended it, and how it stands.
pub(crate) fn serve_stay<J: Naming, R: Wait, P: Peer, S: Stop, X: Scrape>(
    context: &Context<'_, J, R>,
    worker: &mut ApiWorker<J, S, X>,
    which: Which,
    served: u32,
    peer: &mut P,
) -> (u32, Paused)
    requires { served < 10000 }
    ensures stay { let at = standing_by P.line S.calls X.told in StaysTo which served result.0
        (at peer.old worker.old) (at peer.new worker.new) result.1 }
    ensures few { result.0 < 10000 }
{
    let Ok(mut rest) = Rest::room(context.alloc) else {
        return (served, Paused::Ended(Ended::OutOfMemory));
    };
    'requests: for count in served..MOST_REQUESTS {
        let spent = count + 1 == MOST_REQUESTS;
        match serve_next(context, worker, which, spent, peer, &mut rest) {
            Some(paused) => return (count, paused),
            None => {}
        }
    }
    unreachable!()
}

/// Serves the next request of a connection, and says how the connection stands behind it, where it
/// does not go on.
fn serve_next<J: Naming, R: Wait, P: Peer, S: Stop, X: Scrape>(
    context: &Context<'_, J, R>,
    worker: &mut ApiWorker<J, S, X>,
    which: Which,
    spent: bool,
    peer: &mut P,
    rest: &mut Rest,
) -> Option<Paused>
    ensures number { number_in worker.new.pass ≡ number_in worker.old.pass }
    ensures turn { (came : List ℕ) × (gave : List ℕ) × (stopped : Bool) × (closing : Bool)
        × Consumes (P.line peer.old).left (P.line peer.new).left came
        × Appends (P.line peer.old).given (P.line peer.new).given gave
        × (S.calls worker.new.stop ≡ calls_after (S.calls worker.old.stop) stopped)
        × ((P.line peer.new).closings ≡ raised_where closing (P.line peer.old).closings)
        × Turns which spent closing (sources_by X.told worker.old) (sources_by X.told worker.new)
        (rest.old ++ came) rest.new gave stopped result }
    ensures quiets { (P.line peer.new).quiets ≡ quiets_behind result (P.line peer.old).quiets }
    ensures causes { HasCauses (P.line peer.old).ends (P.line peer.new).ends
        (P.line peer.old).read_faults (P.line peer.new).read_faults (P.line peer.old).write_faults
        (P.line peer.new).write_faults (ended_in result) }
    ensures none_left { LeavesNone (P.line peer.new).left (ended_in result) }
{
    match read_request(context.alloc, peer, rest) {
        Ok(request) => {
            let closing = hears_closing(spent, peer);
            let last = is_last(spent, closing);
            let found = which.while_closing(closing);
            let ended = reply_to(context, worker, found, last, peer, &request);
            drop(request);
            paused_by(drained(closing, ended))
        }
        Err(NoRequest::Own(err, with_body)) => {
            Some(Paused::Ended(refuse(context.alloc, peer, err, with_body)))
        }
        Err(NoRequest::Ends(ended)) => Some(Paused::Ended(ended)),
        Err(NoRequest::Waits) => Some(Paused::Quiet),
    }
}

/// Whether a request is its connection's last.
fn is_last(spent: bool, closing: bool) -> bool
    ensures { result ≡ (spent || closing) }
{
    spent || closing
}

/// Answers a request, writes the reply, and stops the program where it asked for that.
fn reply_to<J: Naming, R: Wait, P: Peer, S: Stop, X: Scrape>(
    context: &Context<'_, J, R>,
    worker: &mut ApiWorker<J, S, X>,
    which: Which,
    last: bool,
    peer: &mut P,
    request: &WholeRequest,
) -> Option<Ended>
    requires { IsTaken request.now.head }
    ensures number { number_in worker.new.pass ≡ number_in worker.old.pass }
    ensures answers { (gave : List ℕ) × (stopped : Bool)
        × Appends (P.line peer.old).given (P.line peer.new).given gave
        × (S.calls worker.new.stop ≡ calls_after (S.calls worker.old.stop) stopped)
        × Answers which last request.now.head request.now.body.items
        (sources_by X.told worker.old) (sources_by X.told worker.new) gave stopped result }
    ensures others { IsUnread (P.line peer.old) (P.line peer.new) }
    ensures writes { (P.line peer.new).write_faults
        ≡ raised_where (is_write_fault result) (P.line peer.old).write_faults }
{
    match answer(
        context,
        &mut worker.pass,
        &mut worker.scraper,
        which,
        &request.head,
        &request.body,
        last,
    ) {
        Ok(reply) => deliver(&mut worker.stop, peer, &request.head, last, &reply),
        Err(_want) => Some(Ended::OutOfMemory),
    }
}

/// Writes a reply, stops the program where it is to stop, and says how the connection ends behind
/// it, if it does.
fn deliver<P: Peer, S: Stop>(
    stop: &mut S,
    peer: &mut P,
    head: &Head,
    last: bool,
    reply: &ApiReply,
) -> Option<Ended>
    ensures bytes { (gave : List ℕ) × (stopped : Bool)
        × Appends (P.line peer.old).given (P.line peer.new).given gave
        × (S.calls stop.new ≡ calls_after (S.calls stop.old) stopped)
        × IsDelivered head.now last reply.now gave stopped result }
    ensures others { IsUnread (P.line peer.old) (P.line peer.new) }
    ensures writes { (P.line peer.new).write_faults
        ≡ raised_where (is_write_fault result) (P.line peer.old).write_faults }
{
    match write_all(peer, reply.bytes.as_slice()) {
        Ok(()) => {
            stop_where(reply.stops, stop);
            end_behind(reply.stops, asks_to_close(head), last)
        }
        Err(_failed) => Some(Ended::WriteFault),
    }
}

/// Stops the program where it is to stop.
fn stop_where<S: Stop>(stops: bool, stop: &mut S)
    ensures { S.calls stop.new ≡ calls_after (S.calls stop.old) stops }
{
    if stops {
        stop.stop();
    }
}

/// How the connection ends behind a reply, if it does.
fn end_behind(stops: bool, closes: bool, last: bool) -> Option<Ended>
    ensures { result ≡ end_of (stops || closes) last }
{
    end_of(stops || closes, last)
}
