//! The replies that the router makes itself.
ghost use Rattle.std.specs.Prelude.{◌≡◌};
ghost use Rattle.own_reply.specs.Reply.{reply_of};
ghost use Rattle.proxy_session.specs.Answering.{Refuses, Writes};

use crate::closing::{has_reply_body, is_closing, own_closes};
use body_wire::write_all;
use http_wire::{Ended, Head};
use line_base::Peer;
use own_reply::{OwnError, end_of, own_reply};
use std::alloc::Global;

/// Writes one of the router's own replies, and says how the session ends where that fails.
pub(crate) fn write_own<P: Peer>(
    alloc: Global,
    peer: &mut P,
    err: OwnError,
    closing: bool,
    with_body: bool,
) -> Result<(), Ended>
    ensures { Writes (P.line peer.old) (P.line peer.new) (reply_of err closing with_body) result }
{
    let Ok(reply) = own_reply(alloc, err, closing, with_body) else {
        return Err(Ended::OutOfMemory);
    };
    match write_all(peer, reply.as_slice()) {
        Ok(()) => Ok(()),
        Err(_) => Err(Ended::WriteFault),
    }
}

/// Answers a request with a refusal, and says how it ends.
pub(crate) fn refuse<P: Peer>(
    alloc: Global,
    head: &Head,
    last: bool,
    err: OwnError,
    peer: &mut P,
) -> Option<Ended>
    ensures { Refuses err head.now last (P.line peer.old) (P.line peer.new) result }
{
    let closes = own_closes(err, head);
    match write_own(
        alloc,
        peer,
        err,
        is_closing(closes, last),
        has_reply_body(head),
    ) {
        Ok(()) => end_of(closes, last),
        Err(ended) => Some(ended),
    }
}
