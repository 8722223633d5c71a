//! Asking a leader for the feed of a namespace.
ghost use Rattle.std.specs.Prelude.{◌≡◌, ◌≤◌, ◌++◌, ℕ, List, [], map, IfOk, IfSome, IfNone, IsSome};
ghost use Rattle.std.specs.Prelude.{◌∷◌, None, OnOk, codes};
ghost use Rattle.line_base.specs.declared.dialer.DialEvent.TheVariants.{Got, Sent};
ghost use Rattle.line_base.specs.Dials.{Grows, HasSameLinks};
ghost use Rattle.addr_book.specs.Addr.{addr_text};
ghost use Rattle.http_wire.specs.Lines.{ended, line_of};
ghost use Rattle.follow_feed.specs.Polling.{IsFeedHead, Polls, Says, SaysBehind, Speaks};
ghost use Rattle.follow_feed.specs.Polling.{end_of_body, end_of_head, faults_after, given};
ghost use Rattle.follow_feed.specs.Polling.{request_line, request_of};

use crate::feed::Feed;
use crate::gathering::Gathered;
use crate::reading::read_feed;
use crate::{Bytes, Mem};
use addr_book::{Addr, Name, append_addr};
use body_wire::{BodyEnd, pass_back, pass_body};
use http::Method;
use http_wire::{
    Framing, HeadEnd, ReplyHead, Rest, end_line, push_line, read_reply_head, reply_framing,
};
use line_base::Dialer;
use std::alloc::Global;
use thiserror::Error;

/// The most bytes of the body of a reply.
const MOST_BODY: u64 = 1_048_576;

/// Why a poll gave no feed.
#[derive(Clone, Copy, Debug, PartialEq, Eq, Error)]
pub enum PollEnd {
    /// A call of the dialer failed, and its count of faults rose.
    #[error("the reply is lost")]
    Lost,
    /// What came is no good reply, or ended before it was one.
    #[error("the reply is none of a feed")]
    Strange,
    /// There was no memory for the request or the reply.
    #[error("out of memory")]
    OutOfMemory,
}

impl PollEnd {
    /// Why there is no feed where there is no head.
    fn of_head(end: HeadEnd) -> PollEnd
        ensures { result ≡ end_of_head end }
    {
        match end {
            HeadEnd::Ended | HeadEnd::Cut | HeadEnd::Bad | HeadEnd::Version | HeadEnd::TooLarge => {
                PollEnd::Strange
            }
            HeadEnd::ReadFault => PollEnd::Lost,
            HeadEnd::OutOfMemory => PollEnd::OutOfMemory,
        }
    }

    /// Why there is no feed where there is no whole body. No read and no send fails where none is
    /// made, and a write fails where there was no memory for what is gathered.
    fn of_body(end: BodyEnd) -> PollEnd
        ensures { result ≡ end_of_body end }
    {
        match end {
            BodyEnd::BadChunk(_) | BodyEnd::Cut | BodyEnd::TooLong => PollEnd::Strange,
            BodyEnd::RecvFault => PollEnd::Lost,
            BodyEnd::ReadFault | BodyEnd::WriteFault | BodyEnd::SendFault | BodyEnd::OutOfMemory =>
                { PollEnd::OutOfMemory }
        }
    }
}

/// Asks a leader for the feed of a namespace, over a connection of its own, and reads one reply.
///
/// A good reply has the status 200, a length of at most 1,048,576 bytes, and as its body a JSON
/// object with the numbers `place` and `run` alone, or with the text of a table as `dtab` and the
/// number `version` too. No connection is open behind the call where none was before it, and what
/// the dialer keeps is as it was.
///
/// # Errors
/// [`PollEnd::Lost`] where a call of the dialer failed before a good reply had come,
/// [`PollEnd::Strange`] where what came is no good reply, and [`PollEnd::OutOfMemory`].
pub fn poll<D: Dialer>(
    alloc: Global,
    dialer: &mut D,
    leader: Addr,
    space: &Name,
) -> Result<Feed, PollEnd>
    ensures polls { Polls leader space.now (D.upstream dialer.old) (D.upstream dialer.new)
        (given result) }
    ensures faults { (D.upstream dialer.new).faults
        ≡ faults_after (D.upstream dialer.old).faults (given result) }
    ensures closed { (D.upstream dialer.old).open_to ≡ None
        → (D.upstream dialer.new).open_to ≡ None }
    ensures others { ((D.upstream dialer.new).kept ≡ (D.upstream dialer.old).kept)
        × ((D.upstream dialer.new).pool ≡ (D.upstream dialer.old).pool) }
{
    let Ok(mut request) = request_to(alloc, leader, space) else {
        return Err(PollEnd::OutOfMemory);
    };
    match dialer.dial(leader.ip, leader.port) {
        Ok(()) => {
            let polled = converse(alloc, dialer, &mut request);
            dialer.hang();
            polled
        }
        Err(_) => Err(PollEnd::Lost),
    }
}

/// The request for the feed of a namespace.
fn request_to(alloc: Global, leader: Addr, space: &Name) -> Mem<Bytes>
    ensures { IfOk result (λ request. request.items ≡ request_of leader space.now) }
{
    let mut out = Vec::new(alloc);
    put_request_line(space, &mut out)?;
    put_host(alloc, leader, &mut out)?;
    push_line(&mut out, "Connection", b"close")?;
    end_line(&mut out)?;
    Ok(out)
}

/// Puts the request line behind some bytes. An `Err` may leave a part there.
fn put_request_line(space: &Name, out: &mut Bytes) -> Mem<()>
    ensures { OnOk result (out.new.items
        ≡ out.old.items ++ ended (request_line space.now ∷ [])) }
{
    out.extend_from_slice(b"GET /feed/")?;
    out.extend_from_slice(space.text())?;
    out.extend_from_slice(b" HTTP/1.1")?;
    end_line(out)
}

/// Puts the field `Host` behind some bytes. An `Err` may leave a part there.
fn put_host(alloc: Global, leader: Addr, out: &mut Bytes) -> Mem<()>
    ensures { OnOk result (out.new.items
        ≡ out.old.items ++ ended (line_of (codes "Host") (addr_text leader) ∷ [])) }
{
    let host = host_of(alloc, leader)?;
    push_line(out, "Host", host.as_slice())
}

/// The text of an address.
fn host_of(alloc: Global, addr: Addr) -> Mem<Bytes>
    ensures { IfOk result (λ text. text.items ≡ addr_text addr) }
{
    let mut text = Vec::new(alloc);
    append_addr(addr, &mut text)?;
    Ok(text)
}

/// Sends a request over an open connection, and receives its reply.
fn converse<D: Dialer>(alloc: Global, dialer: &mut D, request: &mut Bytes) -> Result<Feed, PollEnd>
    requires { IsSome (D.upstream dialer.old).open_to }
    ensures speaks { (sent : List (List ℕ)) × (got : List (List ℕ))
        × Grows (D.upstream dialer.old).log (D.upstream dialer.new).log
        (map Sent sent ++ map Got got)
        × Speaks request.old.items sent got (given result) }
    ensures faults { (D.upstream dialer.new).faults
        ≡ faults_after (D.upstream dialer.old).faults (given result) }
    ensures stays { HasSameLinks (D.upstream dialer.old) (D.upstream dialer.new) }
{
    let Ok(mut rest) = Rest::room(alloc) else {
        return Err(PollEnd::OutOfMemory);
    };
    let mut nobody = Gathered::new(alloc);
    match pass_body(&mut nobody, &mut rest, Framing::Nothing, request, dialer).end {
        Ok(_) => receive(alloc, dialer, &mut rest),
        Err(BodyEnd::SendFault) => Err(PollEnd::Lost),
        Err(_) => Err(PollEnd::OutOfMemory),
    }
}

/// Receives the reply to a request.
fn receive<D: Dialer>(alloc: Global, dialer: &mut D, rest: &mut Rest) -> Result<Feed, PollEnd>
    requires { IsSome (D.upstream dialer.old).open_to }
    ensures says { (got : List (List ℕ)) × Grows (D.upstream dialer.old).log
        (D.upstream dialer.new).log (map Got got) × Says got (given result) }
    ensures faults { (D.upstream dialer.new).faults
        ≡ faults_after (D.upstream dialer.old).faults (given result) }
    ensures stays { HasSameLinks (D.upstream dialer.old) (D.upstream dialer.new) }
{
    rest.clear();
    match read_reply_head(alloc, dialer, rest) {
        Ok(head) => receive_body(alloc, dialer, &head, rest),
        Err(end) => Err(PollEnd::of_head(end)),
    }
}

/// Receives the body of a reply with this head.
fn receive_body<D: Dialer>(
    alloc: Global,
    dialer: &mut D,
    head: &ReplyHead,
    rest: &mut Rest,
) -> Result<Feed, PollEnd>
    requires { IsSome (D.upstream dialer.old).open_to }
    ensures says { (got : List (List ℕ)) × Grows (D.upstream dialer.old).log
        (D.upstream dialer.new).log (map Got got)
        × SaysBehind head.now rest.old got (given result) }
    ensures faults { (D.upstream dialer.new).faults
        ≡ faults_after (D.upstream dialer.old).faults (given result) }
    ensures stays { HasSameLinks (D.upstream dialer.old) (D.upstream dialer.new) }
{
    let Some(length) = length_in(head) else {
        return Err(PollEnd::Strange);
    };
    let framing = Framing::Length(length);
    let mut before = Vec::new(alloc);
    let mut body = Gathered::new(alloc);
    match pass_back(dialer, rest, framing, false, &mut before, &mut body).end {
        Ok(_) => read_feed(alloc, body.bytes.as_slice()),
        Err(end) => Err(PollEnd::of_body(end)),
    }
}

/// The length of the body of a good reply with this head, if it is the head of one.
fn length_in(head: &ReplyHead) -> Option<u64>
    ensures some { IfSome result (IsFeedHead head.now) }
    ensures none { IfNone result ((count : ℕ) → IsFeedHead head.now count → ⊥) }
{
    if head.status != 200 {
        return None;
    }
    match reply_framing(&Method::GET, head) {
        Ok(Framing::Length(length)) if length <= MOST_BODY => Some(length),
        _ => None,
    }
}
