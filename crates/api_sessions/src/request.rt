//! Reading the requests of a connection.
ghost use Rattle.std.specs.Prelude.{◌≡◌, ◌++◌, List, ℕ, IfOk};
ghost use Rattle.std.specs.Io.KnownBytes.{Consumes, Keeps};
ghost use Rattle.api_sessions.specs.Reading.{HasReadCauses, LeavesNone, ShowsRequest, TellsTests};
ghost use Rattle.api_sessions.specs.Reading.{is_drained, is_waiting, of_body, of_head, quiet_end};
ghost use Rattle.api_sessions.specs.Reading.{raised_where};

use crate::Bytes;
use api_wire::has_body;
use body_wire::{BodyEnd, read_body};
use http_wire::{Ended, Framing, Head, HeadEnd, NextHead, Rest, read_next_head};
use line_base::Peer;
use own_reply::{OwnError, Refusal, test_request};
use std::alloc::Global;

/// A whole request.
pub(crate) struct WholeRequest {
    pub(crate) head: Head,
    pub(crate) body: Bytes,
}

impl Drop for WholeRequest {
    fn drop(self) {
        let WholeRequest { head, body } = self;
        drop(head);
        drop(body);
    }
}

/// Why there is no request to answer.
#[derive(Clone, Copy)]
pub(crate) enum NoRequest {
    /// It is refused with this reply, whose body is written or not.
    Own(OwnError, bool),
    /// The connection ends so, with no reply.
    Ends(Ended),
    /// No byte of one has come for a while, and none is kept.
    Waits,
}

impl NoRequest {
    /// Why there is no head. Bytes that are no head are no HEAD request, so that their reply has a
    /// body.
    fn of_head(end: HeadEnd) -> NoRequest
        ensures { result ≡ of_head end }
    {
        match end {
            HeadEnd::Ended => NoRequest::Ends(Ended::PeerEnded),
            HeadEnd::Cut => NoRequest::Ends(Ended::Cut),
            HeadEnd::Bad => NoRequest::Own(OwnError::BadHead, true),
            HeadEnd::Version => NoRequest::Own(OwnError::Version, true),
            HeadEnd::TooLarge => NoRequest::Own(OwnError::HeadTooLarge, true),
            HeadEnd::ReadFault => NoRequest::Ends(Ended::ReadFault),
            HeadEnd::OutOfMemory => NoRequest::Ends(Ended::OutOfMemory),
        }
    }

    /// Why there is no body. One that is read whole sends nothing on, so that the last arms are not
    /// met.
    fn of_body(end: BodyEnd, with_body: bool) -> NoRequest
        ensures { result ≡ of_body end with_body }
    {
        match end {
            BodyEnd::BadChunk(_count) => NoRequest::Own(OwnError::Body, with_body),
            BodyEnd::TooLong => NoRequest::Own(OwnError::TooLong, with_body),
            BodyEnd::Cut => NoRequest::Ends(Ended::Cut),
            BodyEnd::ReadFault => NoRequest::Ends(Ended::ReadFault),
            BodyEnd::OutOfMemory => NoRequest::Ends(Ended::OutOfMemory),
            BodyEnd::WriteFault => NoRequest::Ends(Ended::WriteFault),
            BodyEnd::SendFault => NoRequest::Ends(Ended::UpstreamCut),
            BodyEnd::RecvFault => NoRequest::Ends(Ended::UpstreamCut),
        }
    }
}

/// The length in bytes of the longest body that is served.
const MOST_BODY: u64 = 1_048_576;

/// The framing of a head that passes the tests of its target, framing, length and host.
fn framing_tested(alloc: Global, head: &Head) -> Result<Framing, NoRequest>
    ensures { TellsTests head.now result }
{
    match test_request(alloc, head, Some(MOST_BODY)) {
        Ok(tested) => Ok(tested.framing),
        Err(Refusal::Own(err)) => Err(NoRequest::Own(err, has_body(head))),
        Err(Refusal::OutOfMemory) => Err(NoRequest::Ends(Ended::OutOfMemory)),
    }
}

/// Waits for the next request of a connection, and reads it, whole, of the bytes that are kept and
/// those that the peer gives behind them. The bytes behind it stay in `rest`. The connection ends
/// with `Drained` where the listeners are closing and no byte of it has come, and waits where none
/// has come for a while.
pub(crate) fn read_request<P: Peer>(
    alloc: Global,
    peer: &mut P,
    rest: &mut Rest,
) -> Result<WholeRequest, NoRequest>
    ensures bytes { (came : List ℕ) × Consumes (P.line peer.old).left (P.line peer.new).left came
        × ShowsRequest (rest.old ++ came) rest.new result }
    ensures causes { HasReadCauses (P.line peer.old).ends (P.line peer.new).ends
        (P.line peer.old).read_faults (P.line peer.new).read_faults (quiet_end result) }
    ensures none_left { LeavesNone (P.line peer.new).left (quiet_end result) }
    ensures given { Keeps (P.line peer.old).given (P.line peer.new).given }
    ensures writes { (P.line peer.new).write_faults ≡ (P.line peer.old).write_faults }
    ensures closings { (P.line peer.new).closings
        ≡ raised_where (is_drained (quiet_end result)) (P.line peer.old).closings }
    ensures quiets { (P.line peer.new).quiets
        ≡ raised_where (is_waiting result) (P.line peer.old).quiets }
{
    let head = match read_next_head(alloc, peer, rest) {
        NextHead::Head(head) => head,
        NextHead::Ended(end) => return Err(NoRequest::of_head(end)),
        NextHead::Closing => return Err(NoRequest::Ends(Ended::Drained)),
        NextHead::Quiet => return Err(NoRequest::Waits),
    };
    let framing = match framing_tested(alloc, &head) {
        Ok(framing) => framing,
        Err(none) => {
            drop(head);
            return Err(none);
        }
    };
    match read_body(alloc, peer, rest, framing) {
        Ok(body) => Ok(WholeRequest { head, body }),
        Err(end) => Err(NoRequest::of_body(end, has_body(&head))),
    }
}
