//! Writing replies to a peer.
ghost use Rattle.std.specs.Prelude.{◌≡◌, List, Some, ℕ};
ghost use Rattle.std.specs.Io.KnownBytes.{Appends};
ghost use Rattle.line_base.specs.Lines.{IsUnread};
ghost use Rattle.api_sessions.specs.Reading.{IsRefusal, is_write_fault, raised_where};

use body_wire::write_all;
use http_wire::Ended;
use line_base::Peer;
use own_reply::{OwnError, own_reply};
use std::alloc::Global;

/// Refuses a request, and closes the connection behind the reply.
pub(crate) fn refuse<P: Peer>(alloc: Global, peer: &mut P, err: OwnError, with_body: bool) -> Ended
    ensures bytes { (sent : List ℕ) × Appends (P.line peer.old).given (P.line peer.new).given sent
        × IsRefusal err with_body sent result }
    ensures others { IsUnread (P.line peer.old) (P.line peer.new) }
    ensures writes { (P.line peer.new).write_faults
        ≡ raised_where (is_write_fault (Some result)) (P.line peer.old).write_faults }
{
    let Ok(reply) = own_reply(alloc, err, true, with_body) else {
        return Ended::OutOfMemory;
    };
    match write_all(peer, reply.as_slice()) {
        Ok(()) => Ended::Closed,
        Err(_failed) => Ended::WriteFault,
    }
}
