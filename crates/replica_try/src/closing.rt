//! Behind which replies a connection closes, and behind which one is kept.
ghost use Rattle.std.specs.Prelude.{◌≡◌, ◌||◌};
ghost use Rattle.body_wire.specs.Passing.{runs_to_end};
ghost use Rattle.replica_try.specs.Trying.{closes_behind, is_reusable, knows_chunks};

use http_wire::{Framing, Head, ReplyHead, Rest, names_close};
use own_reply::asks_to_close;

/// Whether the client knows chunks: one of HTTP/1.0 does not (RFC 9112 section 6.1).
pub(crate) fn knows_chunks(head: &Head) -> bool
    ensures { result ≡ knows_chunks head.now }
{
    head.version != 0
}

/// Whether the connection closes behind a reply that is passed on, whose body is framed so.
pub(crate) fn closes_behind(head: &Head, framing: Framing) -> bool
    ensures { result ≡ closes_behind head.now framing }
{
    asks_to_close(head) || runs_to_end(framing)
}

/// Whether a reply says that the connection closes behind it: it does, or the request is its last.
pub(crate) fn is_closing(closes: bool, last: bool) -> bool
    ensures { result ≡ (closes || last) }
{
    closes || last
}

/// Whether the connection to a replica may carry another request behind a reply that it gave whole,
/// where this is left of what was received (RFC 9112 section 9.3).
pub(crate) fn is_reusable(reply: &ReplyHead, framing: Framing, left: &Rest) -> bool
    ensures { result ≡ is_reusable reply.now framing left.now }
{
    reply.version == 1
        && !names_close(&reply.fields)
        && !runs_to_end(framing)
        && left.kept().is_empty()
}

/// Whether a body runs to the end of the connection.
fn runs_to_end(framing: Framing) -> bool
    ensures { result ≡ runs_to_end framing }
{
    match framing {
        Framing::ToEnd => true,
        Framing::Nothing | Framing::Length(_) | Framing::Chunked => false,
    }
}
