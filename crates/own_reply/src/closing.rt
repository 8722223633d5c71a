//! Behind which requests a connection ends.
ghost use Rattle.std.specs.Prelude.{◌≡◌};
ghost use Rattle.own_reply.specs.Closing.{asks_to_close, end_of};

use http_wire::{Ended, Head, names_close};

/// The most requests of one connection, over all its stays. Behind its last one a connection is
/// closed, so that none is held for ever by a client that goes on asking.
pub const MOST_REQUESTS: u32 = 10_000;

/// Whether the client's connection closes behind a request, whatever the reply is (RFC 9112 section
/// 9.3): it is of HTTP/1.0, or asks for that. It takes time for the fields.
pub fn asks_to_close(head: &Head) -> bool
    ensures { result ≡ asks_to_close head.now }
{
    head.version == 0 || names_close(&head.fields)
}

/// How a connection ends behind a reply that was written whole, where it does: the reply `closes`
/// it, or the request was its `last`.
pub fn end_of(closes: bool, last: bool) -> Option<Ended>
    ensures { result ≡ end_of closes last }
{
    if closes {
        Some(Ended::Closed)
    } else if last {
        Some(Ended::Spent)
    } else {
        None
    }
}
