//! Behind which of the router's own replies a connection closes.
ghost use Rattle.std.specs.Prelude.{◌≡◌, ◌||◌};
ghost use Rattle.proxy_session.specs.Answering.{has_body, has_reply_body, is_early, own_closes};

use http_wire::{Framing, FramingFault, Head, framing};
use own_reply::{OwnError, asks_to_close};

/// Whether a reply to a request may have a body: one to HEAD has none (RFC 9110 section 9.3.2).
pub(crate) fn has_reply_body(head: &Head) -> bool
    ensures { result ≡ has_reply_body head.now }
{
    head.method.as_str() != "HEAD"
}

/// Whether the connection closes behind a refusal of a request, however many requests it has
/// carried. A body that was not read would be taken for the next request (RFC 9112 section 9.3).
pub(crate) fn own_closes(err: OwnError, head: &Head) -> bool
    ensures { result ≡ own_closes err head.now }
{
    is_early(err) || asks_to_close(head) || has_body(framing(head))
}

/// Whether a request is refused before its head has passed its tests, or for its body.
fn is_early(err: OwnError) -> bool
    ensures { result ≡ is_early err }
{
    match err {
        OwnError::Version
        | OwnError::BadHead
        | OwnError::HeadTooLarge
        | OwnError::Connect
        | OwnError::Target
        | OwnError::Length
        | OwnError::Coding
        | OwnError::TooLong
        | OwnError::Host
        | OwnError::Body => true,
        OwnError::Unidentified
        | OwnError::Dtab
        | OwnError::Negative
        | OwnError::Failing
        | OwnError::Empty
        | OwnError::TooDeep
        | OwnError::TooWide
        | OwnError::Dial
        | OwnError::Upstream => false,
    }
}

/// Whether a request has a body.
fn has_body(framing: Result<Framing, FramingFault>) -> bool
    ensures { result ≡ has_body framing }
{
    match framing {
        Ok(Framing::Length(length)) => length > 0,
        Ok(Framing::Chunked) => true,
        Ok(Framing::Nothing | Framing::ToEnd) => false,
        Err(_) => false,
    }
}

/// Whether a reply says that the connection closes behind it.
pub(crate) fn is_closing(closes: bool, last: bool) -> bool
    ensures { result ≡ (closes || last) }
{
    closes || last
}
