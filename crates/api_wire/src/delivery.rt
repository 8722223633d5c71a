//! How a response goes out.
ghost use Rattle.std.specs.Prelude.{◌≡◌};
ghost use Rattle.api_wire.specs.Delivery.{delivery_of};

use crate::request::{accepts_dtab, closes, has_body};
use http_wire::Head;

/// How the response to a request goes out.
#[derive(Clone, Copy, Debug, PartialEq, Eq)]
pub struct Delivery {
    /// A table goes out as its canonical text, and else as JSON.
    pub as_dtab: bool,
    /// The connection closes behind it.
    pub closing: bool,
    /// Its body is written.
    pub with_body: bool,
}

/// How the response to this request goes out, which may be the last that its connection carries.
pub fn delivery_of(head: &Head, last: bool) -> Delivery
    ensures { result ≡ delivery_of head.now last }
{
    Delivery {
        as_dtab: accepts_dtab(&head.fields),
        closing: closes(head, last),
        with_body: has_body(head),
    }
}
