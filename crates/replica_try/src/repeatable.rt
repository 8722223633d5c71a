//! Which requests a replica may be sent again.
ghost use Rattle.std.specs.Prelude.{◌≡◌};
ghost use Rattle.replica_try.specs.Trying.{is_repeatable, is_without_body};

use crate::trying::Try;
use http_wire::Framing;

impl Try<'_> {
    /// Whether a replica may be sent the request again, though one may have carried it out already:
    /// it has no body, and its method is idempotent (RFC 9110 section 9.2.2).
    pub fn is_repeatable(&self) -> bool
        ensures { result ≡ is_repeatable self.now.head.now self.now.framing }
    {
        is_without_body(self.framing) && self.head.method.is_idempotent()
    }
}

/// Whether a body that is framed so has no byte.
fn is_without_body(framing: Framing) -> bool
    ensures { result ≡ is_without_body framing }
{
    match framing {
        Framing::Nothing => true,
        Framing::Length(length) => length == 0,
        Framing::Chunked | Framing::ToEnd => false,
    }
}
