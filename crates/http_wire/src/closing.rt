//! Whether a message asks for its connection to close.
ghost use Rattle.std.specs.Prelude.{◌≡◌};
ghost use Rattle.http_wire.specs.declared.head.Field.{Field};
ghost use Rattle.http_wire.specs.Fields.{names_close, says_close};

use crate::head::FieldList;
use crate::list::trimmed;
use crate::text::same_bytes;

/// Whether a Connection field names `close`, in any case, among what it lists (RFC 9112 section
/// 9.6). It takes time for the fields.
pub fn names_close(fields: &FieldList) -> bool
    ensures { result ≡ names_close fields.now }
{
    fields
        .items()
        .iter()
        .filter(|field| field.name.is("connection"))
        .any(|field| says_close(field.value.bytes()))
}

/// Whether `close` stands between the commas of a value.
fn says_close(value: &[u8]) -> bool
    ensures { result ≡ says_close value.now }
{
    value
        .split(|b| *b == b',')
        .any(|piece| same_bytes(trimmed(piece), b"close"))
}
