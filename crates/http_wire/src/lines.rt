//! Writing the lines of a head.
ghost use Rattle.std.specs.Prelude.{◌≡◌, ◌++◌, [], ◌∷◌, OnOk};
ghost use Rattle.httparse.specs.Ascii.{crlf_bytes};
ghost use Rattle.http_wire.specs.Lines.{ended, line_of};

use crate::{Bytes, Mem};

/// Puts the line of a field of this name behind a head.
pub fn push_line(head: &mut Bytes, name: &str, value: &[u8]) -> Mem<()>
    ensures { OnOk result (head.new.items
        ≡ head.old.items ++ ended (line_of name.now value.now ∷ [])) }
{
    push_field(head, name.as_bytes(), value)
}

/// Puts the line of a field behind a head.
pub fn push_field(head: &mut Bytes, name: &[u8], value: &[u8]) -> Mem<()>
    ensures { OnOk result (head.new.items
        ≡ head.old.items ++ ended (line_of name.now value.now ∷ [])) }
{
    head.extend_from_slice(name)?;
    head.extend_from_slice(b": ")?;
    head.extend_from_slice(value)?;
    end_line(head)
}

/// Ends a line.
pub fn end_line(head: &mut Bytes) -> Mem<()>
    ensures { OnOk result (head.new.items ≡ head.old.items ++ crlf_bytes) }
{
    head.extend_from_slice(b"\r\n")
}
