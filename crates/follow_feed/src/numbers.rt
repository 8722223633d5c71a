//! Numbers in lines and texts.
ghost use Rattle.std.specs.Prelude.{◌≡◌, ◌++◌, OnOk};
ghost use Rattle.std.specs.Fmt.{decimal};

use crate::{Bytes, Mem};
use text_parts::append_number;

/// Puts a number behind some bytes, and this text before it. An `Err` may leave a part there.
pub(crate) fn put_number(before: &[u8], number: u64, out: &mut Bytes) -> Mem<()>
    ensures { OnOk result (out.new.items ≡ out.old.items ++ before.now ++ decimal number) }
{
    out.extend_from_slice(before)?;
    append_number(number, out)
}
