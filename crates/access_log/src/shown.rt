//! Texts in quotation marks.
ghost use Rattle.std.specs.Prelude.{◌≡◌, ◌++◌, ◌<◌, OnOk};
ghost use Rattle.std.specs.List.{flat_map};
ghost use Rattle.name_tree.specs.Path.{hex_digit};
ghost use Rattle.access_log.specs.Shown.{is_plain, shown, shown_byte};

use crate::{Bytes, Mem};

/// Puts a text after some bytes, as it stands within quotation marks. An `Err` may leave a part of
/// it there.
pub(crate) fn put_shown(text: &[u8], out: &mut Bytes) -> Mem<()>
    ensures { OnOk result (out.new.items ≡ out.old.items ++ shown text.now) }
{
    for byte in text {
        put_byte(*byte, out)?;
    }
    Ok(())
}

/// Puts a byte of such a text after some bytes.
fn put_byte(byte: u8, out: &mut Bytes) -> Mem<()>
    ensures { OnOk result (out.new.items ≡ out.old.items ++ shown_byte byte) }
{
    if is_plain(byte) {
        out.push(byte)?;
        return Ok(());
    }
    let escape = [b'\\', b'x', digit(byte / 16), digit(byte % 16)];
    out.extend_from_slice(&escape)
}

/// Whether a byte stands for itself: it is printable ASCII, and neither a quotation mark nor a
/// backslash.
fn is_plain(byte: u8) -> bool
    ensures { result ≡ is_plain byte }
{
    byte >= b' ' && byte <= b'~' && byte != b'"' && byte != b'\\'
}

/// A hexadecimal digit in lower case.
fn digit(number: u8) -> u8
    requires { number < 16 }
    ensures { result ≡ hex_digit number }
{
    if number < 10 {
        b'0' + number
    } else {
        b'a' + (number - 10)
    }
}
