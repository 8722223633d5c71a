//! JSON strings.
ghost use Rattle.std.specs.Prelude.{◌≡◌, ◌++◌, length, take, OnErr, OnOk};
ghost use Rattle.std.specs.List.{flat_map};
ghost use Rattle.text_parts.specs.Json.{json_byte, json_string};

use crate::{Bytes, Mem};

/// Puts a text behind some bytes, as a JSON string: between quotation marks, and with each of its
/// backslashes twice. It is JSON where the text has neither a quotation mark nor a control byte and
/// is UTF-8, as names of services and canonical texts are. An `Err` may leave a part of it there;
/// what stood before stays.
///
/// It takes memory for the string alone. A JSON value that is built to be written would copy each
/// text first.
pub fn append_json_string(text: &[u8], out: &mut Bytes) -> Mem<()>
    ensures ok { OnOk result (out.new.items ≡ out.old.items ++ json_string text.now) }
    ensures err { OnErr result (take (length out.old.items) out.new.items ≡ out.old.items) }
{
    out.push(b'"')?;
    append_escaped(text, out)?;
    out.push(b'"')?;
    Ok(())
}

/// Puts a text behind some bytes, each of its backslashes twice.
fn append_escaped(text: &[u8], out: &mut Bytes) -> Mem<()>
    ensures ok { OnOk result (out.new.items ≡ out.old.items ++ flat_map json_byte text.now) }
    ensures err { OnErr result (take (length out.old.items) out.new.items ≡ out.old.items) }
{
    for byte in text {
        if *byte == b'\\' {
            out.push(b'\\')?;
        }
        out.push(*byte)?;
    }
    Ok(())
}
