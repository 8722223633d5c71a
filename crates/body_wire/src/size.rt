//! The line that goes on for a chunk.
ghost use Rattle.std.specs.Prelude.{◌≡◌, false, ◌≤◌, ◌++◌, OnErr, OnOk, drop};
ghost use Rattle.std.specs.Fmt.{digits};
ghost use Rattle.httparse.specs.Ascii.{crlf_bytes};

use crate::{Bytes, Mem};
use text_parts::hex_digit;

/// Where the line end stands behind the digits of a size. A `u64` has at most 16; there is room for
/// those of base 2.
const LINE_END: usize = 64;

/// Puts the line of a chunk of this size behind the bytes: the size in lower-case hexadecimal, with
/// no leading zeros, and CR LF. An `Err` changes nothing.
pub(crate) fn put_size(out: &mut Bytes, size: u64) -> Mem<()>
    ensures ok { OnOk result
        (out.new.items ≡ out.old.items ++ (digits 16 false size ++ crlf_bytes)) }
    ensures err { OnErr result (out.new.items ≡ out.old.items) }
{
    let mut line = [b'\r'; 66];
    let start = write_line(&mut line, size);
    out.extend_from_slice(&line[start..])?;
    Ok(())
}

/// Writes the line at the end of the array, and gives where it begins.
fn write_line(line: &mut [u8; 66], size: u64) -> usize
    ensures within { result ≤ 66 }
    ensures line { drop result line.new ≡ digits 16 false size ++ crlf_bytes }
{
    line[LINE_END] = b'\r';
    line[LINE_END + 1] = b'\n';
    let mut start = LINE_END;
    let mut left = size;
    while start > 0 {
        start -= 1;
        line[start] = hex_digit((left % 16) as u8);
        left /= 16;
        if left == 0 {
            break;
        }
    }
    start
}
