//! Numbers in decimal digits.
ghost use Rattle.std.specs.Prelude.{◌≡◌, ◌≤◌, ◌++◌, IfSome, OnErr, OnOk};
ghost use Rattle.std.specs.Fmt.{decimal};
ghost use Rattle.text_parts.specs.Numbers.{at_most, digits_behind, number_of, number_value};

use crate::{Bytes, Mem};
use itoa::Buffer;

/// The number of 64 bits that a text is: decimal digits without a sign or leading zeros. `None`
/// where the text is no such number.
pub fn read_number(text: &[u8]) -> Option<u64>
    ensures { result ≡ number_of text.now }
{
    read_number_to(text, u64::MAX)
}

/// The number that a text is, as [`read_number`] reads it, where it is no more than a limit.
pub fn read_number_to(text: &[u8], most: u64) -> Option<u64>
    ensures value { result ≡ at_most most (number_value text.now) }
    ensures within { IfSome result (λ number. number ≤ most) }
{
    match text {
        [] | [b'0', _, ..] => None,
        _ => read_digits(text, most),
    }
}

/// The number that some decimal digits write, where it is no more than a limit.
fn read_digits(text: &[u8], most: u64) -> Option<u64>
    ensures value { result ≡ at_most most (digits_behind 0 text.now) }
    ensures within { IfSome result (λ number. number ≤ most) }
{
    let mut number: u64 = 0;
    for byte in text {
        if !byte.is_ascii_digit() {
            return None;
        }
        let longer = 10 * u128::from(number) + u128::from(*byte - b'0');
        if longer > u128::from(most) {
            return None;
        }
        number = longer as u64;
    }
    Some(number)
}

/// Puts a number behind some bytes, in decimal digits without leading zeros. An `Err` changes
/// nothing.
pub fn append_number(number: u64, out: &mut Bytes) -> Mem<()>
    ensures ok { OnOk result (out.new.items ≡ out.old.items ++ decimal number) }
    ensures err { OnErr result (out.new.items ≡ out.old.items) }
{
    out.extend_from_slice(Buffer::new().format(number).as_bytes())
}
