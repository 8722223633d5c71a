//! Values that are lists of numbers.
ghost use Rattle.std.specs.Prelude.{◌≡◌, ◌==◌, ◌^◌, ◌-◌, position, reverse};
ghost use Rattle.std.specs.List.{before_first, list_all, slice_split};
ghost use Rattle.httparse.specs.Grammar.{is_ows, skip_ows, trim_ows};
ghost use Rattle.httparse.specs.Ascii.{comma};
ghost use Rattle.http_wire.specs.Framing.{number_of, says};

/// The greatest length of a body: the profile's numbers fit a signed number of 64 bits.
const MOST_LENGTH: u64 = (1 << 63) - 1;

/// The bytes before the first comma, or all where there is none.
pub(crate) fn first_piece(value: &[u8]) -> &[u8]
    ensures { result.now ≡ before_first (λ b. b == comma) value.now }
{
    before(value, b',')
}

/// The bytes before the first of this value, or all where there is none.
pub fn before(bytes: &[u8], byte: u8) -> &[u8]
    ensures { result.now ≡ before_first (λ b. b == byte) bytes.now }
{
    match position_of(bytes, byte) {
        Some(at) => &bytes[..at],
        None => bytes,
    }
}

/// Whether every piece of a list writes this number.
pub(crate) fn all_say(value: &[u8], length: u64) -> bool
    ensures { result ≡ list_all (λ piece. says length (trim_ows piece))
        (slice_split (λ b. b == comma) value.now) }
{
    value
        .split(|b| *b == b',')
        .all(|piece| piece_says(piece, length))
}

/// Whether the piece writes this number.
#[tactic(auto, unfolding(crate::specs::Framing::says))]
fn piece_says(piece: &[u8], length: u64) -> bool
    ensures { result ≡ says length (trim_ows piece.now) }
{
    number(trimmed(piece)) == Some(length)
}

/// Where the byte first stands.
pub(crate) fn position_of(bytes: &[u8], byte: u8) -> Option<usize>
    ensures { result ≡ position (λ b. b == byte) bytes.now }
{
    bytes.iter().position(|b| *b == byte)
}

/// The number that decimal digits write, leading zeros among them: nothing where a byte is no
/// digit, where there is none, or past [`MOST_LENGTH`].
pub(crate) fn number(digits: &[u8]) -> Option<u64>
    ensures { result ≡ number_of digits.now }
{
    if digits.is_empty() {
        return None;
    }
    let mut value: u64 = 0;
    for byte in digits {
        if !byte.is_ascii_digit() {
            return None;
        }
        let digit = u64::from(*byte - b'0');
        if value > (MOST_LENGTH - digit) / 10 {
            return None;
        }
        value = value * 10 + digit;
    }
    Some(value)
}

/// The bytes without the spaces and tabs at both ends, in time for these (RFC 9110 section 5.6.3).
pub fn trimmed(bytes: &[u8]) -> &[u8]
    ensures { result.now ≡ trim_ows bytes.now }
{
    trimmed_end(trimmed_start(bytes))
}

/// The bytes from the first that is no space or tab.
fn trimmed_start(bytes: &[u8]) -> &[u8]
    ensures { result.now ≡ skip_ows bytes.now }
{
    let mut rest = bytes;
    while let Some((first, others)) = rest.split_first() {
        if !is_blank(*first) {
            break;
        }
        rest = others;
    }
    rest
}

/// The bytes up to the last that is no space or tab.
fn trimmed_end(bytes: &[u8]) -> &[u8]
    ensures { reverse result.now ≡ skip_ows (reverse bytes.now) }
{
    let mut rest = bytes;
    while let Some((last, others)) = rest.split_last() {
        if !is_blank(*last) {
            break;
        }
        rest = others;
    }
    rest
}

/// Whether the byte is a space or a tab (RFC 9110 section 5.6.3).
fn is_blank(byte: u8) -> bool
    ensures { result ≡ is_ows byte }
{
    byte == b' ' || byte == b'\t'
}
