//! The first line of a request.
ghost use Rattle.std.specs.Prelude.{◌≡◌, ◌≤◌, ◌-◌, drop, length};
ghost use Rattle.std.specs.Option.{option_copied};
ghost use Rattle.http_wire.specs.FirstLine.{ends_in_other_version, first_line, is_other_version};
ghost use Rattle.http_wire.specs.FirstLine.{is_version, last_nine, line_at, skip_empty_lines};
ghost use Rattle.http_wire.specs.FirstLine.{without_return};

use crate::list::position_of;

/// The first line that is not empty, without its line feed, if it has ended.
#[tactic(auto, unfolding(crate::specs::FirstLine::first_line))]
pub(crate) fn first_line(bytes: &[u8]) -> Option<&[u8]>
    ensures { option_copied result ≡ first_line bytes.now }
{
    line_at(behind_empty_lines(bytes))
}

/// The bytes before the first line feed, if there is one.
fn line_at(bytes: &[u8]) -> Option<&[u8]>
    ensures { option_copied result ≡ line_at bytes.now }
{
    match position_of(bytes, b'\n') {
        Some(at) => Some(&bytes[..at]),
        None => None,
    }
}

/// The bytes behind the empty lines at the front, each LF or CR LF.
pub(crate) fn behind_empty_lines(bytes: &[u8]) -> &[u8]
    ensures { result.now ≡ skip_empty_lines bytes.now }
{
    let mut rest = bytes;
    loop {
        let len = empty_line(rest);
        if len == 0 {
            return rest;
        }
        rest = &rest[len..];
    }
}

/// How long the empty line at the front is: 0 where there is none.
fn empty_line(bytes: &[u8]) -> usize
    ensures within { result ≤ length bytes.now }
    ensures same { skip_empty_lines (drop result bytes.now) ≡ skip_empty_lines bytes.now }
    ensures last { result ≡ 0 → skip_empty_lines bytes.now ≡ bytes.now }
{
    match bytes {
        [b'\n', ..] => 1,
        [b'\r', b'\n', ..] => 2,
        _ => 0,
    }
}

/// Whether a line ends in a version other than HTTP/1.0 and HTTP/1.1.
#[tactic(auto, unfolding(crate::specs::FirstLine::ends_in_other_version))]
pub(crate) fn names_other_version(line: &[u8]) -> bool
    ensures { result ≡ ends_in_other_version line.now }
{
    is_other_version(last_nine(before_return(line)))
}

/// Whether a text is a blank and a version other than HTTP/1.0 and HTTP/1.1.
fn is_other_version(text: &[u8]) -> bool
    ensures { result ≡ is_other_version text.now }
{
    is_version(text) && text != b" HTTP/1.0".as_slice() && text != b" HTTP/1.1".as_slice()
}

/// The last nine bytes, or all where there are fewer.
fn last_nine(text: &[u8]) -> &[u8]
    ensures { result.now ≡ last_nine text.now }
{
    &text[text.len().saturating_sub(9)..]
}

/// The line without a carriage return at its end.
fn before_return(line: &[u8]) -> &[u8]
    ensures { result.now ≡ without_return line.now }
{
    match line.last() {
        Some(b'\r') => &line[..line.len() - 1],
        _ => line,
    }
}

/// Whether a text is a blank and a version.
#[tactic(auto, unfolding(crate::specs::FirstLine::is_version))]
fn is_version(text: &[u8]) -> bool
    ensures { result ≡ is_version text.now }
{
    text.len() == 9
        && &text[..6] == b" HTTP/".as_slice()
        && text[6].is_ascii_digit()
        && text[7] == b'.'
        && text[8].is_ascii_digit()
}
