//! The line of a chunk.
ghost use Rattle.std.specs.Prelude.{◌≡◌, ◌≤◌, length, take};
ghost use Rattle.body_wire.specs.Chunks.{most_line};
ghost use Rattle.body_wire.specs.Pieces.{Parses, Sees};

use httparse::{Status, parse_chunk_size};

/// The longest chunk line, its line end included.
const MOST_LINE: usize = 4096;

/// What bytes begin with, where a chunk line should be.
#[derive(Clone, Copy)]
pub(crate) enum LineSeen {
    /// A chunk line of this length, its line end included, and the size that it writes.
    Found(usize, u64),
    /// The front of a chunk line.
    Open,
    /// No chunk line, whatever follows, or none that is short enough.
    Bad,
}

/// Looks for the chunk line at the front of the bytes, in time for it.
pub(crate) fn line_at(bytes: &[u8]) -> LineSeen
    ensures { Sees bytes.now result }
{
    match parsed(window_of(bytes)) {
        LineSeen::Found(len, size) => LineSeen::Found(len, size),
        LineSeen::Open if bytes.len() < MOST_LINE => LineSeen::Open,
        LineSeen::Open | LineSeen::Bad => LineSeen::Bad,
    }
}

/// The bytes in which the line has to end.
fn window_of(bytes: &[u8]) -> &[u8]
    ensures { result.now ≡ take most_line bytes.now }
{
    if bytes.len() < MOST_LINE {
        bytes
    } else {
        &bytes[..MOST_LINE]
    }
}

/// Parses the chunk line at the front of the bytes.
fn parsed(bytes: &[u8]) -> LineSeen
    requires { length bytes.now ≤ 4096 }
    ensures { Parses bytes.now result }
{
    match parse_chunk_size(bytes) {
        Ok(Status::Complete((len, size))) => LineSeen::Found(len, size),
        Ok(Status::Partial) => LineSeen::Open,
        Err(_) => LineSeen::Bad,
    }
}
