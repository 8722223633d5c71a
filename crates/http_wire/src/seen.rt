//! What bytes begin with.
ghost use Rattle.std.specs.Prelude.{◌≡◌, IfOk};
ghost use Rattle.http_wire.specs.Heads.{IsOpen, window};
ghost use Rattle.http_wire.specs.Reading.{Shows};

use crate::Mem;
use crate::first_line::{first_line, names_other_version};
use crate::head::Head;
use crate::parse::{Parsed, parse};
use std::alloc::Global;

/// The most bytes of a head, with the empty lines before it.
pub(crate) const MOST_HEAD: usize = 65536;

/// What was seen at the front of some bytes.
#[derive(Drop)]
pub(crate) enum Seen {
    /// A head, and its length with the empty lines before it.
    Whole(Head, usize),
    /// No continuation of the bytes is a head.
    Bad,
    /// The first line names a version other than HTTP/1.0 and HTTP/1.1.
    Version,
    /// The first 65,536 bytes hold no whole head.
    TooLarge,
    /// More bytes may make a head of them.
    NotYet,
}

/// Looks at what the bytes begin with, in time for them. The first line is looked at before
/// anything is parsed, once it has ended: the parser tells a version that is not served from no
/// version, and it takes a target that is no text for an open one until the target ends.
pub(crate) fn look(alloc: Global, bytes: &[u8]) -> Mem<Seen>
    ensures { IfOk result (Shows bytes.now) }
{
    let window = window_of(bytes);
    match first_line(window) {
        None => Ok(open(bytes)),
        Some(line) if names_other_version(line) => Ok(Seen::Version),
        Some(_) => match parse(alloc, window) {
            Ok(Parsed::Whole(head, len)) => Ok(Seen::Whole(head, len)),
            Ok(Parsed::Bad) => Ok(Seen::Bad),
            Ok(Parsed::Partial) => Ok(open(bytes)),
            Err(failed) => Err(failed),
        },
    }
}

/// The bytes that count.
pub(crate) fn window_of(bytes: &[u8]) -> &[u8]
    ensures { result.now ≡ window bytes.now }
{
    if bytes.len() < MOST_HEAD {
        bytes
    } else {
        &bytes[..MOST_HEAD]
    }
}

/// What bytes show that hold no whole head and no refusal.
fn open(bytes: &[u8]) -> Seen
    ensures { IsOpen (window bytes.now) → Shows bytes.now result }
{
    if bytes.len() < MOST_HEAD {
        Seen::NotYet
    } else {
        Seen::TooLarge
    }
}
