//! A body that is read whole.
ghost use Rattle.std.specs.Prelude.{◌≡◌, ◌≢◌, ℕ, List, Err};
ghost use Rattle.std.specs.Io.KnownBytes.{Consumes};
ghost use Rattle.line_base.specs.Lines.{IsUnwritten};
ghost use Rattle.body_wire.specs.Passing.{CountsEnd, HasNoneBehind, RaisedAt, ReadsBody, unread};
ghost use Rattle.body_wire.specs.Turns.{read_at_end};

use crate::Bytes;
use crate::decoder::{Decoder, StopCause};
use crate::end::BodyEnd;
use crate::form::Form;
use crate::turn::take_all;
use http_wire::{Framing, Rest};
use line_base::Peer;
use std::alloc::Global;

/// The most content bytes of a body that is read.
const MOST_READ: u64 = 1048576;

/// Reads the body of a request, of at most 1,048,576 content bytes, and gives its content. What
/// lies behind the body stays in `rest`.
///
/// It takes time and memory for the content.
///
/// # Errors
/// See [`BodyEnd`].
pub fn read_body<P: Peer>(
    alloc: Global,
    peer: &mut P,
    rest: &mut Rest,
    framing: Framing,
) -> Result<Bytes, BodyEnd>
    ensures body { (came : List ℕ) × Consumes (P.line peer.old).left (P.line peer.new).left came
        × ReadsBody framing rest.old came rest.new result }
    ensures ends { CountsEnd framing (P.line peer.old).ends (P.line peer.new).ends (unread result) }
    ensures none_left { HasNoneBehind framing (P.line peer.new).left (unread result) }
    ensures reads { RaisedAt (Err BodyEnd.ReadFault) (P.line peer.old).read_faults
        (P.line peer.new).read_faults (unread result) }
    ensures never { (result ≢ Err BodyEnd.WriteFault) × (result ≢ Err BodyEnd.SendFault)
        × (result ≢ Err BodyEnd.RecvFault) }
    ensures others { IsUnwritten (P.line peer.old) (P.line peer.new) }
{
    let mut decoder = Decoder::of(framing, Form::Content, MOST_READ);
    let mut content = Vec::new(alloc);
    'pieces: loop {
        match take_all(&mut decoder, rest, &mut content) {
            Ok(StopCause::More) => {}
            Ok(StopCause::Whole) => return Ok(content),
            Ok(StopCause::Bad) => return Err(BodyEnd::BadChunk(decoder.count)),
            Ok(StopCause::TooLong) => return Err(BodyEnd::TooLong),
            Err(_) => return Err(BodyEnd::OutOfMemory),
        }
        match rest.pull(peer) {
            Ok(0) => return content_at_end(framing, content),
            Ok(_) => {}
            Err(_) => return Err(BodyEnd::ReadFault),
        }
    }
}

/// What the end of the connection answers, behind this content.
fn content_at_end(framing: Framing, content: Bytes) -> Result<Bytes, BodyEnd>
    ensures { result ≡ read_at_end framing content }
{
    match framing {
        Framing::ToEnd => Ok(content),
        _ => Err(BodyEnd::Cut),
    }
}
