//! One turn of passing a body on.
ghost use Rattle.std.specs.Prelude.{◌≡◌, ◌<◌, ◌≤◌, [], length};
ghost use Rattle.body_wire.specs.Places.{IsRun, left_at};
ghost use Rattle.body_wire.specs.Turns.{TakesAll};

use crate::decoder::{Decoder, Step, StopCause};
use crate::{Bytes, Mem};
use http_wire::Rest;

/// Why a turn did not come to its end.
#[derive(Clone, Copy)]
pub(crate) enum TurnFault {
    /// The count of faults rose.
    Failed,
    /// There was no memory for what goes on.
    OutOfMemory,
}

/// Takes all of the kept bytes that the decoder takes, and puts what goes on behind `out`.
pub(crate) fn take_all(decoder: &mut Decoder, rest: &mut Rest, out: &mut Bytes) -> Mem<StopCause>
    ensures { TakesAll decoder.old decoder.new rest.old rest.new out.old.items out.new.items
        result }
{
    loop {
        match decoder.step(rest.kept(), out) {
            Ok(Step::Moved(count)) => rest.skip(count),
            Ok(Step::Stopped(stop)) => return Ok(stop),
            Err(failed) => return Err(failed),
        }
    }
}

/// How many bytes are kept, where all of them are content and nothing waits before them; else 0.
pub(crate) fn lone_run(decoder: &Decoder, kept: &[u8], out: &Bytes) -> usize
    ensures within { result ≤ length kept.now }
    ensures left { result ≤ left_at decoder.now.place }
    ensures content { 0 < result → IsRun decoder.now.place }
    ensures whole { 0 < result → result ≡ length kept.now }
    ensures alone { 0 < result → out.now.items ≡ [] }
{
    let run = decoder.run(kept.len());
    if run == kept.len() && out.is_empty() {
        run
    } else {
        0
    }
}
