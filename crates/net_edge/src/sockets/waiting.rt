//! Waiting for the bytes of a connection that was accepted.
ghost use Rattle.std.specs.Io.{ReadsAtMost};
ghost use Rattle.net_edge.specs.Sockets.{NextAtMost};

use super::flow::{Flow, IDLE_SECONDS};
use super::queue::Queue;
use line_base::Next;
use std::io::{self, ErrorKind};

/// How many milliseconds one read of an accepted connection may wait. So long a connection whose
/// client was prompt is waited for where another listener is free; a busy one sends its next
/// request by then, and costs no call more for it. The kernel counts in ticks of its own, and may
/// wait for two of them more.
pub(crate) const PROMPT_MILLISECONDS: u64 = 5;

/// How many milliseconds a connection that is silent in the middle of a request is waited for
/// before it is read again.
const SLICE_MILLISECONDS: i32 = 1_000;

/// Reads some bytes of a connection whose reads wait for [`PROMPT_MILLISECONDS`]. Where nothing
/// comes it is waited for a second at a time, up to [`IDLE_SECONDS`] in all, and read again behind
/// each of these waits.
pub(crate) fn read_in_slices(flow: &mut Flow, into: &mut [u8]) -> io::Result<usize>
    ensures { ReadsAtMost result into.new }
{
    for _ in 0..IDLE_SECONDS {
        match flow.read(into) {
            Err(error) if error.kind() == ErrorKind::WouldBlock => flow.wait(SLICE_MILLISECONDS),
            done => return done,
        }
    }
    flow.read_now(into)
}

/// What was heard of a connection last.
#[derive(Clone, Copy, PartialEq, Eq)]
pub(crate) enum Heard {
    /// Nothing: it is new.
    Nothing,
    /// Some bytes.
    Bytes,
    /// That no more have come. It may have waited elsewhere since then.
    Quiet,
}

/// Whether a connection is waited for a moment, where its next request has not come: where another
/// listener waits for whoever comes, and the client was prompt before. So the last listener that is
/// free waits for nobody in particular, and none waits for a client that pauses. One that was quiet
/// has been waited for already. Once those who wait are heard no more nobody else comes.
pub(crate) fn is_awaited(queue: &Queue, heard: Heard, is_slow: bool) -> bool {
    heard != Heard::Quiet && (queue.is_over() || (queue.has_waiting() && !is_slow))
}

/// Reads the first bytes of a request, or sees that none have come, once it was waited for a moment
/// or at once. Where those who wait are heard no more, a connection that is new may have a second
/// for its only request.
pub(crate) fn read_next(
    flow: &mut Flow,
    queue: &Queue,
    heard: Heard,
    is_awaited: bool,
    into: &mut [u8],
) -> io::Result<Next>
    ensures { NextAtMost result into.new }
{
    if heard == Heard::Nothing && queue.is_over() {
        flow.wait(SLICE_MILLISECONDS);
    }
    let read = if is_awaited {
        flow.read(into)
    } else {
        flow.read_now(into)
    };
    match read {
        Ok(0) => Ok(Next::End),
        Ok(count) => Ok(Next::Bytes(count)),
        Err(error) if error.kind() != ErrorKind::WouldBlock => Err(error),
        Err(_) if queue.is_over() => Ok(Next::Closing),
        Err(_) => Ok(Next::Quiet),
    }
}
