//! What a turn answers.
ghost use Rattle.std.specs.Prelude.{◌≡◌};
ghost use Rattle.body_wire.specs.Turns.{answer_of, end_answer};

use crate::decoder::StopCause;
use crate::end::BodyEnd;
use crate::turn::TurnFault;
use http_wire::Framing;

/// The most content bytes of a body that is passed on.
pub(crate) const MOST_PASSED: u64 = 9223372036854775807;

/// What a turn answers behind so many content bytes; nothing where more bytes are wanted. `fault`
/// is what a failed call answers.
pub(crate) fn answer(
    count: u64,
    fault: BodyEnd,
    turn: Result<StopCause, TurnFault>,
) -> Option<Result<u64, BodyEnd>>
    ensures { result ≡ answer_of count fault turn }
{
    match turn {
        Ok(StopCause::More) => None,
        Ok(StopCause::Whole) => Some(Ok(count)),
        Ok(StopCause::Bad) => Some(Err(BodyEnd::BadChunk(count))),
        Ok(StopCause::TooLong) => Some(Err(BodyEnd::TooLong)),
        Err(TurnFault::Failed) => Some(Err(fault)),
        Err(TurnFault::OutOfMemory) => Some(Err(BodyEnd::OutOfMemory)),
    }
}

/// What the end of the connection answers inside a body, behind so many content bytes.
pub(crate) fn at_end(framing: Framing, count: u64) -> Result<u64, BodyEnd>
    ensures { result ≡ end_answer framing count }
{
    match framing {
        Framing::ToEnd => Ok(count),
        _ => Err(BodyEnd::Cut),
    }
}
