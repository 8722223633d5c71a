//! What holds over any calls.
ghost use Rattle.waiting.specs.Runs.{EachIsTakenOnce, StaleFindsNothing};

/// Over any calls of [`Waiters`](crate::Waiters), from nobody on, each number that was given is
/// that of one connection, which waits, or was handed out once: nothing is lost, and nothing is
/// handed out twice. A number that was handed out finds nothing any more.
pub fn each_is_taken_once<C>()
    ensures once { EachIsTakenOnce C }
    ensures stale { StaleFindsNothing C }
{}
