//! The laws of callers' connections over all their stays. The function does nothing: its contract
//! is the laws.
ghost use Rattle.api_sessions.specs.Laws.{FewRequests, NothingIsForgotten};

use router::Naming;

/// Whenever a connection is taken up, its worker has seen all that had been seen for it in each of
/// its earlier stays. So it reads its own writes, whichever workers serve it: a request that
/// follows a change on its connection is answered from a state with that change.
///
/// Over all its stays it has at most 10,000 requests: one that waits has had fewer, and behind one
/// more stay it has had fewer too, but for a request that ended it.
pub fn callers_forget_nothing<J: Naming>()
    ensures nothing { NothingIsForgotten J.Naming.own }
    ensures few { FewRequests J.Naming.own }
{}
