//! The bound on all retries.
ghost use Rattle.retry_budget.specs.Laws.{RetriesAreBounded};

/// Over any list of requests and spends, in any order, the retries that a budget grants are at most
/// `reserve + percent * requests / 100`, rounded down.
pub fn retries_are_bounded()
    ensures { RetriesAreBounded }
{}
