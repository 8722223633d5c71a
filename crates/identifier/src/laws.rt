//! The laws of requests whose context is cleared. The function does nothing: its contract is the
//! laws.
ghost use Rattle.identifier.specs.Laws.{NoContextIsLeft, NoTableIsLeft};

/// Where a rule clears the context, nothing of it is left in the head that [`hear`](crate::hear)
/// gives, and the table that [`local_dtab`](crate::local_dtab) reads off it has no entry.
pub fn cleared_requests_bring_nothing()
    ensures fields { NoContextIsLeft }
    ensures table { NoTableIsLeft }
{}
