//! What comes of a connection that is left.

/// What came of a connection that was left.
pub enum Left<C> {
    /// It waits.
    Waits,
    /// It waits, and there was no room for one more: this one had waited longest, and waits no
    /// more.
    Displaced(C),
    /// It does not wait: it can't be watched, there was no memory, or no number is left.
    Back(C),
}
