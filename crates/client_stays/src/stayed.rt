//! How a stay of a connection came out.
use http_wire::Ended;

/// How a stay of a connection came out.
pub enum Stayed<S, P> {
    /// It has nothing to say for now, and can wait.
    Waits(S),
    /// It has ended so.
    Ends(P, Ended),
}
