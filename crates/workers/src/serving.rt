//! What serves connections, a stay at a time.
ghost use Rattle.workers.specs.Turns.{Turn, end_of, from_peer, from_stay, given_back, turn};

use line_base::{Gate, Peer};
use std::sync::Wait;

/// What came of a turn of a connection.
pub enum Turned<S, P> {
    /// It has nothing to say for a while, and can wait.
    Waits(S),
    /// It ended.
    Ends(P),
}

/// A connection between two of its requests.
pub trait Stay<P> {
    /// Its peer.
    fn peer(&self) -> &P;
}

/// What serves connections. It has one at a time, and where that has nothing to say for a while it
/// gives it back to wait, so that another may be served.
pub trait Serve<P: Peer> {
    /// A connection between two of its requests.
    type Stay: Stay<P>;

    /// What one turn does: the server before it, the turn, and the server behind it.
    ghost serves: { Self → Turn P Self.Stay → Self → Type 0 };

    /// Serves a new peer, until it waits or ends. The gate is told of each request by the worker's
    /// number.
    fn begin<R: Wait, G: Gate>(
        &mut self,
        rt: &R,
        peer: P,
        gate: &G,
        worker: u32,
    ) -> Turned<Self::Stay, P>
        ensures { serves self.old (turn (from_peer peer) (end_of result)) self.new };

    /// Serves a connection that waited, until it waits again or ends.
    fn go_on<R: Wait, G: Gate>(
        &mut self,
        rt: &R,
        stay: Self::Stay,
        gate: &G,
        worker: u32,
    ) -> Turned<Self::Stay, P>
        ensures { serves self.old (turn (from_stay stay) (end_of result)) self.new };

    /// Ends a connection that waits.
    fn end(&mut self, stay: Self::Stay) -> P
        ensures { serves self.old (turn (from_stay stay) (given_back result)) self.new };
}
