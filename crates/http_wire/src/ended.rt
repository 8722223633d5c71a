//! How a session on a connection ends.
ghost use Rattle.std.specs.Prelude.{◌≡◌};
ghost use Rattle.http_wire.specs.Ended.{drained};

/// How a session on a connection ended.
#[derive(Clone, Copy, Debug, PartialEq, Eq)]
pub enum Ended {
    /// The peer's bytes ended between two requests.
    PeerEnded,
    /// The peer's bytes ended inside a request.
    Cut,
    /// A reply closed the connection.
    Closed,
    /// The connection has carried as many requests as it may.
    Spent,
    /// The listeners are closing: the peer's count of that rose.
    Drained,
    /// The peer's count of read faults rose.
    ReadFault,
    /// The peer's count of write faults rose.
    WriteFault,
    /// The body of an upstream's reply was cut.
    UpstreamCut,
    /// Memory was wanting.
    OutOfMemory,
}

/// How a connection ends behind a request, where it does: one that is its last since the listeners
/// are closing is told apart from the last that it may carry.
pub fn drained(closing: bool, end: Option<Ended>) -> Option<Ended>
    ensures { result ≡ drained closing end }
{
    match end {
        Some(Ended::Spent) if closing => Some(Ended::Drained),
        _ => end,
    }
}
