//! How a connection stands behind a stay with a worker.
ghost use Rattle.std.specs.Prelude.{◌≡◌};
ghost use Rattle.http_wire.specs.Paused.{paused_by};

use crate::ended::Ended;

/// How a connection stands behind a stay with a worker, which serves it until it ends, or has
/// nothing to say for a while.
#[derive(Clone, Copy, Debug, PartialEq, Eq)]
pub enum Paused {
    /// No byte of a next request has come for a while, and none is kept: it can wait.
    Quiet,
    /// It has ended.
    Ended(Ended),
}

/// How a connection stands behind a request that ended it so, if it did.
pub fn paused_by(ended: Option<Ended>) -> Option<Paused>
    ensures { result ≡ paused_by ended }
{
    match ended {
        Some(ended) => Some(Paused::Ended(ended)),
        None => None,
    }
}
