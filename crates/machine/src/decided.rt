//! What is decided of a change.
use crate::part::Part;
use crate::reply::Reply;

/// What is decided of a change, the length of the history apart.
#[derive(Drop)]
pub(crate) enum Decided {
    /// It is refused so.
    Refused(Reply),
    /// It is accepted and answered so, and this is what is prepared of it.
    Accepted(Reply, Part),
}
