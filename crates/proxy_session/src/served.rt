//! A request that was served.

use exchange_tally::Done;
use http_wire::Ended;
use name_tree::Path;

/// What became of one request.
#[derive(Drop)]
pub struct Served {
    /// How the connection ends after it; `None` where it goes on.
    pub end: Option<Ended>,
    /// The path that it was identified as, if it was routed.
    pub name: Option<Path>,
    /// What it was, in numbers.
    pub done: Done,
}
