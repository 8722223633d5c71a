//! What a worker has for all its callers.
use router::{Naming, Pass};

/// What a worker of the interfaces has for all its callers, one after another: its pass to the
/// router, what it stops the program by, and what it scrapes. It serves callers of any interface,
/// since which one answers belongs to the caller's connection.
#[derive(Drop)]
pub struct ApiWorker<J: Naming, S, X> {
    /// Its pass to the router.
    pub pass: Pass<J>,
    /// What a shutdown calls.
    pub stop: S,
    /// What the metrics tell of what the workers did, beside the router's state: a
    /// [`Scraper`](scrape::Scraper), or one of [`NoWords`](scrape::NoWords).
    pub scraper: X,
}
