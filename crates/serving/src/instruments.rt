//! What a router records with.

/// What the workers of a router record with, and what its interfaces read the counts by.
///
/// A worker that serves clients tells its recorder of each connection and of each exchange, and
/// shares it with nobody. A worker that serves the interfaces has a scraper for those who ask for
/// the counts of all workers.
#[derive(Drop)]
pub struct Instruments<K, X> {
    /// A recorder for each worker that serves clients, by their places.
    pub recorders: Vec<K>,
    /// A scraper for each worker that serves the interfaces.
    pub scrapers: Vec<X>,
}
