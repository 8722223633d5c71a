//! The outside of a run.

/// What a run of the program reads, writes and serves over.
///
/// The caller makes it, of the machine's files, sockets, clock and streams or of those in memory,
/// lends it to [`linker`](crate::linker), and may look behind the run at what is left of it.
#[derive(Drop)]
pub struct Outside<F, N, C, S, K, O> {
    /// The files that are read.
    pub folder: F,
    /// The net that listens for connections and opens them.
    pub net: N,
    /// The clock, which every worker has a fork of.
    pub clock: C,
    /// The input, which a script is read from.
    pub input: S,
    /// The output, which all lines are written to.
    pub out: K,
    /// What opens the access logs of a router's workers.
    pub journals: O,
}
