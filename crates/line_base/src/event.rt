//! What a listener tells.

/// What a listener tells: that a peer came, or that one that waits may have something to say.
#[derive(Drop)]
pub enum Event<P> {
    /// A new peer.
    Came(P),
    /// The peer that is watched under this number may have something to say, or has ended. It is
    /// told once, until the peer is watched again.
    ///
    /// The number may be wrong or late: whoever is told it looks whether somebody waits under it.
    Ready(u64),
    /// So many seconds were told since the listeners were made, with this one. Of the listeners of
    /// an address one tells each second that passes while one of them is asked; those in which none
    /// is are told as one.
    Tick(u64),
    /// The listener is closed.
    Closed,
}
