//! What tells that a connection has something to say.

/// What tells that a connection has something to say.
pub trait Watch<C> {
    /// From now on it watches this connection, and tells its number once: where the connection has
    /// something to say, or has ended. Whether it can.
    ///
    /// It is called before the connection can be taken, and under the lock of whoever keeps it. So
    /// it waits for nobody, and whoever is told the number finds the connection there.
    fn watch(&self, connection: &C, number: u64) -> bool;
}
