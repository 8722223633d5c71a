//! Which connections to replicas a worker keeps.
ghost use Rattle.std.specs.Prelude.{◌≡◌};
ghost use Rattle.serving.specs.Pools.{pool_by};

use line_base::ConnectionPool;

/// The pool of a worker: one that has no room for any connection, where none is configured.
pub(crate) fn pool_by(pool: Option<ConnectionPool>) -> ConnectionPool
    ensures { result ≡ pool_by pool }
{
    match pool {
        Some(pool) => pool,
        None => ConnectionPool {
            max_size: 0,
            idle_ms: 0,
        },
    }
}
