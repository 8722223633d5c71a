//! How many connections to replicas are kept.
ghost use Rattle.serde_json.specs.View.{view};
ghost use Rattle.linker_config.specs.Pool.{pool_told};
ghost use Rattle.linker_config.specs.Answers.{Says};

use crate::fault::ConfigFault;
use crate::keys::check_keys;
use crate::value::number_at;
use line_base::ConnectionPool;
use serde_json::Value;
use std::alloc::Global;

/// Where it stands.
const PLACE: &str = "routers[0].client.hostConnectionPool";

/// How many connections to replicas each worker keeps, and for how long.
#[tactic(auto, unfolding(crate::specs::Pool::pool_told))]
pub(crate) fn pool(alloc: Global, value: &Value) -> Result<ConnectionPool, ConfigFault>
    ensures { Says (pool_told (view value.now)) result }
{
    check_keys(alloc, PLACE, &["maxSize", "idleTimeMs"], &[], value)?;
    let max_size = number_at(alloc, PLACE, value, "maxSize", 16, 0, 64)?;
    let idle_ms = number_at(alloc, PLACE, value, "idleTimeMs", 10_000, 0, 3_600_000)?;
    Ok(ConnectionPool {
        max_size: max_size as u32,
        idle_ms: idle_ms as u32,
    })
}
