//! When a replica counts as dead, and which connections to replicas are kept.
ghost use Rattle.std.specs.Prelude.{◌≤◌, codes, IfOk};
ghost use Rattle.serde_json.specs.View.{view};
ghost use Rattle.serde_json.specs.Find.{get};
ghost use Rattle.linker_config.specs.Values.{if_there, or_default};
ghost use Rattle.linker_config.specs.Client.{accrual_told, backoff_told, client_told};
ghost use Rattle.linker_config.specs.Client.{usual_limits};
ghost use Rattle.linker_config.specs.Pool.{pool_told};
ghost use Rattle.linker_config.specs.Answers.{Says};

use crate::fault::ConfigFault;
use crate::keys::check_keys;
use crate::pool::pool;
use crate::value::{needed_word, number_at};
use choose_core::Limits;
use line_base::ConnectionPool;
use serde_json::Value;
use std::alloc::Global;

/// Where the client of the router stands.
const CLIENT: &str = "routers[0].client";

/// Where its count of failures stands.
const ACCRUAL: &str = "routers[0].client.failureAccrual";

/// Where the backoff stands.
const BACKOFF: &str = "routers[0].client.failureAccrual.backoff";

/// After five failures in a row, for five seconds.
pub(crate) const USUAL_LIMITS: Limits = Limits {
    failures: 5,
    backoff: 5000,
};

/// What the router does as a client of the replicas.
#[derive(Clone, Copy)]
pub(crate) struct ClientSettings {
    /// When a replica counts as dead.
    pub(crate) limits: Limits,
    /// Which connections to replicas are kept, if any are.
    pub(crate) pool: Option<ConnectionPool>,
}

/// Where nothing is said of the client.
pub(crate) const USUAL_CLIENT: ClientSettings = ClientSettings {
    limits: USUAL_LIMITS,
    pool: None,
};

/// What the router does as a client of the replicas.
#[tactic(auto, unfolding(crate::specs::Client::client_told))]
pub(crate) fn client(alloc: Global, value: &Value) -> Result<ClientSettings, ConfigFault>
    ensures told { Says (client_told (view value.now)) result }
    ensures failures { IfOk result (λ client. 1 ≤ client.limits.failures) }
{
    check_keys(
        alloc,
        CLIENT,
        &["failureAccrual", "hostConnectionPool"],
        &[],
        value,
    )?;
    let limits = limits_or_usual(alloc, value)?;
    let pool = pool_or_none(alloc, value)?;
    Ok(ClientSettings { limits, pool })
}

/// When a replica counts as dead.
fn limits_or_usual(alloc: Global, object: &Value) -> Result<Limits, ConfigFault>
    ensures told { Says (or_default usual_limits accrual_told
        (get (codes "failureAccrual") (view object.now))) result }
    ensures failures { IfOk result (λ limits. 1 ≤ limits.failures) }
{
    match object.get("failureAccrual") {
        Some(value) => accrual(alloc, value),
        None => Ok(USUAL_LIMITS),
    }
}

/// Which connections to replicas are kept, if any are.
fn pool_or_none(alloc: Global, object: &Value) -> Result<Option<ConnectionPool>, ConfigFault>
    ensures { Says (if_there pool_told (get (codes "hostConnectionPool") (view object.now)))
        result }
{
    match object.get("hostConnectionPool") {
        Some(value) => Ok(Some(pool(alloc, value)?)),
        None => Ok(None),
    }
}

/// How failures are counted.
#[tactic(auto, unfolding(crate::specs::Client::accrual_told))]
fn accrual(alloc: Global, value: &Value) -> Result<Limits, ConfigFault>
    ensures told { Says (accrual_told (view value.now)) result }
    ensures failures { IfOk result (λ limits. 1 ≤ limits.failures) }
{
    check_keys(
        alloc,
        ACCRUAL,
        &["kind", "failures", "backoff"],
        &["kind"],
        value,
    )?;
    needed_word(alloc, ACCRUAL, value, "kind", "io.l5d.consecutiveFailures")?;
    let failures = number_at(alloc, ACCRUAL, value, "failures", 5, 1, 1000)?;
    let backoff = backoff_or_usual(alloc, value)?;
    Ok(Limits {
        failures: failures as u32,
        backoff,
    })
}

/// For how long a replica is left out, in milliseconds.
fn backoff_or_usual(alloc: Global, object: &Value) -> Result<u64, ConfigFault>
    ensures { Says (or_default 5000 backoff_told (get (codes "backoff") (view object.now))) result }
{
    match object.get("backoff") {
        Some(value) => backoff(alloc, value),
        None => Ok(5000),
    }
}

/// For how long a replica is left out, in milliseconds.
#[tactic(auto, unfolding(crate::specs::Client::backoff_told))]
fn backoff(alloc: Global, value: &Value) -> Result<u64, ConfigFault>
    ensures { Says (backoff_told (view value.now)) result }
{
    check_keys(alloc, BACKOFF, &["kind", "ms"], &["kind"], value)?;
    needed_word(alloc, BACKOFF, value, "kind", "constant")?;
    number_at(alloc, BACKOFF, value, "ms", 5000, 0, 86_400_000)
}
