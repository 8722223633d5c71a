//! What a router is told beside its names: where it listens, what it takes of its clients, and what
//! it does as a client of the replicas.
ghost use Rattle.std.specs.Prelude.{◌≤◌, codes, IfOk};
ghost use Rattle.std.specs.Option.{ForSome};
ghost use Rattle.serde_json.specs.View.{view};
ghost use Rattle.serde_json.specs.Find.{get};
ghost use Rattle.retry_budget.specs.Budget.{AreAllowed};
ghost use Rattle.linker_config.specs.Values.{if_there, or_default};
ghost use Rattle.linker_config.specs.Server.{servers_told, usual_server};
ghost use Rattle.linker_config.specs.Retries.{retries_told};
ghost use Rattle.linker_config.specs.Client.{client_told, usual_client};
ghost use Rattle.linker_config.specs.Router.{router_settings_told};
ghost use Rattle.linker_config.specs.Answers.{Says};

use crate::client::{ClientSettings, USUAL_CLIENT, client};
use crate::config::Text;
use crate::fault::ConfigFault;
use crate::logging::access_log;
use crate::retries::retries;
use crate::server::{ServerSettings, USUAL_SERVER, servers};
use retry_budget::Tries;
use serde_json::Value;
use std::alloc::Global;

/// What a router is told beside its names.
#[derive(Drop)]
pub(crate) struct RouterSettings {
    /// Where it listens, and what it takes of its clients.
    pub(crate) server: ServerSettings,
    /// What it does as a client of the replicas.
    pub(crate) client: ClientSettings,
    /// How often a request may be tried again, if it may be.
    pub(crate) retries: Option<Tries>,
    /// The file of the access log, if there is one.
    pub(crate) access_log: Option<Text>,
}

/// What a router is told beside its names.
#[tactic(auto, unfolding(crate::specs::Router::router_settings_told))]
pub(crate) fn router_settings(alloc: Global, value: &Value) -> Result<RouterSettings, ConfigFault>
    ensures failures { IfOk result (λ settings. 1 ≤ settings.client.limits.failures) }
    ensures allowed { IfOk result (λ settings. ForSome settings.retries (λ t. AreAllowed t)) }
    ensures told { Says (router_settings_told (view value.now)) result }
{
    let server = server_or_usual(alloc, value)?;
    let client = client_or_usual(alloc, value)?;
    let retries = retries_or_none(alloc, value)?;
    let access_log = access_log(alloc, value)?;
    Ok(RouterSettings {
        server,
        client,
        retries,
        access_log,
    })
}

/// Where the router listens, and what it takes of its clients.
fn server_or_usual(alloc: Global, object: &Value) -> Result<ServerSettings, ConfigFault>
    ensures { Says (or_default usual_server servers_told
        (get (codes "servers") (view object.now))) result }
{
    match object.get("servers") {
        Some(value) => servers(alloc, value),
        None => Ok(USUAL_SERVER),
    }
}

/// What the router does as a client of the replicas.
fn client_or_usual(alloc: Global, object: &Value) -> Result<ClientSettings, ConfigFault>
    ensures failures { IfOk result (λ client. 1 ≤ client.limits.failures) }
    ensures told { Says (or_default usual_client client_told
        (get (codes "client") (view object.now))) result }
{
    match object.get("client") {
        Some(value) => client(alloc, value),
        None => Ok(USUAL_CLIENT),
    }
}

/// How often a request may be tried again, if it may be.
fn retries_or_none(alloc: Global, object: &Value) -> Result<Option<Tries>, ConfigFault>
    ensures told { Says (if_there retries_told (get (codes "retries") (view object.now))) result }
    ensures allowed { IfOk result (λ tries. ForSome tries (λ t. AreAllowed t)) }
{
    match object.get("retries") {
        Some(value) => Ok(Some(retries(alloc, value)?)),
        None => Ok(None),
    }
}
