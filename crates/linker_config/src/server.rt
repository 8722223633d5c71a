//! Where the router listens, and what it takes of its clients.
ghost use Rattle.std.specs.Prelude.{codes};
ghost use Rattle.serde_json.specs.View.{view};
ghost use Rattle.serde_json.specs.Find.{get};
ghost use Rattle.linker_config.specs.Server.{clear_value, server_told, servers_told};
ghost use Rattle.linker_config.specs.Values.{if_there};
ghost use Rattle.linker_config.specs.Answers.{Says};

use crate::config::Port;
use crate::fault::ConfigFault;
use crate::keys::check_keys;
use crate::listening::{LOOPBACK, port};
use crate::value::{bad, bad_key, only_element};
use serde_json::Value;
use std::alloc::Global;

/// Where the server stands.
const PLACE: &str = "routers[0].servers[0]";

/// What the server of the router is told.
#[derive(Clone, Copy)]
pub(crate) struct ServerSettings {
    /// Where it listens.
    pub(crate) port: Port,
    /// Whether it clears the context of requests, if that is said.
    pub(crate) clear_context: Option<bool>,
}

/// Where nothing is said of the server.
pub(crate) const USUAL_SERVER: ServerSettings = ServerSettings {
    port: Port {
        ip: LOOPBACK,
        port: 4140,
    },
    clear_context: None,
};

/// The one server of the list.
#[tactic(auto, unfolding(crate::specs::Server::servers_told))]
pub(crate) fn servers(alloc: Global, value: &Value) -> Result<ServerSettings, ConfigFault>
    ensures { Says (servers_told (view value.now)) result }
{
    match only_element(value) {
        Some(one) => server(alloc, one),
        None => Err(bad_key(alloc, "routers[0].servers")),
    }
}

/// What a server is told.
#[tactic(auto, unfolding(crate::specs::Server::server_told))]
fn server(alloc: Global, value: &Value) -> Result<ServerSettings, ConfigFault>
    ensures { Says (server_told (view value.now)) result }
{
    check_keys(alloc, PLACE, &["ip", "port", "clearContext"], &[], value)?;
    let port = port(alloc, PLACE, value, 4140)?;
    let clear_context = clear_or_none(alloc, value)?;
    Ok(ServerSettings {
        port,
        clear_context,
    })
}

/// Whether the context of requests is cleared, if that is said.
fn clear_or_none(alloc: Global, object: &Value) -> Result<Option<bool>, ConfigFault>
    ensures { Says (if_there clear_value (get (codes "clearContext") (view object.now))) result }
{
    match object.get("clearContext") {
        Some(value) => Ok(Some(clear(alloc, value)?)),
        None => Ok(None),
    }
}

/// Whether the context of requests is cleared.
fn clear(alloc: Global, value: &Value) -> Result<bool, ConfigFault>
    ensures { Says (clear_value (view value.now)) result }
{
    match value.as_bool() {
        Some(clears) => Ok(clears),
        None => Err(bad(alloc, PLACE, "clearContext")),
    }
}
