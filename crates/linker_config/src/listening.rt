//! Where something listens.
ghost use Rattle.std.specs.Prelude.{◌≡◌, ◌≤◌, codes, Ok};
ghost use Rattle.serde_json.specs.View.{view};
ghost use Rattle.linker_config.specs.Listening.{admin_told, ip_value, name_value, named_of};
ghost use Rattle.linker_config.specs.Listening.{namerd_told, port_told, usual_named};
ghost use Rattle.linker_config.specs.Values.{text_at, text_by};
ghost use Rattle.linker_config.specs.Keys.{or_fault};
ghost use Rattle.linker_config.specs.Listening.{loopback as loopback_ip};
ghost use Rattle.linker_config.specs.Answers.{Says, SaysBy};

use crate::config::Port;
use crate::fault::ConfigFault;
use crate::keys::check_keys;
use crate::value::{bad, number_at};
use addr_book::{Name, NameFault, read_ip};
use serde_json::Value;
use std::alloc::Global;

/// 127.0.0.1
pub(crate) const LOOPBACK: u32 = 0x7f00_0001;

/// The address of a host that is given by its name, and not by four numbers.
const LOCALHOST: &str = "localhost";

/// Where the administrator's interface listens.
#[tactic(auto, unfolding(crate::specs::Listening::admin_told))]
pub(crate) fn admin(alloc: Global, value: &Value) -> Result<Port, ConfigFault>
    ensures { Says (admin_told (view value.now)) result }
{
    check_keys(alloc, "admin", &["ip", "port"], &[], value)?;
    port(alloc, "admin", value, 9990)
}

/// Where the interface to the namespaces listens, and the namespace of the router.
#[derive(Drop)]
pub(crate) struct Named {
    pub(crate) port: Port,
    pub(crate) space: Name,
}

/// What the interface to the namespaces is told.
#[tactic(auto, unfolding(crate::specs::Listening::namerd_told))]
pub(crate) fn namerd(alloc: Global, value: &Value) -> Result<Named, ConfigFault>
    ensures { SaysBy named_of (namerd_told (view value.now)) result }
{
    check_keys(alloc, "namerd", &["ip", "port", "namespace"], &[], value)?;
    let port = port(alloc, "namerd", value, 4180)?;
    let space = space(alloc, value)?;
    Ok(Named { port, space })
}

/// Where the interface to the namespaces listens, and the router's namespace, where nothing is said
/// of them.
pub(crate) fn usual_namerd(alloc: Global) -> Result<Named, ConfigFault>
    ensures { SaysBy named_of (Ok usual_named) result }
{
    let port = Port {
        ip: LOOPBACK,
        port: 4180,
    };
    let space = usual_space(alloc)?;
    Ok(Named { port, space })
}

/// The name `default`.
fn usual_space(alloc: Global) -> Result<Name, ConfigFault>
    ensures { Says (Ok (codes "default")) result }
{
    match Name::of(alloc, b"default") {
        Ok(name) => Ok(name),
        Err(NameFault::NotName) => unreachable!(),
        Err(NameFault::OutOfMemory) => Err(ConfigFault::OutOfMemory),
    }
}

/// The namespace of the router.
#[tactic(auto, unfolding(crate::specs::Values::text_at))]
fn space(alloc: Global, object: &Value) -> Result<Name, ConfigFault>
    ensures { Says (text_at (codes "namerd") (codes "namespace") (codes "default") name_value
        (view object.now)) result }
{
    match object.get("namespace") {
        Some(value) => match value.as_str() {
            Some(text) => name(alloc, text),
            None => Err(bad(alloc, "namerd", "namespace")),
        },
        None => usual_space(alloc),
    }
}

/// The name of this text.
fn name(alloc: Global, text: &str) -> Result<Name, ConfigFault>
    ensures { Says (or_fault (ConfigFault.Bad (codes "namerd.namespace"))
        (name_value text.now)) result }
{
    match Name::of(alloc, text.as_bytes()) {
        Ok(name) => Ok(name),
        Err(NameFault::NotName) => Err(bad(alloc, "namerd", "namespace")),
        Err(NameFault::OutOfMemory) => Err(ConfigFault::OutOfMemory),
    }
}

/// The address and the port of the object at a place.
#[tactic(auto, unfolding(crate::specs::Listening::port_told))]
pub(crate) fn port(
    alloc: Global,
    place: &str,
    object: &Value,
    default: u16,
) -> Result<Port, ConfigFault>
    requires { 1 ≤ default }
    ensures { Says (port_told place.now default (view object.now)) result }
{
    let ip = ip(alloc, place, object)?;
    let port = number_at(alloc, place, object, "port", u64::from(default), 1, 65535)?;
    Ok(Port {
        ip,
        port: port as u16,
    })
}

/// The address of the object at a place.
#[tactic(auto, unfolding(crate::specs::Values::text_at))]
fn ip(alloc: Global, place: &str, object: &Value) -> Result<u32, ConfigFault>
    ensures { Says (text_at place.now (codes "ip") loopback_ip ip_value (view object.now)) result }
{
    let Some(value) = object.get("ip") else {
        return Ok(LOOPBACK);
    };
    match ip_in(value) {
        Some(ip) => Ok(ip),
        None => Err(bad(alloc, place, "ip")),
    }
}

/// The address of a text of four numbers.
fn ip_in(value: &Value) -> Option<u32>
    ensures { result ≡ text_by ip_value (view value.now) }
{
    match value.as_str() {
        Some(text) => read_address(text),
        None => None,
    }
}

/// The address of four numbers with points between them.
#[tactic(auto, unfolding(crate::specs::Listening::ip_value))]
fn read_address(text: &str) -> Option<u32>
    ensures { result ≡ ip_value text.now }
{
    if text == LOCALHOST {
        return None;
    }
    read_ip(text.as_bytes())
}
