//! The router.
ghost use Rattle.std.specs.Prelude.{◌∷◌, [], codes, Ok, IfOk};
ghost use Rattle.serde_json.specs.View.{view};
ghost use Rattle.serde_json.specs.Find.{get};
ghost use Rattle.name_tree.specs.Computed.{path_of};
ghost use Rattle.dtab_table.specs.Computed.{table_of};
ghost use Rattle.dtab_table.specs.Dtab.{rules_of};
ghost use Rattle.dtab_table.specs.TableCanon.{AreSoundRules};
ghost use Rattle.linker_config.specs.Keys.{inside, keys_told, or_fault};
ghost use Rattle.linker_config.specs.Values.{or_default, text_at};
ghost use Rattle.linker_config.specs.Identifier.{identifier_told};
ghost use Rattle.linker_config.specs.Router.{name_rules_of, name_rules_told, router_keys};
ghost use Rattle.linker_config.specs.Router.{router_place, router_told, routers_told, routed_of};
ghost use Rattle.linker_config.specs.Answers.{Says, SaysBy};

use crate::fault::ConfigFault;
use crate::keys::check_keys;
use crate::naming::identifier;
use crate::routed::{NameRules, Routed};
use crate::router_settings::router_settings;
use crate::value::{bad, bad_key, needed_word, only_element};
use dtab_table::{Dtab, DtabFault, read_dtab};
use http_wire::FieldName;
use identifier::Kind;
use name_tree::{Path, TextFault, read_path};
use serde_json::Value;
use std::alloc::Global;

/// Where the router stands.
const PLACE: &str = "routers[0]";

/// The one router of the list.
#[tactic(auto, unfolding(crate::specs::Router::routers_told))]
pub(crate) fn routers(alloc: Global, value: &Value) -> Result<Routed, ConfigFault>
    ensures { SaysBy routed_of (routers_told (view value.now)) result }
{
    match only_element(value) {
        Some(one) => router(alloc, one),
        None => Err(bad_key(alloc, "routers")),
    }
}

/// A router.
#[tactic(auto, unfolding(crate::specs::Router::router_told))]
fn router(alloc: Global, value: &Value) -> Result<Routed, ConfigFault>
    ensures { SaysBy routed_of (router_told (view value.now)) result }
{
    check_router_keys(alloc, value)?;
    needed_word(alloc, PLACE, value, "protocol", "http")?;
    let rules = name_rules(alloc, value)?;
    match router_settings(alloc, value) {
        Ok(settings) => Ok(Routed {
            base: rules.base,
            prefix: rules.prefix,
            kind: rules.kind,
            server: settings.server.port,
            clear_context: settings.server.clear_context,
            limits: settings.client.limits,
            pool: settings.client.pool,
            retries: settings.retries,
            access_log: settings.access_log,
        }),
        Err(fault) => {
            drop(rules);
            Err(fault)
        }
    }
}

/// How requests are named, and the router's own table.
#[tactic(auto, unfolding(crate::specs::Router::name_rules_told))]
fn name_rules(alloc: Global, value: &Value) -> Result<NameRules, ConfigFault>
    ensures sound { IfOk result (λ rules. AreSoundRules (rules_of rules.base)) }
    ensures told { SaysBy name_rules_of (name_rules_told (view value.now)) result }
{
    let base = table(alloc, value)?;
    let prefix = prefix(alloc, value)?;
    let kind = kind_or_usual(alloc, value)?;
    Ok(NameRules { base, prefix, kind })
}

/// Checks the keys of a router.
fn check_router_keys(alloc: Global, value: &Value) -> Result<(), ConfigFault>
    ensures { Says (keys_told router_place router_keys (codes "protocol" ∷ [])
        (view value.now)) result }
{
    let known = [
        "protocol",
        "dtab",
        "dstPrefix",
        "identifier",
        "servers",
        "client",
        "retries",
        "label",
        "httpAccessLog",
    ];
    check_keys(alloc, PLACE, &known, &["protocol"], value)
}

/// The router's own table.
#[tactic(auto, unfolding(crate::specs::Values::text_at))]
fn table(alloc: Global, object: &Value) -> Result<Dtab, ConfigFault>
    ensures sound { IfOk result (λ dtab. AreSoundRules (rules_of dtab)) }
    ensures told { SaysBy rules_of
        (text_at router_place (codes "dtab") [] table_of (view object.now)) result }
{
    match object.get("dtab") {
        Some(value) => match value.as_str() {
            Some(text) => table_in(alloc, text.as_bytes()),
            None => Err(bad(alloc, PLACE, "dtab")),
        },
        None => Ok(Dtab::empty(alloc)),
    }
}

/// The table of a text.
fn table_in(alloc: Global, text: &[u8]) -> Result<Dtab, ConfigFault>
    ensures sound { IfOk result (λ dtab. AreSoundRules (rules_of dtab)) }
    ensures told { SaysBy rules_of (or_fault
        (ConfigFault.Bad (inside router_place (codes "dtab"))) (table_of text.now)) result }
{
    match read_dtab(alloc, text) {
        Ok(dtab) => Ok(dtab),
        Err(DtabFault::OutOfMemory) => Err(ConfigFault::OutOfMemory),
        Err(_) => Err(bad(alloc, PLACE, "dtab")),
    }
}

/// What each path begins with.
#[tactic(auto, unfolding(crate::specs::Values::text_at))]
fn prefix(alloc: Global, object: &Value) -> Result<Path, ConfigFault>
    ensures { Says (text_at router_place (codes "dstPrefix") (codes "svc" ∷ []) path_of
        (view object.now)) result }
{
    match object.get("dstPrefix") {
        Some(value) => match value.as_str() {
            Some(text) => prefix_in(alloc, text.as_bytes()),
            None => Err(bad(alloc, PLACE, "dstPrefix")),
        },
        None => usual_prefix(alloc),
    }
}

/// The path of a text.
fn prefix_in(alloc: Global, text: &[u8]) -> Result<Path, ConfigFault>
    ensures { Says (or_fault (ConfigFault.Bad (inside router_place (codes "dstPrefix")))
        (path_of text.now)) result }
{
    match read_path(alloc, text) {
        Ok(path) => Ok(path),
        Err(TextFault::OutOfMemory) => Err(ConfigFault::OutOfMemory),
        Err(_) => Err(bad(alloc, PLACE, "dstPrefix")),
    }
}

/// `/svc`
fn usual_prefix(alloc: Global) -> Result<Path, ConfigFault>
    ensures { Says (Ok (codes "svc" ∷ [])) result }
{
    let mut path = Path::new(alloc);
    path.push(Vec::from_slice(alloc, b"svc")?)?;
    Ok(path)
}

/// What requests are named by.
fn kind_or_usual(alloc: Global, object: &Value) -> Result<Kind, ConfigFault>
    ensures { Says (or_default (Kind.Token (codes "Host")) identifier_told
        (get (codes "identifier") (view object.now))) result }
{
    match object.get("identifier") {
        Some(value) => identifier(alloc, value),
        None => Ok(Kind::Token(FieldName::of(Vec::from_slice(alloc, b"Host")?))),
    }
}
