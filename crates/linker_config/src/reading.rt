//! Reading a configuration.
ghost use Rattle.std.specs.Prelude.{◌≤◌, [], ◌∷◌, codes, None, Some, IfOk};
ghost use Rattle.serde_json.specs.View.{view};
ghost use Rattle.serde_json.specs.Find.{get};
ghost use Rattle.linker_config.specs.Keys.{and_then, keys_told, or_fault};
ghost use Rattle.linker_config.specs.Values.{if_there, or_default};
ghost use Rattle.linker_config.specs.Listening.{admin_told, named_of, namerd_told};
ghost use Rattle.linker_config.specs.Listening.{usual_admin, usual_named};
ghost use Rattle.linker_config.specs.Feed.{feed_told};
ghost use Rattle.linker_config.specs.Namers.{namers_told};
ghost use Rattle.linker_config.specs.Router.{routed_of, routers_told};
ghost use Rattle.linker_config.specs.Config.{config_of, run_told, said_of, top_keys};
ghost use Rattle.linker_config.specs.Answers.{Reads, Says, SaysBy};

use crate::config::{Config, FeedAt, Port, Text};
use crate::fault::ConfigFault;
use crate::feed::feed;
use crate::keys::check_keys;
use crate::listening::{LOOPBACK, Named, admin, namerd, usual_namerd};
use crate::namers::namers;
use crate::routed::Routed;
use crate::router::routers;
use crate::value::{bad, number_at};
use identifier::Rule;
use machine::Settings;
use serde_json::Value;
use std::alloc::Global;

/// What is told of a whole run beside its routers.
#[derive(Clone, Copy)]
pub(crate) struct RunSettings {
    /// How many connections are served at a time.
    pub(crate) workers: u32,
    /// What the random words of the router's choices begin with.
    pub(crate) seed: u64,
    /// Where the feed of the namespaces is served, if it is.
    pub(crate) feed: Option<FeedAt>,
}

/// Reads a configuration from its JSON text, in UTF-8. `docs/CONFIGURATION.md` has the keys, with
/// their ranges and defaults; they are those of a Linkerd 1 configuration, as far as this router
/// has them.
///
/// The text is parsed once, and each member of an object with known keys is looked at once. It
/// takes memory for the tree, and for what the configuration says, which is copied once.
///
/// # Errors
/// [`ConfigFault::BadJson`] exactly where the text is no JSON. Otherwise the first fault in this
/// order: the whole first, and each object inside a known key when that key is reached; in an
/// object, that it is none ([`ConfigFault::Bad`]); the first of its keys, in the order of their
/// bytes, that there is none of ([`ConfigFault::Unknown`]); the first key that is required and
/// missing ([`ConfigFault::Missing`]); and then the values, in the order of the table
/// ([`ConfigFault::Bad`]).
pub fn read_config(alloc: Global, text: &[u8]) -> Result<Config, ConfigFault>
    ensures reads { Reads text.now result }
    ensures workers { IfOk result (λ config. (1 ≤ config.workers) × (config.workers ≤ 256)) }
{
    match Value::from_slice(alloc, text) {
        Ok(tree) => config(alloc, &tree),
        Err(error) => {
            if error.is_memory() {
                Err(ConfigFault::OutOfMemory)
            } else {
                Err(ConfigFault::BadJson)
            }
        }
    }
}

/// The configuration of a tree.
#[tactic(auto, unfolding(crate::specs::Config::config_of))]
fn config(alloc: Global, tree: &Value) -> Result<Config, ConfigFault>
    ensures told { SaysBy said_of (config_of (view tree.now)) result }
    ensures workers { IfOk result (λ config. (1 ≤ config.workers) × (config.workers ≤ 256)) }
{
    check_top_keys(alloc, tree)?;
    let admin = admin_or_usual(alloc, tree)?;
    let named = namerd_or_usual(alloc, tree)?;
    let root = root_or_none(alloc, tree)?;
    let routed = needed_routers(alloc, tree)?;
    let run = match run_settings(alloc, tree) {
        Ok(run) => run,
        Err(fault) => {
            drop(routed);
            drop(root);
            drop(named);
            return Err(fault);
        }
    };
    let clears_context = routed.clear_context.unwrap_or(false);
    Ok(Config {
        admin,
        namerd: named.port,
        server: routed.server,
        root,
        rule: Rule {
            kind: routed.kind,
            prefix: routed.prefix,
            clears_context,
        },
        clear_context: routed.clear_context,
        settings: Settings {
            space: named.space,
            base: routed.base,
            limits: routed.limits,
        },
        pool: routed.pool,
        retries: routed.retries,
        access_log: routed.access_log,
        workers: run.workers,
        seed: run.seed,
        feed: run.feed,
    })
}

/// What is told of a whole run beside its routers.
#[tactic(auto, unfolding(crate::specs::Config::run_told))]
fn run_settings(alloc: Global, tree: &Value) -> Result<RunSettings, ConfigFault>
    ensures told { Says (run_told (view tree.now)) result }
    ensures workers { IfOk result (λ run. (1 ≤ run.workers) × (run.workers ≤ 256)) }
{
    let workers = number_at(alloc, "", tree, "workers", 16, 1, 256)?;
    let seed = number_at(alloc, "", tree, "seed", 0, 0, u64::MAX)?;
    let feed = feed_or_none(alloc, tree)?;
    Ok(RunSettings {
        workers: workers as u32,
        seed,
        feed,
    })
}

/// Checks the keys of the whole.
fn check_top_keys(alloc: Global, tree: &Value) -> Result<(), ConfigFault>
    ensures { Says (keys_told [] top_keys (codes "routers" ∷ []) (view tree.now)) result }
{
    let known = [
        "admin",
        "namerd",
        "namers",
        "routers",
        "workers",
        "seed",
        "feed",
        "telemetry",
        "usage",
    ];
    check_keys(alloc, "", &known, &["routers"], tree)
}

/// Where the administrator's interface listens.
fn admin_or_usual(alloc: Global, tree: &Value) -> Result<Port, ConfigFault>
    ensures { Says (or_default usual_admin admin_told (get (codes "admin") (view tree.now)))
        result }
{
    match tree.get("admin") {
        Some(value) => admin(alloc, value),
        None => Ok(Port {
            ip: LOOPBACK,
            port: 9990,
        }),
    }
}

/// Where the interface to the namespaces listens, and the router's namespace.
fn namerd_or_usual(alloc: Global, tree: &Value) -> Result<Named, ConfigFault>
    ensures { SaysBy named_of
        (or_default usual_named namerd_told (get (codes "namerd") (view tree.now))) result }
{
    match tree.get("namerd") {
        Some(value) => namerd(alloc, value),
        None => usual_namerd(alloc),
    }
}

/// The folder of the services' addresses, if there is a namer.
fn root_or_none(alloc: Global, tree: &Value) -> Result<Option<Text>, ConfigFault>
    ensures { Says (or_default None namers_told (get (codes "namers") (view tree.now))) result }
{
    match tree.get("namers") {
        Some(value) => namers(alloc, value),
        None => Ok(None),
    }
}

/// The router, which has to be there.
fn needed_routers(alloc: Global, tree: &Value) -> Result<Routed, ConfigFault>
    ensures { SaysBy routed_of (and_then
        (or_fault (ConfigFault.Bad (codes "routers")) (get (codes "routers") (view tree.now)))
        routers_told) result }
{
    match tree.get("routers") {
        Some(value) => routers(alloc, value),
        None => Err(bad(alloc, "", "routers")),
    }
}

/// Where the feed of the namespaces is served, if it is.
fn feed_or_none(alloc: Global, tree: &Value) -> Result<Option<FeedAt>, ConfigFault>
    ensures { Says (if_there feed_told (get (codes "feed") (view tree.now))) result }
{
    match tree.get("feed") {
        Some(value) => Ok(Some(feed(alloc, value)?)),
        None => Ok(None),
    }
}
