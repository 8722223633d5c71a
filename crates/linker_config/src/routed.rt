//! What a router is told.
ghost use Rattle.std.specs.Prelude.{◌≤◌};
ghost use Rattle.std.specs.Option.{ForSome};
ghost use Rattle.retry_budget.specs.Budget.{AreAllowed};
ghost use Rattle.dtab_table.specs.Dtab.{rules_of};
ghost use Rattle.dtab_table.specs.TableCanon.{AreSoundRules};
ghost use Rattle.machine.specs.Sound.{AreSoundRules-prop};

use crate::config::{Port, Text};
use choose_core::Limits;
use dtab_table::Dtab;
use identifier::Kind;
use line_base::ConnectionPool;
use name_tree::Path;
use retry_budget::Tries;

/// How a router names requests, and the table by which it binds the names.
#[derive(Drop)]
pub(crate) struct NameRules {
    /// Its own table.
    pub(crate) base: Dtab,
    /// What each path begins with.
    pub(crate) prefix: Path,
    /// What requests are named by.
    pub(crate) kind: Kind,
}

/// What a router is told.
#[derive(Drop)]
pub(crate) struct Routed {
    /// Its own table.
    pub(crate) base: Dtab,
    /// What each path begins with.
    pub(crate) prefix: Path,
    /// What requests are named by.
    pub(crate) kind: Kind,
    /// Where it listens.
    pub(crate) server: Port,
    /// Whether it clears the context of requests, if that is said.
    pub(crate) clear_context: Option<bool>,
    /// When a replica counts as dead.
    pub(crate) limits: Limits,
    /// Which connections to replicas are kept, if any are.
    pub(crate) pool: Option<ConnectionPool>,
    /// How often a request may be tried again, if it may be.
    pub(crate) retries: Option<Tries>,
    /// The file of the access log, if there is one.
    pub(crate) access_log: Option<Text>,
    ghost sound: { AreSoundRules (rules_of base) } by { AreSoundRules-prop (rules_of base) },
    ghost failures: { 1 ≤ limits.failures },
    ghost allowed: { ForSome retries (λ tries. AreAllowed tries) },
}
