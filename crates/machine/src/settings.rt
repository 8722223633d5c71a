//! What a router is set up with.
ghost use Rattle.std.specs.Prelude.{◌≤◌};
ghost use Rattle.dtab_table.specs.Dtab.{rules_of};
ghost use Rattle.dtab_table.specs.TableCanon.{AreSoundRules};
ghost use Rattle.machine.specs.Sound.{AreSoundRules-prop};

use addr_book::Name;
use choose_core::Limits;
use dtab_table::Dtab;

/// What a router is set up with. It does not change while the router runs.
///
/// Its table is sound, as every table that is read from text, and its limits count at least one
/// failure.
pub struct Settings {
    /// The namespace whose table comes first in each request's table.
    pub space: Name,
    /// The configured table. It comes behind the namespace's, so its entries are tried before
    /// those.
    pub base: Dtab,
    /// When a replica is left out for its failures.
    pub limits: Limits,
    ghost sound: { AreSoundRules (rules_of base) } by { AreSoundRules-prop (rules_of base) },
    ghost failures: { 1 ≤ limits.failures },
}

impl Drop for Settings {
    fn drop(self) {
        let Settings {
            space,
            base,
            limits: _,
        } = self;
        drop(space);
        drop(base);
    }
}
