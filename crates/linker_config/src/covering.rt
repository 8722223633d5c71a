//! Whether the router's own table takes all requests.
ghost use Rattle.std.specs.Prelude.{◌≡◌};
ghost use Rattle.linker_config.specs.Covering.{table_covers_prefix};

use crate::config::Config;

impl Config {
    /// Whether the router's own table has an entry whose prefix matches what all requests' paths
    /// begin with. Its entries are tried before those of the namespace, so such an entry decides
    /// for every service that it finds, whatever the namespace says.
    pub fn table_covers_prefix(&self) -> bool
        ensures { result ≡ table_covers_prefix self.now }
    {
        let table = &self.settings.base;
        table.matches_any(0, table.len(), &self.rule.prefix)
    }
}
