//! Whether a router takes routes from clients that may be anybody.
ghost use Rattle.std.specs.Prelude.{◌≡◌};
ghost use Rattle.linker_config.specs.Trusting.{hears_strangers, is_loopback};

use crate::config::Config;

/// Whether an address is one of this machine alone.
fn is_loopback(ip: u32) -> bool
    ensures { result ≡ is_loopback ip }
{
    ip / 0x0100_0000 == 127
}

impl Config {
    /// Whether the router listens to other machines while nothing is said of clearing the context
    /// of requests: each client that reaches it may then have a request sent to any address that
    /// this machine reaches.
    pub fn hears_strangers(&self) -> bool
        ensures { result ≡ hears_strangers self.now }
    {
        self.clear_context.is_none() && !is_loopback(self.server.ip)
    }
}
