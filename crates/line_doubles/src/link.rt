//! A connection in memory that is kept.
ghost use Rattle.std.specs.Prelude.{◌≡◌, true};

/// A connection in memory that is kept: where it leads, and whether nothing is left to come of what
/// its other end gave.
#[derive(Clone, Copy)]
pub(crate) struct MemLink {
    pub(crate) ip: u32,
    pub(crate) port: u16,
    pub(crate) is_quiet: bool,
}

impl MemLink {
    /// Whether it leads there.
    pub(crate) fn is_to(&self, ip: u32, port: u16) -> bool
        ensures { result ≡ true → (self.now.ip ≡ ip) × (self.now.port ≡ port) }
    {
        self.ip == ip && self.port == port
    }
}
