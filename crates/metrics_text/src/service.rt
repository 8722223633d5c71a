//! The numbers of services.
ghost use Rattle.std.specs.Prelude.{◌≡◌};
ghost use Rattle.metrics_text.specs.Metrics.{figure_of};

/// The numbers of a service.
#[derive(Clone, Copy)]
pub struct ServiceCounts<'a> {
    /// Its name.
    pub name: &'a [u8],
    /// How many addresses it has.
    pub addresses: u64,
    /// How many of them are alive now.
    pub alive: u64,
}

/// One of the numbers of a service.
#[derive(Clone, Copy)]
pub(crate) enum Figure {
    /// Its addresses.
    Addresses,
    /// Those that are alive.
    Alive,
}

impl Figure {
    /// This number of a service.
    pub(crate) fn of(self, service: &ServiceCounts<'_>) -> u64
        ensures { result ≡ figure_of self service.now }
    {
        match self {
            Figure::Addresses => service.addresses,
            Figure::Alive => service.alive,
        }
    }
}
