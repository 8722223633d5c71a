//! Leaves: where a path's replicas are, and how the path was split.
ghost use Rattle.std.specs.Prelude.{◌≡◌};

use crate::addr::Addr;
use crate::name::Name;
use name_tree::Path;

/// Where a leaf's replicas are.
#[derive(Debug, Drop)]
pub enum Cluster {
    /// One address, of a path `/$/inet/HOST/PORT`.
    Inet(Addr),
    /// The addresses of a service in the book, of a path `/#/io.l5d.fs/SERVICE`.
    Fs(Name),
}

/// A bound leaf: its replicas, and how its path was split.
#[derive(Debug)]
pub struct Leaf {
    /// Where the replicas are.
    pub cluster: Cluster,
    /// The labels that named the replicas.
    pub client: Path,
    /// The labels behind those, which name nothing here and are passed on.
    pub residual: Path,
}

impl Drop for Leaf {
    fn drop(self) {
        let Leaf {
            cluster,
            client,
            residual,
        } = self;
        drop(cluster);
        drop(client);
        drop(residual);
    }
}

impl Leaf {
    /// The two parts of its path: the labels that named the replicas, and those behind them.
    pub fn into_paths(self) -> (Path, Path)
        ensures client { result.0 ≡ self.client }
        ensures residual { result.1 ≡ self.residual }
    {
        let Leaf {
            cluster,
            client,
            residual,
        } = self;
        drop(cluster);
        (client, residual)
    }
}
