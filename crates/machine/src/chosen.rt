//! What a state answers to asks.
use addr_book::Addr;
use name_tree::Path;

/// The answer to a pick.
pub enum Chosen {
    /// A replica.
    Picked {
        /// Its address.
        addr: Addr,
        /// The labels that named its cluster.
        client: Path,
        /// The labels behind those.
        residual: Path,
    },
    /// There is none.
    None(Why),
}

impl Drop for Chosen {
    fn drop(self) {
        match self {
            Chosen::Picked {
                addr: _,
                client,
                residual,
            } => {
                drop(client);
                drop(residual);
            }
            Chosen::None(_) => {}
        }
    }
}

/// Why there is no replica for a path.
#[derive(Clone, Copy, Debug, PartialEq, Eq)]
pub enum Why {
    /// Nothing has the name.
    Neg,
    /// It fails, by `!`.
    Fail,
    /// It is empty, by `$`, or no service that it is bound to has an address.
    Empty,
    /// A path was reached after 100 lookups in its chain, or its text is longer than 2,048 bytes.
    TooDeep,
    /// More than 10,000 lookups were needed.
    TooWide,
}
