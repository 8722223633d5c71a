//! Looks: what a state is asked without a pick.
ghost use Rattle.std.specs.Prelude.{◌≡◌, IfOk};
ghost use Rattle.machine.specs.Code.{look_value};

use crate::Mem;
use addr_book::Name;
use dtab_table::Dtab;
use name_tree::Path;
use std::alloc::Global;

/// A question that alters nothing.
pub enum Look {
    /// The version and the table of a namespace.
    Get {
        /// The namespace.
        name: Name,
    },
    /// The names of all namespaces.
    List,
    /// The addresses of a service.
    Addrs {
        /// The service.
        service: Name,
    },
    /// How much there is of each thing.
    Counts,
    /// How much there is of each thing, and how many addresses of each service are alive.
    ///
    /// It goes over the whole book, and over nothing else: it sorts the names of the services,
    /// looks each of them up, and looks each address of each service up among the marks, which ends
    /// at once where no address has failures. The reply has one item for each service.
    Services {
        /// The moment at which an address is alive or not, in milliseconds.
        moment: u64,
    },
    /// How a path is delegated, lookup by lookup.
    View {
        /// The path.
        path: Path,
        /// The request's own table, which comes behind the others.
        local: Dtab,
    },
}

impl Drop for Look {
    fn drop(self) {
        match self {
            Look::Get { name } => drop(name),
            Look::Addrs { service } => drop(service),
            Look::View { path, local } => {
                drop(path);
                drop(local);
            }
            Look::List | Look::Counts | Look::Services { moment: _ } => {}
        }
    }
}

impl Look {
    /// An equal look. It shares the path and the table of a `View`.
    pub fn copied(&self, alloc: Global) -> Mem<Look>
        ensures { IfOk result (λ copy. look_value copy ≡ look_value self.now) }
    {
        match self {
            Look::Get { name } => Ok(Look::Get {
                name: name.clone()?,
            }),
            Look::List => Ok(Look::List),
            Look::Addrs { service } => Ok(Look::Addrs {
                service: service.clone()?,
            }),
            Look::Counts => Ok(Look::Counts),
            Look::Services { moment } => Ok(Look::Services { moment: *moment }),
            Look::View { path, local } => Ok(Look::View {
                path: path.part(alloc, 0, path.len())?,
                local: local.copied(alloc)?,
            }),
        }
    }
}
