//! Changes that are asked of a state.
ghost use Rattle.std.specs.Prelude.{◌≡◌, IfOk};
ghost use Rattle.machine.specs.Code.{change_of};

use crate::Mem;
use addr_book::{Addr, AddrList, Name};
use dtab_table::Dtab;
use std::alloc::Global;

/// A change that is asked of a state, which accepts it or refuses it with a
/// [`Reply`](crate::Reply).
pub enum Change {
    /// A new namespace with this table.
    Create {
        /// The namespace.
        name: Name,
        /// Its table.
        dtab: Dtab,
    },
    /// Another table for a namespace.
    Put {
        /// The namespace.
        name: Name,
        /// The version that it must have. `None` leaves that open.
        version: Option<u64>,
        /// Its table from then on.
        dtab: Dtab,
    },
    /// The namespace is to go.
    Delete {
        /// The namespace.
        name: Name,
        /// The version that it must have. `None` leaves that open.
        version: Option<u64>,
    },
    /// These addresses for a service, in the place of those that it has, if it is there.
    SetAddrs {
        /// The service.
        service: Name,
        /// Its addresses from then on.
        list: AddrList,
    },
    /// The service is to go.
    DropService {
        /// The service.
        service: Name,
    },
    /// An address answered well, or not.
    Report {
        /// The address.
        addr: Addr,
        /// Whether it answered well.
        good: bool,
        /// The moment of the report, in milliseconds.
        moment: u64,
    },
}

impl Drop for Change {
    fn drop(self) {
        match self {
            Change::Create { name, dtab } => {
                drop(name);
                drop(dtab);
            }
            Change::Put {
                name,
                version: _,
                dtab,
            } => {
                drop(name);
                drop(dtab);
            }
            Change::Delete { name, version: _ } => drop(name),
            Change::SetAddrs { service, list } => {
                drop(service);
                drop(list);
            }
            Change::DropService { service } => drop(service),
            Change::Report {
                addr: _,
                good: _,
                moment: _,
            } => {}
        }
    }
}

impl Change {
    /// An equal change. It shares the table of a `Create` or a `Put`, and copies the list of a
    /// `SetAddrs`.
    pub fn copied(&self, alloc: Global) -> Mem<Change>
        ensures { IfOk result (λ copy. change_of copy ≡ change_of self.now) }
    {
        match self {
            Change::Create { name, dtab } => Ok(Change::Create {
                name: name.clone()?,
                dtab: dtab.copied(alloc)?,
            }),
            Change::Put {
                name,
                version,
                dtab,
            } => Ok(Change::Put {
                name: name.clone()?,
                version: *version,
                dtab: dtab.copied(alloc)?,
            }),
            Change::Delete { name, version } => Ok(Change::Delete {
                name: name.clone()?,
                version: *version,
            }),
            Change::SetAddrs { service, list } => Ok(Change::SetAddrs {
                service: service.clone()?,
                list: list.clone()?,
            }),
            Change::DropService { service } => Ok(Change::DropService {
                service: service.clone()?,
            }),
            Change::Report { addr, good, moment } => Ok(Change::Report {
                addr: *addr,
                good: *good,
                moment: *moment,
            }),
        }
    }
}
