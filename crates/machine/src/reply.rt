//! What a state answers to changes and looks.
ghost use Rattle.std.specs.Prelude.{◌≡◌};

use addr_book::{AddrList, Name};
use bind_core::{Outcome, Trace};
use choose_core::Mark;
use dtab_table::Dtab;
use std::marker::Model;

/// The answer to a change or a look.
pub enum Reply {
    /// A namespace was created or its table replaced: its version.
    Version(u64),
    /// Refused: the namespace is there, with this version.
    Exists(u64),
    /// Refused: there are 256 namespaces.
    TooManyNames,
    /// Refused: no version is left to give.
    VersionsSpent,
    /// Refused, or nothing to show: the namespace or the service is not there.
    Missing,
    /// Refused: the namespace has this version, another than was said.
    Stale(u64),
    /// The namespace is gone.
    Deleted,
    /// The service has so many addresses.
    Set(u32),
    /// Refused: the book would have so many distinct addresses, more than 8,192.
    BookFull(u32),
    /// Refused: there are 4,096 services.
    TooManyServices,
    /// The service is gone.
    Dropped,
    /// The address has this mark.
    Marked(Mark),
    /// No service has the address, so nothing is kept of it.
    NotKept,
    /// Refused: 2^64 - 1 changes were accepted before.
    HistorySpent,
    /// A namespace's table.
    Table {
        /// Its version.
        version: u64,
        /// Its table.
        dtab: Dtab,
    },
    /// The names of all namespaces, in the order of their bytes.
    Names(NameList),
    /// The addresses of a service, in their order.
    Addrs(AddrList),
    /// How much there is of each thing.
    Counts {
        /// How many changes were accepted.
        changes: u64,
        /// How many addresses have a count of failures above 0.
        marks: u32,
        /// How many namespaces there are.
        namespaces: u32,
        /// How many services there are.
        services: u32,
    },
    /// How much there is of each thing, service by service.
    Services {
        /// How many changes were accepted.
        changes: u64,
        /// How many addresses have a count of failures above 0.
        marks: u32,
        /// How many namespaces there are.
        namespaces: u32,
        /// How many tables were created or put, which is how many versions were given. It never
        /// falls: a namespace that is deleted takes its table along, and no version.
        tables_written: u64,
        /// The services, in the order of their names' bytes: at most 4,096. The names share their
        /// bytes with those of the book.
        services: Vec<ServiceState>,
    },
    /// How a path is delegated.
    Viewed {
        /// What it comes to, before branches without addresses are left out.
        outcome: Outcome,
        /// Its lookups, in the order in which they began.
        trace: Trace,
    },
}

impl Drop for Reply {
    fn drop(self) {
        match self {
            Reply::Table { version: _, dtab } => drop(dtab),
            Reply::Names(names) => drop(names),
            Reply::Addrs(list) => drop(list),
            Reply::Services {
                changes: _,
                marks: _,
                namespaces: _,
                tables_written: _,
                services,
            } => drop(services),
            Reply::Viewed { outcome, trace } => {
                drop(outcome);
                drop(trace);
            }
            Reply::Version(_) | Reply::Exists(_) | Reply::Stale(_) | Reply::Missing => {}
            Reply::TooManyNames | Reply::VersionsSpent | Reply::Deleted | Reply::Set(_) => {}
            Reply::BookFull(_) | Reply::TooManyServices | Reply::Dropped => {}
            Reply::Marked(_) | Reply::NotKept | Reply::HistorySpent => {}
            Reply::Counts {
                changes: _,
                marks: _,
                namespaces: _,
                services: _,
            } => {}
        }
    }
}

impl Reply {
    ghost use Rattle.std.specs.Prelude.{IfSome, None};
    ghost use Rattle.dtab_table.specs.Dtab.{rules_of};
    ghost use Rattle.machine.specs.Code.{reply_value};
    ghost use Rattle.machine.specs.Values.{table};
    ghost use Rattle.machine.specs.Looking.{space_told};

    /// The version and the table that it tells, if it tells a table.
    pub fn into_table(self) -> Option<(u64, Dtab)>
        ensures table { IfSome result
            (λ told. reply_value self ≡ table told.0 (rules_of told.1)) }
        ensures none { result ≡ None → space_told (reply_value self) ≡ None }
    {
        match self {
            Reply::Table { version, dtab } => Some((version, dtab)),
            Reply::Version(_) | Reply::Exists(_) | Reply::Stale(_) | Reply::Missing => None,
            Reply::TooManyNames | Reply::VersionsSpent | Reply::Deleted | Reply::Set(_) => None,
            Reply::BookFull(_) | Reply::TooManyServices | Reply::Dropped => None,
            Reply::Marked(_) | Reply::NotKept | Reply::HistorySpent => None,
            Reply::Names(..) | Reply::Addrs(..) | Reply::Counts { .. } => None,
            Reply::Services { .. } | Reply::Viewed { .. } => None,
        }
    }
}

/// How many addresses a service has at a moment.
pub struct ServiceState {
    /// The service.
    pub name: Name,
    /// How many addresses it has, at most 1,024.
    pub addresses: u32,
    /// How many of them are alive: not left out for their failures. Where none is, picks are made
    /// among all of them.
    pub alive: u32,
}

impl Drop for ServiceState {
    fn drop(self) {
        let ServiceState {
            name,
            addresses: _,
            alive: _,
        } = self;
        drop(name);
    }
}

/// Some names, in order. Contracts see the list of their bytes.
pub struct NameList {
    items: Vec<Name>,
}

impl Drop for NameList {
    fn drop(self) {
        let NameList { items } = self;
        drop(items);
    }
}

impl Model for NameList {
    ghost use Rattle.std.specs.Prelude.{List, ℕ};

    ghost Value = { List (List ℕ) };

    ghost view = { λ l. l.items.items };
}

impl NameList {
    /// These names, in their order. It takes no memory.
    pub fn of(items: Vec<Name>) -> NameList
        ensures { result ≡ items.items }
    {
        NameList { items }
    }

    /// The names, in order.
    pub fn items(&self) -> &[Name]
        ensures { result.now ≡ self.now }
    {
        self.items.as_slice()
    }
}
