//! What is prepared of a change.
use addr_book::{Addr, ReadyBook};
use choose_core::Limits;
use ns_store::ReadyStore;

/// What is prepared of a change.
pub(crate) enum Part {
    /// The namespaces after it.
    Store(ReadyStore),
    /// The services after it.
    Book(ReadyBook),
    /// A report, which is made when it is absorbed.
    Report(Report),
}

impl Drop for Part {
    fn drop(self) {
        match self {
            Part::Store(ready) => drop(ready),
            Part::Book(ready) => drop(ready),
            Part::Report(_) => {}
        }
    }
}

/// A report on an address, and the limits that it is judged by.
#[derive(Clone, Copy)]
pub(crate) struct Report {
    pub(crate) addr: Addr,
    pub(crate) good: bool,
    pub(crate) moment: u64,
    pub(crate) limits: Limits,
}
