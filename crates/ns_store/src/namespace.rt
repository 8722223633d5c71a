//! One namespace.
use addr_book::Name;
use dtab_table::Dtab;
use std::sync::Arc;

/// A namespace. Stores share its table.
pub(crate) struct Namespace {
    /// Its name.
    pub(crate) name: Name,
    /// The version of its table, at least 1.
    pub(crate) version: u64,
    /// Its table.
    pub(crate) dtab: Arc<Dtab>,
}

impl Drop for Namespace {
    fn drop(self) {
        let Namespace {
            name,
            version: _,
            dtab,
        } = self;
        drop(name);
        drop(dtab);
    }
}
