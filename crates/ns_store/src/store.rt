//! The store: which namespaces there are, and the next version.
ghost use Rattle.std.specs.Prelude.{◌≡◌, ◌≢◌, ◌≤◌, ◌<◌, IfOk, IfErr, OnOk, OnErr, Some, None};
ghost use Rattle.std.specs.Prelude.{option_map, slice_get};
ghost use Rattle.std.specs.Arc.{arc_value};
ghost use Rattle.std.specs.FinMap as fin;
ghost use Rattle.dtab_table.specs.Dtab.{rules_of};
ghost use Rattle.ns_store.specs.Spaces.{spaces_of};

use crate::Mem;
use crate::fault::StoreFault;
use crate::spaces::Spaces;
use addr_book::Name;
use dtab_table::Dtab;
use std::alloc::Global;
use std::sync::Arc;

/// The most namespaces of a store.
pub const MOST_NAMES: usize = 256;

/// The store maps at most 256 names to tables, each with a version, and has the version that comes
/// next. Contracts see both as `contents_of store`.
///
/// A change is prepared first, which may be refused, and is then made by [`absorb`](Store::absorb).
/// Preparing copies the list of namespaces, for each two counts that go up by one, and no table:
/// stores share the tables, and the list too once one absorbs the other.
pub struct Store {
    spaces: Arc<Spaces>,
    next: u64,
    ghost few: { fin.len (spaces_of (arc_value spaces)) ≤ 256 },
}

impl Drop for Store {
    fn drop(self) {
        let Store { spaces, next: _ } = self;
        drop(spaces);
    }
}

/// A store with a change made, prepared for [`Store::absorb`]. Contracts see what that store has as
/// `prepared_of ready`.
pub struct ReadyStore {
    next: Store,
}

impl Drop for ReadyStore {
    fn drop(self) {
        let ReadyStore { next } = self;
        drop(next);
    }
}

impl Store {
    ghost use Rattle.ns_store.specs.declared.fault.StoreFault.{StoreFault};
    ghost use Rattle.ns_store.specs.Contents.{no_contents, after_set, after_delete, shown_space};
    ghost use Rattle.ns_store.specs.Refusal.{create_refusal, put_refusal, delete_refusal};
    ghost use Rattle.ns_store.specs.Refusal.{spent_refusal};
    ghost use Rattle.ns_store.specs.Store.{contents_of, prepared_of};

    /// The store without namespaces, whose next version is 1.
    pub fn start(alloc: Global) -> Mem<Store>
        ensures { IfOk result (λ store. contents_of store ≡ no_contents) }
    {
        Store::with_next(alloc, 1)
    }

    /// The store without namespaces, whose next version is this one: where versions go on from
    /// those of an earlier store.
    pub fn with_next(alloc: Global, next: u64) -> Mem<Store>
        ensures { IfOk result (λ store. contents_of store ≡ record no_contents { next = next }) }
    {
        Ok(Store {
            spaces: Arc::new(alloc, Spaces::new(alloc))?,
            next,
        })
    }

    /// How many namespaces there are.
    pub fn count(&self) -> usize
        ensures count { result ≡ fin.len (contents_of self.now).spaces }
        ensures limit { result ≤ 256 }
    {
        self.spaces.len()
    }

    /// The version that the next create or put gives, unless it is 2^64 - 1.
    pub fn next_version(&self) -> u64
        ensures { result ≡ (contents_of self.now).next }
    {
        self.next
    }

    /// The name at a place in the byte order of the names, counted from 0.
    pub fn name(&self, at: usize) -> &Name
        requires { at < fin.len (contents_of self.now).spaces }
        ensures { slice_get (fin.keys (contents_of self.now).spaces) at ≡ Some result.now }
    {
        self.spaces.name(at)
    }

    /// The same namespaces and the same next version once more. The two share all, so it costs a
    /// count that goes up by one.
    pub fn shared(&self) -> Mem<Store>
        ensures { IfOk result (λ store. contents_of store ≡ contents_of self.now) }
    {
        Ok(Store {
            spaces: Arc::try_clone(&self.spaces)?,
            next: self.next,
        })
    }

    /// The version and the table of a namespace. `None` where it is not there.
    ///
    /// It compares the name with at most nine others.
    pub fn get(&self, name: &Name) -> Option<(u64, &Dtab)>
        ensures { option_map shown_space result ≡ fin.get (contents_of self.now).spaces name.now }
    {
        match self.spaces.get(name) {
            Some(space) => Some((space.version, &*space.dtab)),
            None => None,
        }
    }

    /// Prepares the store with a new namespace, which gets the next version. The table is shared,
    /// once the change is not refused.
    ///
    /// # Errors
    /// In this order: [`StoreFault::Exists`] with the version of the namespace that has the name,
    /// [`StoreFault::TooManyNames`] where there are 256, [`StoreFault::VersionsSpent`] where the
    /// next version is 2^64 - 1. [`StoreFault::OutOfMemory`] may come in place of each.
    pub fn prepare_create(
        &self,
        alloc: Global,
        name: &Name,
        dtab: &Dtab,
    ) -> Result<ReadyStore, StoreFault>
        ensures store { IfOk result
            (λ ready. prepared_of ready
            ≡ after_set (contents_of self.now) name.now (rules_of dtab.now)) }
        ensures taken { OnOk result (create_refusal (contents_of self.now) name.now ≡ None) }
        ensures refused { IfErr result
            (λ fault. fault ≢ StoreFault.OutOfMemory
            → create_refusal (contents_of self.now) name.now ≡ Some fault) }
    {
        if let Some(space) = self.spaces.get(name) {
            return Err(StoreFault::Exists(space.version));
        }
        if self.spaces.len() >= MOST_NAMES {
            return Err(StoreFault::TooManyNames);
        }
        self.set(alloc, name, dtab)
    }

    /// Prepares the store with another table for a namespace, which gets the next version. The
    /// table is shared, once the change is not refused.
    ///
    /// # Errors
    /// In this order: [`StoreFault::Missing`] where the namespace is not there,
    /// [`StoreFault::Stale`] with its version where `version` is another,
    /// [`StoreFault::VersionsSpent`] where the next version is 2^64 - 1.
    /// [`StoreFault::OutOfMemory`] may come in place of each.
    pub fn prepare_put(
        &self,
        alloc: Global,
        name: &Name,
        version: Option<u64>,
        dtab: &Dtab,
    ) -> Result<ReadyStore, StoreFault>
        ensures store { IfOk result
            (λ ready. prepared_of ready
            ≡ after_set (contents_of self.now) name.now (rules_of dtab.now)) }
        ensures taken { OnOk result (put_refusal (contents_of self.now) name.now version ≡ None) }
        ensures refused { IfErr result
            (λ fault. fault ≢ StoreFault.OutOfMemory
            → put_refusal (contents_of self.now) name.now version ≡ Some fault) }
    {
        self.expect(name, version)?;
        self.set(alloc, name, dtab)
    }

    /// Prepares the store without a namespace. The next version stays.
    ///
    /// # Errors
    /// In this order: [`StoreFault::Missing`] where the namespace is not there,
    /// [`StoreFault::Stale`] with its version where `version` is another.
    /// [`StoreFault::OutOfMemory`] may come in place of each.
    pub fn prepare_delete(
        &self,
        alloc: Global,
        name: &Name,
        version: Option<u64>,
    ) -> Result<ReadyStore, StoreFault>
        ensures store { IfOk result
            (λ ready. prepared_of ready ≡ after_delete (contents_of self.now) name.now) }
        ensures taken { OnOk result
            (delete_refusal (contents_of self.now) name.now version ≡ None) }
        ensures refused { IfErr result
            (λ fault. fault ≢ StoreFault.OutOfMemory
            → delete_refusal (contents_of self.now) name.now version ≡ Some fault) }
    {
        self.expect(name, version)?;
        let mut spaces = self.spaces.copied()?;
        spaces.remove(name);
        Ok(ReadyStore {
            next: Store {
                spaces: Arc::new(alloc, spaces)?,
                next: self.next,
            },
        })
    }

    /// Makes this the prepared store, whatever it was. The two then share their parts. An `Err`
    /// changes nothing.
    pub fn absorb(&mut self, ready: &ReadyStore) -> Mem<()>
        ensures ok { OnOk result (contents_of self.new ≡ prepared_of ready.now) }
        ensures err { OnErr result (contents_of self.new ≡ contents_of self.old) }
    {
        let spaces = Arc::try_clone(&ready.next.spaces)?;
        *self = Store {
            spaces,
            next: ready.next.next,
        };
        Ok(())
    }

    /// Whether a namespace is there, with the version that is expected, if one is.
    fn expect(&self, name: &Name, version: Option<u64>) -> Result<(), StoreFault>
        ensures ok { OnOk result (delete_refusal (contents_of self.now) name.now version ≡ None) }
        ensures err { IfErr result
            (λ fault. delete_refusal (contents_of self.now) name.now version ≡ Some fault) }
    {
        let Some(space) = self.spaces.get(name) else {
            return Err(StoreFault::Missing);
        };
        match version {
            Some(expected) if expected != space.version => Err(StoreFault::Stale(space.version)),
            _ => Ok(()),
        }
    }

    /// Prepares the store with a table for a namespace, which gets the next version.
    fn set(&self, alloc: Global, name: &Name, dtab: &Dtab) -> Result<ReadyStore, StoreFault>
        requires { fin.len (after_set (contents_of self.now) name.now (rules_of dtab.now)).spaces
            ≤ 256 }
        ensures store { IfOk result
            (λ ready. prepared_of ready
            ≡ after_set (contents_of self.now) name.now (rules_of dtab.now)) }
        ensures taken { OnOk result (spent_refusal (contents_of self.now) ≡ None) }
        ensures refused { IfErr result
            (λ fault. fault ≢ StoreFault.OutOfMemory
            → spent_refusal (contents_of self.now) ≡ Some fault) }
    {
        if self.next == u64::MAX {
            return Err(StoreFault::VersionsSpent);
        }
        let mut spaces = self.spaces.copied()?;
        spaces.set(name, self.next, Arc::new(alloc, dtab.copied(alloc)?)?)?;
        Ok(ReadyStore {
            next: Store {
                spaces: Arc::new(alloc, spaces)?,
                next: self.next + 1,
            },
        })
    }
}
