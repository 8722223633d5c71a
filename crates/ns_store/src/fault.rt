//! Why a change of the store is refused.
ghost use Rattle.std.specs.Prelude.{◌≡◌};

use std::alloc::{AllocError, AllocFailed};
use thiserror::Error;

/// Why a change of a store was not prepared.
#[derive(Clone, Copy, Debug, PartialEq, Eq, Error)]
pub enum StoreFault {
    /// The namespace is there already, with this version.
    #[error("the namespace is there, with version {0}")]
    Exists(u64),
    /// The namespace is new, and 256 are there.
    #[error("there are too many namespaces")]
    TooManyNames,
    /// The next version would be 2^64 - 1, which is given to none.
    #[error("the versions are spent")]
    VersionsSpent,
    /// The namespace is not there.
    #[error("there is no such namespace")]
    Missing,
    /// The namespace has this version, and another was expected.
    #[error("the namespace has another version, {0}")]
    Stale(u64),
    /// There was no memory for it.
    #[error("out of memory")]
    OutOfMemory,
}

impl From<AllocError> for StoreFault {
    ghost use Rattle.ns_store.specs.declared.fault.StoreFault.{StoreFault};

    ghost from_gives = { λ _ fault. fault ≡ StoreFault.OutOfMemory };

    fn from(_error: AllocError) -> StoreFault {
        StoreFault::OutOfMemory
    }
}

impl<T: Drop> From<AllocFailed<T>> for StoreFault {
    ghost use Rattle.ns_store.specs.declared.fault.StoreFault.{StoreFault};

    ghost from_gives = { λ _ fault. fault ≡ StoreFault.OutOfMemory };

    fn from(_error: AllocFailed<T>) -> StoreFault {
        StoreFault::OutOfMemory
    }
}
