//! Why a request names no path, or says no table.
ghost use Rattle.std.specs.Prelude.{◌≡◌};

use std::alloc::AllocError;
use thiserror::Error;

/// Why a request is not identified.
#[derive(Clone, Copy, Debug, PartialEq, Eq, Error)]
pub enum IdentifyFault {
    /// It has not what the rule names requests by.
    #[error("the request names no path")]
    Unidentified,
    /// There was no memory for the path.
    #[error("out of memory")]
    OutOfMemory,
}

impl From<AllocError> for IdentifyFault {
    ghost use Rattle.identifier.specs.declared.fault.IdentifyFault.{IdentifyFault};

    ghost from_gives = { λ _ fault. fault ≡ IdentifyFault.OutOfMemory };

    fn from(_error: AllocError) -> IdentifyFault {
        IdentifyFault::OutOfMemory
    }
}

/// Why a request's own table is refused.
#[derive(Clone, Copy, Debug, PartialEq, Eq, Error)]
pub enum LocalFault {
    /// One of its values is refused as a table's text, or together they have more than 1,024
    /// entries.
    #[error("a table of the request is refused")]
    BadDtab,
    /// There was no memory for the table.
    #[error("out of memory")]
    OutOfMemory,
}

impl From<AllocError> for LocalFault {
    ghost use Rattle.identifier.specs.declared.fault.LocalFault.{LocalFault};

    ghost from_gives = { λ _ fault. fault ≡ LocalFault.OutOfMemory };

    fn from(_error: AllocError) -> LocalFault {
        LocalFault::OutOfMemory
    }
}
