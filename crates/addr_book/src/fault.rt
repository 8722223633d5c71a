//! Why a change of the book is refused.
ghost use Rattle.std.specs.Prelude.{◌≡◌};

use std::alloc::{AllocError, AllocFailed};
use thiserror::Error;

/// Why a book was not prepared.
#[derive(Clone, Copy, Debug, PartialEq, Eq, Error)]
pub enum BookFault {
    /// It would have so many distinct addresses, which is more than 8,192.
    #[error("the book would have {0} addresses")]
    BookFull(u32),
    /// The service is new, and 4,096 are there.
    #[error("there are too many services")]
    TooManyServices,
    /// The service is not there.
    #[error("there is no such service")]
    Missing,
    /// There was no memory for it.
    #[error("out of memory")]
    OutOfMemory,
}

impl From<AllocError> for BookFault {
    ghost use Rattle.addr_book.specs.declared.fault.BookFault.{BookFault};

    ghost from_gives = { λ _ fault. fault ≡ BookFault.OutOfMemory };

    fn from(_error: AllocError) -> BookFault {
        BookFault::OutOfMemory
    }
}

impl<T: Drop> From<AllocFailed<T>> for BookFault {
    ghost use Rattle.addr_book.specs.declared.fault.BookFault.{BookFault};

    ghost from_gives = { λ _ fault. fault ≡ BookFault.OutOfMemory };

    fn from(_error: AllocFailed<T>) -> BookFault {
        BookFault::OutOfMemory
    }
}
