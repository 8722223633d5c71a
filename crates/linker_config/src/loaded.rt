//! Services with their addresses, as a folder gives them.
ghost use Rattle.std.specs.Prelude.{◌≡◌};

use addr_book::{AddrList, Name};
use std::alloc::AllocError;
use std::marker::Model;
use thiserror::Error;

/// A service and its addresses.
#[derive(Drop)]
pub struct LoadedItem {
    /// The name of the service.
    pub service: Name,
    /// Its addresses.
    pub list: AddrList,
}

/// Services with their addresses. Contracts see the list of them.
pub struct Loaded {
    items: Vec<LoadedItem>,
}

impl Drop for Loaded {
    fn drop(self) {
        let Loaded { items } = self;
        drop(items);
    }
}

impl Model for Loaded {
    ghost use Rattle.std.specs.Prelude.{List};
    ghost use Rattle.linker_config.specs.declared.loaded.LoadedItem.{LoadedItem};

    ghost Value = { List LoadedItem };

    ghost view = { λ l. l.items.items };
}

impl Loaded {
    /// The list of these services. It takes no memory.
    pub fn of(items: Vec<LoadedItem>) -> Loaded
        ensures { result ≡ items.items }
    {
        Loaded { items }
    }

    /// The services, in order.
    pub fn items(&self) -> &[LoadedItem]
        ensures { result.now ≡ self.now }
    {
        self.items.as_slice()
    }

    /// The services, in order.
    pub fn into_items(self) -> Vec<LoadedItem>
        ensures { result.items ≡ self }
    {
        let Loaded { items } = self;
        items
    }
}

/// Why the services of a folder were not loaded: the first cause in the order of the files' names.
#[derive(Debug, Drop, Error)]
pub enum LoadFault {
    /// The file of this service has more than 1,048,576 bytes, or it has no bad line and more than
    /// 1,024 lines with an address.
    #[error("the file of the service {name} is too long")]
    LongFile {
        /// The service, whose name is the file's.
        name: Name,
    },
    /// The file of this service has a bad line.
    #[error("the file of the service {name} is bad at line {line}")]
    BadFile {
        /// The service, whose name is the file's.
        name: Name,
        /// The first bad line, counted from 1; a number above 4,294,967,295 is given as that.
        line: u32,
    },
    /// The folder could not be read. Its count of faults rose.
    #[error("the folder of services could not be read")]
    FolderFault,
    /// There was no memory for the services.
    #[error("out of memory")]
    OutOfMemory,
}

impl From<AllocError> for LoadFault {
    ghost use Rattle.linker_config.specs.declared.loaded.LoadFault.{LoadFault};

    ghost from_gives = { λ _ fault. fault ≡ LoadFault.OutOfMemory };

    fn from(_error: AllocError) -> LoadFault {
        LoadFault::OutOfMemory
    }
}
