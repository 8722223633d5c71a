//! What is told on standard error of a file that is read: of a configuration that is right, and
//! does what few want, and of a table that is looked through.
ghost use Rattle.std.specs.Prelude.{◌≡◌};

use crate::notes::tell_notes;
use line_base::{Folder, FolderFault, Found, NameList};
use linker_config::read_config;

/// What is told of a configuration whose table covers all that requests' paths begin with.
const COVERED: &str = "linker: an entry of routers[0].dtab covers routers[0].dstPrefix, so it is \
    tried before every entry of the namespace";

/// What is told of a configuration of which other machines may have requests sent anywhere.
const HEARD: &str = "linker: routers[0].servers[0].clearContext is not there and its ip is not \
    loopback, so any client may name any address in l5d-dtab (clearContext false says it is meant)";

/// What a file is of which there may be something to tell.
#[derive(Clone, Copy, Drop)]
pub enum Expected {
    /// A configuration.
    Config,
    /// A table.
    Table,
}

/// A folder that tells what people should know of the first file when that is read. It is the
/// folder that it stands before in all that contracts say, and each file is read once.
pub struct WarningFolder<'a, R, F> {
    rt: &'a R,
    folder: F,
    /// What the file is that is read next, if there may be something to tell of it.
    expected: Option<Expected>,
}

impl<R, F: Drop> Drop for WarningFolder<'_, R, F> {
    fn drop(self) {
        let WarningFolder {
            rt: _,
            folder,
            expected: _,
        } = self;
        drop(folder);
    }
}

/// Warns of a right configuration whose table covers the prefix of requests' paths, and of one by
/// which clients that may be anybody have requests sent anywhere.
fn warn_of<R: Eprint + AllocGlobal>(rt: &R, text: &[u8]) {
    let Ok(config) = read_config(rt.alloc(), text) else {
        return;
    };
    let covers = config.table_covers_prefix();
    let hears = config.hears_strangers();
    drop(config);
    if covers {
        let _ = eprintln!(rt; "{COVERED}");
    }
    if hears {
        let _ = eprintln!(rt; "{HEARD}");
    }
}

impl<'a, R: Eprint + AllocGlobal, F: Folder> WarningFolder<'a, R, F> {
    /// This folder. The first file that is read in it is expected to be this, if anything.
    pub fn of(rt: &'a R, folder: F, expected: Option<Expected>) -> WarningFolder<'a, R, F> {
        WarningFolder {
            rt,
            folder,
            expected,
        }
    }

    /// Tells of the first file that is found, where it is what was expected.
    fn tell_of(&mut self, found: &Found)
        ensures { self.new.folder ≡ self.old.folder }
    {
        if let Found::Bytes(text) = found {
            match self.expected {
                Some(Expected::Config) => warn_of(self.rt, text.as_slice()),
                Some(Expected::Table) => tell_notes(self.rt, text.as_slice()),
                None => {}
            }
        }
        self.expected = None;
    }
}

impl<R: Eprint + AllocGlobal, F: Folder> Folder for WarningFolder<'_, R, F> {
    ghost filed = { λ w. F.filed w.folder };

    fn names(&mut self, folder: &str) -> Result<NameList, FolderFault> {
        self.folder.names(folder)
    }

    fn read(&mut self, path: &str, most: usize) -> Result<Found, FolderFault> {
        let read = self.folder.read(path, most);
        if let Ok(found) = &read {
            self.tell_of(found);
        }
        read
    }
}
