//! Folders of files.
ghost use Rattle.std.specs.Prelude.{◌≡◌, map, IfOk};
ghost use Rattle.std.specs.String.{string_bytes};

use crate::Bytes;
use std::marker::Model;

/// Names of files. Contracts see the list of them, each as its bytes.
pub struct NameList {
    items: Vec<String>,
}

impl Drop for NameList {
    fn drop(self) {
        let NameList { items } = self;
        drop(items);
    }
}

impl Model for NameList {
    ghost use Rattle.std.specs.Prelude.{List, ℕ, map};
    ghost use Rattle.std.specs.String.{string_bytes};

    ghost Value = { List (List ℕ) };

    ghost view = { λ l. map (λ n. string_bytes n) l.items.items };
}

impl NameList {
    /// The list of these names. It takes no memory.
    pub fn of(items: Vec<String>) -> NameList
        ensures { result ≡ map (λ n. string_bytes n) items.items }
    {
        NameList { items }
    }

    /// The names, in order.
    pub fn items(&self) -> &[String]
        ensures { map (λ n. string_bytes n) result.now ≡ self.now }
    {
        self.items.as_slice()
    }
}

/// What is at a path.
#[derive(Drop)]
pub enum Found {
    /// A file of these bytes.
    Bytes(Bytes),
    /// No file.
    Absent,
    /// A file of more bytes than were asked for.
    Longer,
}

/// Why a folder gave no answer.
#[derive(Clone, Copy, Debug, PartialEq, Eq)]
pub enum FolderFault {
    /// It could not be read. The folder's count of faults rose.
    Failed,
    /// There was no memory for the answer.
    OutOfMemory,
}

/// Folders of plain files.
pub trait Folder {
    ghost use Rattle.line_base.specs.Files.{Filed, FindsAt, HasFolderCause, IsWithin, Names};

    /// What they tell of themselves: the files, and how often a call failed.
    ghost filed: { Self → Filed };

    /// The names of a folder's plain files, each once, in the order of their bytes.
    fn names(&mut self, folder: &str) -> Result<NameList, FolderFault>
        ensures names { IfOk result (λ names. Names (filed self.old).files folder.now names) }
        ensures same { (filed self.new).files ≡ (filed self.old).files }
        ensures cause { HasFolderCause (filed self.old).faults (filed self.new).faults result };

    /// The file at a path, if it has at most so many bytes.
    fn read(&mut self, path: &str, most: usize) -> Result<Found, FolderFault>
        ensures found { IfOk result (λ found. FindsAt (filed self.old).files path.now most found) }
        ensures within { IfOk result (λ found. IsWithin found most) }
        ensures same { (filed self.new).files ≡ (filed self.old).files }
        ensures cause { HasFolderCause (filed self.old).faults (filed self.new).faults result };
}
