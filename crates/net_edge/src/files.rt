//! The file system as a folder.
ghost use Rattle.std.specs.Prelude.{◌≡◌, None, IsErr, IfOk};
ghost use Rattle.line_base.specs.Files.{HasFolderCause, IsWithin};

use line_base::{Folder, FolderFault, Found, NameList};
use std::alloc::Global;
use std::fs::{self, DirEntry};
use std::io::{self, ErrorKind, Read};
use std::rt::Files;

/// The file system of the process. A path that is relative begins at its working directory; a
/// symbolic link stands for what it leads to.
#[derive(Drop)]
pub struct FileSystem<'a, R> {
    rt: &'a R,
    faults: u64,
}

impl<'a, R> FileSystem<'a, R> {
    /// The file system that is reached by `rt`, with no fault so far.
    pub fn of(rt: &'a R) -> FileSystem<'a, R>
        ensures { result.faults ≡ 0 }
    {
        FileSystem { rt, faults: 0 }
    }

    /// What a call answers that ended with an error of this kind: out of memory, or a fault, which
    /// is counted.
    fn fail<T>(&mut self, kind: ErrorKind) -> Result<T, FolderFault>
        ensures err { IsErr result }
        ensures cause { HasFolderCause self.old.faults self.new.faults result }
    {
        if kind == ErrorKind::OutOfMemory {
            return Err(FolderFault::OutOfMemory);
        }
        self.faults = self.faults.saturating_add(1);
        Err(FolderFault::Failed)
    }
}

/// Whether an error says that there is no such file.
fn is_absent(kind: ErrorKind) -> bool {
    matches!(kind, ErrorKind::NotFound | ErrorKind::NotADirectory)
}

/// The name of an entry of a folder, if it is a plain file. One that is gone by now is none.
fn plain_name<R: Files + AllocGlobal>(rt: &R, entry: &DirEntry<R>) -> io::Result<Option<String>> {
    match fs::metadata(rt, entry.path()) {
        Ok(metadata) if metadata.is_file() => {
            let name = String::from_str(rt.alloc(), entry.file_name())?;
            Ok(Some(name))
        }
        Ok(_) => Ok(None),
        Err(error) if is_absent(error.kind()) => Ok(None),
        Err(error) => Err(error),
    }
}

/// Puts the name of a plain file among a folder's entries behind those before it. One whose name is
/// no UTF-8 is none that can be named.
fn add_name<R: Files + AllocGlobal + Drop>(
    rt: &R,
    names: &mut Vec<String>,
    entry: io::Result<DirEntry<R>>,
) -> io::Result<()> {
    let entry = match entry {
        Ok(entry) => entry,
        Err(error) if error.kind() == ErrorKind::InvalidFilename => return Ok(()),
        Err(error) => return Err(error),
    };
    let name = plain_name(rt, &entry);
    drop(entry);
    if let Some(name) = name? {
        names.push(name)?;
    }
    Ok(())
}

/// The names of a folder's plain files, in the order of their bytes.
fn plain_names<R: Files + AllocGlobal + Clone + Drop>(
    rt: &R,
    folder: &str,
) -> io::Result<NameList> {
    let mut names = Vec::new(rt.alloc());
    for entry in fs::read_dir(rt, folder)? {
        add_name(rt, &mut names, entry)?;
    }
    names.sort()?;
    Ok(NameList::of(names))
}

/// Bytes of one read of a file.
const PIECE: usize = 65_536;

/// The bytes of a file, if it has at most so many.
fn read_within<F: Read>(alloc: Global, file: &mut F, most: usize) -> io::Result<Found>
    ensures { IfOk result (λ found. IsWithin found most) }
{
    let mut all: Vec<u8> = Vec::new(alloc);
    let mut piece = [0u8; PIECE];
    while all.len() <= most {
        let count = file.read(&mut piece)?;
        if count == 0 {
            return Ok(Found::Bytes(all));
        }
        if count > most - all.len() {
            return Ok(Found::Longer);
        }
        all.extend_from_slice(&piece[..count])?;
    }
    unreachable!()
}

impl<R: Files + AllocGlobal + Clone + Drop> Folder for FileSystem<'_, R> {
    ghost filed = { λ d. record { files = None; faults = d.faults } };

    fn names(&mut self, folder: &str) -> Result<NameList, FolderFault> {
        match plain_names(self.rt, folder) {
            Ok(names) => Ok(names),
            Err(error) => self.fail(error.kind()),
        }
    }

    fn read(&mut self, path: &str, most: usize) -> Result<Found, FolderFault> {
        let mut file = match fs::open(self.rt, path) {
            Ok(file) => file,
            Err(error) if is_absent(error.kind()) => return Ok(Found::Absent),
            Err(error) => return self.fail(error.kind()),
        };
        let found = read_within(self.rt.alloc(), &mut file, most);
        drop(file);
        match found {
            Ok(found) => Ok(found),
            Err(error) => self.fail(error.kind()),
        }
    }
}
