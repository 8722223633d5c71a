//! Folders in memory.
ghost use Rattle.std.specs.Prelude.{◌≡◌, ◌↔◌, [], map, IfOk, Err, Some};
ghost use Rattle.std.specs.String.{string_bytes};
ghost use Rattle.line_base.specs.Files.{AreNames, Finds, FindsAt, HasFolderCause, IsWithin, Names};
ghost use Rattle.line_base.specs.Files.{file_at, names_in, path_of};
ghost use Rattle.line_doubles.specs.Memory.{FailsNext, called, filed_of};

use crate::plan::CallPlan;
use line_base::{Bytes, Folder, FolderFault, Found, Mem, NameList};
use std::alloc::Global;
use std::marker::Model;

/// A plain file: the folder that it is in, its name there, and its bytes.
pub struct MemFile {
    folder: String,
    name: String,
    bytes: Vec<u8>,
}

impl Drop for MemFile {
    fn drop(self) {
        let MemFile {
            folder,
            name,
            bytes,
        } = self;
        drop(folder);
        drop(name);
        drop(bytes);
    }
}

impl Model for MemFile {
    ghost use Rattle.std.specs.String.{string_bytes};
    ghost use Rattle.line_base.specs.Files.{File};

    ghost Value = { File };

    ghost view = { λ f. record {
      folder = string_bytes f.folder;
      name = string_bytes f.name;
      bytes = f.bytes.items;
    } };
}

impl MemFile {
    /// The file at `folder`, a slash, and `name`. It takes no memory.
    pub fn of(folder: String, name: String, bytes: Vec<u8>) -> MemFile
        ensures { result ≡ record {
          folder = string_bytes folder;
          name = string_bytes name;
          bytes = bytes.items;
        } }
    {
        MemFile {
            folder,
            name,
            bytes,
        }
    }

    /// Its path.
    fn path(&self, alloc: Global) -> Mem<Bytes>
        ensures { IfOk result (λ path. path.items ≡ path_of self.now) }
    {
        let mut path = Vec::from_slice(alloc, self.folder.as_bytes())?;
        path.push(b'/')?;
        path.extend_from_slice(self.name.as_bytes())?;
        Ok(path)
    }
}

/// Folders in memory. Calls are counted from 0.
pub struct MemFolder {
    files: Vec<MemFile>,
    plan: CallPlan,
    faults: u64,
}

impl Drop for MemFolder {
    fn drop(self) {
        let MemFolder {
            files,
            plan,
            faults: _,
        } = self;
        drop(files);
        drop(plan);
    }
}

impl Model for MemFolder {
    ghost use Rattle.line_doubles.specs.Memory.{Filing};

    ghost Value = { Filing };

    ghost view = { λ d. record { files = d.files.items; plan = d.plan; faults = d.faults } };
}

impl MemFolder {
    /// These files. The calls whose numbers are in `failing` fail.
    pub fn of(alloc: Global, files: Vec<MemFile>, failing: Vec<u64>) -> MemFolder
        ensures files { result.files ≡ files.items }
        ensures plan { result.plan ≡ record { sizes = []; failing = failing.items; calls = 0 } }
        ensures faults { result.faults ≡ 0 }
    {
        MemFolder {
            files,
            plan: CallPlan::of(Vec::new(alloc), failing),
            faults: 0,
        }
    }

    /// How many calls failed.
    pub fn faults(&self) -> u64
        ensures { result ≡ self.now.faults }
    {
        self.faults
    }
}

/// The names of a folder's files, in the order of the files.
fn names_of(alloc: Global, files: &[MemFile], folder: &str) -> Mem<Vec<String>>
    ensures { IfOk result
        (λ names. map (λ n. string_bytes n) names.items ≡ names_in files.now folder.now) }
{
    let mut names = Vec::new(alloc);
    for file in files {
        if file.folder.as_str() == folder {
            names.push(file.name.clone()?)?;
        }
    }
    Ok(names)
}

/// The names of a folder's files, each once, in the order of their bytes.
fn sorted_names(alloc: Global, files: &[MemFile], folder: &str) -> Mem<NameList>
    ensures { IfOk result (AreNames files.now folder.now) }
{
    let mut names = names_of(alloc, files, folder)?;
    names.sort()?;
    names.dedup();
    Ok(NameList::of(names))
}

/// What is at a path.
fn find(alloc: Global, files: &[MemFile], path: &[u8], most: usize) -> Mem<Found>
    ensures found { IfOk result (Finds (file_at files.now path.now) most) }
    ensures within { IfOk result (λ found. IsWithin found most) }
{
    for file in files {
        if file.path(alloc)?.as_slice() == path {
            if file.bytes.len() > most {
                return Ok(Found::Longer);
            }
            return Ok(Found::Bytes(Vec::from_slice(alloc, file.bytes.as_slice())?));
        }
    }
    Ok(Found::Absent)
}

impl Folder for MemFolder {
    ghost filed = { filed_of };

    /// Fails exactly at the calls that are listed.
    fn names(&mut self, folder: &str) -> Result<NameList, FolderFault>
        ensures names { IfOk result (λ names. Names (Some self.old.files) folder.now names) }
        ensures same { self.new.files ≡ self.old.files }
        ensures cause { HasFolderCause self.old.faults self.new.faults result }
        ensures plan { self.new.plan ≡ called self.old.plan }
        ensures fails { (result ≡ Err FolderFault.Failed) ↔ FailsNext self.old.plan }
    {
        if self.plan.call().is_err() {
            self.faults = self.faults.saturating_add(1);
            return Err(FolderFault::Failed);
        }
        let alloc = *self.files.allocator();
        match sorted_names(alloc, self.files.as_slice(), folder) {
            Ok(names) => Ok(names),
            Err(_) => Err(FolderFault::OutOfMemory),
        }
    }

    /// Fails exactly at the calls that are listed.
    fn read(&mut self, path: &str, most: usize) -> Result<Found, FolderFault>
        ensures found { IfOk result (λ found. FindsAt (Some self.old.files) path.now most found) }
        ensures within { IfOk result (λ found. IsWithin found most) }
        ensures same { self.new.files ≡ self.old.files }
        ensures cause { HasFolderCause self.old.faults self.new.faults result }
        ensures plan { self.new.plan ≡ called self.old.plan }
        ensures fails { (result ≡ Err FolderFault.Failed) ↔ FailsNext self.old.plan }
    {
        if self.plan.call().is_err() {
            self.faults = self.faults.saturating_add(1);
            return Err(FolderFault::Failed);
        }
        let alloc = *self.files.allocator();
        match find(alloc, self.files.as_slice(), path.as_bytes(), most) {
            Ok(found) => Ok(found),
            Err(_) => Err(FolderFault::OutOfMemory),
        }
    }
}
