//! Loading the services of a folder.
ghost use Rattle.std.specs.Prelude.{◌≡◌, ◌≤◌, List, length, map, Some, IfOk, string_bytes};
ghost use Rattle.line_base.specs.Files.{File};
ghost use Rattle.linker_config.specs.Folder.{file_told, path_in, services_told, Loads};
ghost use Rattle.linker_config.specs.Loading.{Adds, Comes, FileSays, HasLoadCause, Steps};

use crate::Mem;
use crate::loaded::{LoadFault, Loaded, LoadedItem};
use addr_book::{AddrFault, Name, NameFault, read_addrs};
use line_base::{Folder, FolderFault, Found};
use std::alloc::Global;

/// The most bytes of a service's file.
const MOST_FILE_BYTES: usize = 1_048_576;

/// Loads the services of a folder: each file whose name is a service's gives the service of that
/// name with the addresses in it ([`read_addrs`]), in the order of the names' bytes. Files with
/// other names are passed over, and so is a file that is gone when it is read. A file is read at
/// the text of the root, `/`, and its name.
///
/// It reads one file at a time, and keeps the services alone.
///
/// # Errors
/// The first file that is refused, in the order of the names, decides: [`LoadFault::LongFile`] or
/// [`LoadFault::BadFile`]. Where the folder could not be read, [`LoadFault::FolderFault`], and its
/// count of faults rose. Nothing is loaded then.
pub fn load_folder<F: Folder>(
    alloc: Global,
    folder: &mut F,
    root: &str,
) -> Result<Loaded, LoadFault>
    ensures loads { Loads (F.filed folder.old).files root.now result }
    ensures files { (F.filed folder.new).files ≡ (F.filed folder.old).files }
    ensures cause { HasLoadCause (F.filed folder.old).faults (F.filed folder.new).faults result }
{
    let names = match folder.names(root) {
        Ok(names) => names,
        Err(FolderFault::Failed) => return Err(LoadFault::FolderFault),
        Err(FolderFault::OutOfMemory) => return Err(LoadFault::OutOfMemory),
    };
    let items = load_names(alloc, folder, root, names.items())?;
    Ok(Loaded::of(items))
}

/// The services of some names of a folder, in the names' order.
fn load_names<F: Folder>(
    alloc: Global,
    folder: &mut F,
    root: &str,
    names: &[String],
) -> Result<Vec<LoadedItem>, LoadFault>
    ensures comes { (files : List File) → (F.filed folder.old).files ≡ Some files
        → Comes (services_told files root.now (map (λ n. string_bytes n) names.now)) result }
    ensures files { (F.filed folder.new).files ≡ (F.filed folder.old).files }
    ensures cause { HasLoadCause (F.filed folder.old).faults (F.filed folder.new).faults result }
{
    let mut items = Vec::new(alloc);
    for name in names {
        match load_name(alloc, folder, root, name.as_str(), &mut items) {
            Ok(()) => {}
            Err(fault) => return Err(fault),
        }
    }
    Ok(items)
}

/// Puts the service of a name of a folder behind others, if the name is a service's and its file is
/// there.
fn load_name<F: Folder>(
    alloc: Global,
    folder: &mut F,
    root: &str,
    name: &str,
    items: &mut Vec<LoadedItem>,
) -> Result<(), LoadFault>
    ensures steps { (files : List File) → (F.filed folder.old).files ≡ Some files
        → Steps files root.now name.now items.old.items items.new.items result }
    ensures files { (F.filed folder.new).files ≡ (F.filed folder.old).files }
    ensures cause { HasLoadCause (F.filed folder.old).faults (F.filed folder.new).faults result }
{
    let service = match Name::of(alloc, name.as_bytes()) {
        Ok(service) => service,
        Err(NameFault::NotName) => return Ok(()),
        Err(NameFault::OutOfMemory) => return Err(LoadFault::OutOfMemory),
    };
    let Ok(path) = path_of(alloc, root, name) else {
        return Err(LoadFault::OutOfMemory);
    };
    match folder.read(path.as_str(), MOST_FILE_BYTES) {
        Ok(Found::Absent) => Ok(()),
        Ok(Found::Longer) => Err(LoadFault::LongFile { name: service }),
        Ok(Found::Bytes(bytes)) => add_file(alloc, service, bytes.as_slice(), items),
        Err(FolderFault::Failed) => Err(LoadFault::FolderFault),
        Err(FolderFault::OutOfMemory) => Err(LoadFault::OutOfMemory),
    }
}

/// The path of a file in a folder.
fn path_of(alloc: Global, root: &str, name: &str) -> Mem<String>
    ensures { IfOk result (λ path. string_bytes path ≡ path_in root.now name.now) }
{
    let mut path = String::from_str(alloc, root)?;
    path.push_str("/")?;
    path.push_str(name)?;
    Ok(path)
}

/// Puts a service with the addresses of its file behind others.
fn add_file(
    alloc: Global,
    service: Name,
    text: &[u8],
    items: &mut Vec<LoadedItem>,
) -> Result<(), LoadFault>
    requires { length text.now ≤ 1048576 }
    ensures { Adds (file_told service text.now) items.old.items items.new.items result }
{
    let item = read_file(alloc, service, text)?;
    match items.push(item) {
        Ok(()) => Ok(()),
        Err(_) => Err(LoadFault::OutOfMemory),
    }
}

/// A service with the addresses of its file.
#[tactic(auto, unfolding(crate::specs::Folder::file_told))]
fn read_file(alloc: Global, service: Name, text: &[u8]) -> Result<LoadedItem, LoadFault>
    requires { length text.now ≤ 1048576 }
    ensures { FileSays (file_told service text.now) result }
{
    match read_addrs(alloc, text) {
        Ok(list) => Ok(LoadedItem { service, list }),
        Err(AddrFault::BadLine(line)) => Err(LoadFault::BadFile {
            name: service,
            line,
        }),
        Err(AddrFault::TooMany(_)) => Err(LoadFault::LongFile { name: service }),
        Err(AddrFault::OutOfMemory) => Err(LoadFault::OutOfMemory),
    }
}
