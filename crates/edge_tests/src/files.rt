//! Files that are read in several pieces, and names that can't be told.
use crate::bytes::{are_from, telling};
use line_base::{Folder, Found};
use net_edge::FileSystem;
use std::alloc::AllocGlobal;
use std::test::Fail;
use std::{fs, io};

/// How many bytes the file has: more than three reads take.
const SIZE: usize = 200_000;

/// Makes an empty file whose name is no UTF-8; whether it could.
fn make_unnamed() -> bool {
    let descriptor = os::create(b"large/\xff");
    descriptor >= 0 && libc::close(descriptor) == 0
}

/// Makes a folder of a large file and of one whose name is no UTF-8. It lies where the test runs.
fn lay_out(rt: &HostRuntime, bytes: &[u8]) -> io::Result<bool> {
    fs::create_dir_all(rt, "large")?;
    fs::write(rt, "large/file", bytes)?;
    Ok(make_unnamed())
}

/// Removes them.
fn clear(rt: &HostRuntime) -> io::Result<()> {
    os::unlink(b"large/\xff");
    fs::remove_dir_all(rt, "large")
}

/// Whether a read of so many bytes at most gives all of the file.
fn is_whole<F: Folder>(folder: &mut F, most: usize) -> bool {
    let found = folder.read("large/file", most);
    let is_whole = match &found {
        Ok(Found::Bytes(bytes)) => bytes.len() == SIZE && are_from(bytes.as_slice(), 0),
        _ => false,
    };
    drop(found);
    is_whole
}

/// Whether a read of so many bytes at most says that the file is longer.
fn is_longer<F: Folder>(folder: &mut F, most: usize) -> bool {
    let found = folder.read("large/file", most);
    let is_longer = matches!(&found, Ok(Found::Longer));
    drop(found);
    is_longer
}

/// Whether the names of the folder are that of the large file.
fn has_one_name<F: Folder>(folder: &mut F) -> bool {
    let Ok(names) = folder.names("large") else {
        return false;
    };
    let has_one = match names.items() {
        [name] => name.as_str() == "file",
        _ => false,
    };
    drop(names);
    has_one
}

/// Whether a file is a folder whose names can be told.
fn is_folder<F: Folder>(folder: &mut F) -> bool {
    let names = folder.names("large/file");
    let is_folder = names.is_ok();
    drop(names);
    is_folder
}

/// What is true of these files.
fn tell<F: Folder>(folder: &mut F) -> [bool; 5] {
    [
        is_whole(folder, SIZE),
        is_longer(folder, SIZE - 1),
        is_longer(folder, 65_536),
        has_one_name(folder),
        is_folder(folder),
    ]
}

/// The same once they are laid out, whether they could be, and whether they could be removed.
fn told_of_files(rt: &HostRuntime) -> Result<([bool; 5], bool), Fail> {
    let bytes = telling(rt.alloc(), SIZE)?;
    let is_laid_out = lay_out(rt, bytes.as_slice());
    drop(bytes);
    let told = tell(&mut FileSystem::of(rt));
    clear(rt)?;
    Ok((told, is_laid_out?))
}

/// A file of more than one piece is read whole and in order. One whose name is no UTF-8 is not
/// named, and a file has no names.
#[test]
fn large_files_are_read(rt: HostRuntime) -> Result<(), Fail> {
    let told = told_of_files(&rt)?;
    assert_eq!(rt; told, ([true, true, true, true, false], true));
    Ok(())
}
