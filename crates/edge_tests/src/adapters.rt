//! The adapters over the standard streams and the file system.
use line_base::{Failed, Folder, FolderFault, Found, Mem, Sink, Source};
use net_edge::{FileSystem, ReaderSource, WriterSink};
use std::os::unix::fs::symlink;
use std::test::Fail;
use std::{fs, io};

/// What three reads of a source give: one of four bytes at most, one of none, and one of four
/// again; and the first two of those bytes then.
fn read_thrice<S: Source>(source: &mut S) -> ([Result<usize, Failed>; 3], [u8; 2]) {
    let mut into = [0u8; 4];
    let first = source.read(&mut into);
    let empty = source.read(&mut []);
    let end = source.read(&mut into);
    ([first, empty, end], [into[0], into[1]])
}

/// What four writes to a sink give: of two bytes, of none, of two again, and of one.
fn write_often<K: Sink>(sink: &mut K) -> [Result<usize, Failed>; 4] {
    let first = sink.write(b"cd");
    let empty = sink.write(b"");
    let second = sink.write(b"ef");
    let third = sink.write(b"f");
    [first, empty, second, third]
}

/// A reader's end is an end and no fault, and a writer that takes nothing is at fault.
#[test]
fn over_readers_and_writers(rt: HostRuntime) {
    let text: &[u8] = b"ab";
    let mut source = ReaderSource::of(text);
    let read = read_thrice(&mut source);
    drop(source);
    let mut room = [0u8; 3];
    let full: &mut [u8] = &mut room;
    let mut sink = WriterSink::of(full);
    let written = write_often(&mut sink);
    drop(sink);
    assert_eq!(rt; read, ([Ok(2), Ok(0), Ok(0)], *b"ab"));
    assert_eq!(rt; written, [Ok(2), Ok(0), Ok(1), Err(Failed)]);
}

/// Makes a folder of files, of a folder, and of links to a file and to nothing. It lies where the
/// test runs.
fn lay_out(rt: &HostRuntime) -> io::Result<()> {
    fs::create_dir_all(rt, "files/inner")?;
    fs::write(rt, "files/web", "127.0.0.1 9001\n")?;
    fs::write(rt, "files/b", "")?;
    fs::write(rt, "files/a", "")?;
    fs::write(rt, "files/B", "")?;
    symlink(rt, "web", "files/link")?;
    symlink(rt, "gone", "files/loose")
}

/// Adds the names of files, in the order told, each ended by a blank.
fn add_names(names: &[String], told: &mut String) -> Mem<()> {
    for name in names {
        told.push_str(name.as_str())?;
        told.push_str(" ")?;
    }
    Ok(())
}

/// Adds the names of the files of a folder, or that they can't be read, ended by a bar.
fn tell_names<F: Folder>(folder: &mut F, path: &str, told: &mut String) -> Mem<()> {
    let Ok(names) = folder.names(path) else {
        return told.push_str("failed|");
    };
    let added = add_names(names.items(), told);
    drop(names);
    added?;
    told.push_str("|")
}

/// Adds the text of a file.
fn add_text(bytes: &[u8], told: &mut String) -> Mem<()> {
    match str::from_utf8(bytes) {
        Ok(text) => told.push_str(text),
        Err(_) => told.push_str("no text"),
    }
}

/// Adds what a read of so many bytes at most says of a file, ended by a bar: its text, or why there
/// is none.
fn tell_file<F: Folder>(folder: &mut F, path: &str, most: usize, told: &mut String) -> Mem<()> {
    let found = folder.read(path, most);
    let added = match &found {
        Ok(Found::Bytes(bytes)) => add_text(bytes.as_slice(), told),
        Ok(Found::Longer) => told.push_str("longer"),
        Ok(Found::Absent) => told.push_str("absent"),
        Err(FolderFault::Failed) => told.push_str("failed"),
        Err(FolderFault::OutOfMemory) => told.push_str("out of memory"),
    };
    drop(found);
    added?;
    told.push_str("|")
}

/// Files, and how many bytes of each are read at most. Their paths are absolute, but for the last.
const FILES: [(&str, usize); 6] = [
    ("/proc/self/cwd/files/web", 15),
    ("/proc/self/cwd/files/web", 14),
    ("/proc/self/cwd/files/gone", 15),
    ("/proc/self/cwd/files/web/x", 15),
    ("/proc/self/cwd/files/inner", 15),
    ("./files/web", 15),
];

/// Tells of two folders and of these files.
fn tell<F: Folder>(folder: &mut F, told: &mut String) -> Mem<()> {
    tell_names(folder, "/proc/self/cwd/files/.", told)?;
    tell_names(folder, "/proc/self/cwd/files/gone", told)?;
    for (path, most) in FILES {
        tell_file(folder, path, most, told)?;
    }
    Ok(())
}

/// Files and folders of the system: what is there, what is not, and what can't be read. A path that
/// is relative begins at the folder where the test runs.
#[test]
fn over_the_file_system(rt: HostRuntime) -> Result<(), Fail> {
    lay_out(&rt)?;
    let mut told = String::new(rt.alloc());
    let gathered = tell(&mut FileSystem::of(&rt), &mut told);
    fs::remove_dir_all(&rt, "files")?;
    assert_eq!(rt;
        told.as_str(),
        "B a b link web |failed|127.0.0.1 9001\n|longer|absent|absent|failed|127.0.0.1 9001\n|"
    );
    drop(told);
    gathered?;
    Ok(())
}
