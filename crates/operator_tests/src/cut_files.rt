//! Files of the system of which writes are cut off or fail, and what such a file holds.

use std::alloc::Allocator;
use std::fs::{Metadata, OpenFile, OpenOptions, Permissions};
use std::io::{PipeReader, PipeWriter, Read, Seek, SeekFrom, Write};
use std::os::fd::BorrowedFd;
use std::os::unix::net::SocketAddr;
use std::path::PathBuf;
use std::rt::Files;
use std::{fs, io};

/// The files of a runtime, of which each opened one takes as many bytes as is said here of each of
/// its writes, in turn. At 0, and after the last, a write fails.
#[derive(Drop)]
pub(crate) struct CutFiles<'a, R> {
    pub(crate) rt: &'a R,
    pub(crate) takes: &'static [usize],
}

/// An opened one.
#[derive(Drop)]
pub(crate) struct CutFile<F> {
    file: F,
    takes: &'static [usize],
    writes: usize,
}

impl<F> CutFile<F> {
    /// How many bytes its next write takes.
    fn next_take(&mut self) -> usize {
        let taken = self.takes.get(self.writes);
        self.writes = self.writes.saturating_add(1);
        match taken {
            Some(taken) => *taken,
            None => 0,
        }
    }
}

impl<F: Write> Write for CutFile<F> {
    fn write(&mut self, buf: &[u8]) -> io::Result<usize> {
        let taken = self.next_take();
        if taken == 0 {
            return Err(io::Error::from(io::ErrorKind::StorageFull));
        }
        self.file.write(&buf[..taken.min(buf.len())])
    }

    fn flush(&mut self) -> io::Result<()> {
        self.file.flush()
    }
}

impl<F: Read> Read for CutFile<F> {
    fn read(&mut self, buf: &mut [u8]) -> io::Result<usize> {
        self.file.read(buf)
    }
}

impl<F: Seek> Seek for CutFile<F> {
    fn seek(&mut self, to: SeekFrom) -> io::Result<u64> {
        self.file.seek(to)
    }
}

impl<F: OpenFile> OpenFile for CutFile<F> {
    fn metadata(&self) -> io::Result<Metadata> {
        self.file.metadata()
    }

    fn set_len(&self, size: u64) -> io::Result<()> {
        self.file.set_len(size)
    }

    fn sync_all(&self) -> io::Result<()> {
        self.file.sync_all()
    }

    fn sync_data(&self) -> io::Result<()> {
        self.file.sync_data()
    }
}

impl<R: Files> Files for CutFiles<'_, R> {
    type File = CutFile<R::File>;

    type Dir = R::Dir;

    fn open_file(&self, how: &OpenOptions, path: &str) -> io::Result<CutFile<R::File>> {
        let file = self.rt.open_file(how, path)?;
        Ok(CutFile {
            file,
            takes: self.takes,
            writes: 0,
        })
    }

    fn open_dir(&self, path: &str) -> io::Result<R::Dir> {
        self.rt.open_dir(path)
    }

    fn metadata(&self, path: &str) -> io::Result<Metadata> {
        self.rt.metadata(path)
    }

    fn symlink_metadata(&self, path: &str) -> io::Result<Metadata> {
        self.rt.symlink_metadata(path)
    }

    fn copy(&self, from: &str, to: &str) -> io::Result<u64> {
        self.rt.copy(from, to)
    }

    fn rename(&self, from: &str, to: &str) -> io::Result<()> {
        self.rt.rename(from, to)
    }

    fn remove_file(&self, path: &str) -> io::Result<()> {
        self.rt.remove_file(path)
    }

    fn create_dir(&self, path: &str) -> io::Result<()> {
        self.rt.create_dir(path)
    }

    fn remove_dir(&self, path: &str) -> io::Result<()> {
        self.rt.remove_dir(path)
    }

    fn remove_dir_all<B: Allocator>(&self, alloc: B, path: &str) -> io::Result<()> {
        self.rt.remove_dir_all(alloc, path)
    }

    fn canonicalize<B: Allocator>(&self, alloc: B, path: &str) -> io::Result<PathBuf<B>> {
        self.rt.canonicalize(alloc, path)
    }

    fn read_link<B: Allocator>(&self, alloc: B, path: &str) -> io::Result<PathBuf<B>> {
        self.rt.read_link(alloc, path)
    }

    fn hard_link(&self, original: &str, link: &str) -> io::Result<()> {
        self.rt.hard_link(original, link)
    }

    fn set_permissions(&self, path: &str, perm: Permissions) -> io::Result<()> {
        self.rt.set_permissions(path, perm)
    }

    fn symlink(&self, original: &str, link: &str) -> io::Result<()> {
        self.rt.symlink(original, link)
    }

    fn pipe(&self) -> io::Result<(PipeReader, PipeWriter)> {
        self.rt.pipe()
    }

    fn chown(&self, path: &str, uid: Option<u32>, gid: Option<u32>) -> io::Result<()> {
        self.rt.chown(path, uid, gid)
    }

    fn lchown(&self, path: &str, uid: Option<u32>, gid: Option<u32>) -> io::Result<()> {
        self.rt.lchown(path, uid, gid)
    }

    fn create_dir_with_mode(&self, path: &str, mode: u32) -> io::Result<()> {
        self.rt.create_dir_with_mode(path, mode)
    }

    fn bind_unix(&self, socket: BorrowedFd<'_>, addr: &SocketAddr) -> io::Result<()> {
        self.rt.bind_unix(socket, addr)
    }
}

/// What a file holds, which is removed then.
pub(crate) fn taken<R: Files + AllocGlobal>(rt: &R, path: &str) -> io::Result<String> {
    let text = fs::read_to_string(rt, path)?;
    fs::remove_file(rt, path)?;
    Ok(text)
}
