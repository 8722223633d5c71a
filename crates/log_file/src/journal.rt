//! Journals over files.
ghost use Rattle.std.specs.Prelude.{◌≡◌};

use crate::file::AppendedFile;
use line_log::{Journal, Journals, LineCounts, Mem};
use std::alloc::Global;
use std::rt::Files;

/// A journal over the file at a path. It tells its path and its counts, and no line.
#[derive(Drop)]
pub struct FileJournal<'a, R: Files> {
    file: AppendedFile<'a, R>,
    counts: LineCounts,
}

impl<'a, R: Files> FileJournal<'a, R> {
    /// A journal over this path, which was given no line yet. The path is opened at the first.
    pub fn at(rt: &'a R, path: String) -> FileJournal<'a, R>
        ensures path { result.file.path ≡ path }
        ensures counts { (result.counts.written ≡ 0) × (result.counts.lost ≡ 0) }
    {
        FileJournal {
            file: AppendedFile::at(rt, path),
            counts: LineCounts {
                written: 0,
                lost: 0,
            },
        }
    }
}

impl<R: Files> Journal for FileJournal<'_, R> {
    ghost use Rattle.std.specs.Prelude.{None, string_bytes};

    ghost log = { λ j. record {
      path = string_bytes j.file.path;
      lines = None;
      written = j.counts.written;
      lost = j.counts.lost;
    } };

    fn append(&mut self, line: &[u8], moment: u64) {
        if self.file.append(line, moment) {
            self.counts.written = self.counts.written.saturating_add(1);
        } else {
            self.lose();
        }
    }

    fn lose(&mut self) {
        self.counts.lost = self.counts.lost.saturating_add(1);
    }

    fn counts(&self) -> LineCounts {
        self.counts
    }
}

/// Makes journals over files. It keeps none that it is given back: what the journal told goes with
/// it, and the file stays.
#[derive(Drop)]
pub struct FileJournals<'a, R: Files> {
    rt: &'a R,
}

impl<'a, R: Files> FileJournals<'a, R> {
    /// Makes journals over this runtime's files.
    pub fn of(rt: &'a R) -> FileJournals<'a, R> {
        FileJournals { rt }
    }
}

impl<'a, R: Files + Sync> Journals for FileJournals<'a, R>
where
    R::File: Send,
{
    ghost use Rattle.std.specs.Prelude.{None};

    type J = FileJournal<'a, R>;

    ghost closed = { λ _. None };

    fn open(&mut self, alloc: Global, path: &str) -> Mem<FileJournal<'a, R>> {
        let path = String::from_str(alloc, path)?;
        Ok(FileJournal::at(self.rt, path))
    }

    fn close(&mut self, _journal: FileJournal<'a, R>) -> Mem<()> {
        Ok(())
    }
}
