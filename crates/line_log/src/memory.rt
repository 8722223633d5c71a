//! Journals in memory.
ghost use Rattle.std.specs.Prelude.{◌≡◌, ◌∷◌, ◌++◌, [], OnOk, OnErr};
ghost use Rattle.line_log.specs.Lines.{texts};

use crate::Mem;
use crate::journal::{Journal, LineCounts};
use crate::journals::Journals;
use std::alloc::Global;

/// A journal in memory, which loses the lines whose numbers are listed, counted from 0 over all
/// that it was given.
pub struct MemJournal {
    alloc: Global,
    path: String,
    lines: Vec<Vec<u8>>,
    losing: Vec<u64>,
    given: u64,
    counts: LineCounts,
}

impl Drop for MemJournal {
    fn drop(self) {
        let MemJournal {
            alloc: _,
            path,
            lines,
            losing,
            given: _,
            counts: _,
        } = self;
        drop(path);
        drop(lines);
        drop(losing);
    }
}

impl MemJournal {
    /// A journal over this path, with no line yet.
    pub fn at(alloc: Global, path: String, losing: Vec<u64>) -> MemJournal
        ensures path { result.path ≡ path }
        ensures lines { result.lines.items ≡ [] }
        ensures counts { (result.counts.written ≡ 0) × (result.counts.lost ≡ 0) }
    {
        MemJournal {
            alloc,
            path,
            lines: Vec::new(alloc),
            losing,
            given: 0,
            counts: LineCounts {
                written: 0,
                lost: 0,
            },
        }
    }

    /// Its lines, in order.
    pub fn lines(&self) -> &[Vec<u8>]
        ensures { result.now ≡ self.now.lines.items }
    {
        self.lines.as_slice()
    }
}

/// Puts a copy of a line behind others, which stay as they are where there is no memory for it.
fn push_copy(alloc: Global, line: &[u8], lines: &mut Vec<Vec<u8>>) -> Mem<()>
    ensures ok { OnOk result (texts lines.new.items ≡ texts lines.old.items ++ line.now ∷ []) }
    ensures err { OnErr result (lines.new.items ≡ lines.old.items) }
{
    let copy = Vec::from_slice(alloc, line)?;
    lines.push(copy)?;
    Ok(())
}

impl Journal for MemJournal {
    ghost use Rattle.line_log.specs.Logged.{held};

    ghost log = { held };

    fn append(&mut self, line: &[u8], _moment: u64) {
        let number = self.given;
        self.given = number.saturating_add(1);
        if self.losing.contains(&number) {
            self.lose();
            return;
        }
        match push_copy(self.alloc, line, &mut self.lines) {
            Ok(()) => self.counts.written = self.counts.written.saturating_add(1),
            Err(_) => self.lose(),
        }
    }

    fn lose(&mut self) {
        self.counts.lost = self.counts.lost.saturating_add(1);
    }

    fn counts(&self) -> LineCounts {
        self.counts
    }
}

/// Makes journals in memory, and keeps those that it is given back. Each loses the lines of the
/// same numbers, whatever its path.
pub struct MemJournals {
    losing: Vec<u64>,
    closed: Vec<MemJournal>,
}

impl Drop for MemJournals {
    fn drop(self) {
        let MemJournals { losing, closed } = self;
        drop(losing);
        drop(closed);
    }
}

impl MemJournals {
    /// Makes journals that lose the lines of these numbers, counted from 0 in each.
    pub fn of(alloc: Global, losing: Vec<u64>) -> MemJournals
        ensures { result.closed.items ≡ [] }
    {
        MemJournals {
            losing,
            closed: Vec::new(alloc),
        }
    }

    /// The journals that it was given back, in order.
    pub fn closed(&self) -> &[MemJournal]
        ensures { result.now ≡ self.now.closed.items }
    {
        self.closed.as_slice()
    }
}

impl Journals for MemJournals {
    ghost use Rattle.std.specs.Prelude.{Some};
    ghost use Rattle.line_log.specs.Logged.{all_held};

    type J = MemJournal;

    ghost closed = { λ js. Some (all_held js.closed.items) };

    fn open(&mut self, alloc: Global, path: &str) -> Mem<MemJournal> {
        let losing = Vec::from_slice(alloc, self.losing.as_slice())?;
        let path = String::from_str(alloc, path)?;
        Ok(MemJournal::at(alloc, path, losing))
    }

    fn close(&mut self, journal: MemJournal) -> Mem<()> {
        self.closed.push(journal)?;
        Ok(())
    }
}
