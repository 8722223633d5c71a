//! What is told on standard error of an access log that can't be written.
ghost use Rattle.std.specs.Prelude.{◌≡◌};

use line_log::{Journal, Journals, LineCounts};
use std::alloc::{AllocError, Global};
use std::sync::atomic::{AtomicU64, Ordering};

/// A journal that tells people that it loses its lines. It is the journal that it stands before in
/// all that contracts say.
#[derive(Drop)]
pub struct WarningJournal<'a, R, J> {
    rt: &'a R,
    path: String,
    journal: J,
    /// How many journals lose their lines now.
    losing: &'a AtomicU64,
    /// Whether this one does.
    loses: bool,
}

impl<R: Eprint, J: Journal> WarningJournal<'_, R, J> {
    /// Notes whether a line was lost. It is told where no journal had lost one until then.
    fn note(&mut self, is_lost: bool)
        ensures { self.new.journal ≡ self.old.journal }
    {
        if is_lost == self.loses {
            return;
        }
        self.loses = is_lost;
        if !is_lost {
            let _ = self.losing.fetch_sub(1, Ordering::SeqCst);
        } else if self.losing.fetch_add(1, Ordering::SeqCst) == 0 {
            let path = self.path.as_str();
            let _ = eprintln!(self.rt;
                "linker: the access log {path} can't be written: lines are lost"
            );
        }
    }
}

impl<R: Eprint, J: Journal> Journal for WarningJournal<'_, R, J> {
    ghost log = { λ w. J.log w.journal };

    fn append(&mut self, line: &[u8], moment: u64) {
        let written = self.journal.counts().written;
        self.journal.append(line, moment);
        let is_lost = self.journal.counts().written == written;
        self.note(is_lost);
    }

    fn lose(&mut self) {
        self.journal.lose();
        self.note(true);
    }

    fn counts(&self) -> LineCounts {
        self.journal.counts()
    }
}

/// What makes such journals of others. That lines are lost is told once, until all journals write
/// theirs again.
pub struct WarningJournals<'a, R, O> {
    rt: &'a R,
    journals: O,
    losing: &'a AtomicU64,
}

impl<R, O: Drop> Drop for WarningJournals<'_, R, O> {
    fn drop(self) {
        let WarningJournals {
            rt: _,
            journals,
            losing: _,
        } = self;
        drop(journals);
    }
}

impl<'a, R, O> WarningJournals<'a, R, O> {
    /// Over these. None of their journals loses its lines as yet, by this count.
    pub fn of(rt: &'a R, journals: O, losing: &'a AtomicU64) -> WarningJournals<'a, R, O> {
        WarningJournals {
            rt,
            journals,
            losing,
        }
    }
}

impl<'a, R: Eprint + Sync, O: Journals> Journals for WarningJournals<'a, R, O> {
    type J = WarningJournal<'a, R, O::J>;

    ghost closed = { λ w. O.closed w.journals };

    fn open(
        &mut self,
        alloc: Global,
        path: &str,
    ) -> Result<WarningJournal<'a, R, O::J>, AllocError> {
        Ok(WarningJournal {
            rt: self.rt,
            path: String::from_str(alloc, path)?,
            journal: self.journals.open(alloc, path)?,
            losing: self.losing,
            loses: false,
        })
    }

    fn close(&mut self, journal: WarningJournal<'a, R, O::J>) -> Result<(), AllocError> {
        let WarningJournal {
            rt: _,
            path: _,
            journal,
            losing: _,
            loses: _,
        } = journal;
        self.journals.close(journal)
    }
}
