//! What people are told on standard error of what a run reads and writes.
//!
//! A configuration may be right, and still do what few want; the text of a table shows more than
//! which of its entries are never asked; and an access log may lose its lines while requests go on.
//! None of it has a part in the output or the status of a run. So it is told by what stands before
//! the outside of the run: a [`WarningFolder`] before the folder whose files are read, which tells
//! of the first of them what was [`Expected`] of it, and [`WarningJournals`] before what opens the
//! access logs. Each file is read once, so a configuration may come out of a pipe.
//!
//! # What is proved
//! A [`WarningFolder`] is the folder behind it in all that a folder tells, and a
//! [`WarningJournal`] and [`WarningJournals`] are the journal and the journals behind them: they
//! meet the clauses of [`Folder`](line_base::Folder), [`Journal`](line_log::Journal) and
//! [`Journals`](line_log::Journals) with the states of these. What is written to standard error is
//! not proved: `bench/recorded.py` and the pages try it on the built program.
//!
//! # Example
//! ```text
//! let losing = AtomicU64::new(0);
//! let mut folder = WarningFolder::of(&rt, FileSystem::of(&rt), Some(Expected::Config));
//! let mut journals = WarningJournals::of(&rt, FileJournals::of(&rt), &losing);
//! let read = folder.read("linker.json", 1_048_576);
//! // `read` is what the file system tells. Of a configuration whose table hides all others:
//! // linker: an entry of routers[0].dtab covers routers[0].dstPrefix, so it is tried before every
//! // entry of the namespace
//! ```
#![tactic(auto)]

mod folder;
mod journals;
mod notes;

pub use folder::{Expected, WarningFolder};
pub use journals::{WarningJournal, WarningJournals};
