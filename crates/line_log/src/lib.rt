//! What whole lines are appended to: an access log's file, or a list in memory.
//!
//! Whoever writes lines to a [`Journal`] can't be held up or ended by it: a line that could not be
//! written is lost, and counted. The moment comes along with each line, so that a journal over a
//! file can open it anew now and then, once another program has renamed it away. Each worker has a
//! journal of its own; what makes them over one path is a [`Journals`].
//!
//! # What is proved
//! A journal has each line that it was given behind those before it, or has lost it: what it was
//! given is what it has written and what it has lost (`IsAppended` of `specs/Logged.antt`). The
//! journal in memory ([`MemJournal`]) loses the lines whose numbers are listed, and those for which
//! there is no memory.
//!
//! Its tests are `operator_tests`' modules `torn` and `rotated`, over the journals of `log_file`.
//!
//! # Example
//! ```
//! let mut journals = MemJournals::of(alloc, Vec::new(alloc));
//! let mut journal = journals.open(alloc, "/var/log/linker/access.log")?;
//! journal.append(b"2026-11-29T05:48:01.123Z ..\n", 1_795_931_281_123);
//! assert_eq!(journal.counts().written, 1);
//! journals.close(journal)?;
//! ```
#![tactic(auto)]

use std::alloc::AllocError;

mod journal;
mod journals;
mod memory;

pub use journal::{Journal, LineCounts};
pub use journals::Journals;
pub use memory::{MemJournal, MemJournals};

/// A value, unless there was no memory for it.
pub type Mem<T> = Result<T, AllocError>;
