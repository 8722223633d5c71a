//! Journals over files: the lines of an access log.
//!
//! [`FileJournal`] appends each line by one write to a file that was opened for appending, so that
//! the system puts it behind all that is there: lines of many workers, each with a journal of its
//! own over the same path, never mix. Nothing waits in a buffer, so whether a line was lost is
//! known when it is written.
//!
//! # Rotation
//! At a line that comes a second or more after the file was opened, the path is opened anew. So a
//! file that was renamed away gets the lines of that second, and those behind it go to a new one,
//! which is made. No signal and no restart is wanted, and no line is lost:
//!
//! ```text
//! mv access.log access.log.1; sleep 2; gzip access.log.1
//! ```
//!
//! A path that can't be opened is tried again a second later; a file that was open until then stays
//! in use. [`FileJournals`] makes the journals of all workers.
//!
//! # What is proved
//! Every line is counted, as written or as lost. What the machine's file holds is not told: that a
//! line which is counted as written stands there is as true as the system's answer.
//!
//! Its tests are `operator_tests`' modules `torn` and `rotated`.
//!
//! # Example
//! ```text
//! let mut journals = FileJournals::of(&rt);
//! let mut journal = journals.open(alloc, "/var/log/linker/access.log")?;
//! journal.append(line.as_slice(), clock.now());
//! journals.close(journal)?;
//! ```
#![tactic(auto)]

mod file;
mod journal;

pub use journal::{FileJournal, FileJournals};
