//! Counts that one thread each publishes and others read, without a lock.
//!
//! A worker counts for itself, and now and then others want to know: a scraper, say, that sums the
//! counts of all workers. [`Counts`] has 64 words for each worker, on cache lines of their own. A
//! worker publishes a count by one atomic store ([`Counts::publish`]), and a [`CountReader`] reads
//! one by one atomic load ([`Counts::read`]). Each thread that reads has a reader of its own
//! ([`Counts::another_reader`]). Nobody waits for anybody, and no call but [`start`] takes memory.
//!
//! # What is proved
//! Between any two operations, of whatever threads, each word has one owner at most and is what
//! that published last: `OwnersCount` of `specs/Owning.antt`, which each operation is shown to
//! keep. So what a reader finds was the owner's count at some moment, and is never below what the
//! same reader found before. No other call changes what contracts know of a seat.
//!
//! Its tests are `operator_tests`' modules `published` and `recorded`.
//!
//! # Example
//! ```text
//! let (counts, mut writers, mut reader) = start(alloc, 2)?;
//! counts.publish(&mut writers[0], 3, 17);
//! assert_eq!(counts.read(&mut reader, 3), 17);
//! ```
#![tactic(auto)]

use std::alloc::AllocError;

mod opening;
mod rule;
mod steps;
mod words;

pub use opening::{PLACES, start};
pub use words::{CountReader, CountWriter, Counts};

/// A value, unless there was no memory for it.
pub type Mem<T> = Result<T, AllocError>;
