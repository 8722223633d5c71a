//! What a worker records of the exchanges that it serves: its counts, and the lines of an access
//! log.
//!
//! A [`WorkerRecord`] is the [`Recorder`](exchange_record::Recorder) of one worker. It has a clock
//! of its own, so that the moments of an exchange are drawn only where they are recorded. An
//! exchange that has ended is added to the worker's [`Tally`](exchange_tally::Tally), and each
//! count that it raised is published at once, by one atomic store, for whoever scrapes them. Where
//! there is an access log, its line is appended to the worker's journal. What becomes of
//! connections is counted and published too. None of it waits for another thread, takes a lock or
//! fails its caller.
//!
//! # What is proved
//! What is published is what the worker has counted, between any two calls: each figure of its
//! tally ([`WorkerRecord::count`]), the lines of its log ([`WorkerRecord::lines`]) and the steps of
//! connections ([`WorkerRecord::connections`]). With the rule of
//! [`count_words`](count_words::Counts), what another thread reads was the count of the worker's
//! exchanges at some moment, and is never below what it read before. Each exchange adds what it was
//! worth, with the moments that the clock gave, and has one line in the log, or is counted as lost
//! there (`Ends` of `specs/Recording.antt`). Each step of a connection raises its count by one.
//! [`records_add_up`] is the law over many exchanges: each is added to the tally once, in order,
//! with the moments that the clock gave as it began and as it ended. A record tells in which words
//! it publishes, and never publishes in others. Its tests are `operator_tests`' module `recorded`.
//!
//! # Example
//! ```
//! let mut record = WorkerRecord::new(alloc, clock.fork(), &counts, writer, Some(journal));
//! record.step(ConnectionStep::Came);
//! record.begin();
//! record.end(&Exchange { client, head: Some(&head), name: Some(&path), done });
//! ```
#![tactic(auto)]

mod connections;
mod laws;
mod logging;
mod published;
mod record;

pub use connections::ConnectionCounts;
pub use laws::records_add_up;
pub use record::WorkerRecord;

/// Bytes of a text.
pub type Bytes = Vec<u8>;
