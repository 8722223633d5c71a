//! What a router has done and what it holds, in the text format that Prometheus scrapes (0.0.4).
//!
//! [`Counts`] has the numbers of a router, and [`ServiceCounts`] those of one service.
//! [`write_metrics`] gives their text: for each metric its help, its type and its samples. The
//! names begin with `linker_` and follow Prometheus's conventions: a count that only grows ends in
//! `_total`, sizes are in bytes, and times in seconds. The names of services stand as label values,
//! in which a backslash, a quotation mark and a line feed are escaped.
//!
//! A worker adds each exchange to its own numbers: [`Class::of`] says to which class of status a
//! reply counts, and [`bucket_of`] to which of the buckets of durations. The sum over the workers
//! is what is written.
//!
//! # What is proved
//! [`write_metrics`] gives exactly the bytes of `metrics_text` of `specs/Metrics.antt`, for all
//! counts and services: the lines of the format are in `specs/Format.antt`, and no sum wraps. A
//! reply counts to the class of its status's first digit, and a duration to the first bucket whose
//! bound it does not pass (`specs/Classes.antt`). That memory is there is not proved. Its tests are
//! `operator_tests`' modules `metrics` and `classes`.
//!
//! # Example
//! ```
//! let mut text = Vec::new(alloc);
//! let services = [ServiceCounts { name: b"web", addresses: 3, alive: 2 }];
//! write_metrics(&counts, &services, &mut text)?;
//! // # HELP linker_changes_total Changes of tables, services and marks that were accepted.
//! // # TYPE linker_changes_total counter
//! // linker_changes_total 5
//! // ..
//! // linker_service_live_addresses{service="web"} 2
//! ```
#![tactic(auto)]

use std::alloc::AllocError;

mod class;
mod counts;
mod duration;
mod format;
mod metrics;
mod service;

pub use class::{Class, Classes};
pub use counts::{Counts, OwnReplies};
pub use duration::{BUCKETS, Durations, bucket_of};
pub use metrics::write_metrics;
pub use service::ServiceCounts;

/// A value, unless there was no memory for it.
pub type Mem<T> = Result<T, AllocError>;

/// Bytes of a text.
pub type Bytes = Vec<u8>;
