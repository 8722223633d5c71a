//! What is told of each exchange: to an access log, say, and to the counts of a worker.
//!
//! Whoever serves a connection tells a [`Recorder`] of each exchange twice: [`Recorder::begin`]
//! once its request's head was read, and [`Recorder::end`] once its reply has ended, with what the
//! exchange was ([`Exchange`]). So a recorder can take the moments itself, and one that needs none,
//! as [`NoRecorder`], costs nothing. Whoever accepts connections and lets them wait tells it of
//! that too ([`Recorder::step`]). A recorder can't fail its caller: what it could not write is for
//! it to count.
//!
//! # What is proved
//! A recorder says by three relations what it is after each call. `Records` of `specs/Told.antt`
//! is what it is after a list of exchanges: it was told of each, in order, and of each once. Its
//! tests are `operator_tests`' module `recorded`.
//!
//! # Example
//! ```
//! recorder.begin();
//! // .. the request is served ..
//! recorder.end(&Exchange { client, head: Some(&head), name: Some(&path), done });
//! ```
#![tactic(auto)]

mod exchange;
mod recorder;

pub use exchange::Exchange;
pub use recorder::{ConnectionStep, NoRecorder, Recorder};
