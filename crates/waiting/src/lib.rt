//! Connections that wait between two of their requests, for whichever worker is free.
//!
//! A worker serves requests, and no longer connections: where a connection has nothing to say, it
//! is left in a [`Lot`], and any worker takes it up once it has. So a few workers hold thousands of
//! idle connections, each of which costs its socket and some hundred bytes.
//!
//! Each connection that is left gets a number, which no other had, and its [`Watch`] is asked to
//! tell that number once, when the connection has something to say. Whoever is told takes the
//! connection by it ([`Lot::take`]). A number that is wrong or stale finds nothing, so nothing
//! rests on what a watch tells but that somebody comes. A lot has room for so many: where one more
//! is left, the oldest is handed out in its place, to be ended. One that was left many ticks ago is
//! handed out by [`Lot::take_older`].
//!
//! A lot knows no request and no peer: a connection is of any type. It is of one that need not be
//! `Drop`, so the lot can't lose one without a word: what is left is taken, handed back, or there
//! at the end.
//!
//! # What is proved
//! Of the connections under the lock ([`Waiters`]) each call says exactly who waits then: a
//! connection that is left stands behind all others, under a number that was never given; a number
//! takes the one that stands under it, and no other; the oldest goes first. So over any calls each
//! is handed out once or waits, and a number that was handed out finds nothing
//! ([`each_is_taken_once`]). Through the lock each worker's [`Hand`] counts what it left and what
//! it took, and at the end as many were left as were taken, and those that the end hands out
//! ([`Lot::close`]).
//!
//! Its tests are the crate `waiting_tests`.
//!
//! # Example
//! ```text
//! // `left` and `taken` are two blank ledgers
//! let (lot, mut hands) = Lot::open(alloc, 10_000, 60, left, taken, 2)?;
//! // in a thread with a hand of its own
//! match lot.leave(&rt, hand, connection, &watch) {
//!     Left::Waits => {}
//!     Left::Displaced(oldest) => { /* end it */ }
//!     Left::Back(connection) => { /* it can't wait */ }
//! }
//! // where the watch told a number
//! if let Some(connection) = lot.take(&rt, hand, number) { /* serve its next request */ }
//! // once all threads are joined
//! let mut waiters = lot.close(hands);
//! while let Some(connection) = waiters.take_oldest() { /* end it */ }
//! waiters.end();
//! ```
#![tactic(auto)]

use std::alloc::AllocError;

mod desk;
mod hand;
mod laws;
mod left;
mod lot;
mod waiters;
mod watch;

pub use hand::Hand;
pub use laws::each_is_taken_once;
pub use left::Left;
pub use lot::Lot;
pub use waiters::{Waiter, Waiters};
pub use watch::Watch;

/// A value, unless there was no memory for it.
pub type Mem<T> = Result<T, AllocError>;
