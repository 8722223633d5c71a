//! The choice of a replica: which branch of a bound, which addresses are alive, which two are
//! compared, and which of these is taken.
//!
//! Of the two the one with the lesser load is taken. This is the power of two choices (M.
//! Mitzenmacher, "The Power of Two Choices in Randomized Load Balancing", IEEE Transactions on
//! Parallel and Distributed Systems, 2001): it keeps the greatest load nearly as low as a look at
//! all loads would, reads two, and does not send a burst of requests to the one replica that was
//! idle last. Use it where the loads are read while others change them, as those of a router's
//! workers are.
//!
//! [`branch`] chooses a leaf of a [`Bound`](addr_book::Bound) by the weights of its branches. Of
//! the leaf's addresses those that are alive take part, or all where none is ([`live_count`],
//! [`live_at`]); [`pair`] and [`pair_addrs`] draw two of them by their weights, and [`lesser`] says
//! which of the two is taken by its load. [`Marks`] count the failures of each address: an address
//! with too many in a row is dead for a while, as in Linkerd's failure accrual by consecutive
//! failures. All randomness is handed in as words of 64 bits, and the time as a moment.
//!
//! # What is proved
//! Each call gives exactly the value that the definitions in `specs/` have for it: pruning and
//! branches (`Branch.antt`), live lists (`Live.antt`), pairs (`Pair.antt`), marks (`Mark.antt`,
//! `Marks.antt`). [`branch`] gives a leaf exactly where pruning leaves something, and both places
//! of a pair stand in the live list. Marks are seen as a finite map of the addresses that have
//! failures, so equal ones stay equal under equal reports. Where all weights are equal they do not
//! matter ([`equal_weights_do_not_matter`]). No choice takes memory, and no report and no
//! [`Marks::keep`]: room for all marks is set aside at the start.
//!
//! Its tests are `store_tests`' module `choice`.
//!
//! # Example
//! ```
//! let limits = Limits { failures: 5, backoff: 5_000 };
//! let leaf = branch(&bound, &book, words[0]);
//! let list = book.cluster(&service).unwrap_or(&[]);
//! let (first, second) = pair_addrs(list, &marks, moment, limits, words[1], words[2]);
//! let taken = if lesser(3, first.weight, 2, second.weight) { first } else { second };
//! // A reply came, or none.
//! let mark = marks.report(taken.addr, false, moment, limits);
//! ```
#![tactic(auto)]

use std::alloc::AllocError;

mod bits;
mod draw;
mod laws;
mod left;
mod live;
mod load;
mod mark;
mod marked;
mod marks;
mod pruning;
mod sieve;
mod way;

pub use draw::{pair, pair_addrs};
pub use laws::equal_weights_do_not_matter;
pub use left::is_open;
pub use live::{live_at, live_count};
pub use load::lesser;
pub use mark::{Limits, Mark};
pub use marks::{MOST_MARKS, Marks};
pub use pruning::branch;

/// A value, unless there was no memory for it.
pub type Mem<T> = Result<T, AllocError>;
