//! Words that threads share without a lock: each is the number of seats that hold its slot.
//!
//! A proxy that may send a request to either of two replicas reads the words of both, picks the one
//! with the lesser load, and holds its slot while the request runs. [`start`] makes 8,192 words of
//! 0, the [`Loads`], and up to 1,024 [`LoadSeat`]s, one for each thread. With its seat a thread
//! reads words ([`Loads::read`]), takes a slot ([`Loads::take`]) and gives it back
//! ([`Loads::give`]). A seat holds at most one slot at a time, and [`LoadSeat::holds`] says which.
//! After `start` each call is one atomic operation at most: it takes no memory and waits for no
//! thread.
//!
//! # What is proved
//! Between any two operations, of whatever threads, each word is the number of seats that hold its
//! slot: `WordsCountHolders` of `specs/Counting.antt`, which each operation is shown to keep. So no
//! word is greater than the number of seats, and none wraps.
//!
//! Each call says what it does to its seat: which slot the seat holds, and two lists that contracts
//! know, of all that the seat read with the numbers found, and of the slots that it took. No other
//! call changes them, and they take no memory when the program runs. A number read is at most the
//! number of seats, and at least 1 where the reading seat holds that slot.
//!
//! Its tests are `shared_tests`' module `loads`.
//!
//! # Example
//! ```text
//! let (loads, mut seats) = start(alloc, 2)?;
//! // in a thread with a seat of its own
//! let (first, second) = (loads.read(seat, 0), loads.read(seat, 1));
//! loads.take(seat, if second < first { 1 } else { 0 });
//! // the request runs
//! loads.give(seat);
//! ```
#![tactic(auto)]

use std::alloc::AllocError;

mod opening;
mod rule;
mod steps;
mod words;

pub use opening::start;
pub use words::{LoadSeat, Loads};

/// A value, unless there was no memory for it.
pub type Mem<T> = Result<T, AllocError>;
