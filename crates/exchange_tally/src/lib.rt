//! What exchanges add to the counts of a router: one exchange in numbers, and the tally of many.
//!
//! A worker has a [`Tally`] of its own and adds each exchange to it, as [`Done`] and its moments
//! ([`Timed`]) tell it, once that has ended. Nothing is shared and no memory is taken: an exchange
//! moves at most ten numbers. A [`Figure`] names one of the numbers, so that what is published,
//! summed over the workers and written out is the same list everywhere; its place
//! ([`Figure::place`]) is where it stands in that list.
//!
//! # What is proved
//! [`Tally::add`] raises each figure by what the exchange is worth to it (`worth` of
//! `specs/Worth.antt`), and no other: a request counts to the one class of its reply's status, to
//! its own reply's word if it has one, and to the one bucket of its duration. A count never falls,
//! and stands still at the last value of a `u64`. [`tallies_add_up`] is the law over many
//! exchanges: a count is what it began with and the sum of what each was worth, up to that value.
//! Its tests are `operator_tests`' module `tallies`.
//!
//! # Example
//! ```
//! let mut tally = Tally::new();
//! tally.add(&Timed { done, begun, ended: clock.now() });
//! assert_eq!(tally.count(Figure::Requests(Class::Success)), 1);
//! ```
#![tactic(auto)]

mod done;
mod figure;
mod laws;
mod tally;

pub use done::{Done, Timed};
pub use figure::{FIGURES, Figure};
pub use laws::tallies_add_up;
pub use tally::Tally;
