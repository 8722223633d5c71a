//! How often requests may be tried again: a budget that is counted in requests, and not in time.
//!
//! A request whose try failed may be tried again on another replica. If every request did that
//! while replicas fail, the tries that are left would have to carry twice the load and more. So
//! each connection has a [`Budget`]: every request pays a part of a retry in, and a retry takes one
//! whole out. Where the balance is too low the request is not tried again, and its client is told.
//! [`Tries`] are the settings of a budget: what each request pays in, what it starts with, and how
//! many retries one request may have.
//!
//! Time has no part in this. A budget that refills by the clock lets a connection retry as often as
//! it likes as long as it asks slowly, and nobody can say beforehand how many retries there will
//! be. Here it is known: with [`Tries::default`] a thousand requests have at most 210 retries.
//!
//! # What is proved
//! [`Budget::request`] and [`Budget::spend`] give the balance exactly, and
//! [`retries_are_bounded`] is the law that over any list of requests and spends the retries that
//! are granted are at most `reserve + percent * requests / 100`.
//!
//! It is tested with what asks it, in `session_tests`' module `retries`.
//!
//! # Example
//! ```
//! let mut budget = Budget::start(Tries { percent: 20, reserve: 1, most: 3 });
//! budget.request();
//! assert_eq!(budget.balance(), 120);
//! assert!(budget.spend());
//! assert!(!budget.spend());
//! ```
#![tactic(auto)]

mod budget;
mod laws;
mod tries;

pub use budget::Budget;
pub use laws::retries_are_bounded;
pub use tries::Tries;
