//! Runs of three callers on one router: what each sees of the others' changes, loads, reports and
//! kept delegations.
//!
//! A scene is a list of calls, each of one caller, with what each is answered as a text. It is
//! played on a new router of three passes, which is ended then: first with a pass missing, which
//! has to be refused, and then with all. A race is two readers in threads of their own beside a
//! writer in a third.
//!
//! Two answers come in no run. A pass is let in as long as it lives, since its reader is at its
//! place whenever no call is being made; `NoEntry` stands for a copy of the value that lags behind
//! what the pass has seen, which would be a fault of the copies. And `KeptSpent` comes behind 2^64
//! - 1 delegations that were kept. What is answered then is proved.
#![tactic(auto)]

#[cfg(test)]
mod acts;
#[cfg(test)]
mod asked;
#[cfg(test)]
mod kept;
#[cfg(test)]
mod race;
#[cfg(test)]
mod scenes;
#[cfg(test)]
mod stage;
