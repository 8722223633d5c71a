//! Tests of what follows a leader: which feeds are held, what a poll makes of a reply, and which
//! lines are written.
#![tactic(auto)]

#[cfg(test)]
mod dialing;
#[cfg(test)]
mod following;
#[cfg(test)]
mod holding;
#[cfg(test)]
mod polling;
