//! Tests of a watch for signals: what a status file says, what a watch comes to over a folder in
//! memory and beside what serves, and stops that are asked for from outside.
#![tactic(auto)]

#[cfg(test)]
mod beside;
#[cfg(test)]
mod statuses;
#[cfg(test)]
mod stops;
#[cfg(test)]
mod watches;
