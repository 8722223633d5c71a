//! Tests of services with their addresses, of named tables with their versions, and of the choice
//! of a replica.
#![tactic(auto)]

#[cfg(test)]
mod book;
#[cfg(test)]
mod choice;
#[cfg(test)]
mod store;
#[cfg(test)]
mod told;
