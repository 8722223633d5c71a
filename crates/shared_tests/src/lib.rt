//! Tests of what threads share.
#![tactic(auto)]

#[cfg(test)]
mod cell;
#[cfg(test)]
mod jobs;
#[cfg(test)]
mod loads;
