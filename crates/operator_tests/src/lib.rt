//! Tests of what an operator sees of a router: the lines of its access log, its counts, and their
//! text.
#![tactic(auto)]

#[cfg(test)]
mod classes;
#[cfg(test)]
mod cut_files;
#[cfg(test)]
mod lines;
#[cfg(test)]
mod metrics;
#[cfg(test)]
mod published;
#[cfg(test)]
mod recorded;
#[cfg(test)]
mod rotated;
#[cfg(test)]
mod tallies;
#[cfg(test)]
mod torn;
