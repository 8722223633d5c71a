//! Tests of the trusted edge. Over loopback: nets, listeners and dialers, the order of bytes, what
//! is read slowly or not at all, clients that wait and how many may, for whom is waited, where
//! clients are, how connections end and are cut, which are resumed, seconds and moments, and a stop
//! from outside. Over the file system: what is there, and files that are read in several pieces.
//! And the adapters over readers and writers.
#![tactic(auto)]

#[cfg(test)]
mod adapters;
#[cfg(test)]
mod arriving;
#[cfg(test)]
mod bytes;
#[cfg(test)]
mod clients;
#[cfg(test)]
mod crowd;
#[cfg(test)]
mod dialed;
#[cfg(test)]
mod ending;
#[cfg(test)]
mod files;
#[cfg(test)]
mod kept;
#[cfg(test)]
mod loopback;
#[cfg(test)]
mod moments;
#[cfg(test)]
mod order;
#[cfg(test)]
mod places;
#[cfg(test)]
mod prompt;
#[cfg(test)]
mod resets;
#[cfg(test)]
mod resumed;
#[cfg(test)]
mod seconds;
#[cfg(test)]
mod slow;
#[cfg(test)]
mod stopped;
#[cfg(test)]
mod stopping;
#[cfg(test)]
mod waiting;
