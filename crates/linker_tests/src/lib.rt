//! Tests of the program over folders, nets, sources and sinks in memory: scripts with their
//! replies, configurations, tables, words, limits, faults at each call in turn, and routers that
//! serve, with clients that have nothing to say for a while, listeners that break, access logs and
//! metrics.
#![tactic(auto)]

#[cfg(test)]
mod access_logs;
#[cfg(test)]
mod breaking;
#[cfg(test)]
mod configurations;
#[cfg(test)]
mod faults;
#[cfg(test)]
mod following;
#[cfg(test)]
mod limits;
#[cfg(test)]
mod lints;
#[cfg(test)]
mod metrics;
#[cfg(test)]
mod outside;
#[cfg(test)]
mod paired;
#[cfg(test)]
mod quiet;
#[cfg(test)]
mod routers;
#[cfg(test)]
mod running;
#[cfg(test)]
mod scripts;
#[cfg(test)]
mod words;
