//! Tests of namerd's interface, of the admin interface and of the feed: each reply, and how a
//! connection ends, over connections in memory.
#![tactic(auto)]

#[cfg(test)]
mod admin;
#[cfg(test)]
mod connections;
#[cfg(test)]
mod draining;
#[cfg(test)]
mod endings;
#[cfg(test)]
mod feed;
#[cfg(test)]
mod limits;
#[cfg(test)]
mod metrics;
#[cfg(test)]
mod moving;
#[cfg(test)]
mod namerd;
#[cfg(test)]
mod rows;
#[cfg(test)]
mod spent;
#[cfg(test)]
mod wanted;
