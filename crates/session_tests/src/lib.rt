//! Whole sessions over peers, dialers and clocks in memory: worked exchanges with the bytes on both
//! sides, hostile and large requests, each failing call, limits, requests that are tried again, and
//! connections that are kept; what a recorder is told of, and when; two clients that are served at
//! once; a connection that another server goes on with; and the worst table that is known, on the
//! stack of a worker's thread.
#![tactic(auto)]

#[cfg(test)]
mod beside;
#[cfg(test)]
mod compared;
#[cfg(test)]
mod draining;
#[cfg(test)]
mod hearing;
#[cfg(test)]
mod hostile;
#[cfg(test)]
mod keeping;
#[cfg(test)]
mod large;
#[cfg(test)]
mod limits;
#[cfg(test)]
mod meanwhile;
#[cfg(test)]
mod moving;
#[cfg(test)]
mod played;
#[cfg(test)]
mod recorded;
#[cfg(test)]
mod replies;
#[cfg(test)]
mod retries;
#[cfg(test)]
mod row;
#[cfg(test)]
mod scene;
#[cfg(test)]
mod series;
#[cfg(test)]
mod stack;
#[cfg(test)]
mod texts;
#[cfg(test)]
mod worked;
