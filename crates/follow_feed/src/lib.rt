//! Following a leader's table of one namespace, over a network that loses, repeats and reorders
//! replies, and across restarts of the leader.
//!
//! A leader tells what a namespace is at one place of its history: a [`Feed`], which has the
//! number of the leader's run, the number of changes that the run has accepted, and the table with
//! its version, if the namespace is there. A request for it is `GET /feed/NS`: [`feed_demand`]
//! reads it, and [`told_feed`] is its response, once `api_sessions` has looked at the router's
//! state. [`poll`] makes one such request, over a connection of its own. A [`Follower`] holds the
//! latest of the feeds that it takes, and [`follow_all`] polls again and again, and writes a line
//! for each feed that is later than what was held.
//!
//! A version alone does not order two feeds: a namespace may be deleted between them, and versions
//! begin anew with each run. The pair of run and place does, as long as each run of a leader has a
//! greater number than those before it.
//!
//! # What is proved
//! What a request asks for is a function of its head and the target that goes on
//! (`specs/Demand.antt`), and the response that tells a feed is one (`specs/Texts.antt`). What is
//! said of a place of a router's history stands for good ([`feeds_stay`]). After any feeds, in any
//! order and with any repeats, a follower holds the one with the greatest run and place; where one
//! leader said them, and no two of its runs have one number, its table is the one that the leader
//! had at the run and place that are named ([`Follower::take`], [`greatest_feed_is_held`]). Where
//! there is memory, a poll gives a feed exactly as the bytes that came begin with a good reply that
//! says it; it is lost only where a call of the dialer failed before they did, and strange only
//! where these bytes begin with no good reply, whatever follows, or ended before they did
//! (`specs/Polling.antt`). At [`FollowEnd::Done`] as many polls were made as were asked for, memory
//! was wanting for none, and the lines that are written are those of the feeds that they gave, in
//! order. At the other ends they are the lines of all polls that were made, or of all but the last,
//! each of them whole; where a write failed, a front of the next one stands behind them
//! (`specs/Progress.antt`).
//!
//! That a poll arrives is not promised, nor that what is held is the newest that the leader has.
//! Its tests are `follow_feed_tests`, and `api_tests`' module `feed`.
//!
//! # Example
//! ```text
//! let mut follower = Follower::start();
//! match poll(alloc, &mut dialer, leader, &space) {
//!     Ok(feed) => follower.take(feed), // Taken::Newer, or Taken::Older, which changes nothing
//!     Err(PollEnd::Lost) => { /* ask again */ }
//!     ..
//! }
//! ```
#![tactic(auto)]

use std::alloc::AllocError;

mod demand;
mod feed;
mod follower;
mod following;
mod gathering;
mod laws;
mod lines;
mod numbers;
mod polling;
mod reading;
mod texts;
mod writing;

pub use demand::{FeedDemand, feed_demand};
pub use feed::{Feed, Versioned};
pub use follower::{Follower, Taken};
pub use following::{FollowEnd, follow_all};
pub use laws::{feeds_stay, greatest_feed_is_held};
pub use polling::{PollEnd, poll};
pub use texts::told_feed;

/// A value, unless there was no memory for it.
pub type Mem<T> = Result<T, AllocError>;

/// Bytes of a text.
pub type Bytes = Vec<u8>;
