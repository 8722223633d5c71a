//! Jobs that run beside one another, and the job of a worker: to take what comes to an address, and
//! serve it.
//!
//! [`run_workers`] runs each [`Job`] of a list in a thread of its own, or one after another where
//! no thread can be made, and hands each back with the end of its run. [`serve_all`] is what such a
//! job does for a listener: a peer that comes, and a connection that waited and has something to
//! say, has a turn with the server ([`Serve`]); then it waits in the address's lot, where any
//! worker may take it up, or it ends. So a worker is held by a request, and by no client that is
//! idle.
//!
//! # What is proved
//! Each job comes back in its place, with what one run does to it and the end that this run gives;
//! want of memory is known before any has run, and gives all of them back. A worker's turns are one
//! list: the server is what they made of it, one after another; its listener handed out the peers
//! that they began with and took back those that they ended with; and its hand at the lot counts
//! those that they left and took. So the peers that came to a worker and the connections that it
//! took are as many as those that it gave back and left ([`each_turn_has_one_connection`]). That
//! threads really run beside one another is tested. The tests are `shared_tests`' module `jobs`.
//!
//! # Example
//! ```
//! match serve_all(rt, &lot, &mut listener, &mut server, &mut hand, &gate, 0) {
//!     Accepting::Closed => {}                  // the listener was closed
//!     Accepting::Failing => stop.stop(),       // its waits failed a hundred times in a row
//! }
//! ```
#![tactic(auto)]

mod accepting;
mod jobs;
mod laws;
mod serving;

pub use accepting::{Accepting, serve_all};
pub use jobs::{Job, JobsBack, run_workers};
pub use laws::each_turn_has_one_connection;
pub use serving::{Serve, Stay, Turned};
