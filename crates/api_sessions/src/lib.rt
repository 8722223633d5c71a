//! The connections of a router's interfaces: their requests are read, answered, and waited for.
//!
//! A worker serves a connection of an interface ([`Which`]) while it has something to say
//! ([`IdleCaller::serve`]): it reads its requests, answers each ([`answer`]), and stops the program
//! behind the reply to a shutdown. What a request asks for is said by `ns_api`, `admin_api` and
//! `follow_feed`, each for its interface; it is carried out here, with one change or one look.
//!
//! Where no byte of a next request comes for a while, the worker leaves the connection to wait: as
//! a value, with a [`Ticket`](router::Ticket) of what its pass had seen. Any other worker of the
//! interfaces goes on with it. So a caller that keeps its connection, as a scraper of metrics does,
//! holds no worker. `docs/API.md` has each path with its answers.
//!
//! # What is proved
//! What a request asks for is a function of its head, the target that goes on, and its body, and of
//! whether the program is ready for more connections: `asked_of` of `specs/Asked.antt`. [`answer`]
//! makes exactly the one change or look, or none where the request is refused before; it answers
//! the bytes of the response to the reply that the router's state gives at that call's point
//! (`specs/Answering.antt`). The reply says that the program is to stop exactly where the request
//! asked for that. Where there was no memory, what was asked for was done, or nothing was.
//!
//! The feed of a namespace is the one that it has in the router's own history, at the place of the
//! one look that was made. The metrics are the text of the state at one point of the history, which
//! is not before what the caller had seen, with each service's live addresses at a moment of the
//! scraper's clock, and of the sums of what the scraper found in the workers' words, each read once
//! (`IsScraped`). For no other request the scraper is asked.
//!
//! A connection is served for a stay as `specs/Serving.antt` says, over any cutting of its bytes
//! and every failing call: the requests that its bytes begin with have their replies, in order, up
//! to the one that closes; then it ends by what the bytes show, or where a call failed; or it
//! waits, and nothing of a further request was read. The stop was called exactly where all of a
//! shutdown's reply was written.
//!
//! A read gave the end, and a read or a write failed, exactly where the connection ended by that.
//! So no call that failed is tried again, and nothing is read ahead of a reply that is owed: a read
//! there might give the end or fail, and the write of the reply might fail behind it. Where it
//! ended since its bytes had ended, nothing of them is left.
//!
//! The type of an [`IdleCaller`] keeps that some stays led to it from a caller that came
//! (`specs/Stays.antt`): each went on from the line and the number of requests that the one before
//! it left, with a worker that had seen all that had been seen for it. Over such stays, and one
//! more that may end it, a connection reads its own writes, and has at most 10,000 requests
//! ([`callers_forget_nothing`]).
//!
//! Its tests are `api_tests`' modules `connections`, `limits`, `endings`, `draining` and `moving`.
//!
//! # Example
//! ```text
//! let mut worker = ApiWorker { pass, stop, scraper };
//! let context = Context { rt, alloc, router: &router };
//! let caller = IdleCaller::came(peer, Which::Admin { ready: true }, &worker);
//! match caller.serve(&context, &mut worker) {
//!     Stayed::Waits(caller) => { /* it waits: another worker may go on with it */ }
//!     Stayed::Ends(peer, ended) => { /* the connection is done */ }
//! }
//! ```
#![tactic(auto)]

use std::alloc::AllocError;

mod answering;
mod asked;
mod context;
mod idle;
mod laws;
mod looking;
mod request;
mod serving;
mod stayed;
mod which;
mod worker;
mod writing;

pub use answering::answer;
pub use context::Context;
pub use idle::IdleCaller;
pub use laws::callers_forget_nothing;
pub use stayed::Stayed;
pub use which::Which;
pub use worker::ApiWorker;

/// A value, unless there was no memory for it.
pub type Mem<T> = Result<T, AllocError>;

/// Bytes of a text.
pub type Bytes = Vec<u8>;
