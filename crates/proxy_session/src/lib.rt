//! The requests of one connection: each goes on to a replica, and the reply goes back.
//!
//! A worker has a [`Server`] for all its connections: its pass to the [`Router`](router::Router), a
//! dialer, a clock, a generator of words, and some 38 KB of [`Room`]. [`Server::proxy_once`] serves
//! one request from its head on: it finds a replica for what the request seeks, by what the router
//! keeps or by a delegation, holds its slot, dials it, sends the request on and passes the reply
//! back, and reports how that went; or the router answers itself. What the request was, in numbers,
//! comes along with how it ended ([`Served`]). [`Server::serve_stay`] serves the requests of a
//! [`Connection`], one after another, until it ends, or has nothing to say for a while and can wait
//! ([`Paused::Quiet`](http_wire::Paused)). Then any server of the router may serve it further, up
//! to 10,000 requests in all. What does not change in these calls is one [`Context`].
//! `docs/HTTP.md` has a table of what a client sees.
//!
//! A connection with a budget of retries ([`Connection::trying`]) sends a request to another
//! replica where one fails it before a byte of a reply; one without ([`Connection::of`]) has one
//! try for each request. Take a budget where replicas come and go, and give it no more than the
//! replicas that are left can carry: over all stays of a connection the attempts behind the first
//! of each request are at most `reserve + percent * requests / 100`.
//!
//! A replica is tried by `replica_try`, over a new connection or, where the dialer keeps them
//! ([`Dialer::keeps`](line_base::Dialer::keeps)), over one that was kept to it. A kept connection
//! that its replica has ended in the meantime is no failed try: the same request goes over a new
//! one, no other replica is picked for it and nothing is reported. So a server that ends idle
//! connections costs no retry and counts as no failure. Where the dialer keeps none, each try has
//! a connection of its own and asks the replica to close it.
//!
//! # What is proved
//! One exchange is a relation over plain lists (`Exchanges` of `specs/Exchange.antt`): what a
//! request seeks or why it is refused (`Seeks`), how a replica is asked for (`Finding`), how it is
//! tried (`Tries` of `replica_try`, with a variant of its `Tried` for each outcome), and how that
//! is settled (`Settles`). A request is one exchange where its connection has no budget (`Requests`
//! of `specs/Requests.antt`); with one it is a list of attempts, each with words and a moment of
//! its own (`Attempts` of `specs/Attempts.antt`), of which the client sees the last alone. What a
//! request was in numbers is a function of these (`specs/Ways.antt`, by `specs/Done.antt`): what
//! was answered and what cut it off, how often a replica was tried and which one last, how many
//! failures were reported, how many bytes of both bodies moved. A stay is a list of requests, each
//! with its head read off the bytes that the one before it left, and then an end, or no byte more
//! (`StaysTo` of `specs/Session.antt`); its retries are paid out of its budget, with which the next
//! stay goes on. All hold over any cutting of the bytes and every failing call; where memory runs
//! out, or a call of the client's connection fails, what was moved until then is a prefix of what
//! would have been. Behind each no slot is held, and behind each try no connection to the replica
//! is open: it was ended or kept.
//!
//! [`heads_that_go_on_are_read_back`] is the law that what these send of a head that was read is
//! itself read as it was meant, and the law for whoever reads a dialer's log: over one connection
//! requests and replies alternate, and a request is sent only where the reply to the one before it
//! was got whole, with nothing behind it. [`stays_follow_what_was_seen`] is the law that a stay
//! asks the router behind all that had been seen before it, so that a connection which moves
//! between servers, each of which learns the ticket of the one before ([`Server::learn`]), is never
//! answered from an older state than before.
//!
//! Whoever serves a stay hands in a [`Recorder`](exchange_record::Recorder). It is told of each
//! exchange, in order and once, and what it is told is a function of the way that the stay went
//! (`stay_told` of `specs/Recorded.antt`): where the client is, the head as it was heard, the path
//! that it named, and its numbers.
//!
//! Its tests are `session_tests`.
//!
//! # Example
//! ```text
//! let rule = Rule {
//!     kind: Kind::Token(FieldName::of(..)),
//!     prefix: read_path(alloc, b"/svc")?,
//!     clears_context: false,
//! };
//! let context = Context { rt, alloc, router: &router, rule: &rule };
//! let mut server = Server::of(Room::new(alloc)?, Parts { pass, dialer, clock, words });
//! let mut connection = Connection::of(peer);
//! match server.serve_stay(&context, &mut connection, &gate, 0, &mut NoRecorder) {
//!     Paused::Quiet => { /* it waits: another server may go on with it */ }
//!     Paused::Ended(Ended::PeerEnded | Ended::Closed) => { /* the connection is done */ }
//!     ..
//! }
//! ```
#![tactic(auto)]

mod answering;
mod asking;
mod attempt;
mod closing;
mod connection;
mod context;
mod done;
mod exchange;
mod held_try;
mod laws;
mod onward;
mod refusing;
mod repeating;
mod reporting;
mod room;
mod seeking;
mod served;
mod server;
mod session;

pub use connection::Connection;
pub use context::Context;
pub use laws::{heads_that_go_on_are_read_back, stays_follow_what_was_seen};
pub use room::Room;
pub use served::Served;
pub use server::{Parts, Server};
use std::alloc::AllocError;

/// A value, unless there was no memory for it.
pub type Mem<T> = Result<T, AllocError>;

/// Bytes of a text.
pub type Bytes = Vec<u8>;
