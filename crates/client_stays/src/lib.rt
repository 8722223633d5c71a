//! Connections of clients over several stays, each with whichever worker is free.
//!
//! A worker serves a connection while it has something to say ([`IdleClient::serve`]), and leaves
//! it to wait then: as a value, with a [`Ticket`](router::Ticket) of what its pass had seen. Any
//! other worker of the router goes on with it.
//!
//! # What is proved
//! The type of an [`IdleClient`] keeps that some stays led to it from a client that came
//! (`specs/Chains.antt`): each went on from the line, the number of requests and the budget that
//! the one before it left, with a server that had seen all that had been seen for it. Over such
//! stays, and one more that may end the connection, no request is answered from an older state than
//! one before it, and all retries are out of one budget ([`connections_forget_nothing`]).
//!
//! It is tested in `linker_tests`, where routers serve connections that wait.
//!
//! # Example
//! ```text
//! let client = IdleClient::came(peer, tries, &server);
//! match client.serve(&mut server, &context, &gate, 0, &mut recorder) {
//!     Stayed::Waits(client) => { /* it waits: another server may go on with it */ }
//!     Stayed::Ends(peer, ended) => { /* the connection is done */ }
//! }
//! ```
#![tactic(auto)]

mod client;
mod handling;
mod laws;
mod stayed;

pub use client::IdleClient;
pub use handling::Handling;
pub use laws::connections_forget_nothing;
pub use stayed::Stayed;
