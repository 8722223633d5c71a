//! Bodies of HTTP/1.1 messages, passed on piece by piece.
//!
//! [`pass_body`] passes the body of a request on to an upstream, [`pass_back`] that of a reply back
//! to a client, and [`read_body`] reads one whole. Each takes the bytes that a
//! [`Rest`](http_wire::Rest) keeps and then reads, one piece after another, up to the body's end by
//! its [`Framing`](http_wire::Framing); what lies behind stays in the `Rest`. A body that is passed
//! on may have up to 2^63 - 1 content bytes, and takes no more memory than one piece: nothing is
//! kept back until its end. A chunk goes on as one chunk of its size, in whatever pieces it came;
//! its extensions and the trailers do not go on. [`write_all`] writes bytes of any kind to a peer.
//!
//! # What is proved
//! For every cutting of the bytes and every failing call: what was sent is the head and what goes
//! on for the bytes that were taken, chunk for chunk, by definitions over the whole body
//! (`specs/`); the answer says what these bytes show, and always the number of content bytes
//! ([`Passed`]); where sending fails or memory is wanting, they are a front of the body, and what
//! lies behind them is kept; each fault and each end comes only where its count rose, and at an end
//! a client that tells its bytes has none left. Before each piece that is read, the body had not
//! ended and had not announced more than the limit, and all that goes on for what came before it
//! had been sent.
//!
//! Its tests are `http_tests`' module `bodies`.
//!
//! # Example
//! ```
//! let mut out = forward_head(alloc, &head, &going)?;
//! let passed = pass_body(&mut peer, &mut rest, framing(&head)?, &mut out, &mut dialer);
//! let count = passed.end?;
//! ```
#![tactic(auto)]

use std::alloc::AllocError;

mod answer;
mod back;
mod decoder;
mod end;
mod form;
mod line;
mod onward;
mod passed;
mod read;
mod sending;
mod size;
mod trailers;
mod turn;
mod writing;

pub use back::pass_back;
pub use end::BodyEnd;
pub use onward::pass_body;
pub use passed::Passed;
pub use read::read_body;
pub use writing::write_all;

/// A value, unless there was no memory for it.
pub type Mem<T> = Result<T, AllocError>;

/// Bytes of a body, or of what goes on for one.
pub type Bytes = Vec<u8>;
