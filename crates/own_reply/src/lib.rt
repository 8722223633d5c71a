//! The replies that the router writes itself, where it passes no reply on, and the tests of a
//! request that lead to some of them.
//!
//! [`OwnError`] says why, and [`own_reply`] gives the bytes: a status line, three or four fields,
//! and a body of one word. The word stands in the field `l5d-err` too, so that a client may tell
//! the router's replies from a service's.
//!
//! [`test_request`] tests what a head alone can show, before anything is looked up for the request
//! or read of its body: its target, the framing of its body, the length that it names, and its
//! host. The proxy and the interfaces refuse the same requests with the same replies, since both
//! call it; the interfaces alone give a greatest length, since they keep a body whole.
//! [`asks_to_close`] and [`end_of`] say, for both, behind which requests a connection ends.
//!
//! # What is proved
//! [`own_reply`] gives exactly the bytes that `specs/Reply.antt` says, for each error, closing or
//! not, with a body or without. [`own_replies_are_replies`] is the law that each is read as a reply
//! whose one Content-Length is the length of its body. [`test_request`] answers what was read of a
//! request that passes each test, or the first of the tests in `specs/Tests.antt` that refuses it.
//!
//! Its tests are `http_tests`' module `replies`.
//!
//! # Example
//! ```
//! let reply = own_reply(alloc, OwnError::Host, true, true)?;
//! assert_eq!(
//!     reply.as_slice(),
//!     b"HTTP/1.1 400 Bad Request\r\nContent-Type: text/plain\r\nl5d-err: host\r\n\
//!       Content-Length: 5\r\nConnection: close\r\n\r\nhost\n",
//! );
//! ```
#![tactic(auto)]

use std::alloc::AllocError;

mod closing;
mod error;
mod laws;
mod reply;
mod request;

pub use closing::{MOST_REQUESTS, asks_to_close, end_of};
pub use error::OwnError;
pub use laws::own_replies_are_replies;
pub use reply::own_reply;
pub use request::{Refusal, Tested, test_request};

/// A value, unless there was no memory for it.
pub type Mem<T> = Result<T, AllocError>;

/// Bytes of a text.
pub type Bytes = Vec<u8>;
