//! The head of a request as it goes on to a replica, and that of a reply as it goes back to the
//! client.
//!
//! [`forward_head`] writes it from the [`Head`](http_wire::Head) that was received and from what
//! [`Going`] says of the way that the request takes. It names the host once, leaves out the fields
//! that speak of one connection and those that a Connection field lists, frames the body anew, and
//! adds the router's own fields. `docs/HTTP.md` states each line.
//!
//! # What is proved
//! [`forward_head`] gives exactly the bytes of `forwarded` of `specs/Forwarded.antt`, for every
//! head and every way, and [`back_head`] those of `returned` of `specs/Returned.antt`. `kept` and
//! `kept_back` of `specs/Dropped.antt` say which fields are among them. [`forward_head_into`] and
//! [`back_head_into`] put the same bytes into a buffer. [`heads_read_back`] says of which heads and
//! ways what is written is read as it was meant.
//!
//! Its tests are `http_tests`' module `forwarding`.
//!
//! # Example
//! ```
//! // `GET / HTTP/1.1`, `Host: web`, `Connection: x-gone`, `X-Gone: 1`, `X-Kept: 2`
//! let head = read_request_head(alloc, &mut peer, &mut rest)?;
//! let to = Going {
//!     host: b"web",
//!     target: b"/",
//!     framing: Framing::Nothing,
//!     local: &Dtab::empty(alloc),
//!     service: &read_path(alloc, b"/svc/web")?,
//!     client: b"/$/inet/127.0.0.1/9001",
//!     residual: b"/",
//!     closes: true,
//! };
//! assert_eq!(
//!     forward_head(alloc, &head, &to)?.as_slice(),
//!     b"GET / HTTP/1.1\r\nHost: web\r\nX-Kept: 2\r\nVia: 1.1 linkerd\r\n\
//!       l5d-dst-service: /svc/web\r\nl5d-dst-client: /$/inet/127.0.0.1/9001\r\n\
//!       Connection: close\r\n\r\n"
//! );
//! ```
#![tactic(auto)]

use std::alloc::AllocError;

mod back;
mod dropped;
mod going;
mod laws;
mod listed;
mod names;

pub use back::{back_head, back_head_into};
pub use going::{Going, forward_head, forward_head_into};
pub use laws::heads_read_back;

/// A value, unless there was no memory for it.
pub type Mem<T> = Result<T, AllocError>;

/// Bytes of a text.
pub type Bytes = Vec<u8>;

/// How many bytes a head has room for from the start. It grows where it needs more.
const ROOM: usize = 1024;
