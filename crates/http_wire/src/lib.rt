//! The heads of HTTP/1.1 requests and replies: reading one off a connection, its framing, and a
//! request's target and host.
//!
//! [`read_request_head`] reads a [`Head`] off a [`Peer`](line_base::Peer), in any pieces, and keeps
//! the bytes past it in a [`Rest`]; [`read_next_head`] also waits for it, between two requests, and
//! can be told there that the listeners are closing, or that nothing came for a while
//! ([`NextHead::Quiet`]), so that the connection can wait elsewhere ([`Paused`]). [`framing`] says
//! how the body behind it ends, [`read_target`] what its target goes on as, and [`read_host`] whom
//! it asks. [`read_reply_head`] receives a [`ReplyHead`] from a [`Dialer`](line_base::Dialer) in
//! the same way, and [`reply_framing`] says how its body ends. [`push_line`] and its kin write the
//! lines of a head. The profile is that of RFC 9110 and RFC 9112, stricter where two readers of the
//! same bytes could see two different requests; `docs/HTTP.md` states it.
//!
//! # What is proved
//! The head that is read is that of all the bytes, whatever the pieces in which they came and
//! whatever follows, by the grammar of the crate `httparse`; the bytes past it are kept. A head is
//! refused as bad exactly where no continuation of the bytes is one, as another version and as too
//! large exactly where the first line and the length say so; the end of the connection and a failed
//! read are told exactly where the peer's count of them rose. A head and a refusal are told as soon
//! as the bytes show them: no read begins behind either. Framing, target and host are given, and
//! refused, exactly by the definitions of `specs/`. The room of a [`Rest`] stays within 69,632
//! bytes. At most one reading of some bytes holds ([`heads_are_unique`],
//! [`readings_exclude_one_another`]), and what was read has the bytes that may go on
//! (`specs/Sound.antt`).
//!
//! Its tests are `http_tests`' modules `heads` and `requests`.
//!
//! # Example
//! ```
//! let mut rest = Rest::room(alloc)?;
//! let head = read_request_head(alloc, &mut peer, &mut rest)?;
//! assert_eq!(head.target.bytes(), b"/x");
//! assert_eq!(framing(&head), Ok(Framing::Nothing));
//! let target = read_target(alloc, &head)?;
//! assert_eq!(read_host(alloc, &head, &target)?.as_slice(), b"web");
//! ```
#![tactic(auto)]

use std::alloc::AllocError;

mod body;
mod closing;
mod ended;
mod first_line;
mod frames;
mod head;
mod host;
mod laws;
mod lines;
mod list;
mod next;
mod parse;
mod paused;
mod reading;
mod reply_parse;
mod reply_reading;
mod reply_watch;
mod rest;
mod room;
mod section;
mod seen;
mod target;
mod text;
mod watch;

pub use body::{content_length, framing, reply_framing};
pub use closing::names_close;
pub use ended::{Ended, drained};
pub use frames::{Framing, FramingFault};
pub use head::{Field, FieldList, Head, ReplyHead};
pub use host::{HostFault, read_host};
pub use laws::{heads_are_unique, readings_exclude_one_another};
pub use lines::{end_line, push_field, push_line};
pub use list::{before, trimmed};
pub use next::{NextHead, hears_closing, read_next_head};
pub use paused::{Paused, paused_by};
pub use reading::{HeadEnd, read_request_head};
pub use reply_reading::read_reply_head;
pub use rest::Rest;
pub use target::{Target, TargetFault, read_target};
pub use text::{FieldName, Text, same_bytes};

/// A value, unless there was no memory for it.
pub type Mem<T> = Result<T, AllocError>;

/// Bytes of a text.
pub type Bytes = Vec<u8>;
