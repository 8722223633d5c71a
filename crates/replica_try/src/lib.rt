//! A try of a replica: a request goes on to it over a new or a kept connection, and the reply goes
//! back to the client.
//!
//! A caller that has found a replica writes the head that goes on into the [`Way`], says by a
//! [`Try`] which request goes where, and runs it ([`Try::run`]). The request's body is passed on as
//! it comes, the final head of the reply is received, and the reply goes back to the client. What
//! became of it is a [`Tried`], with how much content moved both ways ([`Moved`]); the caller
//! reports, answers or tries again by that. A worker has one way for all its tries, so that a try
//! takes no memory for its bytes again.
//!
//! Where the dialer keeps connections ([`Dialer::keeps`](line_base::Dialer::keeps)), a request that
//! may be repeated ([`Try::is_repeatable`]) goes over one that was kept to its replica, if there is
//! one. The replica may have ended that in the meantime: where not a byte of a reply comes, and not
//! because the replica was too slow, the same bytes go once over a new connection to the same
//! address. A connection is kept behind a reply of HTTP/1.1 that was passed back whole, does not
//! say that its connection closes or run to its end, and behind which nothing was received. So no
//! reply ever goes to another request. Where the dialer keeps none, each try has a connection of
//! its own.
//!
//! # What is proved
//! A try is a relation over plain lists (`Tries` of `specs/Trying.antt`). It is a visit over a new
//! connection, or over a kept one, before which a silent one over a kept connection may stand; or
//! no connection was opened. A visit says, for any cutting of the bytes and every failing call,
//! what was sent and got, and what was read from the client and written to it, and its outcome is
//! the variant of [`Tried`] that these show: the body by `body_wire`'s definitions, the final head
//! behind up to eight interim ones (`Hears` of `specs/Heads.antt`), and the reply behind the head
//! of `forward`, with the number of content bytes that each of the two took ([`Moved`]). Where
//! memory runs out, or a call fails, what moved until then is a prefix of what would have moved.
//! Behind each try no connection is open: it was ended, or it was kept where `is_reusable` says so.
//!
//! Its tests are `session_tests`: modules `keeping` and `retries` above all.
//!
//! # Example
//! ```text
//! let mut way = Way::of(dialer, WayRoom::new(alloc)?);
//! forward_head_into(alloc, &head, &going, &mut way.out)?;
//! let to = Try { head: &head, last: false, framing: framing(&head)?, addr };
//! match to.run(alloc, &mut peer, &mut rest, &mut way) {
//!     Tried::Whole { status, closes, .. } => { /* the reply went back */ }
//!     Tried::NotDialed => { /* another replica may be tried */ }
//!     ..
//! }
//! ```
#![tactic(auto)]

mod closing;
mod final_head;
mod moved;
mod repeatable;
mod tried;
mod trying;
mod way;

pub use final_head::HeadFault;
pub use moved::Moved;
use std::alloc::AllocError;
pub use tried::Tried;
pub use trying::Try;
pub use way::{Way, WayRoom};

/// A value, unless there was no memory for it.
pub type Mem<T> = Result<T, AllocError>;

/// Bytes of a head.
pub type Bytes = Vec<u8>;
