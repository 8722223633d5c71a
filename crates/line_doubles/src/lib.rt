//! The outside in memory, for tests: objects that meet the traits of `line_base`, whose bytes,
//! events and failures are stated beforehand.
//!
//! [`MemSource`] gives bytes in pieces of stated sizes, and [`MemSink`] takes them so; [`MemPeer`]
//! is both ends of a connection, and says that its listeners are closing, or that nothing came, at
//! stated questions. [`MemListener`] tells a list of events ([`MemVisits`], [`MemAddress`]), and
//! [`MemDialer`] answers its dials from a list of replies ([`MemDials`]), and keeps a log.
//! [`MemFolder`] has a list of files ([`MemFile`]), [`MemClock`] one of moments, and [`MemStop`]
//! counts its calls. [`MemNet`] makes listeners, dialers and stops, and keeps what comes back
//! ([`MemEnded`]). Calls of an object are counted from 0, and fail where their numbers are listed.
//!
//! # What is proved
//! The objects meet their traits, with their content told; each call of theirs is counted, and
//! fails where its number is listed. Their tests are `grammar_tests`' module `outside`.
//!
//! # Example
//! ```
//! let mut source = MemSource::of(b"abc".to_vec(alloc)?, Vec::new(alloc), Vec::new(alloc));
//! let mut buffer = [0u8; 2];
//! assert_eq!(source.read(&mut buffer), Ok(2));
//! ```
#![tactic(auto)]

mod clock;
mod dialer;
mod folder;
mod link;
mod listener;
mod net;
mod notice;
mod plan;
mod stop;
mod streams;
mod unread;

pub use clock::MemClock;
pub use dialer::MemDialer;
pub use folder::{MemFile, MemFolder};
pub use listener::MemListener;
pub use net::{MemAddress, MemDials, MemEnded, MemNet, MemVisits};
pub use stop::MemStop;
pub use streams::{MemPeer, MemSink, MemSource};
