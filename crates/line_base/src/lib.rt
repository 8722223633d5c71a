//! The outside as traits: what a program reads from, writes to, dials and asks, with the counts
//! that say why a call failed.
//!
//! A [`Source`] gives bytes, a [`Sink`] takes them, and a [`Peer`] does both, and may tell where
//! its other end is ([`SocketAddress`]). A [`Listener`] hands out the peers that connect to an
//! address, tells which of those that it watches have something to say ([`Event`]), and takes them
//! back. A [`Dialer`] opens connections of its own, a [`Folder`] has files, a [`Clock`] tells the
//! moment, a [`Stop`] ends what listens, and a [`Gate`] is told of each request. A [`Net`] makes
//! listeners, dialers and stops, and takes them back. Each object that can fail counts its faults:
//! a call that fails raises the count by one, and no other call moves it. So code that is generic
//! over these traits can't make a fault up: a clause such as "this status exactly where the
//! source's count rose" refuses a body that gives up, and one that tries again and tells nobody.
//! Where an object tells its content, as those in memory do, clauses speak of its bytes too, and of
//! the peers that came and went; a real file or socket tells none.
//!
//! Objects in memory that meet these traits, for tests, are in `line_doubles`; those over the
//! machine are in `net_edge`. What stands here is tested with the former, by `grammar_tests`'
//! module `outside`.
//!
//! # What is proved
//! Little runs here: a [`Piece`], a [`NameList`] and [`Listeners`] hold what they were made of, and
//! [`count_clean`] counts as the nets say. The rest are the traits' contracts, which whatever meets
//! a trait is proved to keep.
//!
//! # Example
//! ```
//! /// The first byte that a source has yet to give, of whatever kind the source is.
//! fn first_byte<S: Source>(source: &mut S) -> Result<Option<u8>, Failed> {
//!     let mut byte = [0u8; 1];
//!     let count = source.read(&mut byte)?;
//!     Ok(if count == 1 { Some(byte[0]) } else { None })
//! }
//! ```
#![tactic(auto)]

use std::alloc::AllocError;

mod clock;
mod dialer;
mod event;
mod folder;
mod listener;
mod net;
mod outside;
mod piece;
mod signals;
mod socket_address;

pub use clock::Clock;
pub use dialer::{ConnectionPool, DialEvent, Dialer};
pub use event::Event;
pub use folder::{Folder, FolderFault, Found, NameList};
pub use listener::{Endpoint, Listener, Listeners};
pub use net::{BROKEN_RUN, Net, NetFault, count_clean};
pub use outside::{Failed, Next, Peer, Sink, Source};
pub use piece::Piece;
pub use signals::{Gate, Stop};
pub use socket_address::SocketAddress;

/// A value, unless there was no memory for it.
pub type Mem<T> = Result<T, AllocError>;

/// Bytes of a file.
pub type Bytes = Vec<u8>;
