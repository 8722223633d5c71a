//! The trusted edge: the outside of `line_base` over the machine.
//!
//! [`ReaderSource`] and [`WriterSink`] are a source and a sink over the standard streams and files,
//! [`FileSystem`] is the folders of the process, and [`SystemClock`] its clock in milliseconds.
//! [`SocketNet`] makes sockets: a [`SocketListener`] tells of [`SocketPeer`]s, a [`SocketDialer`]
//! opens connections of its own, and a [`SocketStop`] closes the listeners.
//!
//! # Waiting
//! All listeners of an address share one socket, whose queue of [`QUEUE_LENGTH`] has the clients
//! that wait to be accepted, and one epoll set, which has that socket and the clients that are
//! watched. Each is armed for one answer, so it is told of to one listener; and what happens while
//! no listener waits stays in the set for the first that does. The socket is armed again as soon as
//! a client was accepted, so that another listener accepts the one behind it.
//!
//! Once a client was answered, its next request is waited for a few milliseconds, but only where
//! another listener of the address waits for whoever comes, and where the client was prompt before.
//! A busy client has sent it by then, and costs one call for it, as if it had a listener of its
//! own. Where no other is free, or the client paused before its last request, it is found quiet at
//! once, and can be watched: then its next request costs three calls more, to find it quiet, to
//! watch it and to be told of it. So the last listener that is free does not wait for one client
//! while others come, and clients that pause hold no listener, however many they are. Whoever comes
//! while the last one serves waits for the next that is free, and that is after those few
//! milliseconds at the latest where one waits for a client.
//!
//! A client that stops in the middle of a request holds its listener, which waits for it a second
//! at a time. A stop lets those who are in the queue be accepted still, each of which has a second
//! to say something, and closes the listeners behind them. Where a client can't be accepted for
//! want of a descriptor, one listener at a time tries again, 50 milliseconds later. Sockets send
//! what is written at once, but for full pieces of a body, which are gathered into few packets. A
//! read or a write of theirs ends after [`IDLE_SECONDS`], a dial after [`DIAL_SECONDS`], as a
//! fault.
//!
//! # How connections end
//! An accepted connection is ended gently: what was written still arrives, since the other end is
//! first told that no more comes, and what it has yet to say is read and dropped, for two seconds
//! at most. One that was found quiet has nothing to be read, and ends at once. A dialed one is
//! ended by a reset, and its socket is connected again by the next dial. But where the other end
//! answered while bytes may still be on their way to it, the socket is closed in the ordinary way,
//! so that they all arrive.
//!
//! # Descriptors
//! `listen` opens what its listeners and as many dialers will want, and fails where the process may
//! not open so much; [`Refusal`] says how many descriptors are wanted. `waiting_room` says how many
//! more clients may wait, and leaves some for what else the process opens. So later no accept and
//! no dial lacks one. Each is closed once, by whoever owns the socket then.
//!
//! # What is proved
//! Each adapter meets its trait: every call that fails is counted, and the counts of ends, peers,
//! closes and stops are right. What the machine's bytes and moments are is not told: no clause of
//! these adapters speaks of content. So these few lines, which hand each call on to the machine,
//! are trusted to do so; the tests over loopback, in `edge_tests`, show that they do.
//!
//! # Example
//! ```
//! let mut net = SocketNet::of(&rt)?;
//! let mut listeners = net.listen(0x7f00_0001, 8080, 2, 0)?.into_items();
//! let event = listeners[0].next_event();
//! ```
#![tactic(auto)]

mod clock;
mod files;
mod sockets;
mod streams;

pub use clock::SystemClock;
pub use files::FileSystem;
pub use sockets::{
    DIAL_SECONDS, IDLE_SECONDS, QUEUE_LENGTH, Refusal, SocketDialer, SocketListener, SocketNet,
    SocketPeer, SocketStop,
};
pub use streams::{ReaderSource, WriterSink};
