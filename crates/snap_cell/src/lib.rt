//! A value that many readers enter without a lock, and one writer changes by published operations.
//!
//! The value is kept twice: readers are in one copy while the writer brings the other one up, and
//! then the two change places. A [`Writer`] publishes operations ([`Writer::publish`]); a
//! [`Reader`] enters the value ([`Reader::enter`]) and gets it lent by a [`Guard`], or in its own
//! hands until it puts it back ([`Reader::take`], [`Reader::put_back`]). What was published reaches
//! a reader by a [`Note`] ([`Writer::tell`], [`Reader::learn`]), by [`Reader::catch_up`], or when
//! it enters. A reader tells of what it has seen by a note too ([`Reader::tell`]), so that a piece
//! of work may go on with another reader, which sees no less. Any value that absorbs operations by
//! reference will do ([`Published`]), and any kind of item: a reader notes at which point of the
//! list its items stand. The lists of operations and items exist in proofs alone: an item is a
//! `Snapshot`, which has no bytes, so an enum of snapshots can name what a caller only lends.
//!
//! Where callers share a writer under a lock, each has a reader, and a change of one is
//! [`Writer::publish_for`]; a call that is refused there takes its item by [`Reader::catch_up`].
//! End the lock's guard by `MutexGuard::unlock`, since a writer is not `Drop`.
//!
//! # What is proved
//! There is one list of published operations, and each publish adds one at its end. What a reader
//! enters is the opening value with the operations of a beginning of that list applied, in order;
//! each of them fitted the state that those before it left. That beginning has all that the reader
//! had seen or learnt of, so it never goes back. [`Writer::value`] has all of the list, and
//! [`Writer::close`] shows that what each reader has seen begins it. When a guard ends, its reader
//! is at its place again. Writers, readers and notes may go to other threads wherever the value and
//! its operations may (`proofs/Crossing.antt`).
//!
//! Its tests are `shared_tests`' module `cell`.
//!
//! # Example
//! ```text
//! let (mut writer, mut readers) = start(&rt, alloc, Sum(0), Sum(0), 2)?;
//! writer.publish_for(&rt, &mut readers[0], Add { by: 0, digit: 5 }, None)?;
//! readers[1].learn(writer.tell(), None);
//! if let Some(guard) = readers[1].enter(None) { /* guard.get() is Sum(5) */ }
//! writer.close(&rt, readers)
//! ```
#![tactic(auto)]

mod begin;
mod guard;
mod history;
pub mod kept;
mod operation;
mod reader;
mod rule;
mod trail;
mod writer;

pub use begin::start;
pub use guard::{Guard, Stay};
pub use operation::{Operation, Published};
pub use reader::{Entered, Reader};
use std::alloc::AllocError;
pub use writer::{Note, Whole, Writer};

/// A value, unless there was no memory for it.
pub type Mem<T> = Result<T, AllocError>;
