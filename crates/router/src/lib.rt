//! The router that all threads share: changes under a lock, picks without one, and one history of
//! both.
//!
//! A [`Router`] has the state of a proxy (namespaces, services, marks), the delegations that are
//! kept for it, and the load words of its replicas. It is shared by reference. Each thread has a
//! [`Pass`], through which it asks. [`Router::look`] and [`Router::pick`] read the state without a
//! lock; [`Router::peek`] answers a pick by a delegation that is kept, without memory.
//! [`Router::hold`] and [`Router::give`] count a request at its replica. [`Router::report`] answers
//! a report of a success that changes nothing, without a lock and without memory.
//! [`Router::change`] changes the state under a lock, and [`Router::remember`] keeps a delegation
//! that a pick worked out. [`Router::meet`] lets two passes see the same, a [`Ticket`] of one lets
//! another see what it has seen ([`Pass::ticket`], [`Pass::learn`]), and [`Router::close`] ends it
//! all.
//!
//! A router begins in two calls: [`open`] makes it, and [`Opened::named`] gives it a name, a type
//! that says which router it is ([`Naming`]; callers pick `Brand`).
//!
//! # What is proved
//! There is one list of operations: the accepted changes, and the delegations that are kept, in the
//! order in which they were published. Each call has a point in that list, which is no earlier than
//! all that its pass had seen, and its answer is the one that the operations before that point
//! give: a change's reply, a look's, and just the replica of a full delegation for the loads that
//! were read, whether a delegation was kept or not (`specs/Passes.antt`, `Asking.antt`,
//! `Changing.antt`). A pass's calls stand in order in what it has seen, and what they published
//! stands at their points (`specs/Standing.antt`, kept by the type of a pass). At the end there was
//! one list, in which each change was made by a pass, and each kept delegation given by one, once
//! (`specs/Closing.antt`). After a refusal, a refused entry or a lack of memory nothing was
//! published. Its tests are the crate `router_tests`.
//!
//! # Example
//! ```text
//! let opened = open(&rt, alloc, settings, 2)?;
//! let (router, mut passes) = opened.named::<Brand, _>(&rt, alloc)?;
//! // in a thread with a pass of its own
//! match router.peek(pass, &ask, &mut names) {
//!     Peek::Hit(choice) => { /* dial choice.addr */ }
//!     Peek::Miss(_) => { /* router.pick(..), and router.remember(..) what it worked out */ }
//!     ..
//! }
//! // once all threads are joined
//! router.close(&rt, passes)
//! ```
#![tactic(auto)]

mod answer;
mod asking;
mod call;
mod changing;
mod choosing;
mod current;
mod desk;
mod detached;
mod ending;
mod loads;
mod names;
mod naming;
mod opened;
mod opening;
mod pass;
mod peeking;
mod picking;
mod reporting;
mod router;
mod ticket;
mod update;

pub use answer::{Answer, Choice, Looked, Peek, Remembered};
pub use call::Call;
pub use current::Current;
pub use names::Names;
pub use naming::Naming;
pub use opened::Opened;
pub use opening::open;
pub use pass::Pass;
pub use router::Router;
use std::alloc::AllocError;
pub use ticket::Ticket;
pub use update::{Past, Update};

/// A value, unless there was no memory for it.
pub type Mem<T> = Result<T, AllocError>;
