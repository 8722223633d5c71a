//! The interleaving core: several passes that change, ask and remember in any order, and the one
//! history that they leave.
//!
//! A [`World`] has the list of what was published, the one state and the one cache that this comes
//! to, and for each pass what it has seen of the list, its calls with their points, the question
//! that waits for its answer, and the delegation that it worked out last. A [`Step`] is one of one
//! pass, or a meeting of two: a change is asked for, a question is asked, a question is answered by
//! the state at its call's point, a delegation is offered to the cache, or two passes learn what
//! was published. A list of steps is a schedule: [`run`] makes them in a new world, and gives what
//! each [`Told`]. Threads that share a router take such steps in some order; here the order is
//! given, and there is no thread.
//!
//! A question is worked out where it is asked, from a delegation that is kept, where one is, and
//! its answer waits. So no earlier state is copied. The list of what was published and the calls of
//! the passes exist in proofs alone: a world keeps only how many they are, so it takes no more
//! memory the longer its history is. [`weave`] runs a schedule that the words of a seed generate,
//! and sums up what it left.
//!
//! # What is proved
//! `specs/World.antt` says what a step makes of a world and what it tells, over plain lists: an
//! answer is that of a full delegation in the state to which the operations before its call come,
//! with no cache in it. [`World::step`] and [`run`] give exactly that, for every step and every
//! list of steps; after want of memory a world says what it said before. `World::step` has `Holds`
//! as its condition, which `World::start` and every step give.
//!
//! [`every_schedule_is_one_history`], a clause of [`run`] as well: after any steps, each pass has
//! seen a beginning of the one list; its calls are in order in that, their points never fall, what
//! they published stands there at their points, and no other change is its own; each operation
//! fitted where it was published; and the cache, from which each change drops exactly what it
//! touches, is right at the state that the changes leave.
//!
//! The text of [`weave`] is the line that `specs/Generated.antt` defines.
//!
//! Its tests are `state_tests`' module `schedule`.
//!
//! # Example
//! Pass 0 creates the table `/s => /$/inet/127.0.0.1/1`. Pass 1 asks for `/s`. Pass 0 puts the
//! table `/s => /$/inet/127.0.0.1/2`. Pass 1 is answered: 127.0.0.1:1, at place 1, where it asked.
//! It asks again and is answered: 127.0.0.1:2, at place 2.
//!
//! ```
//! let steps = [
//!     Step::Publish(0, create),
//!     Step::Enter(1, Asked::Pick(ask)),
//!     Step::Publish(0, put),
//!     Step::Answer(1),
//! ];
//! // `Reply(0, Version(1))`, `Nothing`, `Reply(1, Version(2))`, `Chosen(1, 127.0.0.1:1)`
//! let (world, told) = run(alloc, settings, 2, &steps, &mut ticks)?;
//! ```
#![tactic(auto)]

use std::alloc::AllocError;

mod answering;
mod call;
mod generated;
mod laws;
mod listed;
mod pass;
mod publishing;
mod remembering;
mod step;
mod stepping;
mod world;

pub use generated::weave;
pub use laws::every_schedule_is_one_history;
pub use step::{Asked, Step, Told, ToldList};
pub use stepping::run;
pub use world::World;

/// A value, unless there was no memory for it.
pub type Mem<T> = Result<T, AllocError>;

/// Bytes.
pub type Bytes = Vec<u8>;
