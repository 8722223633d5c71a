//! What the callers of a router publish, and what that comes to, as plain values.
//!
//! One list of operations says all that ever happened to a router: the changes that were accepted,
//! and the delegations that were kept so that they need not be worked out again (`Operation` of
//! `specs/Operation.antt`). Read in order it comes to one state and the delegations that are kept
//! for it (`value_of` of `specs/Value.antt`): an accepted change moves the state, and drops exactly
//! the kept delegations that it touches. What a call publishes, if anything, follows from what
//! stood before it (`publishes` of `specs/Call.antt`): a change that the state accepts, or a
//! delegation that is small, was worked out at this very place of the history, and has no like.
//!
//! A model of all schedules and the running router cite these definitions, with those of
//! `one_history`, which say how a caller's calls stand in the list. Two calls take in what was
//! published: [`take_change`] for a state with the cache beside it, [`take_kept`] for a cache.
//!
//! # What is proved
//! [`published_values_are_right`]: whatever was published, a delegation that is kept is the one
//! that the state gives, and a state's place is the number of changes before it.
//! [`published_operations_fit`]: what calls publish is such that this stays so. [`take_change`]
//! leaves the prepared state, and drops of the cache what its change touches; [`take_kept`] keeps a
//! delegation where it may stand. Where the operation fits, [`taking_is_applying`]: that is what
//! the list of operations comes to with one more.
//!
//! Its tests are `state_tests`' module `schedule`, over `weave`, and those of `router_tests`, over
//! `router`.
//!
//! # Example
//! ```text
//! change: create `default` with /svc => /#/io.l5d.fs     state 1, nothing kept
//! keep: /svc/web => the service web                       state 1, one kept
//! change: create `other` with /x => /y                    state 2, one kept
//! change: put `default` with /svc/web => /y               state 3, nothing kept
//! ```
#![tactic(auto)]

mod changing;
mod keeping;
mod laws;

pub use changing::take_change;
pub use keeping::{MOST_BYTES, take_kept};
pub use laws::{published_operations_fit, published_values_are_right, taking_is_applying};
