//! The state of a router as one thread sees it: namespaces, services, marks, and the place in its
//! history.
//!
//! A [`State`] answers [`Change`]s, which it accepts or refuses, and [`Look`]s with a [`Reply`],
//! and [`Ask`]s with a [`Chosen`] replica, all under the [`Settings`] of a router. A change is made
//! in two steps: [`State::prepare`] does the work, and [`State::absorb`] takes in what was
//! prepared, a [`Ready`], in any number of equal states. [`State::apply`] is the two in one. A pick
//! is made in two steps as well, for callers that read loads between them: [`State::delegate`] and
//! [`State::candidates_of`] give the two [`Candidates`], and [`Candidates::taken`] says which of
//! them is taken. [`State::choose`] picks where no address has any load.
//!
//! # What is proved
//! `specs/State.antt` says what each change is answered and what it leaves, as functions of plain
//! values, with finite maps for namespaces, services and marks; `specs/Looking.antt` what looks are
//! answered, and `specs/Choosing.antt` which replica an ask is given. Each call gives exactly that.
//! Refusals come in their order, the last of them exactly where the history has no place left; a
//! refused change leaves all as it is, and so does want of memory, which alone is free to come.
//! What a state is that absorbs a prepared change is a function of the two (`specs/Ready.antt`):
//! the clause `ok` of [`State::absorb`] says so on any state, and so two equal states that absorb
//! one prepared change are equal again. On the state that the change was prepared for it is what
//! the change leaves ([`absorbing_is_changing`]). Marks are those of addresses that some service
//! has, and an address that leaves takes its mark with it.
//!
//! # Cost
//! No pick copies a table or a list of addresses: delegation reads tables where they lie, and
//! [`State::candidates_of`] takes no memory. Of the looks [`Look::Services`] alone goes over the
//! whole book.
//!
//! Its tests are `state_tests`' modules `state` and `services`.
//!
//! # Example
//! ```
//! let mut state = State::start(alloc)?;
//! let dtab = read_dtab(alloc, b"/svc => /$/inet/127.0.0.1/8080")?;
//! let create = Change::Create { name: Name::of(alloc, b"default")?, dtab };
//! // `Version(1)`
//! let reply = state.apply(alloc, &settings, &create)?;
//! let path = read_path(alloc, b"/svc/users")?;
//! let ask = Ask { path, local: Dtab::empty(alloc), moment: 0, words: [0, 0, 0] };
//! // 127.0.0.1:8080, with `/users` behind the labels that named it.
//! let chosen = state.choose(alloc, &settings, &ask, &mut steps)?;
//! ```
#![tactic(auto)]

use std::alloc::AllocError;

mod answering;
mod ask;
mod candidates;
mod change;
mod changing;
mod chosen;
mod decided;
mod deciding;
mod laws;
mod look;
mod part;
mod picking;
mod ready;
mod reply;
mod service_look;
mod settings;
mod state;

pub use ask::Ask;
pub use candidates::{Candidates, Taken};
pub use change::Change;
pub use chosen::{Chosen, Why};
pub use laws::absorbing_is_changing;
pub use look::Look;
pub use ready::Ready;
pub use reply::{NameList, Reply, ServiceState};
pub use settings::Settings;
pub use state::State;

/// A value, unless there was no memory for it.
pub type Mem<T> = Result<T, AllocError>;
