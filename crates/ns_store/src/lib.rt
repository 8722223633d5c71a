//! Namespaces: named delegation tables that operators edit, each with a version.
//!
//! A [`Store`] maps names to tables, at most 256 of them. A change is prepared as a [`ReadyStore`],
//! or refused with a [`StoreFault`], and then absorbed. Each create and each put gives its table
//! the next version, a number that goes up by one and starts at 1, so a version tells one table
//! from every other that the store ever has. A put or a delete may name the version that it expects
//! to change.
//!
//! # What is proved
//! Clauses see a store as a finite map from names to versions and tables, and the next version
//! (`specs/Contents.antt`). A change is refused exactly where its name is there or missing, another
//! version is expected than the one that is there, 256 names are taken or the versions are spent,
//! in the order that `specs/Refusal.antt` states; want of memory apart. A prepared store has the
//! one change and nothing else. Absorbing makes a store the prepared one, whatever it was before.
//! Over every list of changes no version is given twice ([`versions_rise`]).
//!
//! Its tests are `store_tests`' module `store`.
//!
//! # Example
//! ```
//! let name = Name::of(alloc, b"default")?;
//! let mut store = Store::start(alloc)?;
//! let ready = store.prepare_create(alloc, &name, &read_dtab(alloc, b"/svc => /a")?)?;
//! store.absorb(&ready)?;
//! // Version 1, with the table `/svc => /a`.
//! let found = store.get(&name);
//! assert_eq!(store.prepare_delete(alloc, &name, Some(7)).err(), Some(StoreFault::Stale(1)));
//! ```
#![tactic(auto)]

use std::alloc::AllocError;

mod fault;
mod laws;
mod namespace;
mod spaces;
mod store;

pub use fault::StoreFault;
pub use laws::versions_rise;
pub use store::{MOST_NAMES, ReadyStore, Store};

/// A value, unless there was no memory for it.
pub type Mem<T> = Result<T, AllocError>;
