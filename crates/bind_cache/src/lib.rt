//! Delegations that are kept, so that a path that was bound is bound again by one look-up.
//!
//! A [`Binding`] is what a path came to, with a request's own rules behind those of the proxy, and
//! which paths were looked up for it. A [`Cache`] keeps up to 1,024 of them in the order in which
//! they were put in, and lets the oldest go for one more. Where the proxy's rules or services
//! change, it drops exactly the bindings of which a path that was looked up is touched:
//! [`Cache::touch_table`] those with a path that a changed rule matches, [`Cache::touch_service`]
//! those with a path of that service.
//!
//! # What is proved
//! Clauses see a cache as a list, the oldest binding first (`specs/Cache.antt`). [`Cache::find`] is
//! the look-up in that list, [`Cache::keep`] puts one behind the others, and the two touches are
//! filters. No two bindings have one key, there are at most 1,024, and none cost more than 256
//! lookups ([`bindings_are_apart`]). What changed between two tables is what is left of them
//! without the rules that both have at their fronts, and then without those that both have at their
//! ends.
//!
//! A binding is right where a delegation by the proxy's rules, the request's own behind them, and
//! its services comes to the same outcome after the same lookups. [`caches_stay_right`] are the
//! laws: after a change that the cache was told of, each binding that stays is right for the new
//! rules and services. It rests on [`delegation_is_local`](bind_core::delegation_is_local).
//!
//! Its tests are `state_tests`' module `cache`.
//!
//! # Example
//! ```
//! let found = bind(alloc, &tables, &book, &path, Wanted::Asked, &mut steps)?;
//! let binding = Arc::new(alloc, Binding::of(alloc, &path, &local, found, place)?)?;
//! let mut cache = Cache::start(alloc)?;
//! if binding.cost() <= MOST_COST && cache.find(&path, &local).is_none() {
//!     cache.keep(binding);
//! }
//! // A change of one rule drops the bindings with a path that it matches, and keeps all others.
//! cache.touch_table(&old, &new);
//! ```
#![tactic(auto)]

use std::alloc::AllocError;

mod binding;
mod cache;
mod chains;
mod hash;
mod laws;
mod rings;
mod touch;

pub use binding::Binding;
pub use cache::{Cache, MOST_COST, MOST_KEPT};
pub use laws::{bindings_are_apart, caches_stay_right, services_change_alone};

/// A value, unless there was no memory for it.
pub type Mem<T> = Result<T, AllocError>;
