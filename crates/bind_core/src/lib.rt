//! Delegation: from a logical path, by delegation tables and a book of services, to replicas.
//!
//! [`bind`] looks a path up in three [`Tables`] that count as one: the namespace's, the configured
//! one and the request's own. The trees that they rewrite it to are tried in order, and their
//! leaves are looked up in turn. Where all of them come to nothing, the path may name an address or
//! a service of the [`Book`](addr_book::Book) by itself. A [`Delegated`] is what the path comes to,
//! an [`Outcome`], with the number of lookups that it took, and where it is [`Wanted`] the paths
//! that were looked up, a [`PathList`], or a [`Trace`] of the lookups.
//!
//! # What is proved
//! Delegation is defined in `specs/Delegation.antt` as a recursion over the table as a list of
//! rules, which tells the lookups of each part in the order in which they begin. [`bind`] keeps a
//! stack in place of that recursion, and gives exactly its outcome, cost and lookups: alternatives
//! in order and no further than the first that isn't negative; the branches of a union in order,
//! but for those of weight 0 and those behind one that is too deep; at most 100 lookups in a chain,
//! paths of at most 2,048 bytes, at most 10,000 lookups in all. Each union of a bound outcome has a
//! branch, no weight in it is 0, and both are within the bounds of the tables' own unions. Only
//! want of memory is free to come.
//!
//! [`delegation_is_local`] is the law that a cache of outcomes stands on: where tables and books
//! say the same of each path that was looked up, outcome, cost and lookups are the same.
//! [`lean_trees_are_walked_alike`] is the law that [`bind`] stands on, which tries the tables'
//! trees without what makes no lookup; so its turns are bounded by its lookups and the depth of the
//! trees.
//!
//! Its tests are `state_tests`' module `binding`.
//!
//! # Example
//! ```
//! let none = Dtab::empty(alloc);
//! let text = b"/svc => 3 * /$/inet/127.0.0.1/8080 & 1 * /$/inet/127.0.0.1/8081";
//! let space = read_dtab(alloc, text)?;
//! let tables = Tables { space: &space, base: &none, local: &none };
//! let path = read_path(alloc, b"/svc/users")?;
//! let delegated = bind(alloc, &tables, &Book::start(alloc)?, &path, Wanted::Asked, &mut steps)?;
//! // A union of two leaves with the residual `/users`, three of four requests to the first, after
//! // three lookups.
//! assert_eq!(delegated.asked.items().len(), 3);
//! ```
#![tactic(auto)]

use std::alloc::AllocError;

mod delegate;
mod frame;
mod gathered;
mod laws;
mod outcome;
mod rewritten;
mod tables;
mod trace;
mod visits;
mod work;

pub use delegate::bind;
pub use laws::{delegation_is_local, lean_trees_are_walked_alike};
pub use outcome::{Delegated, Outcome, Wanted};
pub use tables::Tables;
pub use trace::{LookupEnd, PathList, Trace, TraceItem};

/// A value, unless there was no memory for it.
pub type Mem<T> = Result<T, AllocError>;
