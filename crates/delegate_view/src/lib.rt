//! The delegator's view: how a path is delegated, lookup by lookup, as JSON; and the query that
//! asks for it.
//!
//! [`view_text`] writes what a delegation came to and the lookups that it made, a
//! [`Trace`](bind_core::Trace), as a compact JSON object. [`view_ask`] reads the query of a request
//! for a view: the path, and the request's own table.
//!
//! # What is proved
//! The text is exactly the one that `specs/View.antt` defines. A query is read exactly as
//! `specs/Query.antt` has it: the first `path` and the first `dtab` of the form count, decoded as
//! forms are, and [`ViewFault::BadView`] comes exactly where there is no path, or the path or the
//! table is none.
//!
//! Its tests are `state_tests`' module `view`.
//!
//! # Example
//! ```
//! let (path, local) = view_ask(alloc, b"path=/svc/a&dtab=/svc+=>+/$/inet/127.0.0.1/80")?;
//! let found = bind(alloc, &tables, &book, &path, Wanted::Trace, &mut steps)?;
//! let text = view_text(alloc, &found.outcome, &found.trace)?;
//! // in one line: {"lookups":[{"depth":0,"outcome":"bound","path":"/svc/a"},
//! // {"depth":1,"outcome":"bound","path":"/$/inet/127.0.0.1/80/a"}],"outcome":"bound"}
//! ```
#![tactic(auto)]

use std::alloc::AllocError;

mod query;
mod view;

pub use query::{ViewFault, view_ask};
pub use view::view_text;

/// A value, unless there was no memory for it.
pub type Mem<T> = Result<T, AllocError>;

/// Bytes of a text.
pub type Bytes = Vec<u8>;
