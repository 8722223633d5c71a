//! Which path a request names, and which table of its own it brings along.
//!
//! A router names each request by one [`Rule`]: a prefix, and behind it what a [`Kind`] takes from
//! the request: its host or a field, its version, method and host, the first pieces of its target,
//! a path that stands in a field, or always the same path. [`identify`] gives the path. A request
//! may bring a table for itself alone, in its fields `l5d-ctx-dtab` and `l5d-dtab`; [`local_dtab`]
//! reads it. Where clients are not trusted, a rule clears what they say of that: [`hear`] takes
//! these fields off the head before anything is read of it. The kinds are those of the identifiers
//! of Linkerd 1. `docs/HTTP.md` states the rules in words.
//!
//! # What is proved
//! [`identify`] gives exactly the path that `identified` of `specs/Naming.antt` says, for the
//! target in the form in which it goes on, and `Unidentified` exactly where there is none.
//! [`local_dtab`] gives a table of exactly the rules that `local_rules` of `specs/Local.antt` says,
//! which are sound, and `BadDtab` exactly where there are none. Both definitions go by the values
//! of the fields, in order, and by what their texts stand for in the grammar of paths and tables.
//! [`hear`] gives exactly the head that `heard_by` of `specs/Context.antt` says, and
//! [`cleared_requests_bring_nothing`] is the law that nothing of the context is left in it. That
//! memory is there is not proved.
//!
//! Its tests are `http_tests`' module `naming`.
//!
//! # Example
//! ```
//! // A request `GET //a//b/c?d HTTP/1.1`.
//! let rule = Rule {
//!     kind: Kind::Segments(2),
//!     prefix: read_path(alloc, b"/svc")?,
//!     clears_context: false,
//! };
//! let head = hear(&rule, head);
//! let target = read_target(alloc, &head)?;
//! let host = read_host(alloc, &head, &target)?;
//! // `/svc/a/b`
//! let path = identify(alloc, &rule, &head, host.as_slice())?;
//! let table = local_dtab(alloc, &head)?;
//! ```
#![tactic(auto)]

mod context;
mod fault;
mod labels;
mod laws;
mod local;
mod naming;
mod rule;
mod segments;

pub use context::hear;
pub use fault::{IdentifyFault, LocalFault};
pub use laws::cleared_requests_bring_nothing;
pub use local::local_dtab;
pub use naming::identify;
pub use rule::{Kind, Rule};
