//! namerd's interface: what a request for the tables of namespaces asks for.
//!
//! [`ns_demand`] reads a request: it asks for the names of all namespaces, or to show, make, put or
//! delete the table of one. A table comes as its text or as JSON. What is asked for is a
//! [`Demand`](api_wire::Demand), which `api_sessions` carries out; `docs/API.md` has each path with
//! its answers.
//!
//! # What is proved
//! What a request asks for is a function of its head, the target that goes on, and its body:
//! `ns_demand` of `specs/Demand.antt`. The tests come in the order path, method, name, body. A body
//! is read as a table exactly where it stands for one (`specs/JsonTable.antt`), and the tables that
//! requests bring in are sound (`proofs/Sounds.antt`). Its tests are `api_tests`' module `namerd`.
//!
//! # Example
//! ```text
//! let demand = ns_demand(alloc, &head, b"/api/1/dtabs/web", b"/svc => /a")?; // PUT
//! // Demand::Change(Change::Put { name, version: None, dtab })
//! ```
#![tactic(auto)]

use std::alloc::AllocError;

mod demand;
mod json_table;

pub use demand::ns_demand;

/// A value, unless there was no memory for it.
pub type Mem<T> = Result<T, AllocError>;
