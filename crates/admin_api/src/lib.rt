//! The admin interface: what a request for the addresses of services, the delegator, counts and
//! metrics, or the end of the program asks for.
//!
//! [`admin_demand`] reads a request. What it asks for is a [`Demand`](api_wire::Demand) on the
//! router, or the text of all metrics ([`AdminDemand`]). [`metrics_response`] writes that text, by
//! what a look at the services told and by what the workers count ([`Sums`](scrape::Sums)).
//! `api_sessions` carries all out; `docs/API.md` has each path with its answers.
//!
//! # What is proved
//! What a request asks for is a function of its head, the target that goes on, and its body, and of
//! whether the program is ready for more connections: `admin_demand` of `specs/Demand.antt`. The
//! text of the metrics has the numbers of the state, of each service, and of the sums
//! (`specs/Metrics.antt`). Its tests are `api_tests`' modules `admin` and `metrics`.
//!
//! # Example
//! ```text
//! match admin_demand(alloc, true, &head, b"/admin/ready", b"")? {
//!     AdminDemand::Metrics => { /* look at the services, and sum the workers' counts up */ }
//!     AdminDemand::Other(demand) => { /* Demand::Answer, 200 with the word ready */ }
//! }
//! ```
#![tactic(auto)]

use std::alloc::AllocError;

mod demand;
mod metrics;

pub use demand::{AdminDemand, admin_demand};
pub use metrics::metrics_response;

/// A value, unless there was no memory for it.
pub type Mem<T> = Result<T, AllocError>;

/// Bytes of a text.
pub type Bytes = Vec<u8>;
