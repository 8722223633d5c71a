//! What does not change from call to call.

use identifier::Rule;
use router::{Naming, Router};
use std::alloc::Global;

/// What a server is lent for each call, and does not change: the runtime, the allocator, the router
/// that it asks, and the rule by which a request names a path.
#[derive_where(Clone, Copy)]
pub struct Context<'a, J: Naming, R> {
    /// The runtime.
    pub rt: &'a R,
    /// The allocator.
    pub alloc: Global,
    /// The router, which all servers share.
    pub router: &'a Router<J>,
    /// How a request names a path, and whether what it says of its context is heard.
    pub rule: &'a Rule,
}
