//! What does not change from call to call.
use router::{Naming, Router};
use std::alloc::Global;

/// What each call is lent, and does not change: the runtime, the allocator, and the router that the
/// interfaces show and change.
#[derive_where(Clone, Copy)]
pub struct Context<'a, J: Naming, R> {
    /// The runtime.
    pub rt: &'a R,
    /// The allocator.
    pub alloc: Global,
    /// The router, which all workers share.
    pub router: &'a Router<J>,
}
