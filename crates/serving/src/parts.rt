//! What jobs are taken apart into, once they have ended.
ghost use Rattle.std.specs.Prelude.{IfOk};

use line_base::Net;
use proxy_session::Mem;
use router::{Naming, Pass};
use std::alloc::Global;
use std::sync::ledger::Ledger;
use waiting::Hand;

/// What goes back to the net from a job.
#[derive(Drop)]
pub struct Part<L, D, S> {
    pub(crate) listener: L,
    pub(crate) dialer: Option<D>,
    pub(crate) stop: S,
}

/// The parts of jobs that have ended: what goes back to the net, their passes, their recorders,
/// their hands at either lot, and whether a stay ran out of memory.
#[derive(Drop)]
pub struct Apart<J: Naming, L, D, S, K, A: Ledger, B: Ledger, E: Ledger, F: Ledger> {
    pub(crate) parts: Vec<Part<L, D, S>>,
    pub(crate) passes: Vec<Pass<J>>,
    pub(crate) recorders: Vec<K>,
    pub(crate) client_hands: Vec<Hand<A, B>>,
    pub(crate) caller_hands: Vec<Hand<E, F>>,
    pub(crate) lacked_memory: bool,
}

/// The parts of jobs of a net.
pub(crate) type NetApart<J, N, K, A, B, E, F> = Apart<
    J,
    <N as Net>::L,
    <N as Net>::D,
    <N as Net>::S,
    K,
    A,
    B,
    E,
    F,
>;

impl<
    J: Naming,
    L: Drop,
    D: Drop,
    S: Drop,
    K: Drop,
    A: Ledger,
    B: Ledger,
    E: Ledger,
    F: Ledger,
> Apart<J, L, D, S, K, A, B, E, F> {
    ghost use Rattle.serving.specs.Parts.{HasRoom, IsEmpty};

    /// Those of no job yet, with room for those of so many.
    pub(crate) fn with_room(alloc: Global, count: usize) -> Mem<Apart<J, L, D, S, K, A, B, E, F>>
        ensures nothing { IfOk result (λ a. IsEmpty a) }
        ensures room { IfOk result (λ a. HasRoom a count) }
    {
        Ok(Apart {
            parts: Vec::with_capacity(alloc, count)?,
            passes: Vec::with_capacity(alloc, count)?,
            recorders: Vec::with_capacity(alloc, count)?,
            client_hands: Vec::with_capacity(alloc, count)?,
            caller_hands: Vec::with_capacity(alloc, count)?,
            lacked_memory: false,
        })
    }
}
