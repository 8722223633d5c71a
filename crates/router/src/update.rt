//! What callers publish.
ghost use Rattle.router_log.specs.Operation.{caller_of, serial_of};
ghost use Rattle.router.specs.Update.{operation_of};

use bind_cache::Binding;
use machine::{Change, Ready};
use snap_cell::Operation;
use std::snapshot::Snapshot;
use std::sync::Arc;

/// One step of the router's value: an accepted change, or a delegation that is kept. Contracts see
/// it as `operation_of update`, a plain value.
pub enum Update {
    /// An accepted change, with the parts that were prepared of it. Both copies of the value share
    /// them.
    Changed {
        /// The number of the pass that made it.
        by: u32,
        /// Its number among that pass's changes.
        serial: u64,
        /// The change.
        change: Change,
        /// What was prepared of it.
        ready: Ready,
    },
    /// A delegation that is kept. Both copies share it.
    Kept {
        /// The number of the pass that keeps it.
        by: u32,
        /// Its number among that pass's kept delegations.
        serial: u64,
        /// The delegation.
        binding: Arc<Binding>,
    },
}

impl Drop for Update {
    fn drop(self) {
        match self {
            Update::Changed {
                by: _,
                serial: _,
                change,
                ready,
            } => {
                drop(change);
                drop(ready);
            }
            Update::Kept {
                by: _,
                serial: _,
                binding,
            } => drop(binding),
        }
    }
}

impl Operation for Update {
    ghost caller = { λ u. caller_of (operation_of u) };

    ghost serial = { λ u. serial_of (operation_of u) };
}

/// The updates that a copy of the value took in. It exists in proofs alone: as a `Snapshot` it has
/// no bytes.
pub enum Past {
    /// None.
    Nothing,
    /// Some, and one more.
    Then(Snapshot<Past>, Snapshot<Update>),
}

impl Drop for Past {
    fn drop(self) {
        match self {
            Past::Nothing => {}
            Past::Then(past, update) => {
                drop(past);
                drop(update);
            }
        }
    }
}
