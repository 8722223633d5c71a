//! The calls of passes, and what was published: lists that exist in proofs alone.
use crate::step::Asked;
use bind_cache::Binding;
use machine::Change;
use std::snapshot::Snapshot;
use std::sync::Arc;

/// What a pass called.
pub(crate) enum Call {
    /// It asked something.
    Asked(Snapshot<Asked>),
    /// It asked for a change.
    Changing(Snapshot<Change>),
    /// It offered a delegation.
    Keeping(Snapshot<Arc<Binding>>),
}

impl Drop for Call {
    fn drop(self) {
        match self {
            Call::Asked(asked) => drop(asked),
            Call::Changing(change) => drop(change),
            Call::Keeping(binding) => drop(binding),
        }
    }
}

/// A call with its point: how many operations stood before it.
pub(crate) struct Item {
    pub(crate) call: Call,
    pub(crate) at: usize,
}

impl Drop for Item {
    fn drop(self) {
        let Item { call, at: _ } = self;
        drop(call);
    }
}

/// What was published.
pub(crate) enum Operation {
    /// A change that the state accepted.
    Changed {
        by: u32,
        serial: u64,
        change: Snapshot<Change>,
    },
    /// A delegation that is kept.
    Kept {
        by: u32,
        serial: u64,
        binding: Snapshot<Arc<Binding>>,
    },
}

impl Drop for Operation {
    fn drop(self) {
        match self {
            Operation::Changed {
                by: _,
                serial: _,
                change,
            } => drop(change),
            Operation::Kept {
                by: _,
                serial: _,
                binding,
            } => drop(binding),
        }
    }
}

/// The calls of a pass. A `Snapshot` has no bytes, so none of them is kept.
pub(crate) enum Calls {
    /// None.
    NoCalls,
    /// Some, and one more.
    Called(Snapshot<Calls>, Snapshot<Item>),
}

impl Drop for Calls {
    fn drop(self) {
        match self {
            Calls::NoCalls => {}
            Calls::Called(calls, item) => {
                drop(calls);
                drop(item);
            }
        }
    }
}

/// The operations of a world. A `Snapshot` has no bytes, so none of them is kept.
pub(crate) enum Operations {
    /// None.
    NoOperations,
    /// Some, and one more.
    Published(Snapshot<Operations>, Snapshot<Operation>),
}

impl Drop for Operations {
    fn drop(self) {
        match self {
            Operations::NoOperations => {}
            Operations::Published(operations, operation) => {
                drop(operations);
                drop(operation);
            }
        }
    }
}
