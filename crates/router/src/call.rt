//! What callers ask.
use bind_cache::Binding;
use machine::{Ask, Change, Look};
use std::snapshot::Snapshot;

/// A call as a pass's items tell it. It exists in contracts alone, and has no bytes as a
/// `Snapshot`.
pub enum Call {
    /// A replica was asked for.
    Asked(Snapshot<Ask>),
    /// A question was asked that alters nothing.
    Looked(Snapshot<Look>),
    /// A change was asked for.
    Changing(Snapshot<Change>),
    /// A delegation was to be kept.
    Keeping(Snapshot<Binding>),
}

impl Drop for Call {
    fn drop(self) {
        match self {
            Call::Asked(ask) => drop(ask),
            Call::Looked(look) => drop(look),
            Call::Changing(change) => drop(change),
            Call::Keeping(binding) => drop(binding),
        }
    }
}
