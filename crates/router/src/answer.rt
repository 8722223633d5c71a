//! What the router answers.
use addr_book::Addr;
use bind_cache::Binding;
use machine::{Reply, Why};
use name_tree::Path;

/// A replica that was chosen.
#[derive(Clone, Copy, Debug, PartialEq, Eq)]
pub struct Choice {
    /// Its address.
    pub addr: Addr,
    /// Its slot among the load words. `None` where it is an address by itself, which has no load.
    pub slot: Option<u32>,
    /// The load of the first of the two between which it was chosen, as it was read.
    pub first: u64,
    /// The load of the second one.
    pub second: u64,
    /// How many changes stood before the pick.
    pub place: u64,
}

/// The answer to a pick.
#[derive(Drop)]
pub enum Answer {
    /// A replica.
    Picked {
        /// Which, by which loads, and at which place.
        choice: Choice,
        /// The labels that named its cluster.
        client: Path,
        /// The labels behind those.
        residual: Path,
        /// The delegation that was worked out for the pick, where none was kept.
        /// [`Router::remember`](crate::Router::remember) keeps it.
        fresh: Option<Binding>,
    },
    /// There is no replica.
    None {
        /// Why.
        why: Why,
        /// How many changes stood before the pick.
        place: u64,
        /// The delegation that was worked out for the pick, where none was kept.
        fresh: Option<Binding>,
    },
    /// The pass was not let in, which its count of refusals shows. Nothing was asked.
    NoEntry,
}

/// The answer to a pick by what is kept alone.
#[derive(Clone, Copy, Debug, PartialEq, Eq)]
pub enum Peek {
    /// A delegation is kept, and there is this replica. Its names were written.
    Hit(Choice),
    /// A delegation is kept, and there is no replica.
    HitNone {
        /// Why.
        why: Why,
        /// How many changes stood before it.
        place: u64,
    },
    /// None is kept for the ask's path and table. How many changes stood before it.
    Miss(u64),
    /// The pass was not let in, which its count of refusals shows. Nothing was asked.
    NoEntry,
}

/// The answer to a look.
#[derive(Drop)]
pub enum Looked {
    /// It was answered at its point.
    Said {
        /// How many changes stood before it.
        place: u64,
        /// The reply.
        reply: Reply,
        /// How many delegations were kept: up to 1,024, of this same point.
        kept: usize,
    },
    /// The pass was not let in, which its count of refusals shows. Nothing was asked.
    NoEntry,
}

/// Whether a delegation is kept.
#[derive(Clone, Copy, Debug, PartialEq, Eq)]
pub enum Remembered {
    /// It is kept.
    Kept,
    /// It took more than 256 lookups, or its texts have more than 8,192 bytes.
    Large {
        /// How many lookups it took.
        cost: u32,
        /// How many bytes its texts have together.
        bytes: usize,
    },
    /// Changes were accepted since it was worked out.
    Late {
        /// How many had been then.
        place: u64,
        /// How many have been now.
        now: u64,
    },
    /// Another one is kept for its path and table.
    Had,
    /// 2^64 - 1 delegations were kept before.
    KeptSpent,
}
