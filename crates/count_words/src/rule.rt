//! What a seat knows, the rule of the words, and the kinds of step that keep it.
//!
//! - hand on: a new seat owns the first 64 of another's words; no word changes;
//! - split: a new seat owns nothing and has read nothing; no word changes;
//! - load: the seat's list of reads gets the word and the number found; no word changes;
//! - store: a word of the seat's own gets a number that is not below the last one.
//!
//! No other step exists. That each keeps the rule is a lemma of `proofs/Keeping.antt`.
ghost use Rattle.std.specs.Prelude.{◌≡◌};
ghost use Rattle.count_words.specs.Owning.{Loaded, OwnersCount, Stored, as_it_is, behind_worker};
ghost use Rattle.count_words.specs.Owning.{nothing, opened, worker_of};

use atomic_table::{Play, Split, TableRule};
use std::collections::LinkedList;

/// What contracts know of a seat. No value of it is made.
pub(crate) struct Knowledge {
    /// The first of the seat's own words.
    pub(crate) first: u32,
    /// The counts that it has published, one for each of its own words.
    pub(crate) counts: LinkedList<u64>,
    /// The words that it read, in order, with the numbers that it found.
    pub(crate) reads: LinkedList<(u32, u64)>,
}

/// Each word is what its owner wrote last. The key is the number of words.
pub(crate) struct Owned;

impl TableRule<(), Knowledge, u32> for Owned {
    ghost holds = { OwnersCount };

    ghost first = { opened };
}

/// A new seat owns the first 64 words of another.
pub(crate) struct HandStep;

impl Split<Knowledge> for HandStep {
    ghost left = { behind_worker };

    ghost right = { worker_of };
}

/// A new seat owns nothing.
pub(crate) struct SplitStep;

impl Split<Knowledge> for SplitStep {
    ghost left = { as_it_is };

    ghost right = { nothing };
}

/// The seat has read a word.
pub(crate) struct LoadStep;

impl Play<(), Knowledge> for LoadStep {
    ghost then = { λ step me found after. Loaded step.word found me.0 after.0 × (after.1 ≡ me.1) };
}

/// The seat has written a word of its own.
pub(crate) struct StoreStep;

impl Play<(), Knowledge> for StoreStep {
    ghost then = { λ step me _ after. Stored step.word step.first me.0 after.0
        × (after.1 ≡ me.1) };
}
