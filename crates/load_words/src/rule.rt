//! What a seat knows, the rule of the words, and the five kinds of step that keep it.
//!
//! - split: a new seat, which holds nothing, gets a part of another; no word changes;
//! - join: a seat that holds nothing is spent, and another has its parts; no word changes;
//! - load: the seat's list of reads gets the slot and the number found; no word changes;
//! - add: a seat that holds nothing holds the slot, its word rises by one, and the seat's list of
//!   slots taken gets it;
//! - subtract: a seat that holds a slot holds nothing, and the slot's word falls by one.
//!
//! No other step exists. That each keeps the rule is a lemma of `proofs/Keeping.antt`.
ghost use Rattle.std.specs.Prelude.{◌≡◌};
ghost use Rattle.load_words.specs.Counting.{WordsCountHolders, opened, less_one_part};
ghost use Rattle.load_words.specs.Counting.{with_one_part, joined, spent, Loaded, Added};
ghost use Rattle.load_words.specs.Counting.{Subtracted};

use atomic_table::{Join, Play, Split, TableRule};
use std::collections::LinkedList;

/// What contracts know of a seat. No value of it is made.
pub(crate) struct Tally {
    /// How many seats were made with the words, where the seat has a part.
    pub(crate) seats: u32,
    /// How many of the parts are the seat's own. There are as many parts as seats, and a seat that
    /// holds a slot has one.
    pub(crate) parts: u32,
    /// The slot that the seat holds.
    pub(crate) slot: Option<u32>,
    /// The slots that it read, in order, with the numbers that it found.
    pub(crate) reads: LinkedList<(u32, u64)>,
    /// The slots that it took, in order.
    pub(crate) taken: LinkedList<u32>,
}

/// Each word is the number of seats that hold its slot. The key is the number of seats.
pub(crate) struct Counted;

impl TableRule<(), Tally, u32> for Counted {
    ghost holds = { WordsCountHolders };

    ghost first = { opened };
}

/// A new seat gets one part of another.
pub(crate) struct SplitStep;

impl Split<Tally> for SplitStep {
    ghost left = { less_one_part };

    ghost right = { with_one_part };
}

/// A seat takes in the parts of another that holds nothing.
pub(crate) struct JoinStep;

impl Join<Tally> for JoinStep {
    ghost both = { joined };

    ghost spent = { spent };
}

/// The seat has read the word of a slot.
pub(crate) struct LoadStep;

impl Play<(), Tally> for LoadStep {
    ghost then = { λ step me found after. Loaded step.word found me.0 after.0 × (after.1 ≡ me.1) };
}

/// The seat holds a slot, and its word is one more.
pub(crate) struct AddStep;

impl Play<(), Tally> for AddStep {
    ghost then = { λ step me _ after. Added step.word me.0 after.0 × (after.1 ≡ me.1) };
}

/// The seat holds no slot any more, and the word of the one that it held is one less.
pub(crate) struct SubtractStep;

impl Play<(), Tally> for SubtractStep {
    ghost then = { λ _ me _ after. Subtracted me.0 after.0 × (after.1 ≡ me.1) };
}
