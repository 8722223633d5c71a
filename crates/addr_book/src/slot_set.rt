//! Sets of slots.
ghost use Rattle.std.specs.Prelude.{◌≡◌, ℕ, ◌+◌, ◌*◌, ◌<◌, ◌≤◌, ◌==◌, ◌&&◌, ◌||◌, ◌++◌, Bool, not};
ghost use Rattle.std.specs.Prelude.{false, length, IfOk, OnOk};
ghost use Rattle.std.specs.Int.{bit_at};
ghost use Rattle.addr_book.specs.SlotSet.{has_slot, open_slots, AreLowest};

use crate::Mem;
use std::alloc::Global;
use std::marker::Model;

/// How many slots a word tells of.
const WORD_SLOTS: usize = 64;

/// How many words there are, for 8,192 slots.
const WORDS: usize = 128;

/// Some slots below 8,192, as bits. Contracts see the words. A copy takes a kilobyte.
pub(crate) struct SlotSet {
    words: Vec<u64>,
}

impl Drop for SlotSet {
    fn drop(self) {
        let SlotSet { words } = self;
        drop(words);
    }
}

impl Model for SlotSet {
    ghost use Rattle.std.specs.Prelude.{◌≡◌, List, ℕ, length};

    ghost Value = { List ℕ };

    ghost view = { λ s. s.words.items };

    ghost invariant = { λ s. length s.words.items ≡ 128 };
}

impl SlotSet {
    /// No slot.
    pub(crate) fn new(alloc: Global) -> Mem<SlotSet>
        ensures { IfOk result (λ set. (slot : ℕ) → has_slot set slot ≡ false) }
    {
        Ok(SlotSet {
            words: Vec::from_elem(alloc, 0, WORDS)?,
        })
    }

    /// Another set of these slots.
    pub(crate) fn copied(&self) -> Mem<SlotSet>
        ensures { IfOk result (λ copy. copy ≡ self.now) }
    {
        Ok(SlotSet {
            words: Vec::from_slice(*self.words.allocator(), self.words.as_slice())?,
        })
    }

    /// Puts a slot into the set.
    pub(crate) fn put(&mut self, slot: u32)
        requires { slot < 8192 }
        ensures { (other : ℕ) → has_slot self.new other
            ≡ (slot == other || has_slot self.old other) }
    {
        let at = slot as usize / WORD_SLOTS;
        let word = self.words[at];
        self.words[at] = word | 1 << (slot % 64);
    }

    /// Takes a slot out of the set.
    pub(crate) fn take(&mut self, slot: u32)
        requires { slot < 8192 }
        ensures { (other : ℕ) → has_slot self.new other
            ≡ (not (slot == other) && has_slot self.old other) }
    {
        let at = slot as usize / WORD_SLOTS;
        let word = self.words[at];
        self.words[at] = word & !(1 << (slot % 64));
    }

    /// The lowest slots that are not in the set, in order: at least so many, or all. It passes over
    /// full words at once, and takes no memory where none is asked for.
    pub(crate) fn lowest_open(&self, count: usize) -> Mem<Vec<u32>>
        ensures { IfOk result (λ slots. AreLowest (has_slot self.now) count slots.items) }
    {
        lowest_in(*self.words.allocator(), self.words.as_slice(), count)
    }
}

/// The lowest slots that are not in the set of some words.
fn lowest_in(alloc: Global, words: &[u64], count: usize) -> Mem<Vec<u32>>
    requires { length words.now ≡ 128 }
    ensures { IfOk result (λ slots. AreLowest (has_slot words.now) count slots.items) }
{
    if count == 0 {
        return Ok(Vec::new(alloc));
    }
    let mut slots = Vec::with_capacity(alloc, count.saturating_add(WORD_SLOTS))?;
    for (at, word) in words.iter().enumerate() {
        if slots.len() >= count {
            return Ok(slots);
        }
        if *word != u64::MAX {
            push_open(*word, at as u32 * 64, &mut slots)?;
        }
    }
    Ok(slots)
}

/// Puts the slots that a word says are open behind some others. The word tells of 64 slots from a
/// first one on.
fn push_open(word: u64, first: u32, slots: &mut Vec<u32>) -> Mem<()>
    requires { first + 64 ≤ 8192 }
    ensures { OnOk result ((taken : ℕ → Bool)
        → ((bit : ℕ) → bit < 64 → taken (first + bit) ≡ (bit_at word bit == 1))
        → slots.new.items ≡ slots.old.items ++ open_slots taken 64 first) }
{
    for bit in 0..64u32 {
        if word >> bit & 1 == 0 {
            slots.push(first + bit)?;
        }
    }
    Ok(())
}
