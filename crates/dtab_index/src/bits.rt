//! Sets of places, as bits.
ghost use Rattle.std.specs.Prelude.{◌≡◌, ℕ, ◌<◌, ◌≤◌, ◌==◌, ◌&&◌, ◌||◌, not, true, false};
ghost use Rattle.std.specs.Bool.{OnTrue};
ghost use Rattle.dtab_index.specs.Bits.{has};

/// How many places a set tells of.
pub(crate) const MOST_PLACES: usize = 1024;

/// How many places a word tells of.
pub(crate) const WORD_PLACES: usize = 64;

/// How many words there are.
pub(crate) const WORDS: usize = 16;

/// Some of 1,024 places. It takes no memory. Contracts see the words.
#[derive(Clone, Copy)]
pub(crate) struct Bits {
    pub(crate) words: [u64; WORDS],
}

impl Bits {
    /// No place.
    pub(crate) fn none() -> Bits
        ensures { (place : ℕ) → has result.words place ≡ false }
    {
        Bits { words: [0; WORDS] }
    }

    /// Every place from a first one on. Which of those before it are in the set is not said.
    pub(crate) fn from(first: usize) -> Bits
        requires { first < 1024 }
        ensures { (place : ℕ) → first ≤ place → place < 1024 → has result.words place ≡ true }
    {
        let mut words = [u64::MAX; WORDS];
        words[first / WORD_PLACES] = u64::MAX << (first % WORD_PLACES);
        Bits { words }
    }

    /// Puts a place into the set.
    pub(crate) fn put(&mut self, place: usize)
        requires { place < 1024 }
        ensures { (other : ℕ) →
            has self.new.words other ≡ (place == other || has self.old.words other) }
    {
        let at = place / WORD_PLACES;
        let word = self.words[at];
        self.words[at] = word | 1 << (place % WORD_PLACES);
    }

    /// From a first place on, takes the places of another set out. Where it gives `true`, none is
    /// left.
    pub(crate) fn remove(&mut self, first: usize, others: &Bits) -> bool
        ensures none { OnTrue result
            ((place : ℕ) → first ≤ place → place < 1024 → has self.new.words place ≡ false) }
        ensures left { (place : ℕ) → first ≤ place → place < 1024 → has self.new.words place
            ≡ (has self.old.words place && not (has others.now.words place)) }
    {
        let mut all = 0;
        for at in first / WORD_PLACES..WORDS {
            let word = self.words[at];
            let left = word ^ (word & others.words[at]);
            self.words[at] = left;
            all |= left;
        }
        all == 0
    }

    /// From a first place on, takes the places of another set out, but for those of a third.
    pub(crate) fn remove_but(&mut self, first: usize, others: &Bits, kept: &Bits)
        ensures { (place : ℕ) → first ≤ place → place < 1024 → has self.new.words place
            ≡ (has self.old.words place
            && (has kept.now.words place || not (has others.now.words place))) }
    {
        for at in first / WORD_PLACES..WORDS {
            let word = self.words[at];
            self.words[at] = word & kept.words[at] | word ^ (word & others.words[at]);
        }
    }
}
