//! Some of the places of a list, as bits.
ghost use Rattle.std.specs.Prelude.{◌≡◌, ℕ, ◌<◌, ◌==◌, ◌||◌, false};
ghost use Rattle.addr_book.specs.SlotSet.{has_slot};

/// How many places a word tells of.
const WORD_PLACES: usize = 64;

/// How many words there are.
const WORDS: usize = 16;

/// Some of the places of a list of at most 1,024. It takes no memory. Contracts see the words.
#[derive(Clone, Copy)]
pub(crate) struct Bits {
    words: [u64; WORDS],
}

impl Bits {
    /// No place.
    pub(crate) fn none() -> Bits
        ensures { (place : ℕ) → has_slot result.words place ≡ false }
    {
        Bits { words: [0; WORDS] }
    }

    /// Whether it has a place.
    pub(crate) fn has(&self, place: usize) -> bool
        requires { place < 1024 }
        ensures { result ≡ has_slot self.now.words place }
    {
        self.words[place / WORD_PLACES] >> (place % WORD_PLACES) & 1 == 1
    }

    /// Puts a place into it.
    pub(crate) fn put(&mut self, place: usize)
        requires { place < 1024 }
        ensures { (other : ℕ) → has_slot self.new.words other
            ≡ (place == other || has_slot self.old.words other) }
    {
        let at = place / WORD_PLACES;
        let word = self.words[at];
        self.words[at] = word | 1 << (place % WORD_PLACES);
    }
}
