//! What a seat does to the words: each call is one atomic operation on one word.
ghost use Rattle.std.specs.Prelude.{◌≡◌, ◌+◌, ◌*◌, ◌<◌, ◌≤◌, ◌++◌, [], ◌∷◌, All, slice_index_or};
ghost use Rattle.std.specs.Prelude.{slice_set};
ghost use Rattle.count_words.specs.Seats.{Reads, Writes, counts_of, first_of, reads_of, size_of};

use crate::rule::{LoadStep, StoreStep};
use crate::words::{CountReader, CountWriter, Counts};

impl Counts {
    /// Publishes a count of a worker: one atomic store. A count never falls.
    pub fn publish(&self, writer: &mut CountWriter, place: u32, amount: u64)
        requires writer { Writes self.now writer.old }
        requires place { place < 64 }
        requires within { first_of writer.old + 64 ≤ size_of self.now }
        requires grows { slice_index_or (counts_of writer.old) place 0 ≤ amount }
        ensures writer { Writes self.now writer.new }
        ensures first { first_of writer.new ≡ first_of writer.old }
        ensures counts { counts_of writer.new ≡ slice_set (counts_of writer.old) place amount }
    {
        let word = writer.first + place;
        self.table
            .shared
            .store::<StoreStep>(&mut writer.seat, word as usize, amount);
    }

    /// What stands in a word, as it is at this one atomic load: what its owner published last. It
    /// is not below any number that the reader found there before.
    pub fn read(&self, reader: &mut CountReader, word: u32) -> u64
        requires reader { Reads self.now reader.old }
        requires word { word < size_of self.now }
        ensures reader { Reads self.now reader.new }
        ensures reads { reads_of reader.new ≡ reads_of reader.old ++ (word, result) ∷ [] }
        ensures grown { All (λ r. r.0 ≡ word → r.1 ≤ result) (reads_of reader.old) }
    {
        self.table
            .shared
            .load::<LoadStep>(&mut reader.seat, word as usize)
    }
}
