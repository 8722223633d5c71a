//! The counts of all workers.
ghost use Rattle.std.specs.Prelude.{◌≡◌, ◌*◌, ◌≤◌, ◌<◌, ◌%◌, ◌++◌, ◌∷◌, [], ℕ, List, length};
ghost use Rattle.count_words.specs.Seats.{Reads, reads_of, size_of};
ghost use Rattle.scrape.specs.Sums.{AreSums, IsReading, with_sum};

use count_words::{CountReader, Counts, PLACES};

/// The counts of all workers, summed by their places.
#[derive(Clone, Copy)]
pub struct Sums {
    pub(crate) counts: [u64; PLACES as usize],
}

impl Sums {
    /// The sums of no words.
    pub fn none() -> Sums
        ensures { AreSums result.counts [] }
    {
        Sums {
            counts: [0; PLACES as usize],
        }
    }

    /// Reads each word of so many workers once.
    pub fn read(counts: &Counts, reader: &mut CountReader, workers: u32) -> Sums
        requires reader { Reads counts.now reader.old }
        requires size { size_of counts.now ≡ 64 * workers }
        requires few { workers ≤ 1024 }
        ensures reader { Reads counts.now reader.new }
        ensures sums { (found : List (ℕ × ℕ)) × IsReading (64 * workers) (reads_of reader.old)
            (reads_of reader.new) found × AreSums result.counts found }
    {
        let mut sums = [0u64; PLACES as usize];
        for word in 0..workers * PLACES {
            let found = counts.read(reader, word);
            add(&mut sums, (word % PLACES) as usize, found);
        }
        Sums { counts: sums }
    }
}

/// Adds to the sum at a place.
fn add(sums: &mut [u64; PLACES as usize], place: usize, found: u64)
    requires { place < 64 }
    ensures { sums.new ≡ with_sum sums.old place found }
{
    sums[place] = sums[place].saturating_add(found);
}
