//! Who scrapes the words of the workers.
ghost use Rattle.std.specs.Prelude.{◌≡◌, ◌*◌, ◌≤◌, []};
ghost use Rattle.count_words.specs.Seats.{Reads, reads_of, size_of, words_of};

use crate::sums::Sums;
use count_words::{CountReader, Counts};
use line_base::Clock;

/// What a scrape reads beside the router's state: the moment, and the words of all workers.
pub trait Scrape {
    ghost use Rattle.scrape.specs.Scrapes.{IsMoment, Scraping, SumsUp};

    /// What it tells of itself.
    ghost told: { Self → Scraping };

    /// The moment of this call, in milliseconds since 1970.
    fn moment(&mut self) -> u64
        ensures { IsMoment (told self.old) (told self.new) result };

    /// What is found in the words, each read once, summed by their places.
    fn sums(&mut self) -> Sums
        ensures { SumsUp (told self.old) (told self.new) result };
}

/// Scrapes the words of so many workers. Each thread that scrapes has one of its own.
pub struct Scraper<'a, C> {
    clock: C,
    counts: &'a Counts,
    reader: CountReader,
    workers: u32,
    ghost seat: { Reads counts.now reader },
    ghost size: { size_of counts.now ≡ 64 * workers },
    ghost few: { workers ≤ 1024 },
}

impl<'a, C: Drop> Drop for Scraper<'a, C> {
    fn drop(self) {
        let Scraper {
            clock,
            counts: _,
            reader,
            workers: _,
        } = self;
        drop(clock);
        drop(reader);
    }
}

impl<'a, C> Scraper<'a, C> {
    /// A scraper of all words, with a reader of its own. It takes no memory.
    pub fn new(clock: C, counts: &'a Counts, reader: CountReader, workers: u32) -> Scraper<'a, C>
        requires reader { Reads counts.now reader }
        requires size { size_of counts.now ≡ 64 * workers }
        requires few { workers ≤ 1024 }
        ensures clock { result.clock ≡ clock }
        ensures words { words_of result.counts.now ≡ words_of counts.now }
        ensures size { size_of result.counts.now ≡ 64 * workers }
        ensures reads { reads_of result.reader ≡ reads_of reader }
    {
        Scraper {
            clock,
            counts,
            reader,
            workers,
        }
    }
}

impl<C: Clock> Scrape for Scraper<'_, C> {
    ghost use Rattle.std.specs.Prelude.{Some};
    ghost use Rattle.count_words.specs.Seats.{reads_of, size_of, words_of};

    ghost told = { λ s. record {
      moments = C.to_come s.clock;
      words = Some (words_of s.counts.now);
      size = size_of s.counts.now;
      reads = reads_of s.reader;
    } };

    fn moment(&mut self) -> u64 {
        self.clock.now()
    }

    fn sums(&mut self) -> Sums {
        Sums::read(self.counts, &mut self.reader, self.workers)
    }
}

/// Scrapes where there are no words: its sums are all 0.
pub struct NoWords<C> {
    clock: C,
}

impl<C: Drop> Drop for NoWords<C> {
    fn drop(self) {
        let NoWords { clock } = self;
        drop(clock);
    }
}

impl<C> NoWords<C> {
    /// It has a clock alone.
    pub fn of(clock: C) -> NoWords<C>
        ensures { result.clock ≡ clock }
    {
        NoWords { clock }
    }
}

impl<C: Clock> Scrape for NoWords<C> {
    ghost use Rattle.std.specs.Prelude.{[], None};

    ghost told = { λ s. record {
      moments = C.to_come s.clock;
      words = None;
      size = 0;
      reads = [];
    } };

    fn moment(&mut self) -> u64 {
        self.clock.now()
    }

    fn sums(&mut self) -> Sums {
        Sums::none()
    }
}
