//! How the words and their seats are made.
ghost use Rattle.std.specs.Prelude.{◌≡◌, ℕ, ◌*◌, ◌≤◌, [], length, slice_index_or, take};
ghost use Rattle.std.specs.Prelude.{All, IfOk};
ghost use Rattle.count_words.specs.Owning.{behind_worker};
ghost use Rattle.count_words.specs.Seats.{AreNumbered, HasCountedNone, IsWriterOf, Reads, Writes};
ghost use Rattle.count_words.specs.Seats.{counts_of, first_of, reads_of, size_of};

use crate::Mem;
use crate::rule::{HandStep, Knowledge, SplitStep};
use crate::words::{CountReader, CountWriter, Counts};
use atomic_table::{Seat, Table};
use std::alloc::Global;

/// How many words a worker has: eight lines of a cache.
pub const PLACES: u32 = 64;

/// Makes 64 words of 0 for each worker, a writer for each, in their order, and a reader: the word
/// of the worker `w` and the place `p` is `64 * w + p`. Nothing was counted or read yet.
///
/// The only error is out of memory.
pub fn start(alloc: Global, workers: u32) -> Mem<(Counts, Vec<CountWriter>, CountReader)>
    requires { (1 ≤ workers) × (workers ≤ 1024) }
    ensures size { IfOk result (λ made. size_of made.0 ≡ 64 * workers) }
    ensures count { IfOk result (λ made. length made.1.items ≡ workers) }
    ensures writers { IfOk result (λ made. All (IsWriterOf made.0) made.1.items) }
    ensures numbers { IfOk result (λ made. AreNumbered made.1.items) }
    ensures none { IfOk result (λ made. All HasCountedNone made.1.items) }
    ensures reader { IfOk result (λ made. Reads made.0 made.2) }
    ensures unread { IfOk result (λ made. reads_of made.2 ≡ []) }
{
    let size = workers * PLACES;
    let words = Vec::from_elem(alloc, 0, size as usize)?;
    let (table, first) = Table::of_words(alloc, words.as_slice(), &size)?;
    let counts = Counts { table };
    let (writers, reader) = counts.make_seats(alloc, first, workers)?;
    Ok((counts, writers, reader))
}

impl Counts {
    /// A writer for each worker, with the words that the first seat owns, and what is left of that
    /// seat as a reader.
    fn make_seats(
        &self,
        alloc: Global,
        mut first: Seat<(), Knowledge>,
        workers: u32,
    ) -> Mem<(Vec<CountWriter>, CountReader)>
        requires few { workers ≤ 1024 }
        requires size { size_of self.now ≡ 64 * workers }
        requires table { first.table_id ≡ self.now.table.shared.table_id }
        requires bare { first.me.1 ≡ [] }
        requires from { first.me.0.first ≡ 0 }
        requires all { length first.me.0.counts ≡ 64 * workers }
        requires none { (place : ℕ) → slice_index_or first.me.0.counts place 0 ≡ 0 }
        requires unread { first.me.0.reads ≡ [] }
        ensures count { IfOk result (λ made. length made.0.items ≡ workers) }
        ensures writers { IfOk result (λ made. All (IsWriterOf self.now) made.0.items) }
        ensures numbers { IfOk result (λ made. AreNumbered made.0.items) }
        ensures none { IfOk result (λ made. All HasCountedNone made.0.items) }
        ensures reader { IfOk result (λ made. Reads self.now made.1) }
        ensures unread { IfOk result (λ made. reads_of made.1 ≡ []) }
    {
        let mut writers = Vec::with_capacity(alloc, workers as usize)?;
        for worker in 0..workers {
            writers.push(self.hand_on(&mut first, worker * PLACES))?;
        }
        Ok((writers, CountReader { seat: first }))
    }

    /// A writer of the first 64 words that a seat owns.
    fn hand_on(&self, seat: &mut Seat<(), Knowledge>, first: u32) -> CountWriter
        requires table { seat.old.table_id ≡ self.now.table.shared.table_id }
        requires first { first ≡ seat.old.me.0.first }
        requires many { 64 ≤ length seat.old.me.0.counts }
        requires bare { seat.old.me.1 ≡ [] }
        ensures seat { (seat.new.table_id ≡ seat.old.table_id)
            × (seat.new.me ≡ (behind_worker seat.old.me.0, [])) }
        ensures writes { Writes self.now result }
        ensures first { first_of result ≡ first }
        ensures counts { counts_of result ≡ take 64 seat.old.me.0.counts }
    {
        CountWriter {
            seat: self.table.shared.split_seat::<HandStep>(seat),
            first,
        }
    }

    /// One more reader, which has read nothing, for another thread that wants to know the counts.
    /// Any reader will do to make it, and is as it was. It takes no memory.
    pub fn another_reader(&self, reader: &mut CountReader) -> CountReader
        requires reader { Reads self.now reader.old }
        ensures reader { Reads self.now reader.new × (reads_of reader.new ≡ reads_of reader.old) }
        ensures another { Reads self.now result × (reads_of result ≡ []) }
    {
        CountReader {
            seat: self.table.shared.split_seat::<SplitStep>(&mut reader.seat),
        }
    }
}
