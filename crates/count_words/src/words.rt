//! The words that threads share, and the seats.
ghost use Rattle.std.specs.Prelude.{◌≡◌, ◌≤◌, [], length};

use crate::rule::{Knowledge, Owned};
use atomic_table::{Seat, Table};
use std::alloc::Global;

/// The words, 64 for each worker. Threads share them by reference.
pub struct Counts {
    pub(crate) table: Table<(), Knowledge, u32, Owned, Global>,
    ghost size: { table.shared.table_id.words ≡ table.shared.key },
    ghost few: { table.shared.key ≤ 65536 },
    ghost some: { 1 ≤ table.shared.key },
}

impl Drop for Counts {
    fn drop(self) {
        let Counts { table } = self;
        drop(table);
    }
}

/// The right to write the 64 words of a worker. It may go to another thread, and can't be copied.
pub struct CountWriter {
    pub(crate) seat: Seat<(), Knowledge>,
    pub(crate) first: u32,
    ghost told: { first ≡ seat.me.0.first },
    ghost own: { length seat.me.0.counts ≡ 64 },
    ghost bare: { seat.me.1 ≡ [] },
}

impl Drop for CountWriter {
    fn drop(self) {
        let CountWriter { seat, first: _ } = self;
        drop(seat);
    }
}

/// The right to read all words. It may go to another thread, and can't be copied.
pub struct CountReader {
    pub(crate) seat: Seat<(), Knowledge>,
    ghost bare: { seat.me.1 ≡ [] },
}

impl Drop for CountReader {
    fn drop(self) {
        let CountReader { seat } = self;
        drop(seat);
    }
}
