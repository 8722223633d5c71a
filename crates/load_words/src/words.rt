//! The words that threads share, and the seats.
ghost use Rattle.std.specs.Prelude.{◌≡◌, ◌<◌, ◌≤◌};
ghost use Rattle.std.specs.Option.{ForSome};

use crate::rule::{Counted, Tally};
use atomic_table::{Seat, Table};
use std::alloc::Global;

/// The 8,192 words, one for each slot. Threads share them by reference. They take 65,536 bytes, set
/// aside by [`start`](crate::start).
pub struct Loads {
    pub(crate) table: Table<(), Tally, u32, Counted, Global>,
    ghost slots: { table.shared.table_id.words ≡ 8192 },
    ghost few: { table.shared.key ≤ 1024 },
}

impl Drop for Loads {
    fn drop(self) {
        let Loads { table } = self;
        drop(table);
    }
}

/// The right to read the words and to hold one slot at a time. It may go to another thread, and
/// can't be copied.
///
/// It is 8 bytes: the slot that it holds. What contracts know of its reads and of the slots that it
/// took is not kept. A seat that is dropped while it holds a slot never gives it back: the slot's
/// word keeps counting it.
pub struct LoadSeat {
    pub(crate) seat: Seat<(), Tally>,
    pub(crate) slot: Option<u32>,
    ghost told: { slot ≡ seat.me.0.slot },
    ghost within: { ForSome slot (λ held. held < 8192) },
    ghost part: { seat.me.0.parts ≡ 1 },
}

impl Drop for LoadSeat {
    fn drop(self) {
        let LoadSeat { seat, slot: _ } = self;
        drop(seat);
    }
}
