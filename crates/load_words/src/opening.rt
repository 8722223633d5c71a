//! How the words and their seats are made.
ghost use Rattle.std.specs.Prelude.{◌≡◌, ◌≤◌, [], length, All, IfOk, None};
ghost use Rattle.load_words.specs.Counting.{opened, less_one_part};
ghost use Rattle.load_words.specs.Seats.{IsOf, IsUnused, seats_of};

use crate::Mem;
use crate::rule::{JoinStep, SplitStep, Tally};
use crate::words::{LoadSeat, Loads};
use atomic_table::{Seat, Table};
use std::alloc::Global;

/// How many slots there are.
const SLOTS: usize = 8192;

/// Makes 8,192 words of 0 and so many seats, of which none holds a slot and none has read or taken
/// one.
///
/// The only error is want of memory. It takes 64 KiB for the words, 8 bytes for each seat, and 64
/// KiB more until it returns.
pub fn start(alloc: Global, seats: u32) -> Mem<(Loads, Vec<LoadSeat>)>
    requires { (1 ≤ seats) × (seats ≤ 1024) }
    ensures count { IfOk result (λ made. length made.1.items ≡ seats) }
    ensures bound { IfOk result (λ made. seats_of made.0 ≡ seats) }
    ensures seats { IfOk result (λ made. All (IsOf made.0) made.1.items) }
    ensures unused { IfOk result (λ made. All IsUnused made.1.items) }
{
    let words = Vec::from_elem(alloc, 0, SLOTS)?;
    let (table, first) = Table::of_words(alloc, words.as_slice(), &seats)?;
    let loads = Loads { table };
    let seats = loads.make_seats(alloc, first, seats)?;
    Ok((loads, seats))
}

impl Loads {
    /// So many seats, each with one part of the first seat's, which had a part for each. The last
    /// one is joined by the first, which is spent.
    fn make_seats(
        &self,
        alloc: Global,
        mut first: Seat<(), Tally>,
        seats: u32,
    ) -> Mem<Vec<LoadSeat>>
        requires some { 1 ≤ seats }
        requires first { (first.table_id ≡ self.now.table.shared.table_id)
            × (first.me ≡ (opened seats, [])) }
        requires bound { seats_of self.now ≡ seats }
        ensures count { IfOk result (λ made. length made.items ≡ seats) }
        ensures seats { IfOk result (λ made. All (IsOf self.now) made.items) }
        ensures unused { IfOk result (λ made. All IsUnused made.items) }
    {
        let mut made = Vec::with_capacity(alloc, seats as usize)?;
        for _ in 1..seats {
            made.push(self.split(&mut first))?;
        }
        let mut last = self.split(&mut first);
        self.table
            .shared
            .join_seat::<JoinStep>(&mut last.seat, first);
        made.push(last)?;
        Ok(made)
    }

    /// A new seat that holds nothing, with one part of another's.
    fn split(&self, other: &mut Seat<(), Tally>) -> LoadSeat
        requires table { other.old.table_id ≡ self.now.table.shared.table_id }
        requires part { 1 ≤ other.old.me.0.parts }
        requires free { other.old.me.0.slot ≡ None }
        requires bound { other.old.me.0.seats ≡ seats_of self.now }
        ensures other { (other.new.table_id ≡ other.old.table_id)
            × (other.new.me ≡ (less_one_part other.old.me.0, other.old.me.1)) }
        ensures seat { IsOf self.now result × (result.seat.me.1 ≡ []) }
        ensures unused { IsUnused result }
    {
        LoadSeat {
            seat: self.table.shared.split_seat::<SplitStep>(other),
            slot: None,
        }
    }
}
