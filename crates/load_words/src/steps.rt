//! What a seat does to the words: each call is one atomic operation on one word.
ghost use Rattle.std.specs.Prelude.{◌≡◌, ◌<◌, ◌≤◌, ◌++◌, [], ◌∷◌, IfSome, IsSome, Some, None};
ghost use Rattle.load_words.specs.Seats.{IsOf, seats_of, slot_of, reads_of, taken_of};

use crate::rule::{AddStep, LoadStep, SubtractStep};
use crate::words::{LoadSeat, Loads};

impl LoadSeat {
    /// The slot that the seat holds, below 8,192.
    pub fn holds(&self) -> Option<u32>
        ensures slot { result ≡ slot_of self.now }
        ensures within { IfSome result (λ held. held < 8192) }
    {
        self.slot
    }
}

impl Loads {
    /// The number of seats that hold a slot, as it stands at this one atomic load. It may be
    /// another right after.
    pub fn read(&self, seat: &mut LoadSeat, slot: u32) -> u64
        requires seat { IsOf self.now seat.old }
        requires slot { slot < 8192 }
        ensures seat { IsOf self.now seat.new }
        ensures reads { reads_of seat.new ≡ reads_of seat.old ++ (slot, result) ∷ [] }
        ensures taken { taken_of seat.new ≡ taken_of seat.old }
        ensures slot { slot_of seat.new ≡ slot_of seat.old }
        ensures most { result ≤ seats_of self.now }
        ensures limit { result ≤ 1024 }
        ensures own { slot_of seat.old ≡ Some slot → 1 ≤ result }
    {
        self.table
            .shared
            .load::<LoadStep>(&mut seat.seat, slot as usize)
    }

    /// The seat holds the slot from now on, and its word is one more: one atomic addition.
    pub fn take(&self, seat: &mut LoadSeat, slot: u32)
        requires seat { IsOf self.now seat.old }
        requires slot { slot < 8192 }
        requires free { slot_of seat.old ≡ None }
        ensures seat { IsOf self.now seat.new }
        ensures reads { reads_of seat.new ≡ reads_of seat.old }
        ensures taken { taken_of seat.new ≡ taken_of seat.old ++ slot ∷ [] }
        ensures slot { slot_of seat.new ≡ Some slot }
    {
        self.table
            .shared
            .fetch_add::<AddStep>(&mut seat.seat, slot as usize, 1);
        seat.slot = Some(slot);
    }

    /// The seat holds nothing from now on, and the word of the slot that it held is one less: one
    /// atomic subtraction.
    pub fn give(&self, seat: &mut LoadSeat)
        requires seat { IsOf self.now seat.old }
        requires held { IsSome (slot_of seat.old) }
        ensures seat { IsOf self.now seat.new }
        ensures reads { reads_of seat.new ≡ reads_of seat.old }
        ensures taken { taken_of seat.new ≡ taken_of seat.old }
        ensures slot { slot_of seat.new ≡ None }
    {
        if let Some(slot) = seat.slot {
            self.table
                .shared
                .fetch_sub::<SubtractStep>(&mut seat.seat, slot as usize, 1);
            seat.slot = None;
        }
    }
}
