//! The loads of the replicas between which a pick decides.
ghost use Rattle.std.specs.Prelude.{◌≡◌, ◌++◌, IfSome};
ghost use Rattle.load_words.specs.Seats.{IsOf, slot_of, reads_of, taken_of};
ghost use Rattle.machine.specs.Candidates.{AreBelow};
ghost use Rattle.router.specs.Loads.{reads_for, AreLoads};

use load_words::{LoadSeat, Loads};

/// The loads of two slots, the first one's read first; 0 and 0 for an address by itself, which has
/// none.
pub(crate) fn loads_of(loads: &Loads, seat: &mut LoadSeat, slots: Option<(u32, u32)>) -> (u64, u64)
    requires seat { IsOf loads.now seat.old }
    requires below { IfSome slots AreBelow }
    ensures seat { IsOf loads.now seat.new }
    ensures reads { reads_of seat.new ≡ reads_of seat.old ++ reads_for slots result }
    ensures loads { AreLoads slots result }
    ensures taken { taken_of seat.new ≡ taken_of seat.old }
    ensures slot { slot_of seat.new ≡ slot_of seat.old }
{
    match slots {
        None => (0, 0),
        Some((first, second)) => {
            let load = loads.read(seat, first);
            (load, loads.read(seat, second))
        }
    }
}
