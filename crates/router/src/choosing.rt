//! How a replica is chosen by its load, where a path came to an outcome.
ghost use Rattle.std.specs.Prelude.{◌≡◌};
ghost use Rattle.bind_core.specs.Outcome.{ending_of};
ghost use Rattle.load_words.specs.Seats.{IsOf, slot_of, reads_of, taken_of};
ghost use Rattle.machine.specs.Code.{settings_of, state_of, ask_of};
ghost use Rattle.machine.specs.Choosing.{ending_in};
ghost use Rattle.router.specs.Chosen.{IsPermitted, decision_value, decision_loads};

use crate::loads::loads_of;
use addr_book::Leaf;
use bind_core::Outcome;
use load_words::{LoadSeat, Loads};
use machine::{Ask, Settings, State, Taken, Why};

/// What a pick comes to. The names of the replica are lent by the outcome.
#[derive(Drop)]
pub(crate) enum Decision<'a> {
    /// A replica.
    Taken {
        /// The replica.
        taken: Taken,
        /// The leaf that it is of.
        leaf: &'a Leaf,
        /// The load of the first of the two between which it was chosen.
        first: u64,
        /// The load of the second.
        second: u64,
    },
    /// There is none.
    None(Why),
}

/// Chooses between the two replicas that an ask draws in an outcome, by their loads, of which it
/// reads the first one's first. It takes no memory.
pub(crate) fn decide<'a>(
    state: &State,
    settings: &Settings,
    outcome: &'a Outcome,
    ask: &Ask,
    loads: &Loads,
    seat: &mut LoadSeat,
) -> Decision<'a>
    requires ending { ending_of outcome.now ≡ ending_in (settings_of settings.now)
        (state_of state.now) (ask_of ask.now) }
    requires seat { IsOf loads.now seat.old }
    ensures seat { IsOf loads.now seat.new }
    ensures taken { taken_of seat.new ≡ taken_of seat.old }
    ensures slot { slot_of seat.new ≡ slot_of seat.old }
    ensures decided { IsPermitted (settings_of settings.now) (state_of state.now) (ask_of ask.now)
        (reads_of seat.old) (reads_of seat.new) (decision_loads result) (decision_value result) }
{
    match state.candidates_of(settings, outcome, ask) {
        Err(why) => Decision::None(why),
        Ok(candidates) => {
            let (first, second) = loads_of(loads, seat, candidates.slots);
            Decision::Taken {
                taken: candidates.taken(first, second),
                leaf: candidates.leaf,
                first,
                second,
            }
        }
    }
}
