//! How a pick is answered by what is kept alone.
ghost use Rattle.std.specs.Prelude.{◌≡◌, true};
ghost use Rattle.bind_core.specs.Outcome.{ending_of};
ghost use Rattle.load_words.specs.Seats.{IsOf, slot_of, reads_of, taken_of};
ghost use Rattle.machine.specs.Code.{ask_of};
ghost use Rattle.machine.specs.Choosing.{ending_in};
ghost use Rattle.router_log.specs.Value.{IsRightValue};
ghost use Rattle.router.specs.Names.{client_text, residual_text};
ghost use Rattle.router.specs.Peeked.{IsPeek, AreEmpty};
ghost use Rattle.router.specs.Picked.{is_kept_for};
ghost use Rattle.router.specs.Values.{settings_in, value_in};

use crate::answer::{Choice, Peek};
use crate::choosing::{Decision, decide};
use crate::current::Current;
use crate::names::Names;
use bind_core::Outcome;
use load_words::{LoadSeat, Loads};
use machine::Ask;

impl Current {
    /// The place of this value, and the answer to a pick by what is kept in it. It takes no memory.
    pub(crate) fn peek(
        &self,
        ask: &Ask,
        loads: &Loads,
        seat: &mut LoadSeat,
        names: &mut Names,
    ) -> (u64, Peek)
        requires right { IsRightValue (settings_in self.now) (value_in self.now) }
        requires seat { IsOf loads.now seat.old }
        ensures seat { IsOf loads.now seat.new }
        ensures taken { taken_of seat.new ≡ taken_of seat.old }
        ensures slot { slot_of seat.new ≡ slot_of seat.old }
        ensures place { result.0 ≡ (value_in self.now).state.place }
        ensures answer { IsPeek (settings_in self.now) (value_in self.now)
            (value_in self.now).state.place (ask_of ask.now) (reads_of seat.old) (reads_of seat.new)
            names.new result.1 }
    {
        let place = self.place();
        let Some(outcome) = self.find(&ask.path, &ask.local) else {
            names.clear();
            return (place, Peek::Miss(place));
        };
        (place, self.peek_kept(outcome, ask, loads, seat, names))
    }

    /// The answer by an outcome that is kept.
    fn peek_kept(
        &self,
        outcome: &Outcome,
        ask: &Ask,
        loads: &Loads,
        seat: &mut LoadSeat,
        names: &mut Names,
    ) -> Peek
        requires kept { is_kept_for (value_in self.now) (ask_of ask.now) ≡ true }
        requires ending { ending_of outcome.now ≡ ending_in (settings_in self.now)
            (value_in self.now).state (ask_of ask.now) }
        requires seat { IsOf loads.now seat.old }
        ensures seat { IsOf loads.now seat.new }
        ensures taken { taken_of seat.new ≡ taken_of seat.old }
        ensures slot { slot_of seat.new ≡ slot_of seat.old }
        ensures answer { IsPeek (settings_in self.now) (value_in self.now)
            (value_in self.now).state.place (ask_of ask.now) (reads_of seat.old) (reads_of seat.new)
            names.new result }
    {
        let place = self.place();
        match decide(self.state(), self.settings(), outcome, ask, loads, seat) {
            Decision::None(why) => {
                names.clear();
                Peek::HitNone { why, place }
            }
            Decision::Taken {
                taken,
                leaf,
                first,
                second,
            } => {
                names.write(leaf);
                Peek::Hit(Choice {
                    addr: taken.addr,
                    slot: taken.slot,
                    first,
                    second,
                    place,
                })
            }
        }
    }
}
