//! How a pick is answered in one value.
ghost use Rattle.std.specs.Prelude.{◌≡◌, true, false, Some, None, IfOk, OnErr};
ghost use Rattle.bind_core.specs.Outcome.{ending_of};
ghost use Rattle.load_words.specs.Seats.{IsOf, slot_of, reads_of, taken_of};
ghost use Rattle.machine.specs.Code.{settings_of, state_of, ask_of};
ghost use Rattle.machine.specs.Choosing.{ending_in, offer_of};
ghost use Rattle.router_log.specs.Value.{IsRightValue};
ghost use Rattle.router.specs.Chosen.{IsPermitted, decision_value, decision_loads};
ghost use Rattle.router.specs.Detached.{IsLookedUp};
ghost use Rattle.router.specs.Loads.{MayHaveRead};
ghost use Rattle.router.specs.Picked.{IsAnswer, IsFresh, is_kept_for, is_let_in, said_by, loads_by};
ghost use Rattle.router.specs.Picked.{place_by, fresh_by};
ghost use Rattle.router.specs.Values.{settings_in, value_in};

use crate::Mem;
use crate::answer::{Answer, Choice};
use crate::choosing::{Decision, decide};
use crate::current::Current;
use crate::detached::Detached;
use bind_cache::Binding;
use bind_core::Outcome;
use load_words::{LoadSeat, Loads};
use machine::Ask;
use std::alloc::Global;

/// What a pick comes to by the delegations that a value keeps.
#[derive(Drop)]
pub(crate) enum CacheLookup {
    /// A delegation is kept for it, and this is the answer.
    Hit(Answer),
    /// None is kept. This is the state to delegate in.
    Miss(Detached),
}

/// The answer that a decision stands for, without a delegation. It shares the names of the replica.
pub(crate) fn answer_of(alloc: Global, decision: &Decision<'_>, place: u64) -> Mem<Answer>
    ensures let_in { IfOk result (λ a. is_let_in a ≡ true) }
    ensures said { IfOk result (λ a. said_by a ≡ decision_value decision.now) }
    ensures loads { IfOk result (λ a. loads_by a ≡ decision_loads decision.now) }
    ensures place { IfOk result (λ a. place_by a ≡ place) }
    ensures fresh { IfOk result (λ a. fresh_by a ≡ None) }
{
    match decision {
        Decision::None(why) => Ok(Answer::None {
            why: *why,
            place,
            fresh: None,
        }),
        Decision::Taken {
            taken,
            leaf,
            first,
            second,
        } => Ok(Answer::Picked {
            choice: Choice {
                addr: taken.addr,
                slot: taken.slot,
                first: *first,
                second: *second,
                place,
            },
            client: leaf.client.part(alloc, 0, leaf.client.len())?,
            residual: leaf.residual.part(alloc, 0, leaf.residual.len())?,
            fresh: None,
        }),
    }
}

/// The same answer, with a delegation.
pub(crate) fn with_fresh(answer: Answer, binding: Binding) -> Answer
    requires { is_let_in answer ≡ true }
    ensures let_in { is_let_in result ≡ true }
    ensures said { said_by result ≡ said_by answer }
    ensures loads { loads_by result ≡ loads_by answer }
    ensures place { place_by result ≡ place_by answer }
    ensures fresh { fresh_by result ≡ Some binding }
{
    let fresh = Some(binding);
    match answer {
        Answer::Picked {
            choice,
            client,
            residual,
            fresh: none,
        } => {
            drop(none);
            Answer::Picked {
                choice,
                client,
                residual,
                fresh,
            }
        }
        Answer::None {
            why,
            place,
            fresh: none,
        } => {
            drop(none);
            Answer::None { why, place, fresh }
        }
        Answer::NoEntry => {
            drop(fresh);
            Answer::NoEntry
        }
    }
}

impl Current {
    /// Looks a pick up in this value: the answer by what is kept for its path and table, or else
    /// the state, to delegate in once the reader has left.
    pub(crate) fn pick(
        &self,
        alloc: Global,
        ask: &Ask,
        loads: &Loads,
        seat: &mut LoadSeat,
    ) -> Mem<CacheLookup>
        requires right { IsRightValue (settings_in self.now) (value_in self.now) }
        requires seat { IsOf loads.now seat.old }
        ensures seat { IsOf loads.now seat.new }
        ensures taken { taken_of seat.new ≡ taken_of seat.old }
        ensures slot { slot_of seat.new ≡ slot_of seat.old }
        ensures found { IfOk result (IsLookedUp (settings_in self.now) (value_in self.now)
            (value_in self.now).state.place (ask_of ask.now) (reads_of seat.old)
            (reads_of seat.new)) }
        ensures err { OnErr result (MayHaveRead (offer_of (settings_in self.now)
            (value_in self.now).state (ask_of ask.now)) (reads_of seat.old) (reads_of seat.new)) }
    {
        match self.find(&ask.path, &ask.local) {
            Some(outcome) => {
                let answer = self.pick_kept(alloc, outcome, ask, loads, seat)?;
                Ok(CacheLookup::Hit(answer))
            }
            None => Ok(CacheLookup::Miss(self.detach(alloc)?)),
        }
    }

    /// Answers a pick by an outcome that is kept for it.
    fn pick_kept(
        &self,
        alloc: Global,
        outcome: &Outcome,
        ask: &Ask,
        loads: &Loads,
        seat: &mut LoadSeat,
    ) -> Mem<Answer>
        requires kept { is_kept_for (value_in self.now) (ask_of ask.now) ≡ true }
        requires ending { ending_of outcome.now ≡ ending_in (settings_in self.now)
            (value_in self.now).state (ask_of ask.now) }
        requires seat { IsOf loads.now seat.old }
        ensures seat { IsOf loads.now seat.new }
        ensures taken { taken_of seat.new ≡ taken_of seat.old }
        ensures slot { slot_of seat.new ≡ slot_of seat.old }
        ensures answer { IfOk result (IsAnswer (settings_in self.now) (value_in self.now)
            (value_in self.now).state.place (ask_of ask.now) (reads_of seat.old)
            (reads_of seat.new)) }
        ensures err { OnErr result (MayHaveRead (offer_of (settings_in self.now)
            (value_in self.now).state (ask_of ask.now)) (reads_of seat.old) (reads_of seat.new)) }
    {
        let decision = decide(self.state(), self.settings(), outcome, ask, loads, seat);
        answer_of(alloc, &decision, self.place())
    }
}
