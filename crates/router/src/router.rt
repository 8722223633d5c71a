//! The router, as all callers share it.
ghost use Rattle.std.specs.Prelude.{◌≡◌, true, Some};
ghost use Rattle.load_words.specs.Seats.{words_of};

use crate::Mem;
use crate::answer::{Answer, Looked, Peek};
use crate::asking::{look_through, peek_through, pick_through};
use crate::desk::Desk;
use crate::names::Names;
use crate::naming::Naming;
use crate::pass::Pass;
use load_words::Loads;
use machine::{Ask, Look};
use std::alloc::Global;
use std::sync::Mutex;
use std::sync::ledger::Ledger;
use step_count::Steps;

/// The router.
pub struct Router<J: Naming> {
    pub(crate) desk: Mutex<Desk<J>>,
    pub(crate) loads: Loads,
    pub(crate) seats: u32,
    ghost of_words: { Some (words_of loads) ≡ J.words },
    ghost all: { seats ≡ J.seats },
}

impl<J: Naming> Router<J> {
    ghost use Rattle.std.specs.Prelude.{◌<◌, ◌++◌, [], ◌∷◌, None, IsSome, IfSome, IfOk, OnErr};
    ghost use Rattle.machine.specs.Choosing.{offer_of};
    ghost use Rattle.machine.specs.Code.{look_value, ask_of};
    ghost use Rattle.router_log.specs.Call.{looked, asked};
    ghost use Rattle.router_log.specs.Value.{value_of};
    ghost use Rattle.router.specs.Asking.{Looks, Picks, Peeks};
    ghost use Rattle.router.specs.Loads.{MayHaveRead};
    ghost use Rattle.router.specs.Passes.{SameReading, number_in, seen_in, reads_in, taken_in};
    ghost use Rattle.router.specs.Passes.{slot_in, Entered};
    ghost use Rattle.bind_cache.specs.Stored.{kept_of};
    ghost use Rattle.router.specs.Changing.{WasWorkedOut};
    ghost use Rattle.router.specs.Picked.{fresh_by, is_kept_for};

    /// Answers a look, and tells how many delegations are kept at its point.
    ///
    /// Both are of one point: the pass enters the value once. A long look, as a delegation, is
    /// worked out once it has left, so that no publish waits for it.
    ///
    /// # Errors
    /// Out of memory. The pass had entered, so the call stands at its point.
    pub fn look<L: Ledger>(
        &self,
        alloc: Global,
        pass: &mut Pass<J>,
        look: &Look,
        steps: &mut Steps<L>,
    ) -> Mem<Looked>
        ensures number { number_in pass.new ≡ number_in pass.old }
        ensures said { IfOk result (Looks pass.old pass.new (look_value look.now)) }
        ensures want { OnErr result (Entered pass.old pass.new (looked (look_value look.now))
            × (reads_in pass.new ≡ reads_in pass.old)) }
    {
        match look_through(&mut pass.reader, alloc, look, steps) {
            None => Ok(Looked::NoEntry),
            Some((point, reply)) => {
                pass.place = point.place;
                let reply = reply?;
                Ok(Looked::Said {
                    place: point.place,
                    reply,
                    kept: point.kept,
                })
            }
        }
    }

    /// Answers a pick. Where no delegation is kept for it, the answer brings along the one that was
    /// worked out, for [`Router::remember`].
    ///
    /// # Errors
    /// Out of memory. The pass had entered, so the call stands at its point. Of the load words none
    /// was read, or just those that the pick reads.
    pub fn pick<L: Ledger>(
        &self,
        alloc: Global,
        pass: &mut Pass<J>,
        ask: &Ask,
        steps: &mut Steps<L>,
    ) -> Mem<Answer>
        ensures number { number_in pass.new ≡ number_in pass.old }
        ensures said { IfOk result (Picks pass.old pass.new (ask_of ask.now)) }
        ensures steps { is_kept_for (value_of J.settings (seen_in pass.new)) (ask_of ask.now) ≡ true
            → steps.new ≡ steps.old }
        ensures fresh { IfOk result (λ a. IfSome (fresh_by a)
            (λ b. WasWorkedOut pass.new (kept_of b))) }
        ensures want { OnErr result (Entered pass.old pass.new (asked (ask_of ask.now))
            × MayHaveRead (offer_of J.settings (value_of J.settings (seen_in pass.new)).state
            (ask_of ask.now)) (reads_in pass.old) (reads_in pass.new)) }
    {
        match pick_through(
            &mut pass.reader,
            alloc,
            ask,
            &self.loads,
            &mut pass.seat,
            steps,
        ) {
            None => Ok(Answer::NoEntry),
            Some((place, answer)) => {
                pass.place = place;
                answer
            }
        }
    }

    /// Answers a pick by what is kept alone, and writes the names of the replica. It takes no
    /// memory and waits for nobody.
    pub fn peek(&self, pass: &mut Pass<J>, ask: &Ask, names: &mut Names) -> Peek
        ensures number { number_in pass.new ≡ number_in pass.old }
        ensures said { Peeks pass.old pass.new (ask_of ask.now) names.new result }
    {
        match peek_through(&mut pass.reader, ask, &self.loads, &mut pass.seat, names) {
            None => {
                names.clear();
                Peek::NoEntry
            }
            Some((place, answer)) => {
                pass.place = place;
                answer
            }
        }
    }

    /// The pass holds a slot from now on, and its load is one more: one atomic addition. It takes
    /// no memory and waits for nobody.
    pub fn hold(&self, pass: &mut Pass<J>, slot: u32)
        requires slot { slot < 8192 }
        requires free { slot_in pass.old ≡ None }
        ensures slot { slot_in pass.new ≡ Some slot }
        ensures taken { taken_in pass.new ≡ taken_in pass.old ++ slot ∷ [] }
        ensures reads { reads_in pass.new ≡ reads_in pass.old }
        ensures same { SameReading pass.old pass.new }
    {
        self.loads.take(&mut pass.seat, slot);
    }

    /// The pass holds nothing from now on, and the load of the slot that it held is one less: one
    /// atomic subtraction. It takes no memory and waits for nobody.
    pub fn give(&self, pass: &mut Pass<J>)
        requires held { IsSome (slot_in pass.old) }
        ensures slot { slot_in pass.new ≡ None }
        ensures taken { taken_in pass.new ≡ taken_in pass.old }
        ensures reads { reads_in pass.new ≡ reads_in pass.old }
        ensures same { SameReading pass.old pass.new }
    {
        self.loads.give(&mut pass.seat);
    }
}
