//! The state of a value, apart from the copies of the value that readers enter.
//!
//! A publish waits for every reader of the older copy, with the router's lock held. So nothing that
//! may take long is done while a copy is entered, as a delegation in a table of the request's own:
//! a reader takes this out of the copy, leaves, and works on it. It stays the state of the point at
//! which the reader entered, whatever is published meanwhile.
ghost use Rattle.std.specs.Prelude.{◌≡◌, IfOk, OnErr};
ghost use Rattle.load_words.specs.Seats.{IsOf, slot_of, reads_of, taken_of};
ghost use Rattle.machine.specs.Choosing.{offer_of};
ghost use Rattle.machine.specs.Code.{look_value, reply_value, ask_of};
ghost use Rattle.machine.specs.Looking.{look_of};
ghost use Rattle.router.specs.Detached.{settings_out, state_out, IsDelegatedAnswer};
ghost use Rattle.router.specs.Loads.{MayHaveRead};

use crate::Mem;
use crate::answer::Answer;
use crate::choosing::decide;
use crate::picking::{answer_of, with_fresh};
use bind_cache::Binding;
use bind_core::Wanted;
use load_words::{LoadSeat, Loads};
use machine::{Ask, Look, Reply, Settings, State};
use std::alloc::Global;
use std::sync::Arc;
use std::sync::ledger::Ledger;
use step_count::Steps;

/// The settings and the state of a value.
pub(crate) struct Detached {
    pub(crate) settings: Arc<Settings>,
    pub(crate) state: State,
}

impl Drop for Detached {
    fn drop(self) {
        let Detached { settings, state } = self;
        drop(settings);
        drop(state);
    }
}

impl Detached {
    /// The answer to a look.
    pub(crate) fn look<L: Ledger>(
        &self,
        alloc: Global,
        look: &Look,
        steps: &mut Steps<L>,
    ) -> Mem<Reply>
        ensures { IfOk result (λ reply. reply_value reply ≡ look_of (settings_out self.now)
            (state_out self.now) (look_value look.now)) }
    {
        self.state.answer(alloc, &self.settings, look, steps)
    }

    /// Answers a pick by a delegation, which it gives too.
    pub(crate) fn pick<L: Ledger>(
        &self,
        alloc: Global,
        ask: &Ask,
        loads: &Loads,
        seat: &mut LoadSeat,
        steps: &mut Steps<L>,
    ) -> Mem<Answer>
        requires seat { IsOf loads.now seat.old }
        ensures seat { IsOf loads.now seat.new }
        ensures taken { taken_of seat.new ≡ taken_of seat.old }
        ensures slot { slot_of seat.new ≡ slot_of seat.old }
        ensures answer { IfOk result (IsDelegatedAnswer (settings_out self.now) (state_out self.now)
            (ask_of ask.now) (reads_of seat.old) (reads_of seat.new)) }
        ensures err { OnErr result (MayHaveRead (offer_of (settings_out self.now)
            (state_out self.now) (ask_of ask.now)) (reads_of seat.old) (reads_of seat.new)) }
    {
        let place = self.state.place();
        let delegated = self.state.delegate(
            alloc,
            &self.settings,
            &ask.path,
            &ask.local,
            Wanted::Asked,
            steps,
        )?;
        let decision = decide(
            &self.state,
            &self.settings,
            &delegated.outcome,
            ask,
            loads,
            seat,
        );
        let answer = answer_of(alloc, &decision, place)?;
        let fresh = Binding::of(alloc, &ask.path, &ask.local, delegated, place)?;
        Ok(with_fresh(answer, fresh))
    }
}
