//! How questions are answered: they are worked out where they are asked, and told later.
ghost use Rattle.std.specs.Prelude.{◌≡◌, ◌<◌, ◌≤◌, ℕ, length, None, Some, IfOk, OnOk, OnErr};
ghost use Rattle.std.specs.Prelude.{slice_get, option_map};
ghost use Rattle.machine.specs.Code.{settings_of, state_of, ask_of, look_value};
ghost use Rattle.dtab_table.specs.Dtab.{rules_of};
ghost use Rattle.bind_cache.specs.Bindings.{bindings_of};
ghost use Rattle.bind_cache.specs.Cache.{found_in};

use crate::Mem;
use crate::call::Call;
use crate::pass::Flight;
use crate::step::{Asked, Told};
use crate::world::World;
use bind_cache::Binding;
use bind_core::Wanted;
use machine::{Ask, Look};
use std::alloc::AllocError;
use std::snapshot::Snapshot;
use std::sync::Arc;
use std::sync::ledger::Ledger;
use step_count::Steps;

impl World {
    ghost use Rattle.weave.specs.declared.pass.Pass.{Pass};
    ghost use Rattle.weave.specs.Code.{pass_of, told_value, kept_in_arc};
    ghost use Rattle.weave.specs.Listed.{question_of};
    ghost use Rattle.weave.specs.Held.{world_of, ops_of, Holds, Becomes, IsMade, IsStep};
    ghost use Rattle.weave.specs.World.{answer_of, fresh_of, call_of, entered, answered, in_flight};
    ghost use Rattle.weave.specs.World.{enter, answer};
    ghost use Rattle.router_log.specs.Call.{asked, looked};

    /// The answer to a question in this state, and what a pick works out where nothing is kept for
    /// its path and table.
    pub(crate) fn work_out<L: Ledger>(
        &self,
        asked: &Asked,
        steps: &mut Steps<L>,
    ) -> Mem<(Told, Option<Arc<Binding>>)>
        requires { Holds self.now }
        ensures told { IfOk result (λ r. told_value r.0
            ≡ answer_of (settings_of self.now.settings) (ops_of self.now)
            (call_of (question_of asked.now))) }
        ensures fresh { IfOk result (λ r. option_map kept_in_arc r.1
            ≡ fresh_of (settings_of self.now.settings) (ops_of self.now)
            (call_of (question_of asked.now))) }
    {
        match asked {
            Asked::Pick(ask) => self.pick(ask, steps),
            Asked::Look(look) => self.look(look, steps),
        }
    }

    /// The answer to a look.
    fn look<L: Ledger>(
        &self,
        look: &Look,
        steps: &mut Steps<L>,
    ) -> Mem<(Told, Option<Arc<Binding>>)>
        requires { Holds self.now }
        ensures told { IfOk result (λ r. told_value r.0
            ≡ answer_of (settings_of self.now.settings) (ops_of self.now)
            (looked (look_value look.now))) }
        ensures fresh { IfOk result (λ r. option_map kept_in_arc r.1 ≡ None) }
    {
        let reply = self.state.answer(self.alloc, &self.settings, look, steps)?;
        Ok((Told::Reply(self.state.place(), reply), None))
    }

    /// The answer to a pick, from what is kept, where that is so.
    fn pick<L: Ledger>(&self, ask: &Ask, steps: &mut Steps<L>) -> Mem<(Told, Option<Arc<Binding>>)>
        requires { Holds self.now }
        ensures told { IfOk result (λ r. told_value r.0
            ≡ answer_of (settings_of self.now.settings) (ops_of self.now)
            (asked (ask_of ask.now))) }
        ensures fresh { IfOk result (λ r. option_map kept_in_arc r.1
            ≡ fresh_of (settings_of self.now.settings) (ops_of self.now) (asked (ask_of ask.now))) }
    {
        let Some(outcome) = self.cache.find(&ask.path, &ask.local) else {
            return self.pick_anew(ask, steps);
        };
        let chosen = self
            .state
            .choose_in(self.alloc, &self.settings, outcome, ask)?;
        Ok((Told::Chosen(self.state.place(), chosen), None))
    }

    /// The answer to a pick for which nothing is kept, and what it works out.
    fn pick_anew<L: Ledger>(
        &self,
        ask: &Ask,
        steps: &mut Steps<L>,
    ) -> Mem<(Told, Option<Arc<Binding>>)>
        requires holds { Holds self.now }
        requires new { found_in (bindings_of self.now.cache) ask.now.path (rules_of ask.now.local)
            ≡ None }
        ensures told { IfOk result (λ r. told_value r.0
            ≡ answer_of (settings_of self.now.settings) (ops_of self.now)
            (asked (ask_of ask.now))) }
        ensures fresh { IfOk result (λ r. option_map kept_in_arc r.1
            ≡ fresh_of (settings_of self.now.settings) (ops_of self.now) (asked (ask_of ask.now))) }
    {
        let found = self.state.delegate(
            self.alloc,
            &self.settings,
            &ask.path,
            &ask.local,
            Wanted::Asked,
            steps,
        )?;
        let place = self.state.place();
        let binding = Binding::of(self.alloc, &ask.path, &ask.local, found, place)?;
        let Ok(chosen) = self
            .state
            .choose_in(self.alloc, &self.settings, binding.outcome(), ask)
        else {
            drop(binding);
            return Err(AllocError);
        };
        let Ok(fresh) = Arc::new(self.alloc, binding) else {
            drop(chosen);
            return Err(AllocError);
        };
        Ok((Told::Chosen(place, chosen), Some(fresh)))
    }

    /// A pass asks something, whose answer is worked out: it waits, in the place of one that was
    /// waiting. An `Err` changes nothing.
    pub(crate) fn ask(
        &mut self,
        number: usize,
        asked: &Asked,
        told: Told,
        fresh: Option<Arc<Binding>>,
    ) -> Mem<()>
        requires holds { Holds self.old }
        requires there { number < length self.old.passes.items }
        requires told { told_value told ≡ answer_of (settings_of self.old.settings)
            (ops_of self.old) (call_of (question_of asked.now)) }
        requires fresh { option_map kept_in_arc fresh
            ≡ fresh_of (settings_of self.old.settings) (ops_of self.old)
            (call_of (question_of asked.now)) }
        ensures ok { OnOk result
            ((p : Pass) → slice_get self.old.passes.items number ≡ Some p
            → Becomes self.old self.new
            (entered (settings_of self.old.settings) (world_of self.old) number (pass_of p)
            (question_of asked.now))) }
        ensures err { OnErr result (Becomes self.old self.new (world_of self.old)) }
    {
        let point = self.operations.len;
        let pass = &mut self.passes[number];
        let item = pass.items.len;
        match pass.call(Call::Asked(Snapshot::of(asked)), point, point) {
            Ok(()) => {}
            Err(want) => {
                drop(told);
                drop(fresh);
                return Err(want);
            }
        }
        pass.flight = Some(Flight { item, told, fresh });
        Ok(())
    }

    /// A pass is answered, if a question of it waits. What was worked out for a pick is then what
    /// the pass worked out last.
    pub(crate) fn take_answer(&mut self, number: usize) -> Told
        requires holds { Holds self.old }
        requires there { number < length self.old.passes.items }
        ensures { (p : Pass) → slice_get self.old.passes.items number ≡ Some p
            → IsMade self.old self.new
            (answered (settings_of self.old.settings) (world_of self.old) number (pass_of p)
            (in_flight (pass_of p))) (told_value result) }
    {
        self.passes[number].take_answer()
    }

    /// A pass asks something: the answer is worked out here, and waits. An `Err` changes nothing.
    pub(crate) fn enter<L: Ledger>(
        &mut self,
        number: u32,
        asked: &Asked,
        steps: &mut Steps<L>,
    ) -> Mem<Told>
        requires { Holds self.old }
        ensures ok { IfOk result (λ told. IsStep self.old self.new
            (enter number (question_of asked.now)) told) }
        ensures err { OnErr result (Becomes self.old self.new (world_of self.old)) }
    {
        if number as usize >= self.passes.len() {
            return Ok(Told::Nothing);
        }
        let (told, fresh) = self.work_out(asked, steps)?;
        self.ask(number as usize, asked, told, fresh)?;
        Ok(Told::Nothing)
    }

    /// A pass is answered, if there is such a pass and a question of it waits.
    pub(crate) fn answer(&mut self, number: u32) -> Told
        requires { Holds self.old }
        ensures { IsStep self.old self.new (answer number) result }
    {
        if number as usize >= self.passes.len() {
            return Told::Nothing;
        }
        self.take_answer(number as usize)
    }
}
