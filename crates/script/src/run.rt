//! Generated runs: many turns on one state, summed up in a line.
ghost use Rattle.std.specs.Prelude.{◌≡◌, ◌<◌, IfOk, OnOk};
ghost use Rattle.machine.specs.Code.{settings_of, state_of, change_of};
ghost use Rattle.machine.specs.State.{IsSoundChange, is_accepted, after};
ghost use Rattle.script.specs.Turns.{turns_from, words_of_seed};
ghost use Rattle.script.specs.Storm.{first_run, after_turns, storm_of};
ghost use Rattle.script.specs.Ran.{run_of};

use crate::reply::{append_number, numbered};
use crate::turn::{Turn, next_turn};
use crate::{Bytes, Mem};
use machine::{Ask, Change, Chosen, Settings, State};
use rand_core::SeedableRng;
use rand_pcg::Pcg64;
use std::alloc::{AllocError, Global};
use std::marker::Brand;
use std::sync::ledger::{Blank, Ledger};
use step_count::Steps;
use turn_parts::first_change;

/// How a run stands.
struct Run {
    state: State,
    /// How many changes were refused.
    refused: u64,
    /// How many picks gave a replica.
    picked: u64,
    /// How many picks gave none.
    lacking: u64,
    /// The sum of the ports of the picked replicas.
    ports: u64,
}

impl Drop for Run {
    fn drop(self) {
        let Run {
            state,
            refused: _,
            picked: _,
            lacking: _,
            ports: _,
        } = self;
        drop(state);
    }
}

/// Takes so many generated turns on a new state, each a change or a pick by the words of the
/// generator [`Pcg64`] with this seed, and sums them up in the line `changes C refused R picked P
/// none Q ports S`: how many changes were accepted and how many were not, how many picks gave a
/// replica and how many gave none, and the sum of the picked ports.
///
/// The namespace `default` is there from the start, with `/svc => /#/io.l5d.fs`. A turn sets up to
/// four addresses of one of 16 services, drops the service, sends it to the next one, reports a
/// failure, or picks a replica for it; half of all words are picks. A turn's number is its moment.
/// The same seed gives the same line.
pub fn storm(alloc: Global, settings: &Settings, turns: u32, seed: u64) -> Mem<Bytes>
    ensures { IfOk result (λ text. text.items ≡ storm_of (settings_of settings.now) turns seed) }
{
    run_of_turns::<Brand>(alloc, settings, turns, seed, Blank::new(1))?.line(alloc)
}

/// The run of so many turns, by the words of a seed.
fn run_of_turns<L: Ledger>(
    alloc: Global,
    settings: &Settings,
    turns: u32,
    seed: u64,
    blank: Blank,
) -> Mem<Run>
    requires name { blank.name ≡ L.name }
    requires parts { blank.parts ≡ L.parts }
    requires some { 0 < blank.parts }
    ensures { IfOk result
        (λ run. run_of run ≡ after_turns (settings_of settings.now)
        (first_run (settings_of settings.now)) (turns_from turns 0 (words_of_seed seed))) }
{
    let mut steps = Steps::<L>::start(blank);
    let mut words = Pcg64::seed_from_u64(seed);
    let mut run = Run::start(alloc, settings)?;
    for number in 0..turns {
        let Ok(()) = run.take(alloc, settings, &mut words, u64::from(number), &mut steps) else {
            drop(run);
            return Err(AllocError);
        };
    }
    Ok(run)
}

/// Makes a change, and says whether it was accepted.
fn is_accepted(state: &mut State, alloc: Global, settings: &Settings, change: &Change) -> Mem<bool>
    requires { IsSoundChange (change_of change.now) }
    ensures accepted { IfOk result
        (λ accepted. accepted ≡ is_accepted (state_of state.old) (change_of change.now)) }
    ensures state { OnOk result
        (state_of state.new ≡ after (settings_of settings.now) (state_of state.old)
        (change_of change.now)) }
{
    let place = state.place();
    let reply = state.apply(alloc, settings, change)?;
    drop(reply);
    Ok(state.place() != place)
}

impl Run {
    ghost use Rattle.std.specs.Prelude.{◌≡◌, ◌<◌, ◌≤◌, ◌+◌, ◌^◌, IfOk, OnOk};
    ghost use Rattle.machine.specs.Code.{settings_of, change_of, ask_of};
    ghost use Rattle.machine.specs.State.{IsSoundChange};
    ghost use Rattle.script.specs.Turns.{changing, picking, next_turn};
    ghost use Rattle.script.specs.Storm.{first_run, after_turn, run_line};
    ghost use Rattle.script.specs.Ran.{run_of, IsWithin};

    /// A run before its turns.
    fn start(alloc: Global, settings: &Settings) -> Mem<Run>
        ensures { IfOk result (λ run. run_of run ≡ first_run (settings_of settings.now)) }
    {
        let change = first_change(alloc)?;
        let Ok(mut state) = State::start(alloc) else {
            drop(change);
            return Err(AllocError);
        };
        let Ok(reply) = state.apply(alloc, settings, &change) else {
            drop(change);
            drop(state);
            return Err(AllocError);
        };
        drop(change);
        drop(reply);
        Ok(Run {
            state,
            refused: 0,
            picked: 0,
            lacking: 0,
            ports: 0,
        })
    }

    /// Takes the turn with this number, by the generator's next words.
    fn take<L: Ledger>(
        &mut self,
        alloc: Global,
        settings: &Settings,
        words: &mut Pcg64,
        number: u64,
        steps: &mut Steps<L>,
    ) -> Mem<()>
        requires few { number < 2 ^ 32 }
        requires within { IsWithin number (run_of self.old) }
        ensures run { OnOk result
            (run_of self.new ≡ after_turn (settings_of settings.now) (run_of self.old)
            (next_turn number words.old).0) }
        ensures words { OnOk result (words.new ≡ (next_turn number words.old).1) }
        ensures within { OnOk result (IsWithin (number + 1) (run_of self.new)) }
    {
        match next_turn(alloc, words, number)? {
            Turn::Change(change) => {
                let changed = self.change(alloc, settings, &change);
                drop(change);
                changed
            }
            Turn::Pick(ask) => {
                let picked = self.pick(alloc, settings, &ask, steps);
                drop(ask);
                picked
            }
        }
    }

    /// Makes a change, and counts it where it is refused.
    fn change(&mut self, alloc: Global, settings: &Settings, change: &Change) -> Mem<()>
        requires sound { IsSoundChange (change_of change.now) }
        requires room { (run_of self.old).refused < 2 ^ 32 }
        ensures { OnOk result (run_of self.new
            ≡ after_turn (settings_of settings.now) (run_of self.old)
            (changing (change_of change.now))) }
    {
        if !is_accepted(&mut self.state, alloc, settings, change)? {
            self.refused += 1;
        }
        Ok(())
    }

    /// Picks a replica, and counts it.
    fn pick<L: Ledger>(
        &mut self,
        alloc: Global,
        settings: &Settings,
        ask: &Ask,
        steps: &mut Steps<L>,
    ) -> Mem<()>
        requires picked { (run_of self.old).picked < 2 ^ 32 }
        requires lacking { (run_of self.old).lacking < 2 ^ 32 }
        requires ports { (run_of self.old).ports < 2 ^ 48 }
        ensures run { OnOk result
            (run_of self.new ≡ after_turn (settings_of settings.now) (run_of self.old)
            (picking (ask_of ask.now))) }
        ensures ports { OnOk result ((run_of self.new).ports ≤ (run_of self.old).ports + 65535) }
    {
        match self.state.choose(alloc, settings, ask, steps)? {
            Chosen::Picked { addr, .. } => {
                self.picked += 1;
                self.ports += u64::from(addr.port);
            }
            Chosen::None(..) => self.lacking += 1,
        }
        Ok(())
    }

    /// The line that sums it up.
    fn line(&self, alloc: Global) -> Mem<Bytes>
        ensures { IfOk result (λ line. line.items ≡ run_line (run_of self.now)) }
    {
        let mut line = numbered(alloc, b"changes", self.state.place())?;
        line.extend_from_slice(b" refused")?;
        append_number(self.refused, &mut line)?;
        line.extend_from_slice(b" picked")?;
        append_number(self.picked, &mut line)?;
        line.extend_from_slice(b" none")?;
        append_number(self.lacking, &mut line)?;
        line.extend_from_slice(b" ports")?;
        append_number(self.ports, &mut line)?;
        Ok(line)
    }
}
