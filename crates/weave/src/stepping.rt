//! Steps of a world, and runs of many.
ghost use Rattle.std.specs.Prelude.{◌≡◌, ◌<◌, length, map, Some, All, IfOk, OnErr, slice_get};
ghost use Rattle.machine.specs.Code.{settings_of};
ghost use Rattle.router_log.specs.Value.{value_of};
ghost use Rattle.weave.specs.Code.{step_of, told_list};
ghost use Rattle.weave.specs.World.{run_from, opening_world};
ghost use Rattle.weave.specs.Laws.{IsOneHistory};
ghost use Rattle.weave.specs.Held.{world_of, ops_of, value_in, IsSoundStep, Holds};

use crate::Mem;
use crate::step::{Step, Told, ToldList};
use crate::world::World;
use machine::Settings;
use std::alloc::{AllocError, Global};
use std::sync::ledger::Ledger;
use step_count::Steps;

impl World {
    ghost use Rattle.weave.specs.declared.pass.Pass.{Pass};
    ghost use Rattle.weave.specs.declared.step.Told.TheVariants as told;
    ghost use Rattle.weave.specs.Code.{pass_of};
    ghost use Rattle.weave.specs.Held.{Becomes, IsStep};
    ghost use Rattle.weave.specs.World.{seeing, meet};

    /// Makes a step, and tells what came of it. An `Err` changes nothing.
    ///
    /// A change costs its preparing and its absorbing, and what the cache looks at; a question is
    /// worked out here, also where its answer is never asked for, and a pick whose delegation is
    /// kept takes one look-up in the cache; every other step takes the same small time, however
    /// long the history is.
    pub fn step<L: Ledger>(&mut self, step: &Step, steps: &mut Steps<L>) -> Mem<Told>
        requires holds { Holds self.old }
        requires sound { IsSoundStep (step_of step.now) }
        ensures ok { IfOk result (λ told. IsStep self.old self.new (step_of step.now) told) }
        ensures err { OnErr result (Becomes self.old self.new (world_of self.old)) }
    {
        match step {
            Step::Publish(number, change) => self.publish(*number, change),
            Step::Enter(number, asked) => self.enter(*number, asked, steps),
            Step::Answer(number) => Ok(self.answer(*number)),
            Step::Remember(number) => self.remember(*number),
            Step::Meet(one, other) => {
                self.meet(*one, *other);
                Ok(Told::Nothing)
            }
        }
    }

    /// Two passes see all that was published.
    fn meet(&mut self, one: u32, other: u32)
        requires { Holds self.old }
        ensures { IsStep self.old self.new (meet one other) told.Nothing }
    {
        if one as usize >= self.passes.len() {
            return;
        }
        if other as usize >= self.passes.len() {
            return;
        }
        self.see(one as usize);
        self.see(other as usize);
    }

    /// A pass sees all that was published.
    pub(crate) fn see(&mut self, number: usize)
        requires holds { Holds self.old }
        requires there { number < length self.old.passes.items }
        ensures sees { (p : Pass) → slice_get self.old.passes.items number ≡ Some p
            → Becomes self.old self.new
            (seeing (settings_of self.old.settings) (world_of self.old) number (pass_of p)) }
        ensures passes { length self.new.passes.items ≡ length self.old.passes.items }
    {
        let point = self.operations.len;
        self.passes[number].seen = point;
    }
}

/// Makes these steps, one after another, in a new world of so many passes. It gives that world, and
/// what each step told.
pub fn run<L: Ledger>(
    alloc: Global,
    settings: Settings,
    passes: u32,
    steps: &[Step],
    ticks: &mut Steps<L>,
) -> Mem<(World, ToldList)>
    requires { All IsSoundStep (map step_of steps.now) }
    ensures settings { IfOk result (λ r. settings_of r.0.settings ≡ settings_of settings) }
    ensures world { IfOk result (λ r. world_of r.0
        ≡ (run_from (settings_of settings) (opening_world passes) (map step_of steps.now)).0) }
    ensures told { IfOk result (λ r. told_list r.1
        ≡ (run_from (settings_of settings) (opening_world passes) (map step_of steps.now)).1) }
    ensures history { IfOk result (λ r. IsOneHistory (settings_of settings) (world_of r.0)) }
    ensures value { IfOk result (λ r. value_in r.0 ≡ value_of (settings_of settings) (ops_of r.0)) }
    ensures holds { IfOk result (λ r. Holds r.0) }
{
    let mut world = World::start(alloc, settings, passes)?;
    let mut told = Vec::new(alloc);
    for step in steps {
        let Ok(said) = world.step(step, ticks) else {
            drop(told);
            drop(world);
            return Err(AllocError);
        };
        let Ok(()) = told.push(said) else {
            drop(told);
            drop(world);
            return Err(AllocError);
        };
    }
    Ok((world, ToldList::of(told)))
}
