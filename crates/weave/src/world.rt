//! The world, and its steps.
ghost use Rattle.std.specs.Prelude.{◌≡◌, ◌<◌, ◌-◌, ◌^◌, length, None, Some, OnOk, OnErr, IfOk};
ghost use Rattle.std.specs.Prelude.{slice_get};
ghost use Rattle.machine.specs.Code.{settings_of};

use crate::Mem;
use crate::call::Call;
use crate::listed::OperationList;
use crate::pass::Pass;
use bind_cache::Cache;
use machine::{Settings, State};
use std::alloc::{AllocError, Global};

/// A world: what was published, the one state and the one cache that it comes to, and the passes,
/// under the settings of a router.
///
/// Contracts see it as `world_of world`. `Holds` is what lasts between its steps: state and cache
/// are what the published operations come to, and each pass is as its calls say. [`World::start`]
/// gives it, and each step keeps it.
///
/// What was published, and what the passes called, are only counted: the lists exist in proofs
/// alone, as snapshots without bytes. So a world takes no more memory the longer its history is.
pub struct World {
    pub(crate) alloc: Global,
    pub(crate) settings: Settings,
    pub(crate) state: State,
    pub(crate) cache: Cache,
    pub(crate) operations: OperationList,
    pub(crate) keeps: u64,
    pub(crate) passes: Vec<Pass>,
}

impl Drop for World {
    fn drop(self) {
        let World {
            alloc: _,
            settings,
            state,
            cache,
            operations,
            keeps: _,
            passes,
        } = self;
        drop(settings);
        drop(state);
        drop(cache);
        drop(operations);
        drop(passes);
    }
}

impl World {
    ghost use Rattle.router_log.specs.Operation.{place_of, kept_count};
    ghost use Rattle.weave.specs.Code.{items_of, pass_of};
    ghost use Rattle.weave.specs.Listed.{call_value};
    ghost use Rattle.weave.specs.Held.{world_of, ops_of, value_in, Holds, Becomes};
    ghost use Rattle.weave.specs.World.{opening_world, publishes_now, called};

    /// A world in which nothing was published, with so many passes.
    pub fn start(alloc: Global, settings: Settings, passes: u32) -> Mem<World>
        ensures world { IfOk result (λ w. world_of w ≡ opening_world passes) }
        ensures settings { IfOk result (λ w. settings_of w.settings ≡ settings_of settings) }
        ensures holds { IfOk result Holds }
    {
        let mut all = Vec::new(alloc);
        for _number in 0..passes {
            all.push(Pass::new())?;
        }
        Ok(World {
            alloc,
            settings,
            state: State::start(alloc)?,
            cache: Cache::start(alloc)?,
            operations: OperationList::new(),
            keeps: 0,
            passes: all,
        })
    }

    /// Whether one operation and one call of a pass more can be counted.
    pub(crate) fn has_room(&self, number: usize) -> Mem<()>
        requires { number < length self.now.passes.items }
        ensures operations { OnOk result (length (ops_of self.now) < 2 ^ 64 - 1) }
        ensures items { OnOk result ((p : Pass) → slice_get self.now.passes.items number ≡ Some p
            → length (items_of p) < 2 ^ 64 - 1) }
    {
        if self.operations.is_full() {
            return Err(AllocError);
        }
        self.passes[number].has_room()
    }

    /// A pass makes a call that publishes nothing. An `Err` changes nothing.
    pub(crate) fn note(&mut self, number: usize, call: Call) -> Mem<()>
        requires holds { Holds self.old }
        requires there { number < length self.old.passes.items }
        requires nothing { (p : Pass) → slice_get self.old.passes.items number ≡ Some p
            → publishes_now (settings_of self.old.settings) number
            (ops_of self.old) (pass_of p) (call_value call) ≡ None }
        ensures ok { OnOk result
            ((p : Pass) → slice_get self.old.passes.items number ≡ Some p
            → Becomes self.old self.new
            (called (settings_of self.old.settings) (world_of self.old) number (pass_of p)
            (call_value call))) }
        ensures err { OnErr result (Becomes self.old self.new (world_of self.old)) }
    {
        let point = self.operations.len;
        self.passes[number].call(call, point, point)
    }

    /// How many changes were accepted.
    pub fn place(&self) -> u64
        requires { Holds self.now }
        ensures { result ≡ place_of (ops_of self.now) }
    {
        self.state.place()
    }

    /// How many delegations were ever kept.
    pub fn kept(&self) -> u64
        requires { Holds self.now }
        ensures { result ≡ kept_count (ops_of self.now) }
    {
        self.keeps
    }
}
