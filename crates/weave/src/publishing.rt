//! How changes are asked for, and published where the state accepts them.
ghost use Rattle.std.specs.Prelude.{◌≡◌, ◌<◌, ◌-◌, ◌^◌, length, Some, is_some, IfSome, IfOk, OnOk};
ghost use Rattle.std.specs.Prelude.{OnErr, slice_get};
ghost use Rattle.machine.specs.Code.{settings_of, state_of, change_of, ready_of};
ghost use Rattle.machine.specs.Ready.{IsReadyFor};
ghost use Rattle.machine.specs.State.{IsSoundChange, is_accepted};
ghost use Rattle.router_log.specs.Call.{changing};

use crate::Mem;
use crate::call::{Call, Operation};
use crate::step::Told;
use crate::world::World;
use dtab_table::Dtab;
use machine::{Change, Ready};
use router_log::take_change;
use std::snapshot::Snapshot;

impl World {
    ghost use Rattle.weave.specs.declared.pass.Pass.{Pass};
    ghost use Rattle.weave.specs.Code.{items_of, pass_of};
    ghost use Rattle.weave.specs.Held.{world_of, ops_of, Holds, Becomes, IsStep};
    ghost use Rattle.weave.specs.World.{publish, called};

    /// A pass asks for a change, which is published where the state accepts it. An `Err` changes
    /// nothing.
    pub(crate) fn publish(&mut self, number: u32, change: &Change) -> Mem<Told>
        requires holds { Holds self.old }
        requires sound { IsSoundChange (change_of change.now) }
        ensures ok { IfOk result (λ told. IsStep self.old self.new
            (publish number (change_of change.now)) told) }
        ensures err { OnErr result (Becomes self.old self.new (world_of self.old)) }
    {
        if number as usize >= self.passes.len() {
            return Ok(Told::Nothing);
        }
        let place = self.state.place();
        let (reply, ready) = self.state.prepare(self.alloc, &self.settings, change)?;
        match self.change(number, change, ready) {
            Ok(_) => {}
            Err(want) => {
                drop(reply);
                return Err(want);
            }
        }
        Ok(Told::Reply(place, reply))
    }

    /// A pass asks for a change, which is prepared where the state accepts it. An `Err` changes
    /// nothing.
    fn change(&mut self, number: u32, change: &Change, ready: Option<Ready>) -> Mem<()>
        requires holds { Holds self.old }
        requires there { number < length self.old.passes.items }
        requires accepted { is_some ready ≡ is_accepted (state_of self.old.state)
            (change_of change.now) }
        requires ready { IfSome ready (λ r. IsReadyFor (settings_of self.old.settings)
            (state_of self.old.state) (change_of change.now) (ready_of r)) }
        ensures ok { OnOk result
            ((p : Pass) → slice_get self.old.passes.items number ≡ Some p
            → Becomes self.old self.new
            (called (settings_of self.old.settings) (world_of self.old) number (pass_of p)
            (changing (change_of change.now)))) }
        ensures err { OnErr result (Becomes self.old self.new (world_of self.old)) }
    {
        match ready {
            Some(ready) => self.accept(number, change, &ready),
            None => self.note(number as usize, Call::Changing(Snapshot::of(change))),
        }
    }

    /// A pass makes a change that the state accepts. An `Err` changes nothing.
    fn accept(&mut self, number: u32, change: &Change, ready: &Ready) -> Mem<()>
        requires holds { Holds self.old }
        requires there { number < length self.old.passes.items }
        requires ready { IsReadyFor (settings_of self.old.settings) (state_of self.old.state)
            (change_of change.now) (ready_of ready.now) }
        ensures ok { OnOk result
            ((p : Pass) → slice_get self.old.passes.items number ≡ Some p
            → Becomes self.old self.new
            (called (settings_of self.old.settings) (world_of self.old) number (pass_of p)
            (changing (change_of change.now)))) }
        ensures err { OnErr result (Becomes self.old self.new (world_of self.old)) }
    {
        self.has_room(number as usize)?;
        self.accept_in_room(number, change, ready)
    }

    /// A pass makes a change that the state accepts, where there is room: it is published, and its
    /// call is made behind it. An `Err` changes nothing.
    fn accept_in_room(&mut self, number: u32, change: &Change, ready: &Ready) -> Mem<()>
        requires holds { Holds self.old }
        requires there { number < length self.old.passes.items }
        requires ready { IsReadyFor (settings_of self.old.settings) (state_of self.old.state)
            (change_of change.now) (ready_of ready.now) }
        requires operations { length (ops_of self.old) < 2 ^ 64 - 1 }
        requires items { (p : Pass) → slice_get self.old.passes.items number ≡ Some p
            → length (items_of p) < 2 ^ 64 - 1 }
        ensures ok { OnOk result
            ((p : Pass) → slice_get self.old.passes.items number ≡ Some p
            → Becomes self.old self.new
            (called (settings_of self.old.settings) (world_of self.old) number (pass_of p)
            (changing (change_of change.now)))) }
        ensures err { OnErr result (Becomes self.old self.new (world_of self.old)) }
    {
        take_change(
            &Dtab::empty(self.alloc),
            &self.settings,
            &mut self.state,
            &mut self.cache,
            change,
            ready,
        )?;
        let point = self.operations.len;
        let pass = &mut self.passes[number as usize];
        let serial = pass.changes;
        pass.call_in_room(Call::Changing(Snapshot::of(change)), point, point + 1);
        pass.changes = serial + 1;
        self.operations.push(Operation::Changed {
            by: number,
            serial,
            change: Snapshot::of(change),
        });
        Ok(())
    }
}
