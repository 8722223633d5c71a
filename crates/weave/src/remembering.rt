//! How delegations are offered to the cache, and kept.
ghost use Rattle.std.specs.Prelude.{◌≡◌, ◌<◌, ◌-◌, ◌^◌, length, true, Some, IfOk, OnOk, OnErr};
ghost use Rattle.std.specs.Prelude.{slice_get, option_map};
ghost use Rattle.std.specs.Arc.{arc_value};
ghost use Rattle.machine.specs.Code.{settings_of};
ghost use Rattle.bind_cache.specs.Stored.{kept_of};
ghost use Rattle.router_log.specs.Call.{keeping, is_kept, is_large, is_late, is_had};

use crate::Mem;
use crate::call::{Call, Operation};
use crate::step::Told;
use crate::world::World;
use bind_cache::{Binding, MOST_COST};
use router_log::MOST_BYTES;
use std::snapshot::Snapshot;
use std::sync::Arc;

impl World {
    ghost use Rattle.weave.specs.declared.pass.Pass.{Pass};
    ghost use Rattle.weave.specs.Code.{items_of, pass_of, kept_in_arc, told_value};
    ghost use Rattle.weave.specs.Held.{world_of, ops_of, Holds, Becomes, IsMade, IsStep};
    ghost use Rattle.weave.specs.World.{remember, remembered, called};

    /// A pass offers what it worked out last to the cache, and sees all that was published. An
    /// `Err` changes nothing.
    pub(crate) fn remember(&mut self, number: u32) -> Mem<Told>
        requires { Holds self.old }
        ensures ok { IfOk result (λ told. IsStep self.old self.new (remember number) told) }
        ensures err { OnErr result (Becomes self.old self.new (world_of self.old)) }
    {
        if number as usize >= self.passes.len() {
            return Ok(Told::Nothing);
        }
        match self.last_fresh(number as usize)? {
            Some(binding) => self.offer(number, binding),
            None => {
                self.see(number as usize);
                Ok(Told::Nothing)
            }
        }
    }

    /// What a pass worked out last.
    fn last_fresh(&self, number: usize) -> Mem<Option<Arc<Binding>>>
        requires { number < length self.now.passes.items }
        ensures { IfOk result (λ fresh. (p : Pass) → slice_get self.now.passes.items number ≡ Some p
            → option_map kept_in_arc fresh ≡ option_map kept_in_arc p.fresh) }
    {
        match &self.passes[number].fresh {
            Some(binding) => Ok(Some(Arc::try_clone(binding)?)),
            None => Ok(None),
        }
    }

    /// A pass offers a delegation, the one that it worked out last. An `Err` changes nothing.
    fn offer(&mut self, number: u32, binding: Arc<Binding>) -> Mem<Told>
        requires holds { Holds self.old }
        requires there { number < length self.old.passes.items }
        requires fresh { (p : Pass) → slice_get self.old.passes.items number ≡ Some p
            → Some (kept_of (arc_value binding)) ≡ option_map kept_in_arc p.fresh }
        ensures ok { IfOk result
            (λ told. (p : Pass) → slice_get self.old.passes.items number ≡ Some p
            → IsMade self.old self.new
            (remembered (settings_of self.old.settings) (world_of self.old) number (pass_of p)
            (Some (kept_of (arc_value binding)))) (told_value told)) }
        ensures err { OnErr result (Becomes self.old self.new (world_of self.old)) }
    {
        if self.may_keep(&binding) {
            self.keep(number, binding)?;
            return Ok(Told::Kept);
        }
        self.note(number as usize, Call::Keeping(Snapshot::of(&binding)))?;
        Ok(Told::NotKept)
    }

    /// Whether a delegation may be kept now.
    fn may_keep(&self, binding: &Binding) -> bool
        requires { Holds self.now }
        ensures { result ≡ is_kept (settings_of self.now.settings) (ops_of self.now)
            (kept_of binding.now) }
    {
        if is_large(binding) {
            return false;
        }
        if self.is_late(binding) {
            return false;
        }
        if self.is_had(binding) {
            return false;
        }
        self.keeps < u64::MAX
    }

    /// Whether a change was accepted since a delegation was worked out.
    fn is_late(&self, binding: &Binding) -> bool
        requires { Holds self.now }
        ensures { result ≡ is_late (ops_of self.now) (kept_of binding.now) }
    {
        self.state.place() != binding.place()
    }

    /// Whether another delegation is kept for the path and the table of this one.
    fn is_had(&self, binding: &Binding) -> bool
        requires { Holds self.now }
        ensures { result ≡ is_had (settings_of self.now.settings) (ops_of self.now)
            (kept_of binding.now) }
    {
        self.cache.find(binding.path(), binding.local()).is_some()
    }

    /// A pass offers a delegation that is then kept. An `Err` changes nothing.
    fn keep(&mut self, number: u32, binding: Arc<Binding>) -> Mem<()>
        requires holds { Holds self.old }
        requires there { number < length self.old.passes.items }
        requires fresh { (p : Pass) → slice_get self.old.passes.items number ≡ Some p
            → Some (kept_of (arc_value binding)) ≡ option_map kept_in_arc p.fresh }
        requires kept { is_kept (settings_of self.old.settings) (ops_of self.old)
            (kept_of (arc_value binding)) ≡ true }
        ensures ok { OnOk result
            ((p : Pass) → slice_get self.old.passes.items number ≡ Some p
            → Becomes self.old self.new
            (called (settings_of self.old.settings) (world_of self.old) number (pass_of p)
            (keeping (kept_of (arc_value binding))))) }
        ensures err { OnErr result (Becomes self.old self.new (world_of self.old)) }
    {
        self.has_room(number as usize)?;
        self.keep_in_room(number, binding)
    }

    /// A pass offers a delegation that is then kept, where there is room: it is published, and its
    /// call is made behind it. An `Err` changes nothing.
    fn keep_in_room(&mut self, number: u32, binding: Arc<Binding>) -> Mem<()>
        requires holds { Holds self.old }
        requires there { number < length self.old.passes.items }
        requires fresh { (p : Pass) → slice_get self.old.passes.items number ≡ Some p
            → Some (kept_of (arc_value binding)) ≡ option_map kept_in_arc p.fresh }
        requires kept { is_kept (settings_of self.old.settings) (ops_of self.old)
            (kept_of (arc_value binding)) ≡ true }
        requires operations { length (ops_of self.old) < 2 ^ 64 - 1 }
        requires items { (p : Pass) → slice_get self.old.passes.items number ≡ Some p
            → length (items_of p) < 2 ^ 64 - 1 }
        ensures ok { OnOk result
            ((p : Pass) → slice_get self.old.passes.items number ≡ Some p
            → Becomes self.old self.new
            (called (settings_of self.old.settings) (world_of self.old) number (pass_of p)
            (keeping (kept_of (arc_value binding))))) }
        ensures err { OnErr result (Becomes self.old self.new (world_of self.old)) }
    {
        let published = Snapshot::of(&binding);
        let called = Snapshot::of(&binding);
        self.cache.keep(binding);
        self.keeps += 1;
        let point = self.operations.len;
        let pass = &mut self.passes[number as usize];
        let serial = pass.keeps;
        pass.call_in_room(Call::Keeping(called), point, point + 1);
        pass.keeps = serial + 1;
        self.operations.push(Operation::Kept {
            by: number,
            serial,
            binding: published,
        });
        Ok(())
    }
}

/// Whether a delegation took too many lookups to be kept, or has too long texts.
fn is_large(binding: &Binding) -> bool
    ensures { result ≡ is_large (kept_of binding.now) }
{
    binding.cost() > MOST_COST || binding.bytes() > MOST_BYTES
}
