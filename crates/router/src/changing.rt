//! The calls that take the router's lock.
ghost use Rattle.std.specs.Prelude.{◌≡◌, IfOk, OnErr};
ghost use Rattle.bind_cache.specs.Stored.{kept_of};
ghost use Rattle.machine.specs.Code.{change_of};
ghost use Rattle.machine.specs.State.{IsSoundChange};
ghost use Rattle.router.specs.Changing.{IsChanged, IsRemembered, Met, WasWorkedOut};
ghost use Rattle.router.specs.Passes.{number_in, made_in, kept_in, SawMore, Unanswered};

use crate::Mem;
use crate::answer::Remembered;
use crate::naming::Naming;
use crate::pass::Pass;
use crate::router::Router;
use bind_cache::Binding;
use machine::{Change, Reply};
use std::alloc::Global;
use std::sync::{MutexGuard, Wait};

impl<J: Naming> Router<J> {
    /// Makes a change, if the state accepts it, at a point behind all that was published. The pass
    /// has seen it then. It waits for the router's lock, and for callers that are reading the older
    /// copy of the value.
    ///
    /// A report of a success that changes nothing takes no lock where it is made by
    /// [`Router::report`], which this call tries first.
    ///
    /// # Errors
    /// Out of memory publishes nothing. It may then come at every later change that would be
    /// accepted: where a copy of the value lacked the memory to take it in.
    pub fn change<R: Wait>(
        &self,
        rt: &R,
        alloc: Global,
        pass: &mut Pass<J>,
        change: Change,
    ) -> Mem<Reply>
        requires sound { IsSoundChange (change_of change) }
        ensures number { number_in pass.new ≡ number_in pass.old }
        ensures changed { IfOk result (IsChanged pass.old pass.new (change_of change)) }
        ensures want { OnErr result (Unanswered pass.old pass.new) }
        ensures none { OnErr result ((made_in pass.new ≡ made_in pass.old)
            × (kept_in pass.new ≡ kept_in pass.old)) }
    {
        if let Some(reply) = self.report(pass, &change) {
            drop(change);
            return Ok(reply);
        }
        let mut desk = self.desk.lock(rt);
        let reply = desk.change(rt, alloc, pass, change);
        MutexGuard::unlock(desk);
        reply
    }

    /// Keeps a delegation that a pick of this pass gave, so that it need not be worked out again,
    /// where it may be kept.
    ///
    /// # Errors
    /// Out of memory publishes nothing, as of [`Router::change`].
    pub fn remember<R: Wait>(
        &self,
        rt: &R,
        alloc: Global,
        pass: &mut Pass<J>,
        binding: Binding,
    ) -> Mem<Remembered>
        requires own { WasWorkedOut pass.old (kept_of binding) }
        ensures number { number_in pass.new ≡ number_in pass.old }
        ensures remembered { IfOk result (IsRemembered pass.old pass.new (kept_of binding)) }
        ensures want { OnErr result (SawMore pass.old pass.new) }
        ensures none { OnErr result ((made_in pass.new ≡ made_in pass.old)
            × (kept_in pass.new ≡ kept_in pass.old)) }
    {
        let mut desk = self.desk.lock(rt);
        let said = desk.remember(rt, alloc, pass, binding);
        MutexGuard::unlock(desk);
        said
    }

    /// Lets two passes see all that was published, under the router's lock. It takes no memory.
    pub fn meet<R: Wait>(&self, rt: &R, a: &mut Pass<J>, b: &mut Pass<J>)
        ensures numbers { (number_in a.new ≡ number_in a.old)
            × (number_in b.new ≡ number_in b.old) }
        ensures met { Met a.old b.old a.new b.new }
    {
        let desk = self.desk.lock(rt);
        desk.meet(rt, a, b);
        MutexGuard::unlock(desk);
    }
}
