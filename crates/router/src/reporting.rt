//! How a report of a success is answered without the lock, where it changes nothing.
//!
//! Nearly every request ends with such a report: its address has no failures, so the report leaves
//! the state as it is. The pass enters the published value, looks, and notes the call at that
//! point.
ghost use Rattle.std.specs.Prelude.{◌≡◌, true, Some, None, IfSome, IfNone, option_map};
ghost use Rattle.machine.specs.Code.{state_of, change_of, reply_value};
ghost use Rattle.machine.specs.State.{report_refusal};
ghost use Rattle.router_log.specs.Call.{publishes};
ghost use Rattle.router_log.specs.Operation.{place_of};
ghost use Rattle.router_log.specs.Value.{value_of};
ghost use Rattle.snap_cell.specs.Views.{IsThere, Refused};
ghost use Rattle.router.specs.Changing.{IsChanged, IsLeft, success_of};
ghost use Rattle.router.specs.Passes.{number_in, seen_in, made_in, kept_in, refusals_in, reads_in};
ghost use Rattle.router.specs.Passes.{Entered, Unanswered};
ghost use Rattle.router.specs.Values.{value_in};
ghost use Rattle.router.specs.Views.{BeganEmpty, Saw, call_of, settings_by, seen_by};

use crate::call::Call;
use crate::current::Current;
use crate::naming::Naming;
use crate::pass::Pass;
use crate::router::Router;
use crate::update::Update;
use addr_book::Addr;
use choose_core::Mark;
use machine::{Change, Reply, State};
use snap_cell::Reader;
use std::snapshot::Snapshot;

/// The address of a report of a success.
fn success_of(change: &Change) -> Option<Addr>
    ensures { result ≡ success_of (change_of change.now) }
{
    match change {
        Change::Report { addr, good, .. } => good.then_some(*addr),
        _ => None,
    }
}

/// What a report of a success on an address is answered that changes nothing: where no service has
/// the address, or it has no failures.
fn idle_reply(state: &State, addr: Addr) -> Option<Reply>
    ensures { option_map reply_value result ≡ report_refusal (state_of state.now) addr true }
{
    if state.book().slot(addr).is_none() {
        return Some(Reply::NotKept);
    }
    if state.marks().mark(addr).count == 0 {
        return Some(Reply::Marked(Mark::NONE));
    }
    None
}

impl Current {
    /// The place of this value, and what a report of a success on an address is answered in it that
    /// changes nothing.
    fn idle_reply(&self, addr: Addr) -> (u64, Option<Reply>)
        ensures place { result.0 ≡ (value_in self.now).state.place }
        ensures reply { option_map reply_value result.1 ≡ report_refusal (value_in self.now).state
            addr true }
    {
        (self.place(), idle_reply(self.state(), addr))
    }
}

/// Enters for no call: the place there, and what a report of a success on an address is answered at
/// that point that changes nothing. `None` where the reader is not let in.
fn success_through(
    reader: &mut Reader<Current, Update, Call>,
    addr: Addr,
) -> Option<(u64, Option<Reply>)>
    requires empty { BeganEmpty reader.old }
    ensures saw { IfSome result (λ r. Saw reader.old reader.new) }
    ensures place { IfSome result (λ r. r.0 ≡ place_of (seen_by reader.new)) }
    ensures reply { IfSome result (λ r. option_map reply_value r.1
        ≡ report_refusal (value_of (settings_by reader.old) (seen_by reader.new)).state addr true) }
    ensures there { IfSome result (λ r. IsThere reader.new) }
    ensures none { IfNone result (Refused reader.old reader.new) }
{
    let entered = reader.take(None)?;
    let reply = entered.get().idle_reply(addr);
    reader.put_back(entered);
    Some(reply)
}

impl<J: Naming> Router<J> {
    /// Answers a report of a success that changes nothing: where no service has its address, or the
    /// address has no failures. It takes no lock and no memory, and waits for nobody; a caller
    /// without leave to wait may make it.
    ///
    /// `None` where the change has to go through [`Router::change`]: where it is another one, where
    /// the pass is not let in ([`Pass::refused`]), and where the address has failures in the state
    /// that the pass then sees. The change was then not asked for.
    pub fn report(&self, pass: &mut Pass<J>, change: &Change) -> Option<Reply>
        ensures number { number_in pass.new ≡ number_in pass.old }
        ensures counts { IfNone result ((made_in pass.new ≡ made_in pass.old)
            × (kept_in pass.new ≡ kept_in pass.old)) }
        ensures changed { IfSome result (IsChanged pass.old pass.new (change_of change.now)) }
        ensures let_in { IfSome result (λ reply. refusals_in pass.new ≡ refusals_in pass.old) }
        ensures none { IfNone result
            (IsLeft pass.old pass.new (success_of (change_of change.now))) }
        ensures unanswered { IfNone result (Unanswered pass.old pass.new) }
    {
        let addr = success_of(change)?;
        let reply = pass.glance(addr)?;
        pass.note(&Call::Changing(Snapshot::of(change)));
        Some(reply)
    }
}

impl<J: Naming> Pass<J> {
    /// Enters for no call, and gives what a report of a success on an address is answered there
    /// that changes nothing.
    fn glance(&mut self, addr: Addr) -> Option<Reply>
        ensures number { number_in self.new ≡ number_in self.old }
        ensures counts { (made_in self.new ≡ made_in self.old)
            × (kept_in self.new ≡ kept_in self.old) }
        ensures saw { Unanswered self.old self.new }
        ensures reply { IfSome result (λ reply. report_refusal
            (value_of J.settings (seen_in self.new)).state addr true ≡ Some (reply_value reply)) }
        ensures let_in { IfSome result (λ reply. refusals_in self.new ≡ refusals_in self.old) }
        ensures none { IfNone result (IsLeft self.old self.new (Some addr)) }
    {
        let _refused = self.reader.refused();
        match success_through(&mut self.reader, addr) {
            None => None,
            Some((place, reply)) => {
                self.place = place;
                reply
            }
        }
    }

    /// Notes a call that publishes nothing, at the end of what the pass has seen.
    fn note(&mut self, call: &Call)
        requires none { publishes J.settings (seen_in self.old) (number_in self.old)
            (made_in self.old) (kept_in self.old) (call_of call.now) ≡ None }
        ensures number { number_in self.new ≡ number_in self.old }
        ensures seen { seen_in self.new ≡ seen_in self.old }
        ensures entered { Entered self.old self.new (call_of call.now) }
        ensures reads { reads_in self.new ≡ reads_in self.old }
    {
        self.reader.note(Snapshot::of(call));
    }
}
