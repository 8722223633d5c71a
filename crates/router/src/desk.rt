//! What lies under the router's lock.
ghost use Rattle.std.specs.Prelude.{◌≡◌, ◌≤◌, ◌<◌, ◌+◌, ◌-◌, ◌^◌, ◌++◌, true, false, Some, None};
ghost use Rattle.std.specs.Prelude.{length, is_some, IfOk, OnOk, OnErr, IfSome, IfNone, vec_len};
ghost use Rattle.std.specs.Prelude.{vec_capacity};
ghost use Rattle.std.specs.Option.{option_to_list};
ghost use Rattle.std.specs.Coded.{Coded-set};
ghost use Rattle.bind_cache.specs.Stored.{kept_of};
ghost use Rattle.machine.specs.Code.{change_of, ready_of, reply_value};
ghost use Rattle.machine.specs.Ready.{IsReadyFor};
ghost use Rattle.machine.specs.State.{IsSoundChange, is_accepted, reply_of};
ghost use Rattle.router_log.specs.Call.{changing, keeping, publishes, is_had, is_kept};
ghost use Rattle.router_log.specs.Value.{value_of, opening_value, Fits, AllFit};
ghost use Rattle.router_log.specs.Codes.{coded_settings};
ghost use Rattle.router_log.specs.Operation.{place_of, kept_count, kept};
ghost use Rattle.snap_cell.specs.Writers.{published_by, cell_written, opening_written};
ghost use Rattle.snap_cell.specs.Writers.{reader_count, SameWriter};
ghost use Rattle.router.specs.Changing.{IsChanged, IsRemembered, Met, WasWorkedOut, remembered_as};
ghost use Rattle.router.specs.Passes.{number_in, seen_in, items_in, made_in, kept_in, refusals_in};
ghost use Rattle.router.specs.Passes.{reads_in, Called, Entered, SameSeat, SawMore};
ghost use Rattle.router.specs.Update.{operations_of};
ghost use Rattle.router.specs.Values.{settings_in, IsEmpty};
ghost use Rattle.router.specs.Views.{call_of};
ghost use Rattle.router.specs.Whole.{whole_of};

use crate::Mem;
use crate::answer::Remembered;
use crate::call::Call;
use crate::current::Current;
use crate::naming::Naming;
use crate::pass::Pass;
use crate::update::Update;
use bind_cache::{Binding, MOST_COST};
use machine::{Change, Ready, Reply};
use router_log::MOST_BYTES;
use snap_cell::{Reader, Writer};
use std::alloc::Global;
use std::snapshot::Snapshot;
use std::sync::ledger::{Book, Share};
use std::sync::{Arc, Wait};

/// The writer, with the count of all changes and that of all delegations that were kept. The
/// ledger's book has what the two come to.
pub(crate) struct Desk<J: Naming> {
    pub(crate) writer: Writer<Current, Update>,
    pub(crate) place: u64,
    pub(crate) kept: u64,
    pub(crate) book: Book<J>,
    pub(crate) rest: Share<J>,
    // Where `close` hands the readers down.
    pub(crate) room: Vec<Reader<Current, Update, Call>>,
    ghost of_router: { Some (cell_written writer) ≡ J.cell },
    ghost empty: { IsEmpty (opening_written writer) },
    ghost settings: { settings_in (opening_written writer) ≡ J.settings } by { Coded-set coded_settings _ _ },
    ghost place_is: { place ≡ place_of (operations_of (published_by writer)) },
    ghost kept_is: { kept ≡ kept_count (operations_of (published_by writer)) },
    ghost counted: { book.total ≡ place + kept },
    ghost seats: { reader_count writer ≡ J.seats },
    ghost set_aside: { (vec_len room ≡ 0) × (J.seats ≤ vec_capacity room) },
    ghost no_rest: { (rest.parts ≡ 0) × (rest.amount ≡ 0) },
}

/// What the whole value answers to a change, and what is prepared of it.
fn prepare_in<R: Wait>(
    rt: &R,
    alloc: Global,
    writer: &mut Writer<Current, Update>,
    change: &Change,
) -> Mem<(Reply, Option<Ready>)>
    requires sound { IsSoundChange (change_of change.now) }
    requires empty { IsEmpty (opening_written writer.old) }
    ensures same { SameWriter writer.old writer.new }
    ensures whole { whole_of (opening_written writer.old) (published_by writer.old)
        ≡ value_of (settings_in (opening_written writer.old))
        (operations_of (published_by writer.old)) }
    ensures place { (whole_of (opening_written writer.old) (published_by writer.old)).state.place
        ≡ place_of (operations_of (published_by writer.old)) }
    ensures reply { IfOk result (λ p. reply_value p.0 ≡ reply_of
        (settings_in (opening_written writer.old)) (whole_of (opening_written writer.old)
        (published_by writer.old)).state (change_of change.now)) }
    ensures accepted { IfOk result (λ p. is_some p.1 ≡ is_accepted
        (whole_of (opening_written writer.old) (published_by writer.old)).state
        (change_of change.now)) }
    ensures ready { IfOk result (λ p. IfSome p.1 (λ ready. IsReadyFor
        (settings_in (opening_written writer.old)) (whole_of (opening_written writer.old)
        (published_by writer.old)).state (change_of change.now) (ready_of ready))) }
{
    let whole = writer.value(rt);
    let current = whole.get();
    let prepared = current.state().prepare(alloc, current.settings(), change);
    writer.put_back(whole);
    prepared
}

/// Whether a delegation is kept for this one's path and table.
fn is_had_in<R: Wait>(rt: &R, writer: &mut Writer<Current, Update>, binding: &Binding) -> bool
    requires empty { IsEmpty (opening_written writer.old) }
    ensures same { SameWriter writer.old writer.new }
    ensures whole { whole_of (opening_written writer.old) (published_by writer.old)
        ≡ value_of (settings_in (opening_written writer.old))
        (operations_of (published_by writer.old)) }
    ensures fit { AllFit (settings_in (opening_written writer.old)) opening_value
        (operations_of (published_by writer.old)) }
    ensures had { result ≡ is_had (settings_in (opening_written writer.old))
        (operations_of (published_by writer.old)) (kept_of binding.now) }
{
    let whole = writer.value(rt);
    let found = whole.get().find(binding.path(), binding.local()).is_some();
    writer.put_back(whole);
    found
}

impl<J: Naming> Desk<J> {
    /// Lets a pass see all that was published.
    fn show<R: Wait>(&self, rt: &R, pass: &mut Pass<J>)
        ensures number { number_in pass.new ≡ number_in pass.old }
        ensures seen { seen_in pass.new ≡ operations_of (published_by self.now.writer) }
        ensures more { SawMore pass.old pass.new }
        ensures counts { (made_in pass.new ≡ made_in pass.old)
            × (kept_in pass.new ≡ kept_in pass.old) }
    {
        pass.reader.catch_up(rt, &self.writer, None);
        pass.place = self.place;
    }

    /// Lets a pass see all that was published, with a call that publishes nothing there.
    fn show_call<R: Wait>(&self, rt: &R, pass: &mut Pass<J>, call: &Call)
        requires none { publishes J.settings (operations_of (published_by self.now.writer))
            (number_in pass.old) (made_in pass.old) (kept_in pass.old) (call_of call.now) ≡ None }
        ensures number { number_in pass.new ≡ number_in pass.old }
        ensures seen { seen_in pass.new ≡ operations_of (published_by self.now.writer) }
        ensures entered { Entered pass.old pass.new (call_of call.now) }
        ensures reads { reads_in pass.new ≡ reads_in pass.old }
    {
        pass.reader
            .catch_up(rt, &self.writer, Some(Snapshot::of(call)));
        pass.place = self.place;
    }

    /// Publishes an accepted change.
    fn publish_change<R: Wait>(
        &mut self,
        rt: &R,
        pass: &mut Pass<J>,
        change: Change,
        ready: Ready,
    ) -> Mem<()>
        requires ready { IsReadyFor J.settings (whole_of (opening_written self.old.writer)
            (published_by self.old.writer)).state (change_of change) (ready_of ready) }
        requires whole { whole_of (opening_written self.old.writer) (published_by self.old.writer)
            ≡ value_of J.settings (operations_of (published_by self.old.writer)) }
        requires seen { seen_in pass.old ≡ operations_of (published_by self.old.writer) }
        requires room { place_of (operations_of (published_by self.old.writer)) < 2 ^ 64 - 1 }
        ensures number { number_in pass.new ≡ number_in pass.old }
        ensures want { OnErr result (SawMore pass.old pass.new) }
        ensures counts { OnErr result ((made_in pass.new ≡ made_in pass.old)
            × (kept_in pass.new ≡ kept_in pass.old)) }
        ensures writer { OnErr result (SameWriter self.old.writer self.new.writer) }
        ensures called { OnOk result (Called pass.old pass.new (changing (change_of change))
            (length (seen_in pass.old))) }
        ensures seen { OnOk result (seen_in pass.new ≡ seen_in pass.old ++ option_to_list
            (publishes J.settings (seen_in pass.old) (number_in pass.old) (made_in pass.old)
            (kept_in pass.old) (changing (change_of change)))) }
        ensures made { OnOk result (made_in pass.new ≡ made_in pass.old + 1) }
        ensures kept { OnOk result (kept_in pass.new ≡ kept_in pass.old) }
        ensures refusals { OnOk result (refusals_in pass.new ≡ refusals_in pass.old) }
        ensures seat { OnOk result (SameSeat pass.old pass.new) }
    {
        let call = Call::Changing(Snapshot::of(&change));
        let update = Update::Changed {
            by: pass.reader.number(),
            serial: pass.made,
            change,
            ready,
        };
        self.writer
            .publish_for(rt, &mut pass.reader, update, Some(Snapshot::of(&call)))?;
        self.book.add(&mut pass.share, 1);
        self.place += 1;
        pass.made += 1;
        pass.place = self.place;
        Ok(())
    }

    /// Publishes a delegation that is kept from then on.
    fn publish_kept<R: Wait>(
        &mut self,
        rt: &R,
        alloc: Global,
        pass: &mut Pass<J>,
        binding: Binding,
    ) -> Mem<()>
        requires fits { Fits J.settings (whole_of (opening_written self.old.writer)
            (published_by self.old.writer)) (kept 0 0 (kept_of binding)) }
        requires kept { is_kept J.settings (operations_of (published_by self.old.writer))
            (kept_of binding) ≡ true }
        requires seen { seen_in pass.old ≡ operations_of (published_by self.old.writer) }
        requires room { kept_count (operations_of (published_by self.old.writer)) < 2 ^ 64 - 1 }
        ensures number { number_in pass.new ≡ number_in pass.old }
        ensures want { OnErr result (SawMore pass.old pass.new) }
        ensures counts { OnErr result ((made_in pass.new ≡ made_in pass.old)
            × (kept_in pass.new ≡ kept_in pass.old)) }
        ensures writer { OnErr result (SameWriter self.old.writer self.new.writer) }
        ensures called { OnOk result (Called pass.old pass.new (keeping (kept_of binding))
            (length (seen_in pass.old))) }
        ensures seen { OnOk result (seen_in pass.new ≡ seen_in pass.old ++ option_to_list
            (publishes J.settings (seen_in pass.old) (number_in pass.old) (made_in pass.old)
            (kept_in pass.old) (keeping (kept_of binding)))) }
        ensures made { OnOk result (made_in pass.new ≡ made_in pass.old) }
        ensures kept { OnOk result (kept_in pass.new ≡ kept_in pass.old + 1) }
        ensures refusals { OnOk result (refusals_in pass.new ≡ refusals_in pass.old) }
        ensures seat { OnOk result (SameSeat pass.old pass.new) }
    {
        let call = Call::Keeping(Snapshot::of(&binding));
        let update = Update::Kept {
            by: pass.reader.number(),
            serial: pass.kept,
            binding: Arc::new(alloc, binding)?,
        };
        self.writer
            .publish_for(rt, &mut pass.reader, update, Some(Snapshot::of(&call)))?;
        self.book.add(&mut pass.share, 1);
        self.kept += 1;
        pass.kept += 1;
        Ok(())
    }

    /// Makes a change, if the state accepts it there.
    pub(crate) fn change<R: Wait>(
        &mut self,
        rt: &R,
        alloc: Global,
        pass: &mut Pass<J>,
        change: Change,
    ) -> Mem<Reply>
        requires sound { IsSoundChange (change_of change) }
        ensures number { number_in pass.new ≡ number_in pass.old }
        ensures changed { IfOk result (IsChanged pass.old pass.new (change_of change)) }
        ensures want { OnErr result (SawMore pass.old pass.new) }
        ensures counts { OnErr result ((made_in pass.new ≡ made_in pass.old)
            × (kept_in pass.new ≡ kept_in pass.old)) }
        ensures writer { OnErr result (SameWriter self.old.writer self.new.writer) }
    {
        let (reply, ready) = prepare_in(rt, alloc, &mut self.writer, &change)?;
        self.show(rt, pass);
        match ready {
            None => {
                self.show_call(rt, pass, &Call::Changing(Snapshot::of(&change)));
                drop(change);
                Ok(reply)
            }
            Some(ready) => {
                self.publish_change(rt, pass, change, ready)?;
                Ok(reply)
            }
        }
    }

    /// Why a delegation that is given back is not kept, if it is not.
    fn objection<R: Wait>(&mut self, rt: &R, binding: &Binding) -> Option<Remembered>
        ensures writer { SameWriter self.old.writer self.new.writer }
        ensures said { IfSome result (λ said. said ≡ remembered_as J.settings
            (operations_of (published_by self.old.writer)) (kept_of binding.now)) }
        ensures refused { IfSome result (λ said. is_kept J.settings
            (operations_of (published_by self.old.writer)) (kept_of binding.now) ≡ false) }
        ensures kept { IfNone result (is_kept J.settings
            (operations_of (published_by self.old.writer)) (kept_of binding.now) ≡ true) }
        ensures room { IfNone result (kept_count (operations_of (published_by self.old.writer)) < 2
            ^ 64 - 1) }
        ensures whole { IfNone result (whole_of (opening_written self.old.writer)
            (published_by self.old.writer) ≡ value_of J.settings
            (operations_of (published_by self.old.writer))) }
        ensures fit { IfNone result (AllFit J.settings opening_value
            (operations_of (published_by self.old.writer))) }
    {
        if binding.cost() > MOST_COST || binding.bytes() > MOST_BYTES {
            return Some(Remembered::Large {
                cost: binding.cost(),
                bytes: binding.bytes(),
            });
        }
        if self.place != binding.place() {
            return Some(Remembered::Late {
                place: binding.place(),
                now: self.place,
            });
        }
        if is_had_in(rt, &mut self.writer, binding) {
            return Some(Remembered::Had);
        }
        if self.kept == u64::MAX {
            return Some(Remembered::KeptSpent);
        }
        None
    }

    /// Keeps a delegation, if it may be kept there.
    pub(crate) fn remember<R: Wait>(
        &mut self,
        rt: &R,
        alloc: Global,
        pass: &mut Pass<J>,
        binding: Binding,
    ) -> Mem<Remembered>
        requires own { WasWorkedOut pass.old (kept_of binding) }
        ensures number { number_in pass.new ≡ number_in pass.old }
        ensures remembered { IfOk result (IsRemembered pass.old pass.new (kept_of binding)) }
        ensures want { OnErr result (SawMore pass.old pass.new) }
        ensures counts { OnErr result ((made_in pass.new ≡ made_in pass.old)
            × (kept_in pass.new ≡ kept_in pass.old)) }
        ensures writer { OnErr result (SameWriter self.old.writer self.new.writer) }
    {
        self.show(rt, pass);
        match self.objection(rt, &binding) {
            None => {
                self.publish_kept(rt, alloc, pass, binding)?;
                Ok(Remembered::Kept)
            }
            Some(said) => {
                self.show_call(rt, pass, &Call::Keeping(Snapshot::of(&binding)));
                drop(binding);
                Ok(said)
            }
        }
    }

    /// Lets two passes see all that was published.
    pub(crate) fn meet<R: Wait>(&self, rt: &R, a: &mut Pass<J>, b: &mut Pass<J>)
        ensures numbers { (number_in a.new ≡ number_in a.old)
            × (number_in b.new ≡ number_in b.old) }
        ensures met { Met a.old b.old a.new b.new }
    {
        self.show(rt, a);
        self.show(rt, b);
    }
}
