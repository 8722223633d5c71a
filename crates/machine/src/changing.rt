//! How changes are prepared and made.
ghost use Rattle.std.specs.Prelude.{◌≡◌, ◌≤◌, ◌+◌, ◌==◌, not, None, IfOk, IfSome, OnOk, OnErr};
ghost use Rattle.std.specs.Prelude.{is_some};
ghost use Rattle.ns_store.specs.Store.{prepared_of as store_in};
ghost use Rattle.machine.specs.Code.{settings_of, state_of, change_of, reply_value, ready_of};
ghost use Rattle.machine.specs.Sound.{AreSoundSpaces};
ghost use Rattle.machine.specs.State.{IsSoundChange, decided, last_place, reply_of, is_accepted};
ghost use Rattle.machine.specs.State.{after};
ghost use Rattle.machine.specs.Ready.{IsReadyFor, absorbed, with_part, store_then, book_then};
ghost use Rattle.machine.specs.Ready.{reported};
ghost use Rattle.machine.specs.Part.{part_value, IsSoundPart};

use crate::Mem;
use crate::change::Change;
use crate::decided::Decided;
use crate::part::{Part, Report};
use crate::ready::Ready;
use crate::reply::Reply;
use crate::settings::Settings;
use crate::state::State;
use addr_book::{ReadyBook, addresses_are_seated};
use ns_store::ReadyStore;
use std::alloc::Global;

impl State {
    /// Answers a change, and prepares it where it is accepted. Nothing is changed.
    ///
    /// A change is refused for the first of its causes; where there is none,
    /// [`Reply::HistorySpent`] comes exactly at the place 2^64 - 1. A change of namespaces copies
    /// the list of namespaces and shares its own table, and one of services copies the parts of the
    /// book that it touches.
    pub fn prepare(
        &self,
        alloc: Global,
        settings: &Settings,
        change: &Change,
    ) -> Mem<(Reply, Option<Ready>)>
        requires { IsSoundChange (change_of change.now) }
        ensures reply { IfOk result
            (λ p. reply_value p.0 ≡ reply_of (settings_of settings.now) (state_of self.now)
            (change_of change.now)) }
        ensures accepted { IfOk result
            (λ p. is_some p.1 ≡ is_accepted (state_of self.now) (change_of change.now)) }
        ensures ready { IfOk result
            (λ p. IfSome p.1
            (λ ready. IsReadyFor (settings_of settings.now) (state_of self.now)
            (change_of change.now) (ready_of ready))) }
    {
        match self.decide(alloc, settings, change)? {
            Decided::Refused(reply) => Ok((reply, None)),
            Decided::Accepted(reply, part) => Ok(self.unless_spent(reply, part)),
        }
    }

    /// Absorbs a prepared change. On the state that it was prepared for it leaves what the change
    /// leaves; on any other the namespaces or the services become the prepared ones and the place
    /// the prepared place, and a report is made on that state's own mark, if one of its services
    /// has the address. An `Err` changes nothing.
    ///
    /// It shares what was prepared. A change of services looks each marked address up in the book.
    pub fn absorb(&mut self, ready: &Ready) -> Mem<()>
        ensures ok { OnOk result
            (state_of self.new ≡ absorbed (state_of self.old) (ready_of ready.now)) }
        ensures err { OnErr result (state_of self.new ≡ state_of self.old) }
    {
        self.absorb_part(&ready.part)?;
        self.place = ready.place;
        Ok(())
    }

    /// Answers a change, and makes it where it is accepted. An `Err` changes nothing.
    pub fn apply(&mut self, alloc: Global, settings: &Settings, change: &Change) -> Mem<Reply>
        requires { IsSoundChange (change_of change.now) }
        ensures reply { IfOk result
            (λ reply. reply_value reply
            ≡ reply_of (settings_of settings.now) (state_of self.old) (change_of change.now)) }
        ensures ok { OnOk result
            (state_of self.new ≡ after (settings_of settings.now) (state_of self.old)
            (change_of change.now)) }
        ensures err { OnErr result (state_of self.new ≡ state_of self.old) }
    {
        let (reply, ready) = self.prepare(alloc, settings, change)?;
        match ready {
            None => Ok(reply),
            Some(ready) => match self.take_up(ready) {
                Ok(()) => Ok(reply),
                Err(want) => {
                    drop(reply);
                    Err(want)
                }
            },
        }
    }

    /// Absorbs a change that nobody else is to absorb. An `Err` changes nothing.
    fn take_up(&mut self, ready: Ready) -> Mem<()>
        ensures ok { OnOk result
            (state_of self.new ≡ absorbed (state_of self.old) (ready_of ready)) }
        ensures err { OnErr result (state_of self.new ≡ state_of self.old) }
    {
        let done = self.absorb(&ready);
        drop(ready);
        done
    }

    /// What is not refused is accepted, but for a history without a place left.
    fn unless_spent(&self, reply: Reply, part: Part) -> (Reply, Option<Ready>)
        requires { IsSoundPart (part_value part) }
        ensures reply { reply_value result.0
            ≡ decided (state_of self.now) None (reply_value reply) }
        ensures accepted { is_some result.1 ≡ not ((state_of self.now).place == last_place) }
        ensures ready { IfSome result.1
            (λ ready. ready_of ready
            ≡ record { part = part_value part; place = (state_of self.now).place + 1 }) }
    {
        if self.place == u64::MAX {
            drop(reply);
            drop(part);
            return (Reply::HistorySpent, None);
        }
        let ready = Ready {
            part,
            place: self.place + 1,
        };
        (reply, Some(ready))
    }

    /// Absorbs what was prepared, and stays at its place.
    fn absorb_part(&mut self, part: &Part) -> Mem<()>
        requires { IsSoundPart (part_value part.now) }
        ensures ok { OnOk result
            (state_of self.new ≡ with_part (state_of self.old) (part_value part.now)
            (state_of self.old).place) }
        ensures err { OnErr result (state_of self.new ≡ state_of self.old) }
    {
        match part {
            Part::Store(ready) => self.put_store(ready),
            Part::Book(ready) => self.put_book(ready),
            Part::Report(report) => {
                self.put_report(*report);
                Ok(())
            }
        }
    }

    /// Makes the namespaces the prepared ones.
    fn put_store(&mut self, ready: &ReadyStore) -> Mem<()>
        requires { AreSoundSpaces (store_in ready.now).spaces }
        ensures ok { OnOk result
            (state_of self.new ≡ with_part (state_of self.old) (store_then (store_in ready.now))
            (state_of self.old).place) }
        ensures err { OnErr result (state_of self.new ≡ state_of self.old) }
    {
        self.store.absorb(ready)
    }

    /// Makes the services the prepared ones, and drops the marks of addresses that no service has
    /// then.
    fn put_book(&mut self, ready: &ReadyBook) -> Mem<()>
        ensures ok { OnOk result
            (state_of self.new ≡ with_part (state_of self.old) (book_then ready.now)
            (state_of self.old).place) }
        ensures err { OnErr result (state_of self.new ≡ state_of self.old) }
    {
        self.book.absorb(ready)?;
        self.marks.keep(&self.book);
        Ok(())
    }

    /// Makes a report on the mark of its address, if some service has that.
    fn put_report(&mut self, report: Report)
        requires { 1 ≤ report.limits.failures }
        ensures { state_of self.new
            ≡ with_part (state_of self.old)
            (reported report.addr report.good report.moment report.limits)
            (state_of self.old).place }
    {
        if self.book.slot(report.addr).is_some() {
            addresses_are_seated(&self.book);
            let _mark = self
                .marks
                .report(report.addr, report.good, report.moment, report.limits);
        }
    }
}
