//! Whether a change is accepted, and what is prepared of it.
ghost use Rattle.std.specs.Prelude.{◌≡◌, ◌≢◌, IfOk};
ghost use Rattle.ns_store.specs.declared.fault.StoreFault.{StoreFault};
ghost use Rattle.addr_book.specs.declared.fault.BookFault.{BookFault};
ghost use Rattle.machine.specs.Code.{settings_of, state_of, change_of, reply_value};
ghost use Rattle.machine.specs.Values.{create, put, delete, set_addrs, drop_service, report};
ghost use Rattle.machine.specs.State.{IsSoundChange, store_reply, book_reply};
ghost use Rattle.machine.specs.Decided.{IsDecided, IsDecidedAnyhow};
ghost use Rattle.dtab_table.specs.Dtab.{rules_of};
ghost use Rattle.dtab_table.specs.TableCanon.{AreSoundRules};

use crate::Mem;
use crate::change::Change;
use crate::decided::Decided;
use crate::part::{Part, Report};
use crate::reply::Reply;
use crate::settings::Settings;
use crate::state::State;
use addr_book::{Addr, AddrList, BookFault, Name};
use choose_core::Mark;
use dtab_table::Dtab;
use ns_store::StoreFault;
use std::alloc::{AllocError, Global};

impl State {
    /// What is decided of a change, the length of the history apart. Only a change of namespaces or
    /// services takes memory.
    pub(crate) fn decide(&self, alloc: Global, settings: &Settings, change: &Change) -> Mem<Decided>
        requires { IsSoundChange (change_of change.now) }
        ensures { IfOk result (IsDecided (settings_of settings.now) (state_of self.now)
            (change_of change.now)) }
    {
        match change {
            Change::Create { name, dtab } => self.decide_create(alloc, name, dtab),
            Change::Put {
                name,
                version,
                dtab,
            } => self.decide_put(alloc, name, *version, dtab),
            Change::Delete { name, version } => { self.decide_delete(alloc, name, *version) }
            Change::SetAddrs { service, list } => self.decide_set(alloc, service, list),
            Change::DropService { service } => self.decide_drop(alloc, service),
            Change::Report { addr, good, moment } => {
                Ok(self.decide_report(settings, *addr, *good, *moment))
            }
        }
    }

    /// Of a new namespace.
    fn decide_create(&self, alloc: Global, name: &Name, dtab: &Dtab) -> Mem<Decided>
        requires { AreSoundRules (rules_of dtab.now) }
        ensures { IfOk result (IsDecidedAnyhow (state_of self.now)
            (create name.now (rules_of dtab.now))) }
    {
        let version = self.store.next_version();
        match self.store.prepare_create(alloc, name, dtab) {
            Ok(ready) => Ok(Decided::Accepted(Reply::Version(version), Part::Store(ready))),
            Err(fault) => Ok(Decided::Refused(store_reply(fault)?)),
        }
    }

    /// Of another table for a namespace.
    fn decide_put(
        &self,
        alloc: Global,
        name: &Name,
        expected: Option<u64>,
        dtab: &Dtab,
    ) -> Mem<Decided>
        requires { AreSoundRules (rules_of dtab.now) }
        ensures { IfOk result (IsDecidedAnyhow (state_of self.now)
            (put name.now expected (rules_of dtab.now))) }
    {
        let version = self.store.next_version();
        match self.store.prepare_put(alloc, name, expected, dtab) {
            Ok(ready) => Ok(Decided::Accepted(Reply::Version(version), Part::Store(ready))),
            Err(fault) => Ok(Decided::Refused(store_reply(fault)?)),
        }
    }

    /// Of a namespace that is to go.
    fn decide_delete(&self, alloc: Global, name: &Name, expected: Option<u64>) -> Mem<Decided>
        ensures { IfOk result (IsDecidedAnyhow (state_of self.now) (delete name.now expected)) }
    {
        match self.store.prepare_delete(alloc, name, expected) {
            Ok(ready) => Ok(Decided::Accepted(Reply::Deleted, Part::Store(ready))),
            Err(fault) => Ok(Decided::Refused(store_reply(fault)?)),
        }
    }

    /// Of the addresses of a service.
    fn decide_set(&self, alloc: Global, service: &Name, list: &AddrList) -> Mem<Decided>
        ensures { IfOk result (IsDecidedAnyhow (state_of self.now)
            (set_addrs service.now list.now)) }
    {
        let count = list.items().len() as u32;
        match self.book.prepare_set(alloc, service, list) {
            Ok(ready) => Ok(Decided::Accepted(Reply::Set(count), Part::Book(ready))),
            Err(fault) => Ok(Decided::Refused(book_reply(fault)?)),
        }
    }

    /// Of a service that is to go.
    fn decide_drop(&self, alloc: Global, service: &Name) -> Mem<Decided>
        ensures { IfOk result (IsDecidedAnyhow (state_of self.now) (drop_service service.now)) }
    {
        match self.book.prepare_drop(alloc, service) {
            Ok(ready) => Ok(Decided::Accepted(Reply::Dropped, Part::Book(ready))),
            Err(fault) => Ok(Decided::Refused(book_reply(fault)?)),
        }
    }

    /// Of a report.
    fn decide_report(&self, settings: &Settings, addr: Addr, good: bool, moment: u64) -> Decided
        ensures { IsDecided (settings_of settings.now) (state_of self.now) (report addr good moment)
            result }
    {
        if self.book.slot(addr).is_none() {
            return Decided::Refused(Reply::NotKept);
        }
        let mark = self.marks.mark(addr);
        if good && mark.count == 0 {
            return Decided::Refused(Reply::Marked(Mark::NONE));
        }
        let next = mark.after(good, moment, settings.limits);
        let report = Report {
            addr,
            good,
            moment,
            limits: settings.limits,
        };
        Decided::Accepted(Reply::Marked(next), Part::Report(report))
    }
}

/// How a refusal by the store is answered.
fn store_reply(fault: StoreFault) -> Mem<Reply>
    ensures refusal { IfOk result (λ reply. fault ≢ StoreFault.OutOfMemory) }
    ensures reply { IfOk result (λ reply. reply_value reply ≡ store_reply fault) }
{
    match fault {
        StoreFault::Exists(version) => Ok(Reply::Exists(version)),
        StoreFault::TooManyNames => Ok(Reply::TooManyNames),
        StoreFault::VersionsSpent => Ok(Reply::VersionsSpent),
        StoreFault::Missing => Ok(Reply::Missing),
        StoreFault::Stale(version) => Ok(Reply::Stale(version)),
        StoreFault::OutOfMemory => Err(AllocError),
    }
}

/// How a refusal by the book is answered.
fn book_reply(fault: BookFault) -> Mem<Reply>
    ensures refusal { IfOk result (λ reply. fault ≢ BookFault.OutOfMemory) }
    ensures reply { IfOk result (λ reply. reply_value reply ≡ book_reply fault) }
{
    match fault {
        BookFault::BookFull(count) => Ok(Reply::BookFull(count)),
        BookFault::TooManyServices => Ok(Reply::TooManyServices),
        BookFault::Missing => Ok(Reply::Missing),
        BookFault::OutOfMemory => Err(AllocError),
    }
}
