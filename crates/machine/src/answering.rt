//! How looks are answered, and how paths are delegated.
ghost use Rattle.std.specs.Prelude.{◌≡◌, ◌≤◌, ◌+◌, min, IfOk, OnOk};
ghost use Rattle.std.specs.FinMap as fin;
ghost use Rattle.dtab_table.specs.Dtab.{rules_of};
ghost use Rattle.addr_book.specs.Namer.{named_in};
ghost use Rattle.bind_core.specs.Outcome.{IsDelegated};
ghost use Rattle.machine.specs.Code.{settings_of, state_of, look_value, reply_value};
ghost use Rattle.machine.specs.Looking.{effective, table_reply, addrs_reply, counts_reply, look_of};

use crate::Mem;
use crate::look::Look;
use crate::reply::{NameList, Reply};
use crate::settings::Settings;
use crate::state::State;
use addr_book::{AddrList, Name};
use bind_core::{Delegated, Tables, Wanted, bind};
use dtab_table::Dtab;
use name_tree::Path;
use std::alloc::Global;
use std::sync::ledger::Ledger;
use step_count::Steps;

impl State {
    /// Delegates a path in this state: by the namespace's table, the configured one and a request's
    /// own, as if they were one, and by the services of the book. No table is copied. Each lookup
    /// ticks `steps` at least once.
    pub fn delegate<L: Ledger>(
        &self,
        alloc: Global,
        settings: &Settings,
        path: &Path,
        local: &Dtab,
        wanted: Wanted,
        steps: &mut Steps<L>,
    ) -> Mem<Delegated>
        ensures delegated { IfOk result
            (IsDelegated (effective (settings_of settings.now) (state_of self.now)
            (rules_of local.now)) (named_in (state_of self.now).book) path.now wanted) }
        ensures counted { IfOk result (λ d. steps.old + min d.cost 10000 ≤ steps.new) }
    {
        match self.store.get(&settings.space) {
            Some((_, space)) => {
                let tables = Tables {
                    space,
                    base: &settings.base,
                    local,
                };
                bind(alloc, &tables, &self.book, path, wanted, steps)
            }
            None => {
                let space = Dtab::empty(alloc);
                let tables = Tables {
                    space: &space,
                    base: &settings.base,
                    local,
                };
                bind(alloc, &tables, &self.book, path, wanted, steps)
            }
        }
    }

    /// Answers a look. A `Get` shares the table that it gives, and an `Addrs` copies the list. A
    /// `Services` goes over the book, and a `View` is a delegation with its trace.
    pub fn answer<L: Ledger>(
        &self,
        alloc: Global,
        settings: &Settings,
        look: &Look,
        steps: &mut Steps<L>,
    ) -> Mem<Reply>
        ensures { IfOk result
            (λ reply. reply_value reply
            ≡ look_of (settings_of settings.now) (state_of self.now) (look_value look.now)) }
    {
        match look {
            Look::Get { name } => self.table(alloc, name),
            Look::List => Ok(Reply::Names(self.names(alloc)?)),
            Look::Addrs { service } => self.addrs(alloc, service),
            Look::Counts => Ok(self.counts()),
            Look::Services { moment } => self.services(alloc, settings.limits, *moment),
            Look::View { path, local } => {
                let delegated = self.delegate(alloc, settings, path, local, Wanted::Trace, steps)?;
                let (outcome, asked, trace) = delegated.into_parts();
                drop(asked);
                Ok(Reply::Viewed { outcome, trace })
            }
        }
    }

    /// The version and the table of a namespace.
    fn table(&self, alloc: Global, name: &Name) -> Mem<Reply>
        ensures { IfOk result
            (λ reply. reply_value reply
            ≡ table_reply (fin.get (state_of self.now).store.spaces name.now)) }
    {
        match self.store.get(name) {
            None => Ok(Reply::Missing),
            Some((version, dtab)) => Ok(Reply::Table {
                version,
                dtab: dtab.copied(alloc)?,
            }),
        }
    }

    /// The addresses of a service.
    fn addrs(&self, alloc: Global, service: &Name) -> Mem<Reply>
        ensures { IfOk result
            (λ reply. reply_value reply
            ≡ addrs_reply (fin.get (state_of self.now).book.services service.now)) }
    {
        match self.book.cluster(service) {
            None => Ok(Reply::Missing),
            Some(list) => Ok(Reply::Addrs(AddrList::of(Vec::from_slice(alloc, list)?))),
        }
    }

    /// The names of all namespaces. They share their bytes with those of the store.
    fn names(&self, alloc: Global) -> Mem<NameList>
        ensures { IfOk result (λ names. names ≡ fin.keys (state_of self.now).store.spaces) }
    {
        let count = self.store.count();
        let mut names = Vec::with_capacity(alloc, count)?;
        for at in 0..count {
            names.push(self.store.name(at).clone()?)?;
        }
        Ok(NameList::of(names))
    }

    /// How much there is of each thing.
    fn counts(&self) -> Reply
        ensures { reply_value result ≡ counts_reply (state_of self.now) }
    {
        Reply::Counts {
            changes: self.place,
            marks: self.marks.count(),
            namespaces: self.store.count() as u32,
            services: self.book.count() as u32,
        }
    }
}
