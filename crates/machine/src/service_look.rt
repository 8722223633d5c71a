//! What there is of each service, and how many tables were written.
ghost use Rattle.std.specs.Prelude.{◌≡◌, ◌≤◌, length, map as each, IfOk};
ghost use Rattle.std.specs.FinMap as fin;
ghost use Rattle.machine.specs.Code.{state_of, reply_value};
ghost use Rattle.machine.specs.Services.{alive_in, service_state, services_reply, tables_written};

use crate::Mem;
use crate::reply::{Reply, ServiceState};
use crate::state::State;
use addr_book::{Name, Weighted};
use choose_core::Limits;
use std::alloc::Global;

impl State {
    /// How much there is of each thing, and what there is of each service at a moment.
    pub(crate) fn services(&self, alloc: Global, limits: Limits, moment: u64) -> Mem<Reply>
        ensures { IfOk result
            (λ reply. reply_value reply ≡ services_reply limits (state_of self.now) moment) }
    {
        Ok(Reply::Services {
            changes: self.place,
            marks: self.marks.count(),
            namespaces: self.store.count() as u32,
            tables_written: self.tables_written(),
            services: self.listed(alloc, limits, moment)?,
        })
    }

    /// How many tables were created or put. A delete is not among them: it takes no version.
    fn tables_written(&self) -> u64
        ensures { result ≡ tables_written (state_of self.now) }
    {
        self.store.next_version().saturating_sub(1)
    }

    /// What there is of each service at a moment, in the order of the names.
    fn listed(&self, alloc: Global, limits: Limits, moment: u64) -> Mem<Vec<ServiceState>>
        ensures { IfOk result
            (λ listed. listed.items
            ≡ each (service_state limits (state_of self.now) moment)
            (fin.keys (state_of self.now).book.services)) }
    {
        let names = self.book.names(alloc)?;
        let mut listed = Vec::with_capacity(alloc, names.len())?;
        for name in names {
            listed.push(self.service(limits, moment, name))?;
        }
        Ok(listed)
    }

    /// What there is of a service at a moment.
    fn service(&self, limits: Limits, moment: u64, name: Name) -> ServiceState
        ensures { result ≡ service_state limits (state_of self.now) moment name }
    {
        match self.book.cluster(&name) {
            None => ServiceState {
                name,
                addresses: 0,
                alive: 0,
            },
            Some(list) => {
                let alive = self.alive(limits, moment, list);
                ServiceState {
                    name,
                    addresses: list.len() as u32,
                    alive,
                }
            }
        }
    }

    /// How many addresses of a list are alive at a moment.
    fn alive(&self, limits: Limits, moment: u64, list: &[Weighted]) -> u32
        requires { length list.now ≤ 1024 }
        ensures { result ≡ length (alive_in limits (state_of self.now) moment list.now) }
    {
        let mut alive = 0;
        for item in list {
            if !self.marks.is_dead(item.addr, moment, limits) {
                alive += 1;
            }
        }
        alive
    }
}
