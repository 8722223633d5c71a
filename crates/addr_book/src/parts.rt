//! The parts of a book, and how they change.
ghost use Rattle.std.specs.Prelude.{◌≡◌, ◌≢◌, ◌≤◌, IfOk, IfErr, OnOk, None, Some};
ghost use Rattle.std.specs.FinMap as map;
ghost use Rattle.addr_book.specs.AddrList.{AreDistinct};
ghost use Rattle.addr_book.specs.Book.{after_set, after_drop, no_contents};
ghost use Rattle.addr_book.specs.BookFault.{has_no_room, set_refusal, drop_refusal};
ghost use Rattle.addr_book.specs.Uses.{list_of};

use crate::Mem;
use crate::addr::Weighted;
use crate::addr_list::AddrList;
use crate::fault::BookFault;
use crate::name::Name;
use crate::seats::Seats;
use crate::services::Services;
use crate::slots::without_slot;
use std::alloc::Global;

/// The most services of a book.
pub const MOST_SERVICES: usize = 4096;

/// The most distinct addresses of a book, and of slots.
pub const MOST_SLOTS: usize = 8192;

/// The parts of a book, which its copies share.
pub(crate) struct Parts {
    pub(crate) services: Services,
    pub(crate) seats: Seats,
}

impl Drop for Parts {
    fn drop(self) {
        let Parts { services, seats } = self;
        drop(services);
        drop(seats);
    }
}

impl Parts {
    ghost use Rattle.addr_book.specs.Parts.{contents_of, ArePartsSound};

    /// No services.
    pub(crate) fn new(alloc: Global) -> Mem<Parts>
        ensures book { IfOk result (λ parts. contents_of parts ≡ no_contents) }
        ensures sound { IfOk result (λ parts. ArePartsSound parts) }
    {
        Ok(Parts {
            services: Services::new(alloc)?,
            seats: Seats::new(alloc)?,
        })
    }

    /// The addresses of a service, none where it is not there.
    fn addrs(&self, service: &Name) -> &[Weighted]
        ensures addrs { result.now ≡ list_of (map.get self.now.services service.now) }
        ensures distinct { AreDistinct result.now }
    {
        match self.services.get(service) {
            Some(list) => list.items(),
            None => &[],
        }
    }

    /// Whether the service is new and no more may come.
    fn has_no_room(&self, service: &Name) -> bool
        ensures { result ≡ has_no_room (contents_of self.now) service.now }
    {
        self.services.get(service).is_none() && self.services.len() >= MOST_SERVICES
    }

    /// The parts with these addresses for the service.
    pub(crate) fn with_service(
        &self,
        alloc: Global,
        service: &Name,
        list: &AddrList,
    ) -> Result<Parts, BookFault>
        requires { ArePartsSound self.now }
        ensures sound { IfOk result (λ parts. ArePartsSound parts) }
        ensures book { IfOk result
            (λ parts. contents_of parts ≡ after_set (contents_of self.now) service.now list.now) }
        ensures taken { OnOk result
            (set_refusal (contents_of self.now) service.now list.now ≡ None) }
        ensures refused { IfErr result
            (λ fault. fault ≢ BookFault.OutOfMemory
            → set_refusal (contents_of self.now) service.now list.now ≡ Some fault) }
    {
        if self.has_no_room(service) {
            return Err(BookFault::TooManyServices);
        }
        let addrs = list.items();
        let moved = self.seats.moved(self.addrs(service), addrs)?;
        let news = without_slot(alloc, &moved.slots, addrs)?;
        let count = moved.slots.len() + news.len();
        if count > MOST_SLOTS {
            drop(moved);
            drop(news);
            return Err(BookFault::BookFull(count as u32));
        }
        let seats = moved.seated(news)?;
        let services = self.services.copied_with(service, list)?;
        Ok(Parts { services, seats })
    }

    /// The parts without the service.
    pub(crate) fn without_service(&self, service: &Name) -> Result<Parts, BookFault>
        requires { ArePartsSound self.now }
        ensures sound { IfOk result (λ parts. ArePartsSound parts) }
        ensures book { IfOk result
            (λ parts. contents_of parts ≡ after_drop (contents_of self.now) service.now) }
        ensures taken { OnOk result (drop_refusal (contents_of self.now) service.now ≡ None) }
        ensures refused { IfErr result
            (λ fault. fault ≢ BookFault.OutOfMemory
            → drop_refusal (contents_of self.now) service.now ≡ Some fault) }
    {
        let Some(list) = self.services.get(service) else {
            return Err(BookFault::Missing);
        };
        let seats = self.seats.moved(list.items(), &[])?;
        let services = self.services.copied_without(service)?;
        Ok(Parts { services, seats })
    }
}
