//! The book: which services there are, which addresses each has, and which slot each address has.
ghost use Rattle.std.specs.Prelude.{◌≡◌, ◌≤◌, ◌<◌, ℕ, IfOk, IfErr, IfSome, OnOk, OnErr, IsSome};
ghost use Rattle.std.specs.Prelude.{MatchOption, option_map, is_some, None, Some, ◌≢◌, true, false};
ghost use Rattle.std.specs.FinMap as map;
ghost use Rattle.std.specs.FinMap.{contains_key};
ghost use Rattle.addr_book.specs.declared.addr.Addr.{Addr};
ghost use Rattle.addr_book.specs.AddrList.{IsAddrList};
ghost use Rattle.addr_book.specs.Book.{after_set, after_drop, is_used};
ghost use Rattle.addr_book.specs.Laws.{HasOwnSlots};
ghost use Rattle.addr_book.specs.BookFault.{set_refusal, drop_refusal};
ghost use Rattle.addr_book.specs.Seated.{IsSeated};

use crate::Mem;
use crate::addr::{Addr, Weighted};
use crate::addr_list::AddrList;
use crate::fault::BookFault;
use crate::name::Name;
use crate::parts::Parts;
use std::alloc::Global;
use std::marker::Model;
use std::sync::Arc;

/// The book maps at most 4,096 services to their lists of addresses, and each address in a list to
/// a slot, a number below 8,192 that no other address has. Contracts see both maps.
///
/// A change is prepared first, which copies what it needs and may be refused, and is then made by
/// [`absorb`](Book::absorb), which copies nothing. An address keeps its slot for as long as some
/// service has it; a new one takes the lowest slot that is free.
pub struct Book {
    parts: Arc<Parts>,
}

impl Drop for Book {
    fn drop(self) {
        let Book { parts } = self;
        drop(parts);
    }
}

impl Model for Book {
    ghost use Rattle.std.specs.Arc.{arc_value};
    ghost use Rattle.addr_book.specs.Book.{Contents, contents_code};

    ghost Value = { Contents };

    ghost coded = { contents_code };

    ghost use Rattle.addr_book.specs.Parts.{contents_of, ArePartsSound};

    ghost view = { λ b. contents_of (arc_value b.parts) };

    ghost invariant = { λ b. ArePartsSound (arc_value b.parts) };
}

/// A book with a change made, prepared for [`Book::absorb`]. Contracts see what that book has.
pub struct ReadyBook {
    next: Book,
}

impl Drop for ReadyBook {
    fn drop(self) {
        let ReadyBook { next } = self;
        drop(next);
    }
}

impl Model for ReadyBook {
    ghost use Rattle.addr_book.specs.Book.{Contents, contents_code};

    ghost Value = { Contents };

    ghost coded = { contents_code };

    ghost view = { λ r. r.next };
}

impl Book {
    ghost use Rattle.addr_book.specs.Book.{no_contents};

    /// The book without services.
    pub fn start(alloc: Global) -> Mem<Book>
        ensures { IfOk result (λ book. book ≡ no_contents) }
    {
        Ok(Book {
            parts: Arc::new(alloc, Parts::new(alloc)?)?,
        })
    }

    /// How many services it has.
    pub fn count(&self) -> usize
        ensures count { result ≡ map.len self.now.services }
        ensures limit { result ≤ 4096 }
    {
        self.parts.services.len()
    }

    /// The addresses of a service with their weights, in its list's order. `None` where the service
    /// is not there.
    ///
    /// It takes one look-up by a hash, and a few comparisons of names among those that share a
    /// part.
    pub fn cluster(&self, service: &Name) -> Option<&[Weighted]>
        ensures cluster { option_map (λ list. list.now) result
            ≡ map.get self.now.services service.now }
        ensures rule { IfSome result (λ list. IsAddrList list.now) }
    {
        match self.parts.services.get(service) {
            Some(list) => Some(list.items()),
            None => None,
        }
    }

    /// The names of all services, in the order of their bytes.
    ///
    /// It takes memory for as many names as there are services, at most 4,096, which share their
    /// bytes with those of the book, and sorts them: about `n log n` comparisons of names.
    pub fn names(&self, alloc: Global) -> Mem<Vec<Name>>
        ensures { IfOk result (λ names. names.items ≡ map.keys self.now.services) }
    {
        self.parts.services.names(alloc)
    }

    /// The service with this name's text. `None` where it is not there, as where the text is no
    /// name.
    ///
    /// It takes one look-up, and no memory.
    pub(crate) fn service(&self, text: &[u8]) -> Option<&Name>
        ensures { MatchOption result (contains_key self.now.services text.now ≡ false)
            (λ name. (name.now ≡ text.now) × (contains_key self.now.services text.now ≡ true)) }
    {
        self.parts.services.find(text)
    }

    /// The slot of an address. `None` where no service has it.
    ///
    /// It takes one look-up by a hash, and about `log n` comparisons for the `n` addresses that
    /// share a part, some 630 in a full book where the hash spreads them evenly.
    pub fn slot(&self, addr: Addr) -> Option<u32>
        ensures slot { result ≡ map.get self.now.slots addr }
        ensures below { IfSome result (λ slot. slot < 8192) }
        ensures alone { (other : Addr) → IsSome result → map.get self.now.slots other ≡ result
            → other ≡ addr }
        ensures used { is_some result ≡ is_used self.now.services addr }
    {
        self.parts.seats.slots.get(addr)
    }

    /// No two addresses share a slot.
    pub(crate) fn has_own_slots(&self)
        ensures { HasOwnSlots self.now }
    {
        let _parts = &self.parts;
    }

    /// Exactly the addresses of the services have slots, at most 8,192.
    pub(crate) fn is_seated(&self)
        ensures { IsSeated self.now }
    {
        let _parts = &self.parts;
    }

    /// The same services and the same slots once more. The two share all, so it costs a count that
    /// goes up by one.
    pub fn shared(&self) -> Mem<Book>
        ensures { IfOk result (λ book. book ≡ self.now) }
    {
        Ok(Book {
            parts: Arc::try_clone(&self.parts)?,
        })
    }

    /// Prepares the book with these addresses for the service, in the place of those that it has,
    /// if it is there. What is prepared does not change this book. [`BookFault::TooManyServices`]
    /// comes before [`BookFault::BookFull`], and [`BookFault::Missing`] never.
    ///
    /// It does work in the addresses of the old and of the new list, and not in the whole book. The
    /// book is kept in 87 parts: it shares them, copies those that the service and these addresses
    /// stand in, each once and in one piece, and takes about `log n` comparisons in a part of `n`
    /// for each address. Addresses that lie near each other stand in one part. An address of the
    /// front that the two lists have in common is only looked up. New slots are found by 64 at a
    /// time.
    pub fn prepare_set(
        &self,
        alloc: Global,
        service: &Name,
        list: &AddrList,
    ) -> Result<ReadyBook, BookFault>
        ensures book { IfOk result (λ ready. ready ≡ after_set self.now service.now list.now) }
        ensures taken { OnOk result (set_refusal self.now service.now list.now ≡ None) }
        ensures refused { IfErr result (λ fault. fault ≢ BookFault.OutOfMemory
            → set_refusal self.now service.now list.now ≡ Some fault) }
    {
        let parts = self.parts.with_service(alloc, service, list)?;
        Ok(ReadyBook {
            next: Book {
                parts: Arc::new(alloc, parts)?,
            },
        })
    }

    /// Prepares the book without the service, where it is there. What is prepared does not change
    /// this book.
    ///
    /// It does work in the addresses of the service, as [`prepare_set`](Book::prepare_set) does.
    pub fn prepare_drop(&self, alloc: Global, service: &Name) -> Result<ReadyBook, BookFault>
        ensures book { IfOk result (λ ready. ready ≡ after_drop self.now service.now) }
        ensures taken { OnOk result (drop_refusal self.now service.now ≡ None) }
        ensures refused { IfErr result (λ fault. fault ≢ BookFault.OutOfMemory
            → drop_refusal self.now service.now ≡ Some fault) }
    {
        let parts = self.parts.without_service(service)?;
        Ok(ReadyBook {
            next: Book {
                parts: Arc::new(alloc, parts)?,
            },
        })
    }

    /// Makes this the prepared book. The two then share their parts. An `Err` changes nothing.
    pub fn absorb(&mut self, ready: &ReadyBook) -> Mem<()>
        ensures ok { OnOk result (self.new ≡ ready.now) }
        ensures err { OnErr result (self.new ≡ self.old) }
    {
        self.parts = Arc::try_clone(&ready.next.parts)?;
        Ok(())
    }
}
