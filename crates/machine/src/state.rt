//! The state: what a router knows at one place of its history.
ghost use Rattle.std.specs.Prelude.{◌≡◌, true};
ghost use Rattle.std.specs.FinMap as fin;
ghost use Rattle.addr_book.specs.declared.addr.Addr.{Addr};
ghost use Rattle.addr_book.specs.Book.{is_used};
ghost use Rattle.ns_store.specs.Store.{contents_of};
ghost use Rattle.machine.specs.Sound.{AreSoundSpaces, AreSoundSpaces-prop};

use crate::Mem;
use addr_book::Book;
use choose_core::Marks;
use ns_store::Store;
use std::alloc::Global;

/// What a router knows at one place of its history: its namespaces, its services, the marks of
/// their addresses, and how many changes it has accepted. Contracts see it as `state_of state`.
///
/// The table of each namespace is sound, and each marked address is one of a service.
pub struct State {
    pub(crate) store: Store,
    pub(crate) book: Book,
    pub(crate) marks: Marks,
    pub(crate) place: u64,
    ghost sound: { AreSoundSpaces (contents_of store).spaces } by { AreSoundSpaces-prop _ },
    ghost known: { (addr : Addr) → fin.contains_key marks addr ≡ true
        → is_used book.services addr ≡ true },
}

impl Drop for State {
    fn drop(self) {
        let State {
            store,
            book,
            marks,
            place: _,
        } = self;
        drop(store);
        drop(book);
        drop(marks);
    }
}

impl State {
    ghost use Rattle.std.specs.Prelude.{IfOk};
    ghost use Rattle.machine.specs.Code.{state_of};
    ghost use Rattle.machine.specs.State.{opening};

    /// The state in which nothing is there and nothing was changed. It sets room aside for the
    /// marks of all addresses that a book can have.
    pub fn start(alloc: Global) -> Mem<State>
        ensures { IfOk result (λ state. state_of state ≡ opening) }
    {
        Ok(State {
            store: Store::start(alloc)?,
            book: Book::start(alloc)?,
            marks: Marks::start(alloc)?,
            place: 0,
        })
    }

    /// An equal state, for what takes long to work out of one that changes meanwhile. The two share
    /// the namespaces and the services, which costs two counts; the marks are copied.
    pub fn shared(&self, alloc: Global) -> Mem<State>
        ensures { IfOk result (λ state. state_of state ≡ state_of self.now) }
    {
        Ok(State {
            store: self.store.shared()?,
            book: self.book.shared()?,
            marks: self.marks.copied(alloc)?,
            place: self.place,
        })
    }

    /// How many changes it has accepted.
    pub fn place(&self) -> u64
        ensures { result ≡ (state_of self.now).place }
    {
        self.place
    }

    /// Its namespaces.
    pub fn store(&self) -> &Store
        ensures { contents_of result.now ≡ (state_of self.now).store }
    {
        &self.store
    }

    /// Its services.
    pub fn book(&self) -> &Book
        ensures { result.now ≡ (state_of self.now).book }
    {
        &self.book
    }

    /// The marks of its addresses.
    pub fn marks(&self) -> &Marks
        ensures { result.now ≡ (state_of self.now).marks }
    {
        &self.marks
    }
}
