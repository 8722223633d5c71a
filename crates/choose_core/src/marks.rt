//! The marks of all addresses that have failures.
ghost use Rattle.std.specs.Prelude.{◌≡◌, ◌<◌, ◌≤◌, true, false, IfOk, IfSome, IsTrue};
ghost use Rattle.std.specs.Prelude.{if◌then◌else◌};
ghost use Rattle.std.specs.FinMap as fin;
ghost use Rattle.addr_book.specs.declared.addr.Addr.{Addr};
ghost use Rattle.addr_book.specs.Book.{is_used};
ghost use Rattle.choose_core.specs.declared.mark.Limits.{Limits};
ghost use Rattle.choose_core.specs.Mark.{is_dead_mark, marked};
ghost use Rattle.choose_core.specs.Marks.{no_marks, mark_at, with_mark};

use crate::Mem;
use crate::mark::{Limits, Mark};
use crate::marked::{Marked, search, search_near, set_nowhere, set_there};
use addr_book::{Addr, Book};
use std::alloc::Global;
use std::marker::Model;

/// The most addresses with failures.
pub const MOST_MARKS: usize = 8192;

/// The marks of addresses. Contracts see a finite map of the addresses that have failures; any
/// other address has [`Mark::NONE`].
///
/// They lie in the order of their addresses, in room for 8,192 of them that is set aside at the
/// start (192 KiB). A look-up takes about `log n` comparisons for `n` addresses that have failures,
/// and none where no address has any, which is most of the time. A report that is the first failure
/// of an address, or the first success after failures, moves the marks behind its own.
///
/// A moment is kept beside them from which on none of them leaves its address out, so a choice at
/// that moment or later looks none up. It only moves on where a failure leaves an address out.
pub struct Marks {
    items: Vec<Marked>,
    until: u64,
}

impl Drop for Marks {
    fn drop(self) {
        let Marks { items, until: _ } = self;
        drop(items);
    }
}

impl Model for Marks {
    ghost use Rattle.std.specs.Vec.{vec_capacity};
    ghost use Rattle.choose_core.specs.Marks.{MarkMap, marks_code};

    ghost Value = { MarkMap };

    ghost coded = { marks_code };

    ghost use Rattle.choose_core.specs.Marked.{marks_of, AreKept};

    ghost view = { λ m. marks_of m.items.items };

    ghost invariant = { λ m. AreKept m.items.items (vec_capacity m.items) m.until };
}

impl Marks {
    /// No marks, with room for 8,192.
    pub fn start(alloc: Global) -> Mem<Marks>
        ensures { IfOk result (λ marks. marks ≡ no_marks) }
    {
        Ok(Marks {
            items: Vec::with_capacity(alloc, MOST_MARKS)?,
            until: 0,
        })
    }

    /// The same marks once more, in room of their own for 8,192.
    pub fn copied(&self, alloc: Global) -> Mem<Marks>
        ensures { IfOk result (λ marks. marks ≡ self.now) }
    {
        let mut items = Vec::with_capacity(alloc, MOST_MARKS)?;
        items.extend_from_slice(self.items.as_slice())?;
        Ok(Marks {
            items,
            until: self.until,
        })
    }

    /// How many addresses have a count above 0.
    pub fn count(&self) -> u32
        ensures count { result ≡ fin.len self.now }
        ensures counted { (addr : Addr) → IfSome (fin.get self.now addr) (λ mark. 1 ≤ mark.count) }
        ensures limit { result ≤ 8192 }
    {
        self.items.len() as u32
    }

    /// The mark of an address.
    pub fn mark(&self, addr: Addr) -> Mark
        ensures { result ≡ mark_at self.now addr }
    {
        match search(self.items.as_slice(), addr) {
            Ok(at) => self.items[at].mark,
            Err(_) => Mark::NONE,
        }
    }

    /// Whether an address is dead at a moment.
    pub fn is_dead(&self, addr: Addr, moment: u64, limits: Limits) -> bool
        ensures { result ≡ is_dead_mark (mark_at self.now addr) moment limits }
    {
        self.mark(addr).is_dead(moment, limits)
    }

    /// Whether an address is dead at a moment, and near which place it was looked for. Where the
    /// place of the address looked up before is given, one that comes soon behind is found at once.
    pub(crate) fn is_dead_near(
        &self,
        addr: Addr,
        near: usize,
        moment: u64,
        limits: Limits,
    ) -> (bool, usize)
        ensures { result.0 ≡ is_dead_mark (mark_at self.now addr) moment limits }
    {
        match search_near(self.items.as_slice(), addr, near) {
            Ok(at) => (self.items[at].mark.is_dead(moment, limits), at),
            Err(at) => (Mark::NONE.is_dead(moment, limits), at),
        }
    }

    /// Whether it is known, without a look-up, that no address is dead at a moment.
    pub(crate) fn are_over(&self, moment: u64) -> bool
        ensures { IsTrue result → (addr : Addr) (limits : Limits)
            → is_dead_mark (mark_at self.now addr) moment limits ≡ false }
    {
        self.until <= moment
    }

    /// Takes a report on an address in, good or failing, and gives the mark that it leaves
    /// ([`Mark::after`]). It takes no memory.
    pub fn report(&mut self, addr: Addr, good: bool, moment: u64, limits: Limits) -> Mark
        requires failures { 1 ≤ limits.failures }
        requires room { fin.len (fin.remove self.old addr) < 8192 }
        ensures mark { result ≡ marked (mark_at self.old addr) good moment limits }
        ensures marks { self.new
            ≡ with_mark self.old addr (marked (mark_at self.old addr) good moment limits) }
    {
        let mark = self.mark(addr).after(good, moment, limits);
        self.set(addr, mark);
        mark
    }

    /// Drops the marks of addresses that no service of the book has. It takes no memory, and looks
    /// each marked address up in the book.
    pub fn keep(&mut self, book: &Book)
        ensures { self.new ≡ fin.retain_keys self.old (is_used book.now.services) }
    {
        self.items.retain(|marked| book.slot(marked.addr).is_some());
    }

    /// Gives an address a mark.
    fn set(&mut self, addr: Addr, mark: Mark)
        requires { fin.len (fin.remove self.old addr) < 8192 }
        ensures { self.new ≡ with_mark self.old addr mark }
    {
        self.until = self.until.max(mark.until);
        match search(self.items.as_slice(), addr) {
            Ok(at) => set_there(&mut self.items, at, addr, mark),
            Err(at) => set_nowhere(&mut self.items, at, addr, mark),
        }
    }
}
