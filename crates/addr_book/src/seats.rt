//! The slots of the book's addresses, and how many services have each.
ghost use Rattle.std.specs.Prelude.{◌≡◌, ℕ, ◌+◌, ◌-◌, ◌^◌, ◌<◌, ◌≤◌, ◌&&◌, ◌==◌, IfOk, None, true};
ghost use Rattle.std.specs.Prelude.{if◌then◌else◌, length};
ghost use Rattle.std.specs.FinMap as map;
ghost use Rattle.addr_book.specs.declared.addr.Addr.{Addr};
ghost use Rattle.addr_book.specs.AddrList.{AreDistinct, has_addr};
ghost use Rattle.addr_book.specs.Book.{with_newcomers};
ghost use Rattle.addr_book.specs.Uses.{count_at};

use crate::Mem;
use crate::addr::Weighted;
use crate::addr_map::AddrMap;
use crate::front::common_front;
use crate::slot_map::SlotMap;
use crate::slots::{count_in, count_out, release};
use std::alloc::Global;

/// The slot of each address, and the number of services that have it.
pub(crate) struct Seats {
    pub(crate) slots: SlotMap,
    pub(crate) uses: AddrMap,
}

impl Drop for Seats {
    fn drop(self) {
        let Seats { slots, uses } = self;
        drop(slots);
        drop(uses);
    }
}

impl Seats {
    /// No address has a slot.
    pub(crate) fn new(alloc: Global) -> Mem<Seats>
        ensures slots { IfOk result (λ seats. seats.slots ≡ map.empty) }
        ensures uses { IfOk result (λ seats. seats.uses ≡ map.empty) }
    {
        Ok(Seats {
            slots: SlotMap::new(alloc)?,
            uses: AddrMap::new(alloc)?,
        })
    }

    /// The seats where one service has other addresses than before, without slots for those that
    /// are new. Those that no service has any more give their slots up. It looks at no address of
    /// the front that the two lists have in common.
    pub(crate) fn moved(&self, before: &[Weighted], after: &[Weighted]) -> Mem<Seats>
        requires before { AreDistinct before.now }
        requires after { AreDistinct after.now }
        requires used { (addr : Addr) → has_addr before.now addr ≡ true
            → 1 ≤ count_at self.now.uses addr }
        requires few { (addr : Addr) → count_at self.now.uses addr < 2 ^ 16 }
        ensures uses { IfOk result (λ seats. (addr : Addr) → count_at seats.uses addr
            ≡ count_at self.now.uses addr + (if has_addr after.now addr then 1 else 0)
            - (if has_addr before.now addr then 1 else 0)) }
        ensures slots { IfOk result (λ seats. (addr : Addr) → map.get seats.slots addr
            ≡ (if has_addr before.now addr && (count_at seats.uses addr == 0) then None
            else map.get self.now.slots addr)) }
    {
        let front = common_front(before, after);
        let gone = &before[front..];
        let more = count_in(self.uses.copied()?, &after[front..])?;
        let uses = count_out(more, gone)?;
        let slots = release(self.slots.copied()?, &uses, gone)?;
        Ok(Seats { slots, uses })
    }

    /// These seats, with the lowest free slots for these new addresses, in their order.
    pub(crate) fn seated(self, news: Vec<Weighted>) -> Mem<Seats>
        requires few { map.len self.slots + length news.items ≤ 8192 }
        requires distinct { AreDistinct news.items }
        requires new { (addr : Addr) → has_addr news.items addr ≡ true
            → map.get self.slots addr ≡ None }
        ensures slots { IfOk result (λ seats. seats.slots ≡ with_newcomers self.slots news.items) }
        ensures uses { IfOk result (λ seats. seats.uses ≡ self.uses) }
    {
        let Seats { slots, uses } = self;
        let slots = slots.with_lowest(news.as_slice())?;
        Ok(Seats { slots, uses })
    }
}
