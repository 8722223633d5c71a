//! Slots by addresses.
ghost use Rattle.std.specs.Prelude.{◌≡◌, ℕ, ◌+◌, ◌<◌, ◌≤◌, length, true, IfOk, None, Some};
ghost use Rattle.std.specs.FinMap as map;
ghost use Rattle.addr_book.specs.declared.addr.Addr.{Addr};
ghost use Rattle.addr_book.specs.AddrList.{AreDistinct, has_addr};
ghost use Rattle.addr_book.specs.Book.{with_newcomers};

use crate::Mem;
use crate::addr::{Addr, Weighted};
use crate::addr_map::AddrMap;
use crate::slot_set::SlotSet;
use std::alloc::Global;
use std::marker::Model;

/// A slot below 8,192 for each of some addresses, no two the same. Contracts see a finite map.
pub(crate) struct SlotMap {
    slots: AddrMap,
    taken: SlotSet,
    count: usize,
}

impl Drop for SlotMap {
    fn drop(self) {
        let SlotMap {
            slots,
            taken,
            count: _,
        } = self;
        drop(slots);
        drop(taken);
    }
}

impl Model for SlotMap {
    ghost use Rattle.addr_book.specs.AddrList.{addr_code};
    ghost use Rattle.std.specs.Coded.{coded_ℕ};
    ghost use Rattle.std.specs.FinMap.{code};
    ghost use Rattle.addr_book.specs.Book.{Slots};
    ghost use Rattle.addr_book.specs.SlotMap.{IsSlotMap};

    ghost Value = { Slots };

    ghost coded = { code addr_code coded_ℕ };

    ghost view = { λ m. m.slots };

    ghost invariant = { λ m. IsSlotMap m.slots m.taken m.count };
}

impl SlotMap {
    /// No address has a slot.
    pub(crate) fn new(alloc: Global) -> Mem<SlotMap>
        ensures { IfOk result (λ slots. slots ≡ map.empty) }
    {
        Ok(SlotMap {
            slots: AddrMap::new(alloc)?,
            taken: SlotSet::new(alloc)?,
            count: 0,
        })
    }

    /// How many addresses have one.
    pub(crate) fn len(&self) -> usize
        ensures { result ≡ map.len self.now }
    {
        self.count
    }

    /// The slot of an address, if it has one.
    pub(crate) fn get(&self, addr: Addr) -> Option<u32>
        ensures { result ≡ map.get self.now addr }
    {
        self.slots.get(addr)
    }

    /// This map with a free slot for an address that has none.
    fn with(self, addr: Addr, slot: u32) -> Mem<SlotMap>
        requires new { map.get self addr ≡ None }
        requires free { (other : Addr) → map.get self other ≡ Some slot → ⊥ }
        requires below { slot < 8192 }
        requires room { map.len self < 8192 }
        ensures { IfOk result (λ slots. slots ≡ map.insert self addr slot) }
    {
        let SlotMap {
            slots,
            mut taken,
            count,
        } = self;
        let slots = slots.with(addr, slot)?;
        taken.put(slot);
        Ok(SlotMap {
            slots,
            taken,
            count: count + 1,
        })
    }

    /// This map without an address, whose slot is free then.
    pub(crate) fn without(self, addr: Addr) -> Mem<SlotMap>
        ensures { IfOk result (λ slots. slots ≡ map.remove self addr) }
    {
        let Some(slot) = self.get(addr) else {
            return Ok(self);
        };
        let SlotMap {
            slots,
            mut taken,
            count,
        } = self;
        let slots = slots.without(addr)?;
        taken.take(slot);
        Ok(SlotMap {
            slots,
            taken,
            count: count.saturating_sub(1),
        })
    }

    /// This map with the lowest free slots for some addresses that have none, in their order.
    pub(crate) fn with_lowest(self, news: &[Weighted]) -> Mem<SlotMap>
        requires few { map.len self + length news.now ≤ 8192 }
        requires distinct { AreDistinct news.now }
        requires new { (addr : Addr) → has_addr news.now addr ≡ true → map.get self addr ≡ None }
        ensures { IfOk result (λ slots. slots ≡ with_newcomers self news.now) }
    {
        let free = self.taken.lowest_open(news.len())?;
        let mut slots = self;
        for (at, item) in news.iter().enumerate() {
            if let Some(slot) = free.get(at) {
                slots = slots.with(item.addr, *slot)?;
            }
        }
        Ok(slots)
    }

    /// Another map with these slots.
    pub(crate) fn copied(&self) -> Mem<SlotMap>
        ensures { IfOk result (λ copy. copy ≡ self.now) }
    {
        Ok(SlotMap {
            slots: self.slots.copied()?,
            taken: self.taken.copied()?,
            count: self.count,
        })
    }
}
