//! How the slots and the counts of the book's addresses change.
ghost use Rattle.std.specs.Prelude.{◌≡◌, ℕ, ◌+◌, ◌-◌, ◌^◌, ◌<◌, ◌&&◌, ◌==◌, IfOk, None};
ghost use Rattle.std.specs.Prelude.{if◌then◌else◌};
ghost use Rattle.std.specs.FinMap as map;
ghost use Rattle.addr_book.specs.declared.addr.Addr.{Addr};
ghost use Rattle.addr_book.specs.AddrList.{AreDistinct, has_addr, same_addr};
ghost use Rattle.addr_book.specs.Book.{newcomers};
ghost use Rattle.addr_book.specs.Uses.{count_at};

use crate::Mem;
use crate::addr::{Addr, Weighted};
use crate::addr_map::AddrMap;
use crate::slot_map::SlotMap;
use std::alloc::Global;

/// The counts with a service more for each address of a list.
pub(crate) fn count_in(uses: AddrMap, list: &[Weighted]) -> Mem<AddrMap>
    requires distinct { AreDistinct list.now }
    requires few { (addr : Addr) → count_at uses addr < 2 ^ 16 }
    ensures { IfOk result
        (λ counts. (addr : Addr)
        → count_at counts addr ≡ count_at uses addr + (if has_addr list.now addr then 1 else 0)) }
{
    let mut counts = uses;
    for item in list {
        let count = counts.get(item.addr).unwrap_or(0);
        counts = with_count(counts, item.addr, count + 1)?;
    }
    Ok(counts)
}

/// The counts with a service less for each address of a list.
pub(crate) fn count_out(uses: AddrMap, list: &[Weighted]) -> Mem<AddrMap>
    requires distinct { AreDistinct list.now }
    ensures { IfOk result
        (λ counts. (addr : Addr)
        → count_at counts addr ≡ count_at uses addr - (if has_addr list.now addr then 1 else 0)) }
{
    let mut counts = uses;
    for item in list {
        let count = counts.get(item.addr).unwrap_or(0);
        counts = with_count(counts, item.addr, count.saturating_sub(1))?;
    }
    Ok(counts)
}

/// The counts with this one for an address, which is not kept where it is 0.
fn with_count(counts: AddrMap, addr: Addr, count: u32) -> Mem<AddrMap>
    ensures { IfOk result
        (λ new. (other : Addr) → count_at new other
        ≡ (if same_addr other addr then count else count_at counts other)) }
{
    if count == 0 {
        return counts.without(addr);
    }
    counts.with(addr, count)
}

/// The slots without those of the addresses of a list that no service has.
pub(crate) fn release(slots: SlotMap, uses: &AddrMap, list: &[Weighted]) -> Mem<SlotMap>
    ensures { IfOk result
        (λ kept. (addr : Addr) → map.get kept addr
        ≡ (if has_addr list.now addr && (count_at uses.now addr == 0) then None
        else map.get slots addr)) }
{
    let mut kept = slots;
    for item in list {
        if uses.get(item.addr).unwrap_or(0) == 0 {
            kept = kept.without(item.addr)?;
        }
    }
    Ok(kept)
}

/// The addresses of a list that have no slot, in the list's order.
pub(crate) fn without_slot(alloc: Global, slots: &SlotMap, list: &[Weighted]) -> Mem<Vec<Weighted>>
    ensures { IfOk result (λ news. news.items ≡ newcomers slots.now list.now) }
{
    let mut news = Vec::new(alloc);
    for item in list {
        if slots.get(item.addr).is_none() {
            news.push(*item)?;
        }
    }
    Ok(news)
}
