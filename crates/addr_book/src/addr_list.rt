//! Lists of addresses, no two alike, each with a weight.
ghost use Rattle.std.specs.Prelude.{◌≡◌, ◌≤◌, ◌↔◌, length, IfOk, IsTrue};
ghost use Rattle.addr_book.specs.AddrList.{AreDistinct, HaveWeights, IsAddrList, first_places};
ghost use Rattle.addr_book.specs.AddrList.{has_addr};

use crate::Mem;
use crate::addr::Weighted;
use std::alloc::Global;
use std::collections::BTreeSet;
use std::marker::Model;

/// The most addresses of a list.
pub const MOST_ADDRS: usize = 1024;

/// At most 1,024 addresses, no two alike, each with a weight of 1 to 999,999,999,999 millionths, in
/// an order that counts. Contracts see the list.
pub struct AddrList {
    items: Vec<Weighted>,
}

impl Drop for AddrList {
    fn drop(self) {
        let AddrList { items } = self;
        drop(items);
    }
}

impl Model for AddrList {
    ghost use Rattle.std.specs.Prelude.{List};
    ghost use Rattle.addr_book.specs.declared.addr.Weighted.{Weighted};
    ghost use Rattle.addr_book.specs.AddrList.{IsAddrList};

    ghost Value = { List Weighted };

    ghost view = { λ l. l.items.items };

    ghost invariant = { λ l. IsAddrList l.items.items };
}

impl AddrList {
    /// These addresses with their weights, in their order. It takes no memory.
    pub fn of(items: Vec<Weighted>) -> AddrList
        requires few { length items.items ≤ 1024 }
        requires distinct { AreDistinct items.items }
        requires weights { HaveWeights items.items }
        ensures { result ≡ items.items }
    {
        AddrList { items }
    }

    /// These addresses in their order, each kept once, at its first place and with the weight that
    /// it has there.
    ///
    /// For `n` addresses it takes about `n log n` comparisons.
    pub fn distinct(alloc: Global, given: &[Weighted]) -> Mem<AddrList>
        requires few { length given.now ≤ 1024 }
        requires weights { HaveWeights given.now }
        ensures { IfOk result (λ list. list ≡ first_places given.now) }
    {
        let mut seen = BTreeSet::new(alloc);
        let mut items = Vec::with_capacity(alloc, given.len())?;
        for item in given {
            if seen.insert(item.addr)? {
                items.push(*item)?;
            }
        }
        Ok(AddrList { items })
    }

    /// The addresses with their weights, in order.
    pub fn items(&self) -> &[Weighted]
        ensures items { result.now ≡ self.now }
        ensures rule { IsAddrList self.now }
    {
        self.items.as_slice()
    }
}

impl Clone for AddrList {
    ghost is_clone = { λ list clone. clone ≡ list };

    fn clone(&self) -> Mem<AddrList> {
        Ok(AddrList {
            items: Vec::from_slice(*self.items.allocator(), self.items.as_slice())?,
        })
    }
}
