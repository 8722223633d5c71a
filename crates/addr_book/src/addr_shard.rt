//! A part of the numbers of addresses.
ghost use Rattle.std.specs.Prelude.{◌≡◌, OnOk, OnErr, IfOk, IfErr};
ghost use Rattle.std.specs.FinMap as map;
ghost use Rattle.addr_book.specs.AddrList.{addr_cmp};
ghost use Rattle.addr_book.specs.AddrShard.{numbered};
ghost use Rattle.addr_book.specs.Sorted.{map_of, IsInOrder, IsPlace, IsGap};

use crate::Mem;
use crate::addr::Addr;
use std::alloc::Global;
use std::marker::Model;

/// For how many addresses more a copy has room.
const SPARE: usize = 8;

/// An address and its number.
#[derive(Clone, Copy)]
struct Numbered {
    addr: Addr,
    number: u32,
}

/// A number for each of some addresses: one shard of an [`AddrMap`](crate::addr_map::AddrMap).
/// Contracts see a finite map.
///
/// They lie in the order of the addresses. A look-up takes about `log n` comparisons; a new
/// address, and one that goes, moves those behind it; a copy takes one piece of memory.
pub(crate) struct AddrShard {
    items: Vec<Numbered>,
}

impl Drop for AddrShard {
    fn drop(self) {
        let AddrShard { items } = self;
        drop(items);
    }
}

impl Model for AddrShard {
    ghost use Rattle.std.specs.Prelude.{ℕ};
    ghost use Rattle.std.specs.Coded.{coded_ℕ};
    ghost use Rattle.std.specs.FinMap as map;
    ghost use Rattle.addr_book.specs.AddrList.{addr_cmp, addr_code};
    ghost use Rattle.addr_book.specs.AddrShard.{numbered};
    ghost use Rattle.addr_book.specs.Sorted.{map_of, IsInOrder};

    ghost Value = { map.FinMap addr_cmp ℕ };

    ghost coded = { map.code addr_code coded_ℕ };

    ghost view = { λ s. map_of numbered s.items.items };

    ghost invariant = { λ s. IsInOrder addr_cmp numbered s.items.items };
}

impl AddrShard {
    /// The map with no address. It takes no memory.
    pub(crate) fn new(alloc: Global) -> AddrShard
        ensures { result ≡ map.empty }
    {
        AddrShard {
            items: Vec::new(alloc),
        }
    }

    /// The number of an address, if it has one.
    pub(crate) fn get(&self, addr: Addr) -> Option<u32>
        ensures { result ≡ map.get self.now addr }
    {
        match search(self.items.as_slice(), addr) {
            Ok(at) => Some(self.items[at].number),
            Err(_) => None,
        }
    }

    /// Puts a number at an address. An `Err` changes nothing.
    pub(crate) fn insert(&mut self, addr: Addr, number: u32) -> Mem<()>
        ensures ok { OnOk result (self.new ≡ map.insert self.old addr number) }
        ensures err { OnErr result (self.new ≡ self.old) }
    {
        put(&mut self.items, addr, number)
    }

    /// Takes an address away.
    pub(crate) fn remove(&mut self, addr: Addr)
        ensures { self.new ≡ map.remove self.old addr }
    {
        if let Ok(at) = search(self.items.as_slice(), addr) {
            self.items.remove(at);
        }
    }
}

impl Clone for AddrShard {
    ghost is_clone = { λ shard clone. clone ≡ shard };

    fn clone(&self) -> Mem<AddrShard> {
        let alloc = *self.items.allocator();
        let mut items = Vec::with_capacity(alloc, self.items.len().saturating_add(SPARE))?;
        items.extend_from_slice(self.items.as_slice())?;
        Ok(AddrShard { items })
    }
}

/// The place of an address, or the place where it would go.
fn search(items: &[Numbered], addr: Addr) -> Result<usize, usize>
    requires { IsInOrder addr_cmp numbered items.now }
    ensures found { IfOk result (IsPlace addr_cmp numbered items.now addr) }
    ensures absent { IfErr result (IsGap addr_cmp numbered items.now addr) }
{
    items.binary_search_by(|item| item.addr.cmp(&addr))
}

/// Puts a number at an address. An `Err` changes nothing.
fn put(items: &mut Vec<Numbered>, addr: Addr, number: u32) -> Mem<()>
    requires { IsInOrder addr_cmp numbered items.old.items }
    ensures sorted { IsInOrder addr_cmp numbered items.new.items }
    ensures ok { OnOk result
        (map_of numbered items.new.items
        ≡ map.insert (map_of {R = addr_cmp} numbered items.old.items) addr number) }
    ensures err { OnErr result (items.new.items ≡ items.old.items) }
{
    match search(items.as_slice(), addr) {
        Ok(at) => items[at] = Numbered { addr, number },
        Err(at) => items.insert(at, Numbered { addr, number })?,
    }
    Ok(())
}
